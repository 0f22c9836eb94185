ghost use Rattle.std.specs.Prelude.{◌≡◌, ◌<◌, true, List, OnOk, Some, length, slice_get};
ghost use Rattle.jh_form.specs.Tree.{FieldTree};
ghost use Rattle.jh_arena.specs.table.Entries.{are_fields};
ghost use Rattle.jh_arena.specs.table.Growth.{Extends};
ghost use Rattle.jh_arena.specs.table.Nodes.{nodes};
ghost use Rattle.jh_reach.specs.Axioms.{BackboneTree};
ghost use Rattle.jh_reach.specs.Based.{IsBaseAt};
ghost use Rattle.jh_reach.specs.Standing.{AreFields};
ghost use Rattle.jh_fca.specs.local_form.Chains.{has_axioms, same_list};
ghost use Rattle.jh_local_form.specs.field_lists.Leading.{IsBackbone, AreBackbones, has_list, with_backbone};

use jh_arena::table::Table;
use jh_name::NoMemory;
use jh_reach::Base;

/// A list of fields along which formulas reach, by its number in the table, and what it came from.
#[derive(Clone, Copy)]
pub(crate) struct Backbone {
    pub(crate) list: usize,
    pub(crate) base: Option<Base>,
}

/// The backbone at a place.
pub(crate) fn backbone_at(made: &[Backbone], place: usize) -> Backbone
    requires { place < length made.now }
    ensures { slice_get made.now place ≡ Some result }
{
    made[place]
}

/// Whether the list of a backbone has these fields.
fn has_fields(table: &Table, backbone: Backbone, fields: &[usize]) -> bool
    requires backbone { (b : BackboneTree) × IsBackbone table.now backbone b }
    requires fields { are_fields (nodes table.now) fields.now ≡ true }
    ensures { (b : BackboneTree) (fs : List FieldTree) → IsBackbone table.now backbone b → AreFields table.now fields.now fs → result ≡ same_list b.fields fs }
{
    table.nodes_differ();
    table.list_at(backbone.list) == fields
}

/// Whether a list of fields is that of one of these.
fn is_known(table: &Table, made: &[Backbone], fields: &[usize]) -> bool
    requires made { (bs : List BackboneTree) × AreBackbones table.now made.now bs }
    requires fields { are_fields (nodes table.now) fields.now ≡ true }
    ensures { (bs : List BackboneTree) (fs : List FieldTree) → AreBackbones table.now made.now bs → AreFields table.now fields.now fs → result ≡ has_list bs fs }
{
    for place in 0..made.len() {
        if has_fields(table, backbone_at(made, place), fields) {
            return true;
        }
    }
    false
}

/// Adds a backbone, where its list is new.
pub(crate) fn add_backbone(
    table: &mut Table,
    fields: &[usize],
    base: Option<Base>,
    made: &mut Vec<Backbone>,
) -> Result<(), NoMemory>
    requires fields { are_fields (nodes table.old) fields.now ≡ true }
    requires made { (bs : List BackboneTree) × AreBackbones table.old made.old.items bs }
    ensures made { OnOk result ((bs : List BackboneTree) (b : BackboneTree) → AreBackbones table.old made.old.items bs → AreFields table.old fields.now b.fields → IsBaseAt table.old base b.base → has_axioms b.fields ≡ true → AreBackbones table.new made.new.items (with_backbone bs b)) }
    ensures grows { Extends table.old table.new }
{
    if is_known(table, made.as_slice(), fields) {
        return Ok(());
    }
    let list = table.list(fields)?;
    made.push(Backbone { list, base })?;
    Ok(())
}
