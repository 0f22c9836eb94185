ghost use Rattle.std.specs.Prelude.{◌≡◌, ◌+◌, ◌++◌, ◌∷◌, [], ◌<◌, ℕ, List, true, IfOk, OnOk, IfSome, Some, None, length, nat_eq, slice_get};
ghost use Rattle.indexmap.specs.IndexSet.{insert_key};
ghost use Rattle.jh_form.specs.Tree.{ValueTree, of_field, free_field};
ghost use Rattle.jh_arena.specs.table.Entries.{is_field, the_field};
ghost use Rattle.jh_arena.specs.table.Growth.{Extends};
ghost use Rattle.jh_arena.specs.table.Nodes.{nodes};
ghost use Rattle.jh_fca.specs.local_form.Named.{text_under};
ghost use Rattle.jh_local_form.specs.updates.Updating.{AreUpdates, IsNaming, HasInner};

use indexmap::IndexSet;
use jh_arena::makers::free_field;
use jh_arena::table::{Shape, Table};
use jh_name::{Name, NoMemory, name};
use jh_normal_forms::parts::NodeList;
use std::alloc::Global;
use std::marker::Model;

/// Updates and the names that stand for them: the name at a place for the update at that place, with its turn that much beyond
/// the first. Contracts see the nodes of both, and the turn.
#[derive(Drop)]
pub struct Naming {
    updates: IndexSet<usize>,
    names: Vec<usize>,
    first: u32,
}

impl Model for Naming {
    ghost use Rattle.jh_local_form.specs.updates.Updating.{Names};

    ghost Value = { Names };

    ghost view = { λ n. record { updates = n.updates.keys; names = n.names.items; first = n.first } };
}

impl Naming {
    /// No names, the first of which is to have this turn.
    fn new(alloc: Global, first: u32) -> Naming
        ensures { result ≡ record { updates = []; names = []; first = first } }
    {
        Naming {
            updates: IndexSet::new(alloc),
            names: Vec::new(alloc),
            first,
        }
    }

    /// How many names there are.
    pub fn len(&self) -> usize
        ensures { result ≡ length self.now.names }
    {
        self.names.len()
    }

    /// The name at a place.
    pub(crate) fn name_at(&self, place: usize) -> usize
        requires { place < length self.now.names }
        ensures { slice_get self.now.names place ≡ Some result }
    {
        self.names[place]
    }

    /// The update at a place.
    pub(crate) fn update_at(&self, place: usize) -> usize
        requires { place < length self.now.updates }
        ensures { slice_get self.now.updates place ≡ Some result }
    {
        self.updates[place]
    }

    /// The place of an update, or none where it isn't there.
    pub(crate) fn place_of(&self, node: usize) -> Option<usize>
        ensures found { IfSome result (λ place. slice_get self.now.updates place ≡ Some node) }
        ensures missed { result ≡ None → (place : ℕ) → slice_get self.now.updates place ≡ Some node → ⊥ }
    {
        self.updates.get_index_of(&node)
    }

    /// Notes the name of an update that has none yet.
    fn note(&mut self, update: usize, named: usize) -> Result<(), NoMemory>
        ensures { OnOk result (self.new ≡ record { updates = insert_key nat_eq self.old.updates update; names = self.old.names ++ named ∷ []; first = self.old.first }) }
    {
        self.updates.insert(update)?;
        self.names.push(named)?;
        Ok(())
    }

    /// The turn of the next name; want of memory beyond u32.
    fn next_turn(&self) -> Result<u32, NoMemory>
        ensures { IfOk result (λ turn. turn ≡ self.now.first + length self.now.names) }
    {
        let Ok(count) = u32::try_from(self.names.len()) else {
            return Err(NoMemory);
        };
        match self.first.checked_add(count) {
            Some(turn) => Ok(turn),
            None => Err(NoMemory),
        }
    }
}

/// The field that an update updates.
fn inner_of(table: &Table, field: usize) -> Option<usize>
    requires { is_field (slice_get (nodes table.now) field) ≡ true }
    ensures { HasInner table.now field result }
{
    match table.shape(field) {
        Shape::Update(inner, _, _) => Some(inner),
        _ => None,
    }
}

/// The name under all updates of a field.
fn name_under(table: &Table, field: usize) -> &Name
    requires { is_field (slice_get (nodes table.now) field) ≡ true }
    ensures { result.now.text ≡ text_under (the_field (slice_get (nodes table.now) field)) }
{
    let mut under = field;
    while let Some(inner) = inner_of(table, under) {
        under = inner;
    }
    match table.shape(under) {
        Shape::FreeField(number) => table.name_at(number),
        _ => unreachable!(),
    }
}

/// The node of the name of this turn for an update.
fn name_for(table: &mut Table, update: usize, turn: u32) -> Result<usize, NoMemory>
    requires { is_field (slice_get (nodes table.old) update) ≡ true }
    ensures node { IfOk result (λ made. slice_get (nodes table.new) made ≡ Some (of_field (free_field (record { text = text_under (the_field (slice_get (nodes table.old) update)); turn = turn })))) }
    ensures grows { Extends table.old table.new }
{
    let made = name(table.alloc(), name_under(table, update).text(), turn)?;
    free_field(table, &made)
}

/// Adds the name of an update.
fn add_name(table: &mut Table, naming: &mut Naming, update: usize) -> Result<(), NoMemory>
    requires { is_field (slice_get (nodes table.old) update) ≡ true }
    ensures updates { OnOk result (naming.new.updates ≡ insert_key nat_eq naming.old.updates update) }
    ensures names { OnOk result ((node : ℕ) × (naming.new.names ≡ naming.old.names ++ node ∷ []) × (slice_get (nodes table.new) node ≡ Some (of_field (free_field (record { text = text_under (the_field (slice_get (nodes table.old) update)); turn = naming.old.first + length naming.old.names }))))) }
    ensures first { OnOk result (naming.new.first ≡ naming.old.first) }
    ensures grows { Extends table.old table.new }
{
    let turn = naming.next_turn()?;
    let node = name_for(table, update, turn)?;
    naming.note(update, node)
}

/// The names of updates: each has the text of the name under all updates of its field, and the turn of the first that is given and
/// so many more as there are updates before it. What the table held stays in its place, after any answer. The answer is want of
/// memory where a turn leaves u32.
pub fn names(table: &mut Table, updates: &NodeList, first: u32) -> Result<Naming, NoMemory>
    requires updates { (us : List ValueTree) × AreUpdates (nodes table.old) updates.now us }
    ensures names { IfOk result (λ made. (us : List ValueTree) → AreUpdates (nodes table.old) updates.now us → IsNaming table.new made us) }
    ensures first { IfOk result (λ made. made.first ≡ first) }
    ensures grows { Extends table.old table.new }
{
    let mut naming = Naming::new(table.alloc(), first);
    for place in 0..updates.len() {
        let update = updates.at(place);
        add_name(table, &mut naming, update)?;
    }
    Ok(naming)
}
