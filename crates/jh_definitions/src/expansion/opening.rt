ghost use Rattle.std.specs.Prelude.{◌≡◌, ◌≤◌, ℕ, List, [], Some, None, length, slice_get, IfOk};
ghost use Rattle.jh_ast.specs.Bare.{form_tree};
ghost use Rattle.jh_arena.specs.table.Growth.{Extends};
ghost use Rattle.jh_arena.specs.table.Nodes.{nodes};
ghost use Rattle.jh_rules.specs.Names.{declared_in};
ghost use Rattle.jh_symbols.specs.scopes.Lookings.{declared_by, scope_by};
ghost use Rattle.jh_vars.specs.Opened.{all_definitions};
ghost use Rattle.jh_resolution.specs.Meant.{AreHeld};
ghost use Rattle.jh_symbols.specs.member_numbers.Numbering.{number_in};
ghost use Rattle.jh_definitions.specs.expansion.Opening.{source_of, AreDefinitions, AreInOrder, AreMeant, IsAmong, value_of};

use jh_arena::table::Table;
use jh_ast::{Class, SpecTree, Word};
use jh_name::{Kind, NoMemory};
use jh_resolution::{Context, Spot, resolved};
use jh_symbols::member_numbers::Numbers;
use jh_symbols::scopes::{Lookups, ScopeTable};

/// A variable with its definition: its class, its word, whether there is one for each object, and the body.
#[derive(Clone, Copy)]
pub struct Definition<'a> {
    pub class: usize,
    pub word: &'a Word,
    pub of_objects: bool,
    pub body: &'a SpecTree,
}

/// The node of what a definition says, over what is known of other variables.
fn open_next(
    table: &mut Table,
    context: &Context,
    outside: &ScopeTable,
    definition: &Definition,
) -> Result<usize, NoMemory>
    requires held { AreHeld (nodes table.old) context.now.meanings.now }
    requires outside { (x : List ℕ) → (scope_by outside.now).local x ≡ None }
    ensures node { IfOk result (λ made. slice_get (nodes table.new) made ≡ Some (value_of (nodes table.new) context.now definition.now)) }
    ensures grows { Extends table.old table.new }
{
    resolved(
        table,
        context,
        &Spot {
            class: definition.class,
            scope: outside,
            result: Kind::Obj,
            bound: &[],
            this_bound: definition.of_objects,
        },
        definition.body,
    )
}

/// What the variables of a list of definitions stand for, and no others, where each definition reads only those
/// before it. `outside` is a scope without parameters and locals.
pub fn opened(
    table: &mut Table,
    lookups: &Lookups,
    classes: &[Class],
    outside: &ScopeTable,
    definitions: &[Definition],
) -> Result<Numbers, NoMemory>
    requires declared { declared_by lookups.now ≡ declared_in (source_of classes.now) }
    requires outside { (x : List ℕ) → (scope_by outside.now).local x ≡ None }
    requires definitions { AreDefinitions (source_of classes.now) definitions.now }
    requires ordered { AreInOrder (source_of classes.now) definitions.now }
    requires few { length definitions.now ≤ all_definitions (source_of classes.now) }
    ensures held { IfOk result (λ made. AreHeld (nodes table.new) made) }
    ensures only { IfOk result (λ made. (c : ℕ) (x : List ℕ) (n : ℕ) → number_in made c x ≡ Some n → IsAmong definitions.now c x) }
    ensures means { IfOk result (λ made. AreMeant (source_of classes.now) (nodes table.new) made definitions.now) }
    ensures grows { Extends table.old table.new }
{
    let alloc = table.alloc();
    let mut made = Numbers::none(alloc, classes.len())?;
    for definition in definitions {
        let context = Context {
            lookups,
            classes,
            meanings: &made,
        };
        let node = open_next(table, &context, outside, definition)?;
        made.put(alloc, definition.class, definition.word.text.text(), node)?;
    }
    Ok(made)
}
