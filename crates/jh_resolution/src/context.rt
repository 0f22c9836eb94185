ghost use Rattle.std.specs.Prelude.{◌≡◌, IfOk, Some, slice_get};
ghost use Rattle.jh_arena.specs.table.Growth.{Extends};
ghost use Rattle.jh_arena.specs.table.Nodes.{nodes};
ghost use Rattle.jh_resolution.specs.Meant.{meaning_in, AreHeld};

use jh_arena::table::{Shape, Table};
use jh_ast::{Class, Word};
use jh_name::{Kind, NoMemory};
use jh_symbols::member_numbers::Numbers;
use jh_symbols::scopes::{Lookups, ScopeTable};

/// What the names of formulas are resolved by: what the program declares, its classes, and what its defined
/// variables stand for.
#[derive(Clone, Copy)]
pub struct Context<'a> {
    pub lookups: &'a Lookups,
    pub classes: &'a [Class],
    pub meanings: &'a Numbers,
}

impl Context<'_> {
    /// The node of what a defined variable stands for, which is null where nothing is known.
    pub fn meaning(&self, table: &mut Table, class: usize, text: &str) -> Result<usize, NoMemory>
        requires held { AreHeld (nodes table.old) self.now.meanings.now }
        ensures node { IfOk result (λ made. slice_get (nodes table.new) made ≡ Some (meaning_in (nodes table.new) self.now.meanings.now class text.now)) }
        ensures grows { Extends table.old table.new }
    {
        match self.meanings.number(class, text) {
            None => table.make(Shape::Null),
            Some(node) => Ok(node),
        }
    }
}

/// Where a formula stands: the class, the parameters and locals in scope, the kind of `result`, the bound
/// names, the outermost first, and whether `this` is the variable of a binder round the whole.
#[derive(Clone, Copy)]
pub struct Spot<'a> {
    pub class: usize,
    pub scope: &'a ScopeTable,
    pub result: Kind,
    pub bound: &'a [&'a Word],
    pub this_bound: bool,
}
