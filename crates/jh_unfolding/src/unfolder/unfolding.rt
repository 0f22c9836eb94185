ghost use Rattle.std.specs.Prelude.{◌≡◌, ◌<◌, ℕ, Some, None, length, slice_get, IfOk, IfErr, IfSome};
ghost use Rattle.jh_ast.specs.Bare.{program_tree};
ghost use Rattle.jh_form.specs.Bare.{value_tree};
ghost use Rattle.jh_arena.specs.table.Nodes.{nodes};
ghost use Rattle.jh_rules.specs.Names.{◌then◌};
ghost use Rattle.jh_name.specs.declared.place.Place.{Place};
ghost use Rattle.jh_rules.specs.Breaks.{Breaks};
ghost use Rattle.jh_rules.specs.Names.{declared_in};
ghost use Rattle.jh_symbols.specs.scopes.Lookings.{declared_by};
ghost use Rattle.jh_definitions.specs.expansion.Opening.{source_of};
ghost use Rattle.jh_vars.specs.Opened.{opened};
ghost use Rattle.jh_vars.specs.Reading.{IsAcyclic};
ghost use Rattle.jh_unfolding.specs.unfolder.Noted.{node_at};
ghost use Rattle.jh_unfolding.specs.unfolder.Holding.{AreOpened, IsCause, IsNamed};

use crate::unfolder::faults::{VarsError, VarsRefused};
use crate::unfolder::formulas::Gathered;
use crate::unfolder::gathering::gather;
use crate::unfolder::places::Places;
use jh_arena::table::Table;
use jh_ast::{Class, Word};
use jh_definitions::dependency_order::{Opening, in_order};
use jh_export::value;
use jh_form::Value;
use jh_name::NoMemory;
use jh_symbols::declarations::lookups_of;
use jh_symbols::scopes::Lookups;
use jh_type::checker::Typed;
use std::alloc::Global;
use std::marker::Model;

/// A program that breaks no type rule and has no cyclic variable, with the value of each of its formulas as a node
/// of one table.
#[derive(Drop)]
pub struct Unfolded {
    typed: Typed,
    table: Table,
    places: Places,
}

impl Model for Unfolded {
    ghost use Rattle.jh_ast.specs.Bare.{program_tree};
    ghost use Rattle.std.specs.Coded.{codes};
    ghost use Rattle.jh_ast.specs.contracts.expr.Expr as e;
    ghost use Rattle.jh_ast.specs.contracts.spec.SpecTree as s;
    ghost use Rattle.jh_ast.specs.contracts.stmt.Stmt as z;
    ghost use Rattle.jh_unfolding.specs.unfolder.Holding.{Whole, AreOpened};

    ghost Value = { Whole };

    ghost coded = { Prim.hlevel (codes, e.the_row.coded, s.the_row.coded, z.the_row.coded) };

    ghost view = { λ u. record { program = u.typed; listing = u.table; places = u.places } };

    ghost invariant = { λ u. AreOpened (program_tree u.typed) u.table u.places };
}

/// The parts of an unfolded program: the program, the table, and the node of each formula at the place of its number.
#[derive(Drop)]
pub struct Parts {
    pub typed: Typed,
    pub table: Table,
    pub formulas: Vec<Option<usize>>,
}

impl Unfolded {
    /// The program.
    pub fn typed(&self) -> &Typed
        ensures { result.now ≡ self.now.program }
    {
        &self.typed
    }

    /// The table in which the formulas stand.
    pub fn table(&self) -> &Table
        ensures { result.now ≡ self.now.listing }
    {
        &self.table
    }

    /// The node of a formula by its number, where the program has such a formula.
    pub fn node(&self, number: u32) -> Option<usize>
        ensures value { (result then slice_get (nodes self.now.listing)) ≡ opened (program_tree self.now.program) number }
        ensures inside { IfSome result (λ node. node < length (nodes self.now.listing)) }
    {
        self.places.place(number)
    }

    /// The program, its table, and the node of each formula at the place of its number.
    pub fn into_parts(self, alloc: Global) -> Result<Parts, NoMemory>
        ensures typed { IfOk result (λ made. made.typed ≡ self.program) }
        ensures value { IfOk result (λ made. (n : ℕ) → (node_at made.formulas.items n then slice_get (nodes made.table)) ≡ opened (program_tree self.program) n) }
        ensures inside { IfOk result (λ made. (n k : ℕ) → node_at made.formulas.items n ≡ Some k → k < length (nodes made.table)) }
    {
        let formulas = self.places.list(alloc)?;
        let Unfolded {
            typed,
            table,
            places: _places,
        } = self;
        Ok(Parts {
            typed,
            table,
            formulas,
        })
    }

    /// The value of a formula of the program. It is in proportion to the tree, in which shared parts stand as often
    /// as they are used: where that has more than 2^26 nodes, or nests deeper than 10,001 levels, the answer is want
    /// of memory at once.
    pub fn formula(&self, number: u32) -> Result<Value, NoMemory>
        requires { opened (program_tree self.now.program) number ≡ None → ⊥ }
        ensures { IfOk result (λ made. opened (program_tree self.now.program) number ≡ Some (value_tree made)) }
    {
        match self.node(number) {
            None => unreachable!(),
            Some(node) => value(self.table(), node),
        }
    }
}

/// The cyclic variable of a name, as a refusal.
fn cyclic(alloc: Global, word: &Word) -> VarsError
    ensures { IsNamed word.now result }
{
    match word.text.copy(alloc) {
        Ok(name) => VarsError::CyclicDef(name),
        Err(NoMemory) => VarsError::Memory,
    }
}

/// The formulas of classes that break no type rule.
fn gather_over(alloc: Global, lookups: &Lookups, classes: &[Class]) -> Result<Gathered, VarsError>
    requires declared { declared_by lookups.now ≡ declared_in (source_of classes.now) }
    requires typed { (rule : ℕ) (place : Place) → Breaks (source_of classes.now) rule place → ⊥ }
    ensures opened { IfOk result (λ made. AreOpened (source_of classes.now) made.table made.places) }
    ensures acyclic { IfOk result (λ made. IsAcyclic (source_of classes.now)) }
    ensures cause { IfErr result (IsCause (source_of classes.now)) }
{
    let opening = in_order(alloc, lookups, classes)?;
    match opening {
        Opening::Cyclic(word) => Err(cyclic(alloc, word)),
        Opening::Ordered(definitions) => {
            let made = gather(alloc, lookups, classes, definitions.as_slice())?;
            Ok(made)
        }
    }
}

/// The formulas of a program.
fn gathered(alloc: Global, typed: &Typed) -> Result<Gathered, VarsError>
    ensures opened { IfOk result (λ made. AreOpened (program_tree typed.now) made.table made.places) }
    ensures acyclic { IfOk result (λ made. IsAcyclic (program_tree typed.now)) }
    ensures cause { IfErr result (IsCause (program_tree typed.now)) }
{
    let program = typed.program();
    let lookups = lookups_of(alloc, program)?;
    gather_over(alloc, &lookups, program.classes.items())
}

/// Resolves the names of all formulas of a program and opens all definitions. A program is refused with its first
/// cyclic variable in the text, or for want of memory.
pub fn unfold(alloc: Global, typed: Typed) -> Result<Unfolded, VarsRefused>
    ensures same { IfOk result (λ made. made.program ≡ typed) }
    ensures acyclic { IfOk result (λ made. IsAcyclic (program_tree typed)) }
    ensures handed_back { IfErr result (λ refused. refused.typed ≡ typed) }
    ensures cause { IfErr result (λ refused. IsCause (program_tree typed) refused.fault) }
{
    match gathered(alloc, &typed) {
        Ok(gathered) => {
            let Gathered { table, places } = gathered;
            Ok(Unfolded {
                typed,
                table,
                places,
            })
        }
        Err(fault) => Err(VarsRefused { fault, typed }),
    }
}
