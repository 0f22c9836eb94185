#![tactic(auto, using(jh_arena::proofs::table::Listed::growth_steps), unfolding(jh_ast::specs::Bare::class_part))]

ghost use Rattle.std.specs.Prelude.{◌≡◌, ◌<◌, IfOk, Some, length, slice_get};
ghost use Rattle.jh_ast.specs.Bare.{class_part};
ghost use Rattle.jh_ast.specs.Programs.{ProgramTree};
ghost use Rattle.jh_name.specs.declared.place.Sort.TheVariants as sort;
ghost use Rattle.jh_form.specs.Sorts.{tree_sort, same_sort};
ghost use Rattle.jh_form.specs.Tree.{of_truth};
ghost use Rattle.jh_form.specs.Tree as t;
ghost use Rattle.jh_arena.specs.table.Entries.{the_value};
ghost use Rattle.jh_arena.specs.table.Growth.{Extends};
ghost use Rattle.jh_arena.specs.table.Nodes.{nodes};
ghost use Rattle.jh_vars.specs.Opened as opened;
ghost use Rattle.jh_vars.specs.Resolved.{as_truth, own};

use jh_arena::makers::{bound, for_all, free_set, implication, member, truth};
use jh_arena::table::Table;
use jh_ast::Class;
use jh_name::{NoMemory, Sort, name};

/// Whether a node is a formula.
fn is_formula(table: &Table, node: usize) -> bool
    requires { node < length (nodes table.now) }
    ensures { result ≡ same_sort sort.Bool (tree_sort (the_value (slice_get (nodes table.now) node))) }
{
    Sort::Bool == table.sort(node)
}

/// The node itself where it is a formula, and else the formula that is true.
fn as_formula(table: &mut Table, node: usize) -> Result<usize, NoMemory>
    requires { node < length (nodes table.old) }
    ensures node { IfOk result (λ made. slice_get (nodes table.new) made ≡ Some (of_truth (as_truth (the_value (slice_get (nodes table.old) node))))) }
    ensures grows { Extends table.old table.new }
{
    if is_formula(table, node) {
        Ok(node)
    } else {
        truth(table)
    }
}

/// The set of the objects of a class.
fn class_set(table: &mut Table, text: &str) -> Result<usize, NoMemory>
    ensures node { IfOk result (λ made. slice_get (nodes table.new) made ≡ Some (t.of_set (t.free_set (own text.now 0)))) }
    ensures grows { Extends table.old table.new }
{
    let name = name(table.alloc(), text, 0)?;
    free_set(table, &name)
}

/// That the variable of the next binder is an object of a class.
fn of_class(table: &mut Table, text: &str) -> Result<usize, NoMemory>
    ensures node { IfOk result (λ made. slice_get (nodes table.new) made ≡ Some (of_truth (t.member (t.bound 0) (t.free_set (own text.now 0))))) }
    ensures grows { Extends table.old table.new }
{
    let set = class_set(table, text)?;
    let variable = bound(table, 0)?;
    member(table, variable, set)
}

/// What is so of the variable of the next binder where it is an object of a class.
fn of_object(table: &mut Table, text: &str, body: usize) -> Result<usize, NoMemory>
    requires { body < length (nodes table.old) }
    ensures node { IfOk result (λ made. slice_get (nodes table.new) made ≡ Some (of_truth (t.implies (t.member (t.bound 0) (t.free_set (own text.now 0))) (as_truth (the_value (slice_get (nodes table.old) body)))))) }
    ensures grows { Extends table.old table.new }
{
    let formula = as_formula(table, body)?;
    let member = of_class(table, text)?;
    implication(table, member, formula)
}

/// What is so of every object of a class, as the variable of a binder.
pub fn of_every_object(table: &mut Table, class: &Class, body: usize) -> Result<usize, NoMemory>
    requires { body < length (nodes table.old) }
    ensures node { IfOk result (λ made. (p : ProgramTree) → slice_get (nodes table.new) made ≡ Some (opened.of_every_object p (class_part class.now) (as_truth (the_value (slice_get (nodes table.old) body))))) }
    ensures grows { Extends table.old table.new }
{
    let inner = of_object(table, class.name.text.text(), body)?;
    for_all(table, inner)
}
