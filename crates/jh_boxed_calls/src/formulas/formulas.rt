ghost use Rattle.std.specs.Prelude.{◌≡◌, ◌<◌, ◌≤◌, ◌↔◌, IsOk, ℕ, List, [], ◌∷◌, true, false, IfOk, Some, length, slice_get};
ghost use Rattle.jh_form.specs.Tree.{of_truth};
ghost use Rattle.jh_form.specs.Bare.{value_tree};
ghost use Rattle.jh_form.specs.Sorts.{tree_sort};
ghost use Rattle.jh_form.specs.Closed.{is_closed_term, is_closed_value};
ghost use Rattle.jh_form.specs.Passing.{formula_passes, value_passes};
ghost use Rattle.jh_form.specs.Meaning.{Interp, InUniverse, truth, term_value, datum};
ghost use Rattle.jh_form.specs.Assigned.{assigned};
ghost use Rattle.jh_boxed.specs.Sizes.{value_depth};
ghost use Rattle.jh_boxed_operations.specs.substitution.Opened.{opened};
ghost use Rattle.jh_boxed_operations.specs.substitution.Substituted.{substituted, stands_only_at};
ghost use Rattle.jh_boxed_operations.specs.comparison.Inside.{SameIn, AreInside};
ghost use Rattle.jh_arena.specs.table.Entries.{Listing, is_object, is_truth, the_value, the_object, the_truth};
ghost use Rattle.jh_arena.specs.table.Growth.{Extends};
ghost use Rattle.jh_arena.specs.table.Nodes.{nodes};
ghost use Rattle.jh_import.specs.entering.Entered.{AddsParts, IsKept};
ghost use Rattle.jh_export.specs.Room.{IsSmall};
ghost use Rattle.jh_substitution.specs.rewriting.Rewritten.{rewritten_formula};
ghost use Rattle.jh_substitution.specs.rewriting.Exchanging.{exchanging};

use jh_arena::table::Table;
use jh_boxed::NameTest;
use jh_boxed_operations::substitution::FormFault;
use jh_form::Value;
use jh_name::{Name, NoMemory};

/// What is done with formulas that are nodes of a table. After any answer the table holds what it held,
/// at the same places. The time is in proportion to the nodes that are met, each counted once for each
/// number of binders passed on the way to it, however often it stands in the tree.
pub trait Formulas {
    ghost listing: { Self → Listing };

    /// The place of a value. Where the value's tree is listed already, that is its place, and no node is
    /// made, and else only for parts of it.
    fn enter(&mut self, value: &Value) -> Result<usize, NoMemory>
        ensures node { IfOk result (λ node. slice_get (nodes (listing self.new)) node ≡ Some (value_tree value.now)) }
        ensures grows { Extends (listing self.old) (listing self.new) }
        ensures only { AddsParts (listing self.old) (listing self.new) (value_tree value.now) }
        ensures kept { IsKept (listing self.old) (listing self.new) (value_tree value.now) };

    /// The value of a node. It is in proportion to the tree, in which shared parts stand as often as they
    /// are used: where that has more than 2^26 nodes, or nests deeper than 10,001 levels, the answer is
    /// want of memory at once.
    fn value(&self, node: usize) -> Result<Value, NoMemory>
        requires { node < length (nodes (listing self.now)) }
        ensures tree { IfOk result (λ made. value_tree made ≡ the_value (slice_get (nodes (listing self.now)) node)) }
        ensures small { IfOk result (λ made. IsSmall (the_value (slice_get (nodes (listing self.now)) node))) };

    /// The formula with a value, which has no loose bound variables, for a free name: see `subst` of boxed
    /// formulas. It is an error where the name stands in the formula at another sort than the value's.
    fn subst(&mut self, node: usize, name: &Name, value: usize) -> Result<usize, FormFault>
        requires formula { is_truth (slice_get (nodes (listing self.old)) node) ≡ true }
        requires value { value < length (nodes (listing self.old)) }
        requires closed { is_closed_value (the_value (slice_get (nodes (listing self.old)) value)) 0 ≡ true }
        ensures tree { IfOk result (λ made. slice_get (nodes (listing self.new)) made ≡ Some (of_truth (substituted (the_truth (slice_get (nodes (listing self.old)) node)) name.now (the_value (slice_get (nodes (listing self.old)) value))))) }
        ensures meaning { IfOk result (λ made. (m : Interp) (env : List ℕ) → truth (the_truth (slice_get (nodes (listing self.new)) made)) m env ≡ truth (the_truth (slice_get (nodes (listing self.old)) node)) (assigned m name.now (datum (the_value (slice_get (nodes (listing self.old)) value)) m [])) env) }
        ensures ill_sorted { value_depth (the_value (slice_get (nodes (listing self.old)) node)) ≤ 10001 → ((result ≡ Err FormFault.IllSorted) ↔ (formula_passes (the_truth (slice_get (nodes (listing self.old)) node)) (stands_only_at name.now (tree_sort (the_value (slice_get (nodes (listing self.old)) value)))) ≡ false)) }
        ensures shallow { IfOk result (λ made. value_depth (the_value (slice_get (nodes (listing self.old)) node)) ≤ 10001) }
        ensures grows { Extends (listing self.old) (listing self.new) };

    /// The body of a binder with a term, which has no loose bound variables, for the binder's own
    /// variable: see `open` of boxed formulas.
    fn open(&mut self, body: usize, with: usize) -> Result<usize, NoMemory>
        requires body { is_truth (slice_get (nodes (listing self.old)) body) ≡ true }
        requires with { is_object (slice_get (nodes (listing self.old)) with) ≡ true }
        requires closed { is_closed_term (the_object (slice_get (nodes (listing self.old)) with)) 0 ≡ true }
        ensures tree { IfOk result (λ made. slice_get (nodes (listing self.new)) made ≡ Some (of_truth (opened (the_truth (slice_get (nodes (listing self.old)) body)) (the_object (slice_get (nodes (listing self.old)) with))))) }
        ensures meaning { IfOk result (λ made. (m : Interp) (env : List ℕ) → truth (the_truth (slice_get (nodes (listing self.new)) made)) m env ≡ truth (the_truth (slice_get (nodes (listing self.old)) body)) m (term_value (the_object (slice_get (nodes (listing self.old)) with)) m [] ∷ env)) }
        ensures grows { Extends (listing self.old) (listing self.new) };

    /// The formula in which each part that is the node `old` is exchanged for the node `new`, which is of
    /// the same sort. Neither has loose bound variables.
    fn exchange(&mut self, formula: usize, old: usize, new: usize) -> Result<usize, NoMemory>
        requires formula { is_truth (slice_get (nodes (listing self.old)) formula) ≡ true }
        requires old { old < length (nodes (listing self.old)) }
        requires new { new < length (nodes (listing self.old)) }
        requires sort { tree_sort (the_value (slice_get (nodes (listing self.old)) new)) ≡ tree_sort (the_value (slice_get (nodes (listing self.old)) old)) }
        requires closed_old { is_closed_value (the_value (slice_get (nodes (listing self.old)) old)) 0 ≡ true }
        requires closed_new { is_closed_value (the_value (slice_get (nodes (listing self.old)) new)) 0 ≡ true }
        ensures tree { IfOk result (λ made. slice_get (nodes (listing self.new)) made ≡ Some (of_truth (rewritten_formula (the_truth (slice_get (nodes (listing self.old)) formula)) (exchanging (the_value (slice_get (nodes (listing self.old)) old)) (the_value (slice_get (nodes (listing self.old)) new))) 0))) }
        ensures meaning { IfOk result (λ made. (m : Interp) (e : List ℕ) → InUniverse m → AreInside m.last e → SameIn m.last (datum (the_value (slice_get (nodes (listing self.old)) old)) m []) (datum (the_value (slice_get (nodes (listing self.old)) new)) m []) → truth (the_truth (slice_get (nodes (listing self.new)) made)) m e ≡ truth (the_truth (slice_get (nodes (listing self.old)) formula)) m e) }
        ensures grows { Extends (listing self.old) (listing self.new) };

    /// Whether each free name in the tree of a node passes the test at the sort at which it stands. Names
    /// in labels are no free names.
    fn names<T: NameTest>(&self, node: usize, test: &T) -> Result<bool, NoMemory>
        requires { node < length (nodes (listing self.now)) }
        ensures passes { IfOk result (λ passes. passes ≡ value_passes (the_value (slice_get (nodes (listing self.now)) node)) (T.test test.now)) }
        ensures answers { value_depth (the_value (slice_get (nodes (listing self.now)) node)) ≤ 10001 → IsOk result };
}

impl Formulas for Table {
    ghost listing = { λ t. t };

    fn enter(&mut self, value: &Value) -> Result<usize, NoMemory> {
        jh_import::entering::enter(self, value)
    }

    fn value(&self, node: usize) -> Result<Value, NoMemory> {
        jh_export::value(self, node)
    }

    fn subst(&mut self, node: usize, name: &Name, value: usize) -> Result<usize, FormFault> {
        jh_substitution::rewriting::subst(self, node, name, value)
    }

    fn open(&mut self, body: usize, with: usize) -> Result<usize, NoMemory> {
        jh_substitution::rewriting::open(self, body, with)
    }

    fn exchange(&mut self, formula: usize, old: usize, new: usize) -> Result<usize, NoMemory> {
        jh_substitution::rewriting::exchange(self, formula, old, new)
    }

    fn names<T: NameTest>(&self, node: usize, test: &T) -> Result<bool, NoMemory> {
        jh_substitution::rewriting::names(self, node, test)
    }
}
