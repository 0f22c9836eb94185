ghost use Rattle.std.specs.Prelude.{◌≡◌, ◌-◌, ◌^◌, min, IfOk, Bool};
ghost use Rattle.jh_name.specs.declared.naming.Name.{Name};
ghost use Rattle.jh_name.specs.declared.place.Sort.{Sort};
ghost use Rattle.jh_form.specs.Passing.{value_passes};
ghost use Rattle.jh_form.specs.Tree.{ValueTree};
ghost use Rattle.jh_form.specs.Bare.{term_tree, int_tree, set_tree, field_tree, formula_tree};
ghost use Rattle.jh_boxed.specs.Mapped.{LeafMap, mapped_value};
ghost use Rattle.jh_boxed.specs.Sizes.{value_size, value_depth};

use jh_form::{FieldTerm, Formula, IntTerm, SetTerm, Term};
use jh_name::{Name, NoMemory, Sort};
use std::alloc::Global;

/// What stands for each leaf of a tree: for a free name of each sort, and for a bound variable. The
/// depth is the number of binders that were passed on the way to the leaf.
pub trait Leaves {
    ghost leaves: { Self → LeafMap };

    fn object(&self, alloc: Global, name: &Name, depth: u32) -> Result<Term, NoMemory>
        ensures { IfOk result (λ made. term_tree made ≡ (leaves self.now).object_at name.now depth) };

    fn integer(&self, alloc: Global, name: &Name, depth: u32) -> Result<IntTerm, NoMemory>
        ensures { IfOk result (λ made. int_tree made ≡ (leaves self.now).number_at name.now depth) };

    fn truth(&self, alloc: Global, name: &Name, depth: u32) -> Result<Formula, NoMemory>
        ensures { IfOk result (λ made. formula_tree made ≡ (leaves self.now).truth_at name.now depth) };

    fn set(&self, alloc: Global, name: &Name, depth: u32) -> Result<SetTerm, NoMemory>
        ensures { IfOk result (λ made. set_tree made ≡ (leaves self.now).set_at name.now depth) };

    fn field(&self, alloc: Global, name: &Name, depth: u32) -> Result<FieldTerm, NoMemory>
        ensures { IfOk result (λ made. field_tree made ≡ (leaves self.now).field_at name.now depth) };

    fn bound(&self, alloc: Global, number: u32, depth: u32) -> Result<Term, NoMemory>
        ensures { IfOk result (λ made. term_tree made ≡ (leaves self.now).bound_at number depth) };
}

/// A test of free names, each with the sort at which it stands.
pub trait NameTest {
    ghost test: { Self → Name → Sort → Bool };

    fn passes(&self, name: &Name, sort: Sort) -> bool
        ensures { result ≡ (test self.now) name.now sort };
}

/// What every formula type can be asked for.
pub trait Walk: Sized {
    ghost tree: { Self → ValueTree };

    /// The number of nodes, or the greatest u64 where that is passed. It takes no memory.
    fn size(&self) -> u64
        ensures { result ≡ min (value_size (tree self.now)) (2 ^ 64 - 1) };

    /// The number of nodes on the longest way down, or the greatest u64 where that is passed. It takes
    /// no memory.
    fn depth(&self) -> u64
        ensures { result ≡ min (value_depth (tree self.now)) (2 ^ 64 - 1) };

    /// The tree with each leaf exchanged for what stands for it, where `depth` binders count as passed.
    /// Where a depth leaves u32 the answer is want of memory.
    fn map<L: Leaves>(&self, alloc: Global, depth: u32, leaves: &L) -> Result<Self, NoMemory>
        ensures { IfOk result (λ made. tree made ≡ mapped_value (tree self.now) (L.leaves leaves.now) depth) };

    /// Whether each free name passes the test at the sort at which it stands. Names in labels are no
    /// free names. It takes no memory.
    fn names<T: NameTest>(&self, test: &T) -> bool
        ensures { result ≡ value_passes (tree self.now) (T.test test.now) };
}
