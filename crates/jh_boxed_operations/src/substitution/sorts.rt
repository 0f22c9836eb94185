#![tactic(auto, using(jh_form::proofs::Steps::tree_steps, crate::proofs::substitution::Substitutions::name_steps))]

ghost use Rattle.std.specs.Prelude.{◌≡◌};
ghost use Rattle.jh_form.specs.Bare.{value_tree};
ghost use Rattle.jh_form.specs.Passing.{name_equal};
ghost use Rattle.jh_form.specs.Sorts.{tree_sort, same_sort};
ghost use Rattle.jh_boxed_operations.specs.substitution.Substituted.{stands_only_at};

use jh_boxed::NameTest;
use jh_boxed::jh_name::{Name, Sort};
use jh_form::Value;

/// The sort of a value.
pub fn sort_of(value: &Value) -> Sort
    ensures { result ≡ tree_sort (value_tree value.now) }
{
    match value {
        Value::Obj(_) => Sort::Obj,
        Value::Int(_) => Sort::Int,
        Value::Bool(_) => Sort::Bool,
        Value::Set(_) => Sort::Set,
        Value::Field(_) => Sort::Field,
    }
}

/// Whether two names are one.
pub fn names_are_one(left: &Name, right: &Name) -> bool
    ensures { result ≡ name_equal left.now right.now }
{
    left.same(right)
}

fn sorts_are_one(left: Sort, right: Sort) -> bool
    ensures { result ≡ same_sort left right }
{
    left == right
}

/// The test that a name stands at no sort but one.
#[derive(Drop)]
pub struct StandsOnlyAt<'a> {
    pub name: &'a Name,
    pub sort: Sort,
}

impl NameTest for StandsOnlyAt<'_> {
    ghost test = { λ s. stands_only_at s.name.now s.sort };

    fn passes(&self, name: &Name, sort: Sort) -> bool {
        !names_are_one(name, self.name) || sorts_are_one(sort, self.sort)
    }
}
