#![tactic(auto, using(jh_form::proofs::Steps::tree_steps, crate::proofs::substitution::Substitutions::subst_steps))]

ghost use Rattle.std.specs.Prelude.{◌≡◌, ◌↔◌, ℕ, List, [], true, false, IfOk};
ghost use Rattle.jh_form.specs.Bare.{value_tree, formula_tree};
ghost use Rattle.jh_form.specs.Closed.{is_closed_value};
ghost use Rattle.jh_form.specs.Passing.{formula_passes};
ghost use Rattle.jh_form.specs.Meaning.{Interp, truth, datum};
ghost use Rattle.jh_form.specs.Assigned.{assigned};
ghost use Rattle.jh_form.specs.Sorts.{tree_sort};
ghost use Rattle.jh_boxed_operations.specs.substitution.Substituted.{substituted, substituting, stands_only_at};

use crate::substitution::faults::FormFault;
use crate::substitution::sorts::{StandsOnlyAt, names_are_one, sort_of};
use jh_boxed::jh_name::{Name, NoMemory};
use jh_boxed::{Leaves, Unchanged, copy, map_formula, names_formula};
use jh_form::{FieldTerm, Formula, IntTerm, SetTerm, Term, Value};
use std::alloc::Global;

/// The leaves of a formula in which a value stands for a name.
#[derive(Drop)]
struct Substituting<'a> {
    name: &'a Name,
    value: &'a Value,
}

// Out of line, so that the levels above a leaf don't keep its room on the stack.
impl Leaves for Substituting<'_> {
    ghost leaves = { λ s. substituting s.name.now (value_tree s.value.now) };

    #[inline(never)]
    fn object(&self, alloc: Global, name: &Name, depth: u32) -> Result<Term, NoMemory> {
        match self.value {
            Value::Obj(with) => {
                if names_are_one(name, self.name) {
                    copy(alloc, with)
                } else {
                    Unchanged.object(alloc, name, depth)
                }
            }
            Value::Int(_) => Unchanged.object(alloc, name, depth),
            Value::Bool(_) => Unchanged.object(alloc, name, depth),
            Value::Set(_) => Unchanged.object(alloc, name, depth),
            Value::Field(_) => Unchanged.object(alloc, name, depth),
        }
    }

    #[inline(never)]
    fn integer(&self, alloc: Global, name: &Name, depth: u32) -> Result<IntTerm, NoMemory> {
        match self.value {
            Value::Obj(_) => Unchanged.integer(alloc, name, depth),
            Value::Int(with) => {
                if names_are_one(name, self.name) {
                    copy(alloc, with)
                } else {
                    Unchanged.integer(alloc, name, depth)
                }
            }
            Value::Bool(_) => Unchanged.integer(alloc, name, depth),
            Value::Set(_) => Unchanged.integer(alloc, name, depth),
            Value::Field(_) => Unchanged.integer(alloc, name, depth),
        }
    }

    #[inline(never)]
    fn truth(&self, alloc: Global, name: &Name, depth: u32) -> Result<Formula, NoMemory> {
        match self.value {
            Value::Obj(_) => Unchanged.truth(alloc, name, depth),
            Value::Int(_) => Unchanged.truth(alloc, name, depth),
            Value::Bool(with) => {
                if names_are_one(name, self.name) {
                    copy(alloc, with)
                } else {
                    Unchanged.truth(alloc, name, depth)
                }
            }
            Value::Set(_) => Unchanged.truth(alloc, name, depth),
            Value::Field(_) => Unchanged.truth(alloc, name, depth),
        }
    }

    #[inline(never)]
    fn set(&self, alloc: Global, name: &Name, depth: u32) -> Result<SetTerm, NoMemory> {
        match self.value {
            Value::Obj(_) => Unchanged.set(alloc, name, depth),
            Value::Int(_) => Unchanged.set(alloc, name, depth),
            Value::Bool(_) => Unchanged.set(alloc, name, depth),
            Value::Set(with) => {
                if names_are_one(name, self.name) {
                    copy(alloc, with)
                } else {
                    Unchanged.set(alloc, name, depth)
                }
            }
            Value::Field(_) => Unchanged.set(alloc, name, depth),
        }
    }

    #[inline(never)]
    fn field(&self, alloc: Global, name: &Name, depth: u32) -> Result<FieldTerm, NoMemory> {
        match self.value {
            Value::Obj(_) => Unchanged.field(alloc, name, depth),
            Value::Int(_) => Unchanged.field(alloc, name, depth),
            Value::Bool(_) => Unchanged.field(alloc, name, depth),
            Value::Set(_) => Unchanged.field(alloc, name, depth),
            Value::Field(with) => {
                if names_are_one(name, self.name) {
                    copy(alloc, with)
                } else {
                    Unchanged.field(alloc, name, depth)
                }
            }
        }
    }

    #[inline(never)]
    fn bound(&self, alloc: Global, number: u32, depth: u32) -> Result<Term, NoMemory> {
        Unchanged.bound(alloc, number, depth)
    }
}

/// The formula with a value, which has no loose bound variables, for a free name. The name is exchanged
/// wherever it stands as a term or formula; names in labels stay.
pub fn subst(
    alloc: Global,
    formula: &Formula,
    name: &Name,
    value: &Value,
) -> Result<Formula, FormFault>
    requires { is_closed_value (value_tree value.now) 0 ≡ true }
    ensures tree { IfOk result (λ made. formula_tree made ≡ substituted (formula_tree formula.now) name.now (value_tree value.now)) }
    ensures meaning { IfOk result (λ made. (m : Interp) (env : List ℕ) → truth (formula_tree made) m env ≡ truth (formula_tree formula.now) (assigned m name.now (datum (value_tree value.now) m [])) env) }
    ensures ill_sorted { (result ≡ Err FormFault.IllSorted) ↔ (formula_passes (formula_tree formula.now) (stands_only_at name.now (tree_sort (value_tree value.now))) ≡ false) }
{
    let sort = sort_of(value);
    if !names_formula(formula, &StandsOnlyAt { name, sort }) {
        return Err(FormFault::IllSorted);
    }
    match map_formula(alloc, formula, 0, &Substituting { name, value }) {
        Ok(made) => Ok(made),
        Err(_) => Err(FormFault::Memory),
    }
}
