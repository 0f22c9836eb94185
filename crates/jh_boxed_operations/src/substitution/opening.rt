#![tactic(auto, using(jh_form::proofs::Steps::tree_steps, crate::proofs::substitution::Openings::open_steps))]

ghost use Rattle.std.specs.Prelude.{◌≡◌, ℕ, List, [], ◌∷◌, true, IfOk};
ghost use Rattle.jh_form.specs.Bare.{term_tree, formula_tree};
ghost use Rattle.jh_form.specs.Closed.{is_closed_term};
ghost use Rattle.jh_form.specs.Meaning.{Interp, truth, term_value};
ghost use Rattle.jh_boxed_operations.specs.substitution.Opened.{opened, opening};

use jh_boxed::jh_name::{Name, NoMemory};
use jh_boxed::{Leaves, Unchanged, copy, map_formula};
use jh_form::{FieldTerm, Formula, IntTerm, SetTerm, Term};
use std::alloc::Global;

/// The leaves of a binder's body in which a term stands for the binder's own variable.
#[derive(Drop)]
struct Opening<'a> {
    with: &'a Term,
}

// Out of line, so that the levels above a leaf don't keep its room on the stack.
impl Leaves for Opening<'_> {
    ghost leaves = { λ s. opening (term_tree s.with.now) };

    #[inline(never)]
    fn object(&self, alloc: Global, name: &Name, depth: u32) -> Result<Term, NoMemory> {
        Unchanged.object(alloc, name, depth)
    }

    #[inline(never)]
    fn integer(&self, alloc: Global, name: &Name, depth: u32) -> Result<IntTerm, NoMemory> {
        Unchanged.integer(alloc, name, depth)
    }

    #[inline(never)]
    fn truth(&self, alloc: Global, name: &Name, depth: u32) -> Result<Formula, NoMemory> {
        Unchanged.truth(alloc, name, depth)
    }

    #[inline(never)]
    fn set(&self, alloc: Global, name: &Name, depth: u32) -> Result<SetTerm, NoMemory> {
        Unchanged.set(alloc, name, depth)
    }

    #[inline(never)]
    fn field(&self, alloc: Global, name: &Name, depth: u32) -> Result<FieldTerm, NoMemory> {
        Unchanged.field(alloc, name, depth)
    }

    #[inline(never)]
    fn bound(&self, alloc: Global, number: u32, depth: u32) -> Result<Term, NoMemory> {
        if number < depth {
            Ok(Term::Bound(number))
        } else if number == depth {
            copy(alloc, self.with)
        } else {
            Ok(Term::Bound(number - 1))
        }
    }
}

/// The body of a binder with a term for the binder's own variable, which has number 0 outside all
/// inner binders. The numbers of the loose bound variables beyond it fall by one.
pub fn open(alloc: Global, body: &Formula, with: &Term) -> Result<Formula, NoMemory>
    requires { is_closed_term (term_tree with.now) 0 ≡ true }
    ensures tree { IfOk result (λ made. formula_tree made ≡ opened (formula_tree body.now) (term_tree with.now)) }
    ensures meaning { IfOk result (λ made. (m : Interp) (env : List ℕ) → truth (formula_tree made) m env ≡ truth (formula_tree body.now) m (term_value (term_tree with.now) m [] ∷ env)) }
{
    map_formula(alloc, body, 0, &Opening { with })
}
