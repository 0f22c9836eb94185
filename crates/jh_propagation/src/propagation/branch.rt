ghost use Rattle.std.specs.Prelude.{◌≡◌, ◌≤◌, ◌<◌, ◌+◌, ◌++◌, [], ◌∷◌, ℕ, List, OnOk, length};
ghost use Rattle.jh_closure.specs.congruence_closure.Nodes.{Has};
ghost use Rattle.jh_arena.specs.table.Nodes.{nodes};
ghost use Rattle.jh_propagation.specs.trail.Listing.{IsUndecided};
ghost use Rattle.jh_propagation.specs.declared.trail.decided.Decided.{Decided};
ghost use Rattle.jh_propagation.specs.declared.propagation.branch.Reason.TheVariants as reason;
ghost use Rattle.jh_propagation.specs.trail.Occurring.{places_in};
ghost use Rattle.jh_propagation.specs.propagation.Branches.{IsBranch, IsLatest, Why, left_over, undecided_count};

use crate::propagation::Problem;
use crate::trail::{Decided, Trail, others_say_nothing};
use jh_cong::classes::Classes;
use jh_name::{NoMemory, Row};

/// Why a literal stands in the trail.
#[derive(Clone, Copy, PartialEq, Eq)]
pub enum Reason {
    /// It was decided.
    Decision,
    /// The instance at this place is false where it isn't so.
    Instance(usize),
    /// It follows by equality from the first so many literals.
    Equality(usize),
}

/// Why a branch is closed.
#[derive(Drop)]
pub enum Cause {
    /// The instance at this place is false.
    Instance(usize),
    /// No structure meets the literals at these places of the trail.
    Equality(Row<usize>),
}

/// A branch of the search: its decisions; the classes of equality, which are told the first literals of the trail; the trail, with a reason for
/// each literal; and places of instances, of which those from `head` on wait to be looked at.
#[derive(Drop)]
pub struct Branch {
    pub decisions: Vec<Decided>,
    pub classes: Classes,
    pub trail: Trail,
    pub reasons: Vec<Reason>,
    pub waiting: Vec<usize>,
    pub head: usize,
}

/// Puts a literal to the trail, with its reason, and has the instances wait in which its atom stands.
pub(crate) fn put(
    problem: &Problem,
    branch: &mut Branch,
    literal: Decided,
    reason: Reason,
) -> Result<(), NoMemory>
    requires { IsUndecided branch.old.trail literal.atom }
    ensures trail { OnOk result (branch.new.trail ≡ branch.old.trail ++ literal ∷ []) }
    ensures reasons { OnOk result (branch.new.reasons.items ≡ branch.old.reasons.items ++ reason ∷ []) }
    ensures waiting { OnOk result (branch.new.waiting.items ≡ branch.old.waiting.items ++ places_in problem.now.ground literal.atom) }
    ensures head { branch.new.head ≡ branch.old.head }
    ensures classes { branch.new.classes ≡ branch.old.classes }
    ensures decisions { branch.new.decisions ≡ branch.old.decisions }
{
    branch.trail.push(literal)?;
    branch.reasons.push(reason)?;
    branch
        .waiting
        .extend_from_slice(problem.ground.places(literal.atom))?;
    Ok(())
}

/// Puts a literal to the trail that follows.
pub(crate) fn push(
    problem: &Problem,
    branch: &mut Branch,
    literal: Decided,
    reason: Reason,
) -> Result<(), NoMemory>
    requires undecided { IsUndecided branch.old.trail literal.atom }
    requires atom { Has problem.now.ground.atoms literal.atom }
    requires why { Why (nodes problem.now.table) problem.now branch.old.decisions.items branch.old.trail literal reason }
    requires latest { IsLatest branch.old reason }
    ensures branch { OnOk result ((busy : List ℕ) → IsBranch problem.now busy branch.old → IsBranch problem.now busy branch.new) }
    ensures trail { OnOk result (branch.new.trail ≡ branch.old.trail ++ literal ∷ []) }
    ensures reasons { OnOk result (branch.new.reasons.items ≡ branch.old.reasons.items ++ reason ∷ []) }
    ensures waiting { OnOk result (branch.new.waiting.items ≡ branch.old.waiting.items ++ places_in problem.now.ground literal.atom) }
    ensures left { OnOk result ((weight : ℕ → ℕ) → left_over weight branch.new.trail problem.now.ground.atoms + weight literal.atom ≤ left_over weight branch.old.trail problem.now.ground.atoms) }
    ensures head { branch.new.head ≡ branch.old.head }
    ensures classes { branch.new.classes ≡ branch.old.classes }
    ensures decisions { branch.new.decisions ≡ branch.old.decisions }
{
    others_say_nothing();
    put(problem, branch, literal, reason)
}

/// Decides an atom that isn't decided.
pub fn decide(problem: &Problem, branch: &mut Branch, literal: Decided) -> Result<(), NoMemory>
    requires branch { IsBranch problem.now [] branch.old }
    requires undecided { IsUndecided branch.old.trail literal.atom }
    requires atom { Has problem.now.ground.atoms literal.atom }
    ensures branch { OnOk result (IsBranch problem.now [] branch.new) }
    ensures decisions { OnOk result (branch.new.decisions.items ≡ branch.old.decisions.items ++ literal ∷ []) }
    ensures trail { OnOk result (branch.new.trail ≡ branch.old.trail ++ literal ∷ []) }
    ensures reasons { OnOk result (branch.new.reasons.items ≡ branch.old.reasons.items ++ reason.Decision ∷ []) }
    ensures count { OnOk result (undecided_count problem.now branch.new < undecided_count problem.now branch.old) }
    ensures classes { branch.new.classes ≡ branch.old.classes }
{
    others_say_nothing();
    put(problem, branch, literal, Reason::Decision)?;
    branch.decisions.push(literal)?;
    Ok(())
}
