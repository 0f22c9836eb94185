ghost use Rattle.jh_semantics.specs.Program.{Program};
ghost use Rattle.jh_machine.specs.continuation.Resumed.{Resumes};

use jh_semantics::{calls_are_bodies, loops_are_turns};

/// A run is what is to be done, taken a step at a time: each step leads to where the same comes of it, and what
/// overflows behind it overflows in the run. It is a law, and does nothing.
pub fn runs_are_resumed()
    ensures { (p : Program) → Resumes p }
{
    loops_are_turns();
    calls_are_bodies();
}
