ghost use Rattle.jh_machine_code.specs.entry_state.Now.{NothingRecalled};

/// Steps whose formulas hang on the state now alone are the same statements where the state at entry isn't kept. It is a law, and
/// does nothing.
pub fn steps_that_recall_nothing()
    ensures { NothingRecalled }
{}
