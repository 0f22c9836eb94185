ghost use Rattle.jh_semantics.specs.Program.{Program};
ghost use Rattle.jh_semantics.specs.Laws.{BoundsEndNoRun, LoopsUnfold, CallsUnfold, RunsStayWhole, HeapsAreWhole, RunsOnlyAdd, RunsStayWellFormed};

/// The bounds on the turns of loops and on the depth of calls, which the definition of runs has, end no run: with
/// greater ones all runs are the same. It is a law, and does nothing.
pub fn bounds_end_no_run()
    ensures { (p : Program) → BoundsEndNoRun p }
{}

/// A loop is one turn and then the loop again, where its condition is true. It is a law, and does nothing.
pub fn loops_are_turns()
    ensures { (p : Program) → LoopsUnfold p }
{}

/// A call is the body of its method, in which calls are calls. It is a law, and does nothing.
pub fn calls_are_bodies()
    ensures { (p : Program) → CallsUnfold p }
{}

/// Where a run begins in a state in which nothing but the objects 0 to N is, with `this` and arguments among them, it
/// ends in such a state, of the same objects. It is a law, and does nothing.
pub fn runs_stay_whole()
    ensures { (p : Program) → RunsStayWhole p }
{}

/// The state that a heap lists is one in which nothing but the objects 0 to N is. It is a law, and does nothing.
pub fn heaps_are_whole()
    ensures { HeapsAreWhole }
{}

/// Runs of a program that the type rules leave only add to `alloc` and to the classes. It is a law, and does nothing.
pub fn runs_only_add()
    ensures { (p : Program) → RunsOnlyAdd p }
{}

/// Where a run of a program that the type rules leave begins in a well-formed state, with `this` and arguments in their
/// types, it ends in a well-formed state, with a result in its type. It is a law, and does nothing.
pub fn runs_stay_well_formed()
    ensures { (p : Program) → RunsStayWellFormed p }
{}
