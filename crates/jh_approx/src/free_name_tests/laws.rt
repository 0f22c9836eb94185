ghost use Rattle.jh_approx.specs.free_name_tests.Passing.{FreeNamesDecide};

/// A tree passes a test of free names exactly where each free name among its parts does. It is a law, and does nothing.
pub fn free_names_decide()
    ensures { FreeNamesDecide }
{}
