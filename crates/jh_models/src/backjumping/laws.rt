ghost use Rattle.jh_models.specs.backjumping.Laws.{SearchGoesBack, SearchGoesOn};

use crate::ground_models::explained_is_closed;

/// A search begins, decides an atom and closes a branch. It is a law, and does nothing.
pub fn search_goes_on()
    ensures { SearchGoesOn }
{
    explained_is_closed();
}

/// What is closed goes back along the path. It is a law, and does nothing.
pub fn search_goes_back()
    ensures { SearchGoesBack }
{}
