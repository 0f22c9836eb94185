ghost use Rattle.std.specs.Prelude.{List, [], ◌∷◌, ◌++◌, ℕ, ◌≡◌, OnOk, string_bytes};
ghost use Rattle.jh_report.specs.causes.Causes.{joined};
ghost use Rattle.jh_report.specs.causes.Pieces.{Holds, gap};

use jh_name::NoMemory;
use std::alloc::Global;

/// Pieces of a line with a semicolon and a space between them, and whether there are any.
#[derive(Drop)]
pub(crate) struct Pieces {
    pub(crate) text: String,
    pub(crate) started: bool,
}

/// What stands before a piece.
fn gap(started: bool) -> &'static str
    ensures { result.now ≡ gap started }
{
    if started { "; " } else { "" }
}

impl Pieces {
    /// No pieces.
    pub(crate) fn new(alloc: Global) -> Pieces
        ensures { Holds result [] }
    {
        Pieces {
            text: String::new(alloc),
            started: false,
        }
    }

    /// Adds a piece.
    pub(crate) fn add(&mut self, piece: &str) -> Result<(), NoMemory>
        ensures { OnOk result ((ps : List (List ℕ)) → Holds self.old ps → Holds self.new (ps ++ piece.now ∷ [])) }
    {
        self.text.push_str(gap(self.started))?;
        self.text.push_str(piece)?;
        self.started = true;
        Ok(())
    }
}
