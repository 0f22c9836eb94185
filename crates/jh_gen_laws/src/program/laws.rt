ghost use Rattle.jh_gen_laws.specs.program.Laws.{MadeIsProgram};

use crate::sequent_count::made_owes_few;
use crate::spelling::made_is_spelled;
use crate::tokens::made_is_cut;
use crate::typing::{made_is_acyclic, made_is_typed};

/// The source of every seed with at most 200 methods spells a program that is accepted, and no method of it has more than 2,000
/// sequents. It is a law, and does nothing.
pub fn made_is_program()
    ensures { MadeIsProgram }
{
    made_is_cut();
    made_is_spelled();
    made_is_typed();
    made_is_acyclic();
    made_owes_few();
}
