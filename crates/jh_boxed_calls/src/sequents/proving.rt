ghost use Rattle.std.specs.Prelude.{◌<◌, IfOk};
ghost use Rattle.jh_seq.specs.sequent.Sequents.{sequent_tree};
ghost use Rattle.jh_prove.specs.prover.Right.{Right};

use crate::sequents::entering::enter_sequent;
use jh_arena::table::Table;
use jh_name::NoMemory;
use jh_name::options::Options;
use jh_prove::prover::{Answer, answers};
use jh_seq::sequent::Sequent;
use std::alloc::Global;

/// What is said of a sequent: at sight, or else by regions, or else by the search for a ground model of the instances of its local
/// form. The answer is want of memory where a formula nests deeper than a
/// table takes in, and where the query has more than 1,048,576 parts.
pub fn prove(alloc: Global, sequent: &Sequent, options: Options) -> Result<Answer, NoMemory>
    requires { 0 < options.leaves }
    ensures { IfOk result (Right options (sequent_tree sequent.now)) }
{
    let mut table = Table::new(alloc)?;
    let entered = enter_sequent(alloc, &mut table, sequent)?;
    let mut made = answers(alloc, &mut table, options, &entered)?;
    match made.pop() {
        Some(answer) => Ok(answer),
        None => Err(NoMemory),
    }
}
