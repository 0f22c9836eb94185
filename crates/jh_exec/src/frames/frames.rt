ghost use Rattle.std.specs.Prelude.{◌≡◌, ◌∷◌, ◌++◌, [], OnOk, IfErr};
ghost use Rattle.jh_machine.specs.declared.continuation.stop.Stop.TheVariants as stop;

use jh_machine::continuation::Stop;
use jh_machine::locals::Saved;
use jh_machine_code::code::{Destination, Step};
use jh_operands::{Scalar, TruthExpr};
use jh_store::memory::Memory;

/// What is still to be done in a method: the rest of a list of statements, one statement, or a loop from its condition on.
#[derive(Clone, Copy)]
pub enum Work<'a> {
    Rest(&'a [Step]),
    One(&'a Step),
    Turn(&'a TruthExpr, &'a Step),
}

/// The return to a caller: where the result goes, and its object; the caller's locals, and the state at the caller's entry,
/// where it is kept.
#[derive(Drop)]
pub struct Back<'a> {
    pub destination: &'a Destination,
    pub object: u32,
    pub saved: Vec<Saved>,
    pub entry: Option<Memory<'a>>,
}

/// What is still to be done.
#[derive(Drop)]
pub enum Frame<'a> {
    Work(Work<'a>),
    Back(Back<'a>),
}

/// Where what was done leads: on, or to the method's return, with its result.
#[derive(Clone, Copy)]
pub enum Way {
    On,
    Return(Option<Scalar>),
}

/// One thing more is to be done.
pub fn push<'a>(frames: &mut Vec<Frame<'a>>, frame: Frame<'a>) -> Result<(), Stop>
    ensures on { OnOk result (frames.new.items ≡ frames.old.items ++ frame.entry ∷ []) }
    ensures stop { IfErr result (λ why. why ≡ stop.Memory) }
{
    match frames.push(frame) {
        Ok(()) => Ok(()),
        Err(_) => Err(Stop::Memory),
    }
}
