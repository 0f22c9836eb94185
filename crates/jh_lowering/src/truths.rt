#![tactic(auto, unfolding(jh_semantics::specs::typed_code::Codes::truth_code))]

ghost use Rattle.std.specs.Prelude.{◌≡◌, IfOk};
ghost use Rattle.jh_semantics.specs.Lowered as lowered;
ghost use Rattle.jh_semantics.specs.typed_code.Codes.{truth_code};
ghost use Rattle.jh_lowering.specs.Lowering.{boxed_code};

use crate::making::{BoxedCode, boxed_truth};
use jh_name::NoMemory;
use jh_semantics::typed_code::TruthCode;
use std::alloc::Global;

/// Two truths in boxes.
#[derive(Drop)]
pub struct Truths {
    pub left: Box<TruthCode>,
    pub right: Box<TruthCode>,
}

/// Two values that are truths.
pub fn boxed_truths(alloc: Global, left: BoxedCode, right: BoxedCode) -> Result<Truths, NoMemory>
    ensures left { IfOk result (λ made. truth_code made.left.value ≡ lowered.as_truth (boxed_code left)) }
    ensures right { IfOk result (λ made. truth_code made.right.value ≡ lowered.as_truth (boxed_code right)) }
{
    let left = boxed_truth(alloc, left)?;
    let right = boxed_truth(alloc, right)?;
    Ok(Truths { left, right })
}
