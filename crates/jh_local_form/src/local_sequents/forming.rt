ghost use Rattle.std.specs.Prelude.{◌≡◌, ◌∷◌, [], ◌++◌, IfOk};

use jh_name::{NoMemory, Row};
use std::alloc::Global;

/// The formulas of a local form by nodes: its facts, in their order, and its goal.
#[derive(Drop)]
pub struct LocalForm {
    pub facts: Row<usize>,
    pub goal: usize,
}

/// One list of nodes behind another.
pub(crate) fn joined(
    alloc: Global,
    first: &[usize],
    second: &[usize],
) -> Result<Row<usize>, NoMemory>
    ensures { IfOk result (λ made. made ≡ first.now ++ second.now) }
{
    let mut made = Vec::new(alloc);
    made.extend_from_slice(first)?;
    made.extend_from_slice(second)?;
    Ok(Row::of(made))
}

impl LocalForm {
    /// The facts, and the goal behind them.
    pub(crate) fn formulas(&self, alloc: Global) -> Result<Row<usize>, NoMemory>
        ensures { IfOk result (λ made. made ≡ self.now.facts ++ self.now.goal ∷ []) }
    {
        joined(alloc, self.facts.items(), &[self.goal])
    }
}
