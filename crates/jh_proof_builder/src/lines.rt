use jh_derivation_steps::premises::NodeStep;
use jh_name::NoMemory;
use std::alloc::Global;

/// Steps of a branch that is written while it goes on: those so far, and of each branch that was left the steps that close it. A step
/// that leads to two branches has all steps of the first before those of the second. So what closes a second branch stands
/// behind all that the first comes to, the newest first.
#[derive(Drop)]
pub struct Line {
    pub steps: Vec<NodeStep>,
    pub sides: Vec<Vec<NodeStep>>,
}

/// Writes a step.
pub fn add_step(steps: &mut Vec<NodeStep>, step: NodeStep) -> Result<(), NoMemory> {
    steps.push(step)?;
    Ok(())
}

/// Steps behind others.
pub fn joined(steps: &mut Vec<NodeStep>, more: &[NodeStep]) -> Result<(), NoMemory> {
    steps.extend_from_slice(more)?;
    Ok(())
}

/// Writes the last of these lists of steps, and takes it off.
fn add_last(steps: &mut Vec<NodeStep>, sides: &mut Vec<Vec<NodeStep>>) -> Result<(), NoMemory> {
    match sides.pop() {
        Some(side) => joined(steps, side.as_slice()),
        None => Ok(()),
    }
}

impl Line {
    /// No steps yet.
    pub fn new(alloc: Global) -> Line {
        Line {
            steps: Vec::new(alloc),
            sides: Vec::new(alloc),
        }
    }

    /// Writes a step.
    pub fn add(&mut self, step: NodeStep) -> Result<(), NoMemory> {
        add_step(&mut self.steps, step)
    }

    /// Leaves a second branch, which these steps close.
    pub fn leave(&mut self, side: Vec<NodeStep>) -> Result<(), NoMemory> {
        self.sides.push(side)?;
        Ok(())
    }

    /// All steps, where the branch is closed: those that close the branches that were left stand at the end.
    pub fn closed(self) -> Result<Vec<NodeStep>, NoMemory> {
        let Line {
            mut steps,
            mut sides,
        } = self;
        for _side in 0..sides.len() {
            add_last(&mut steps, &mut sides)?;
        }
        Ok(steps)
    }
}
