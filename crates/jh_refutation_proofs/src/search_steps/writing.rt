use crate::search_steps::bench::Bench;
use crate::search_steps::leaf::leaf;
use crate::search_steps::tree::{Joint, Tree};
use jh_name::NoMemory;
use jh_proof_builder::jh_derivation_steps::premises::NodeStep;
use jh_proof_builder::{add_step, joined};
use jh_search::ClosedBranch;

/// Writes the steps of a closed branch.
fn write_leaf(
    bench: &mut Bench,
    steps: &mut Vec<NodeStep>,
    closed: &[ClosedBranch],
    place: usize,
) -> Result<(), NoMemory> {
    match closed.get(place) {
        Some(branch) => {
            let more = leaf(bench, branch)?;
            joined(steps, more.as_slice())
        }
        None => Err(NoMemory),
    }
}

/// Writes a joint: a closed branch whole, and of a cut the step, with both sides left to be written, the first of them next.
fn write_joint(
    bench: &mut Bench,
    steps: &mut Vec<NodeStep>,
    closed: &[ClosedBranch],
    waiting: &mut Vec<usize>,
    joint: Joint,
) -> Result<(), NoMemory> {
    match joint {
        Joint::Leaf(place) => write_leaf(bench, steps, closed, place),
        Joint::Cut { atom, holds, fails } => {
            add_step(steps, NodeStep::Cut(atom))?;
            waiting.push(fails)?;
            waiting.push(holds)?;
            Ok(())
        }
    }
}

/// The joint at a place.
fn joint_at(tree: &Tree, place: usize) -> Result<Joint, NoMemory> {
    match tree.joints.get(place) {
        Some(joint) => Ok(*joint),
        None => Err(NoMemory),
    }
}

/// Steps that close all branches of a search, where the instances are facts. The places of those that are used are noted.
pub fn write_tree(
    bench: &mut Bench,
    closed: &[ClosedBranch],
    tree: &Tree,
) -> Result<Vec<NodeStep>, NoMemory> {
    let alloc = bench.problem.table.alloc();
    let mut steps = Vec::new(alloc);
    let mut waiting = vec![in alloc; tree.root]?;
    for _turn in 0..tree.joints.len() {
        match waiting.pop() {
            None => return Ok(steps),
            Some(place) => {
                let joint = joint_at(tree, place)?;
                write_joint(bench, &mut steps, closed, &mut waiting, joint)?;
            }
        }
    }
    Ok(steps)
}
