use jh_name::NoMemory;
use jh_proof_builder::Stated;
use jh_search::ClosedBranch;
use jh_search::jh_explanations::has;
use jh_search::jh_propagation::trail::Decided;
use std::alloc::Global;

/// The literal at a place of a list, where there is one.
pub(crate) fn literal_at(list: &[Decided], place: usize) -> Option<Decided> {
    list.get(place).copied()
}

/// A literal as it is stated.
pub(crate) fn stated_of(literal: Decided) -> Stated {
    Stated {
        formula: literal.atom,
        holds: literal.holds,
    }
}

/// The literals of an explanation that were decided.
pub(crate) fn needs_of(alloc: Global, branch: &ClosedBranch) -> Result<Vec<Decided>, NoMemory> {
    let mut needs = Vec::new(alloc);
    for literal in &branch.explanation {
        if has(branch.decisions.as_slice(), *literal) {
            needs.push(*literal)?;
        }
    }
    Ok(needs)
}
