use jh_arena::table::Table;
use jh_deriv::jh_import::carrying::carry;
use jh_deriv::jh_normal_forms::negation_normal_form::unlabelled;
use jh_local_form::local_sequents::LocalForm;
use jh_name::NoMemory;
use jh_proof_builder::{Stated, asserted, denied};

/// A node without labels. The answer is want of memory where no node has this number.
fn bare(table: &mut Table, node: usize) -> Result<usize, NoMemory> {
    if node < table.len() {
        unlabelled(table, node)
    } else {
        Err(NoMemory)
    }
}

/// A node without labels, in another table. The answer is want of memory where no node has this number.
fn bare_in(from: &Table, into: &mut Table, node: usize) -> Result<usize, NoMemory> {
    if node >= from.len() {
        return Err(NoMemory);
    }
    let there = carry(from, into, node)?;
    bare(into, there)
}

/// Adds a fact to those that are stated.
fn add_stated(made: &mut Vec<Stated>, fact: Stated) -> Result<(), NoMemory> {
    made.push(fact)?;
    Ok(())
}

/// Adds the facts of a local form to those that are stated in another table.
fn add_facts(
    from: &Table,
    into: &mut Table,
    facts: &[usize],
    made: &mut Vec<Stated>,
) -> Result<(), NoMemory> {
    for fact in facts {
        let node = bare_in(from, into, *fact)?;
        add_stated(made, asserted(node))?;
    }
    Ok(())
}

/// The facts of a local form as they are stated there, in another table: its facts, and that its goal doesn't hold.
pub(crate) fn stated_facts(
    from: &Table,
    into: &mut Table,
    form: &LocalForm,
) -> Result<Vec<Stated>, NoMemory> {
    let goal = bare_in(from, into, form.goal)?;
    let mut made = Vec::new(into.alloc());
    add_facts(from, into, form.facts.items(), &mut made)?;
    add_stated(&mut made, denied(goal))?;
    Ok(made)
}
