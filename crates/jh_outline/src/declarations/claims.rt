#![tactic(auto, unfolding(jh_ast::specs::Bare::class_part, jh_ast::specs::Bare::program_tree))]

ghost use Rattle.std.specs.Prelude.{◌≡◌, ◌++◌, map, IfOk, OnOk};
ghost use Rattle.std.specs.List.{flat_map};
ghost use Rattle.jh_ast.specs.Bare.{class_part, labelled_part, program_tree};
ghost use Rattle.jh_semantics.specs.LoweredProgram as lowered;
ghost use Rattle.jh_semantics.specs.LoweredStmts as stmts;
ghost use Rattle.jh_semantics.specs.typed_code.Statements.{claim_in};

use jh_ast::{Class, Labelled, Program};
use jh_lowering::labelled_claim;
use jh_name::NoMemory;
use jh_semantics::typed_code::Claim;
use std::alloc::Global;

/// Adds some formulas with their labels.
fn push_claims(alloc: Global, labelled: &[Labelled], made: &mut Vec<Claim>) -> Result<(), NoMemory>
    ensures { OnOk result ((p : _) → map (claim_in p) made.new.items ≡ map (claim_in p) made.old.items ++ map (stmts.labelled_claim p) (map labelled_part labelled.now)) }
{
    for one in labelled.iter() {
        let claim = labelled_claim(alloc, one)?;
        made.push(claim)?;
    }
    Ok(())
}

/// The invariants of some classes.
fn invariants_of(alloc: Global, classes: &[Class]) -> Result<Vec<Claim>, NoMemory>
    ensures { IfOk result (λ made. (p : _) → map (claim_in p) made.items ≡ flat_map (lowered.class_claims p) (map class_part classes.now)) }
{
    let mut made = Vec::new(alloc);
    for class in classes.iter() {
        push_claims(alloc, class.invariants.items(), &mut made)?;
    }
    Ok(made)
}

/// The invariants of a program, in the order of the text.
pub fn invariants(alloc: Global, program: &Program) -> Result<Vec<Claim>, NoMemory>
    ensures { IfOk result (λ made. map (claim_in (program_tree program.now)) made.items ≡ (lowered.program_of (program_tree program.now)).invariants) }
{
    invariants_of(alloc, program.classes.items())
}
