ghost use Rattle.std.specs.Prelude.{◌≡◌, [], ℕ, Some, None, IfOk, IfErr};
ghost use Rattle.jh_ast.specs.Bare.{program_tree};
ghost use Rattle.jh_name.specs.declared.place.Place.{Place};
ghost use Rattle.jh_rules.specs.Breaks.{Breaks, faults_of};
ghost use Rattle.jh_type.specs.checker.Refused.{IsRefused};

use crate::checker::classes::least_fault;
use jh_ast::Program;
use jh_name::{NoMemory, Place};
use std::alloc::Global;
use std::marker::Model;

/// A program that breaks none of the type rules.
#[derive(Drop)]
pub struct Typed {
    program: Program,
}

impl Model for Typed {
    ghost use Rattle.jh_ast.specs.declared.program.Program.{Program};
    ghost use Rattle.std.specs.Prelude.{◌≡◌, []};
    ghost use Rattle.jh_ast.specs.Bare.{program_tree};
    ghost use Rattle.jh_rules.specs.Breaks.{faults_of};
    ghost use Rattle.std.specs.Coded.{codes};
    ghost use Rattle.jh_ast.specs.contracts.expr.Expr as e;
    ghost use Rattle.jh_ast.specs.contracts.spec.SpecTree as s;
    ghost use Rattle.jh_ast.specs.contracts.stmt.Stmt as z;

    ghost Value = { Program };

    ghost coded = { Prim.hlevel (codes, e.the_row.coded, s.the_row.coded, z.the_row.coded) };

    ghost view = { λ t. t.program };

    ghost invariant = { λ t. faults_of (program_tree t.program) ≡ [] };
}

impl Typed {
    /// The program. It breaks none of the type rules, at no place.
    pub fn program(&self) -> &Program
        ensures same { result.now ≡ self.now }
        ensures none { (rule : ℕ) (place : Place) → Breaks (program_tree self.now) rule place → ⊥ }
    {
        &self.program
    }
}

/// Why a program is refused: a broken type rule and its place, or want of memory.
#[derive(Clone, Copy, PartialEq, Eq)]
pub enum TypeError {
    TypeFault { rule: u8, place: Place },
    Memory,
}

/// A refusal, with the program as it was handed in.
#[derive(Drop)]
pub struct TypeRefused {
    pub fault: TypeError,
    pub program: Program,
}

/// Checks a program against the type rules. It is refused with the least place at which a rule is broken and the
/// least such rule there, or for want of memory.
pub fn check(alloc: Global, program: Program) -> Result<Typed, TypeRefused>
    ensures same { IfOk result (λ typed. typed ≡ program) }
    ensures sound { IfOk result (λ typed. (rule : ℕ) (place : Place) → Breaks (program_tree program) rule place → ⊥) }
    ensures handed_back { IfErr result (λ refused. refused.program ≡ program) }
    ensures cause { IfErr result (λ refused. IsRefused (program_tree program) refused.fault) }
{
    match least_fault(alloc, &program) {
        Ok(None) => Ok(Typed { program }),
        Ok(Some(found)) => Err(TypeRefused {
            fault: TypeError::TypeFault {
                rule: found.rule,
                place: found.place,
            },
            program,
        }),
        Err(NoMemory) => Err(TypeRefused {
            fault: TypeError::Memory,
            program,
        }),
    }
}
