#![tactic(auto, using(crate::proofs::commands::ScopeSteps::scope_steps, jh_semantics::proofs::typed_code::CodeSteps::code_steps), unfolding(jh_semantics::specs::typed_code::Statements::target_in))]

ghost use Rattle.std.specs.Prelude.{◌≡◌, ◌++◌, map, OnOk};
ghost use Rattle.jh_ast.specs.Programs.{ProgramTree};
ghost use Rattle.jh_guard.specs.Writes.{declared, scope_after};
ghost use Rattle.jh_semantics.specs.typed_code.Statements.{target_in, code_in};
ghost use Rattle.jh_state_facts.specs.well_formedness.States.{local_of};
ghost use Rattle.jh_method_commands.specs.commands.Sides.{IsLonger};

use jh_name::NoMemory;
use jh_semantics::typed_code::{Code, Target};
use jh_state_facts::well_formedness::Known;

/// Adds the local that a target declares, where it declares one.
fn declare_target<'a>(scope: &mut Vec<Known<'a>>, target: &'a Target) -> Result<(), NoMemory>
    ensures locals { OnOk result (map local_of scope.new.items ≡ map local_of scope.old.items ++ declared (target_in target.now)) }
    ensures longer { OnOk result (IsLonger scope.old.items scope.new.items) }
{
    match target {
        Target::Nowhere => Ok(()),
        Target::New(local) => {
            scope.push(Known {
                text: local.name.text(),
                ty: local.ty,
            })?;
            Ok(())
        }
        Target::Name(_) => Ok(()),
        Target::Field(_, _, _) => Ok(()),
    }
}

/// Adds the local that a statement declares for those behind it, where it declares one.
pub fn declare<'a>(scope: &mut Vec<Known<'a>>, code: &'a Code) -> Result<(), NoMemory>
    ensures locals { OnOk result ((p : ProgramTree) → map local_of scope.new.items ≡ scope_after (map local_of scope.old.items) (code_in p code.now)) }
    ensures longer { OnOk result (IsLonger scope.old.items scope.new.items) }
{
    match code {
        Code::Empty => Ok(()),
        Code::Block(_) => Ok(()),
        Code::Assign(target, _) => declare_target(scope, target),
        Code::New(_, target, _) => declare_target(scope, target),
        Code::Call(call) => declare_target(scope, &call.target),
        Code::Branch(_, _, _, _) => Ok(()),
        Code::Loop(_, _, _, _) => Ok(()),
        Code::Return(_) => Ok(()),
        Code::Assert(_) => Ok(()),
        Code::Note(_) => Ok(()),
        Code::Ghost(_, _, _, _) => Ok(()),
    }
}
