ghost use Rattle.std.specs.Prelude.{◌≡◌, IfOk};
ghost use Rattle.jh_ast.specs.Programs.{ProgramTree};
ghost use Rattle.jh_semantics.specs.Program.{Program};
ghost use Rattle.jh_semantics.specs.typed_code.Statements.{method_in};
ghost use Rattle.jh_state_facts.specs.well_formedness.States.{members_in};
ghost use Rattle.jh_heap.specs.text.Held.{outline_in};
ghost use Rattle.jh_heap.specs.text.Outlines.{outline_of};

use crate::layout::classes::all_texts;
use crate::layout::members::{holders, params};
use jh_heap::text::Outline;
use jh_name::{NoMemory, Text};
use jh_semantics::typed_code::MethodCode;
use jh_state_facts::well_formedness::Member;
use std::alloc::Global;

/// What heap texts of a method are read by, over the classes and members of its program.
pub fn outline_for<'a>(
    alloc: Global,
    classes: &'a [Text],
    members: &'a [Member],
    method: &'a MethodCode,
) -> Result<Outline<'a>, NoMemory>
    ensures { IfOk result (λ made. (tree : ProgramTree) (p : Program) → p.classes ≡ classes.now → p.members ≡ members_in classes.now members.now → outline_in made ≡ outline_of p (method_in tree method.now)) }
{
    let texts = all_texts(alloc, classes)?;
    let statics = holders(alloc, classes, members, true)?;
    let fields = holders(alloc, classes, members, false)?;
    let params = params(alloc, method.params.items())?;
    Ok(Outline {
        classes: texts,
        statics,
        fields,
        this: method.this,
        params,
    })
}
