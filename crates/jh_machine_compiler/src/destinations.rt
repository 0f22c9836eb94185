ghost use Rattle.std.specs.Prelude.{IfOk};
ghost use Rattle.jh_arena.specs.table.Growth.{Grows};
ghost use Rattle.jh_machine_compiler.specs.Lasting.{IsDestination};

use jh_machine_code::code::Destination;
use jh_machine_code::numbering::{name_number, object_expr};
use jh_name::NoMemory;
use jh_semantics::typed_code::Target;
use jh_store::memory::Names;
use std::alloc::Global;

/// Where a value goes.
#[tactic(auto, using(crate::proofs::DestinationSteps::destination_steps))]
pub(crate) fn destination_of(
    alloc: Global,
    names: &mut Names,
    target: &Target,
) -> Result<Destination, NoMemory>
    ensures is { IfOk result (IsDestination names.new target.now) }
    ensures grows { Grows names.old names.new }
{
    match target {
        Target::Nowhere => Ok(Destination::Nowhere),
        Target::New(local) => {
            let number = name_number(alloc, names, &local.name)?;
            Ok(Destination::Name(number))
        }
        Target::Name(name) => {
            let number = name_number(alloc, names, name)?;
            Ok(Destination::Name(number))
        }
        Target::Field(field, receiver, place) => {
            let field = name_number(alloc, names, field)?;
            let receiver = object_expr(alloc, names, receiver)?;
            Ok(Destination::Field(field, receiver, *place))
        }
    }
}
