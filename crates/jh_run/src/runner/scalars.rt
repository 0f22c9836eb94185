ghost use Rattle.std.specs.Prelude.{◌≡◌, ℕ, map, option_map, IfOk, IfErr};
ghost use Rattle.jh_semantics.specs.Heaps.{cell_value, value_cell};
ghost use Rattle.jh_store.specs.heaps.Cells.{cell_in};
ghost use Rattle.jh_store.specs.heaps.Inside.{IsInside, AreInside};
ghost use Rattle.jh_operands.specs.Scalars as scalars;
ghost use Rattle.jh_operands.specs.Scalars.{datum_of};
ghost use Rattle.jh_machine.specs.locals.Locals.{AllInside};
ghost use Rattle.jh_machine.specs.declared.continuation.stop.Stop.TheVariants as stop;

use jh_machine::continuation::Stop;
use jh_operands::Scalar;
use jh_store::heaps::Cell;
use std::alloc::Global;

/// The value of an argument. A set is none; no parameter is of such a type.
#[tactic(auto, unfolding(jh_operands::specs::Scalars::datum_of, jh_operands::specs::Scalars::IsInside))]
fn scalar_of(cell: &Cell) -> Result<Scalar, Stop>
    ensures value { IfOk result (λ value. datum_of value ≡ cell_value (cell_in cell.now)) }
    ensures inside { (n : ℕ) → IsInside n (cell_in cell.now) → IfOk result (scalars.IsInside n) }
    ensures stop { IfErr result (λ why. why ≡ stop.Memory) }
{
    match cell {
        Cell::Obj(object) => Ok(Scalar::Object(*object)),
        Cell::Int(number) => Ok(Scalar::Number(*number)),
        Cell::Bool(truth) => Ok(Scalar::Truth(*truth)),
        Cell::Set(_) => Err(Stop::Memory),
    }
}

/// The values of arguments.
pub(crate) fn scalars_of(alloc: Global, cells: &[Cell]) -> Result<Vec<Scalar>, Stop>
    ensures values { IfOk result (λ made. map datum_of made.items ≡ map cell_value (map cell_in cells.now)) }
    ensures inside { (n : ℕ) → AreInside n (map cell_in cells.now) → IfOk result (λ made. AllInside n made.items) }
    ensures stop { IfErr result (λ why. why ≡ stop.Memory) }
{
    let mut made = Vec::new(alloc);
    for cell in cells {
        let value = scalar_of(cell)?;
        made.push(value)?;
    }
    Ok(made)
}

/// A value as it is written down.
#[tactic(auto, unfolding(jh_operands::specs::Scalars::datum_of, jh_operands::specs::Scalars::IsInside))]
fn cell_of(value: Scalar) -> Cell
    ensures { cell_in result ≡ value_cell (datum_of value) }
{
    match value {
        Scalar::Object(object) => Cell::Obj(object),
        Scalar::Number(number) => Cell::Int(number),
        Scalar::Truth(truth) => Cell::Bool(truth),
    }
}

/// The result of a method as it is written down, where there is one.
pub(crate) fn result_of(value: Option<Scalar>) -> Option<Cell>
    ensures { option_map cell_in result ≡ option_map value_cell (option_map datum_of value) }
{
    match value {
        None => None,
        Some(value) => Some(cell_of(value)),
    }
}
