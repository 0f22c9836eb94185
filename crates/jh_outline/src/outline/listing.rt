#![tactic(auto, unfolding(jh_ast::specs::Bare::method_part))]

ghost use Rattle.std.specs.Prelude.{◌≡◌, ◌++◌, map, IfOk, OnOk};
ghost use Rattle.jh_lowering.specs.Lowering.{IsDeclared, source_of};
ghost use Rattle.jh_semantics.specs.typed_code.Statements.{method_in};
ghost use Rattle.jh_outline.specs.outline.Listing.{code_of, framed_for, places_of};

use crate::outline::framing::framed_row;
use jh_effects::written_state::{Listed, MethodPlaces};
use jh_lowering::{Context, method_code};
use jh_name::{NoMemory, Row};
use jh_semantics::typed_code::MethodCode;
use std::alloc::Global;

/// The code of methods, one by one.
pub fn codes_of(
    alloc: Global,
    context: &Context,
    list: &[Listed],
) -> Result<Vec<MethodCode>, NoMemory>
    requires { IsDeclared context.now }
    ensures { IfOk result (λ made. map (method_in (source_of context.now)) made.items ≡ map (code_of (source_of context.now)) list.now) }
{
    let mut made = Vec::new(alloc);
    for listed in list.iter() {
        made.push(method_code(alloc, context, listed.class, listed.method)?)?;
    }
    Ok(made)
}

/// A row of its own.
fn copied(alloc: Global, places: &[usize]) -> Result<Row<usize>, NoMemory>
    ensures { IfOk result (λ made. made ≡ places.now) }
{
    let mut row = Vec::new(alloc);
    for place in places.iter() {
        row.push(*place)?;
    }
    Ok(Row::of(row))
}

/// The places of methods, one by one.
pub fn rows_of(
    alloc: Global,
    places: &MethodPlaces,
    list: &[Listed],
) -> Result<Vec<Row<usize>>, NoMemory>
    ensures { IfOk result (λ made. made.items ≡ map (places_of places.now) list.now) }
{
    let mut rows = Vec::new(alloc);
    for listed in list.iter() {
        rows.push(copied(
            alloc,
            places.places(listed.class, listed.method.name.text.text()),
        )?)?;
    }
    Ok(rows)
}

/// The places of the framed members of methods, one by one.
pub fn framed_of(
    alloc: Global,
    written: &MethodPlaces,
    modified: &MethodPlaces,
    list: &[Listed],
    sets: usize,
    members: usize,
) -> Result<Vec<Row<usize>>, NoMemory>
    ensures { IfOk result (λ made. made.items ≡ map (framed_for written.now modified.now sets members) list.now) }
{
    let mut rows = Vec::new(alloc);
    for listed in list.iter() {
        let name = listed.method.name.text.text();
        rows.push(framed_row(
            alloc,
            written.places(listed.class, name),
            modified.places(listed.class, name),
            sets,
            members,
        )?)?;
    }
    Ok(rows)
}
