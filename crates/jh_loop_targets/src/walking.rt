#![tactic(auto, using(jh_semantics::proofs::typed_code::CodeSteps::code_steps, crate::proofs::Notings::note_steps), unfolding(jh_semantics::specs::typed_code::Statements::target_in))]

ghost use Rattle.std.specs.Prelude.{◌≡◌, ◌<◌, ◌||◌, false, Some, length, slice_get, OnOk, codes};
ghost use Rattle.std.specs.Option.{option_map_or};
ghost use Rattle.jh_ast.specs.Programs.{ProgramTree};
ghost use Rattle.jh_rules.specs.Kinds as kinds;
ghost use Rattle.jh_rules.specs.Words.{same_text};
ghost use Rattle.jh_semantics.specs.jh_vars.state_names.States.{sort_of};
ghost use Rattle.jh_semantics.specs.Code.{Text};
ghost use Rattle.jh_semantics.specs.typed_code.Statements.{code_in, codes_in, target_in, value_of};
ghost use Rattle.jh_guard.specs.Writes.{Writes, target_writes, stmt_writes, stmts_write};
ghost use Rattle.jh_loop_targets.specs.Gathering.{stmt_adds, stmts_add, target_adds};
ghost use Rattle.jh_loop_targets.specs.Noted.{names_in, Notes};
ghost use Rattle.jh_loop_targets.specs.Telling.{Tells, ghost_text, is_text_of, method_writes, standing, standing_at, value_at, node_of};
ghost use Rattle.jh_containers.specs.transitive_closure.Spreads.{passed_to};

use crate::ghosts::text_written;
use crate::names::Names;
use crate::texts::Texts;
use crate::told::Told;
use jh_arena::table::Table;
use jh_name::{Kind, NoMemory, Row, Sort};
use jh_rules::{Ty, kind_of};
use jh_semantics::typed_code::{CallCode, Code, Target};
use jh_state_facts::changes::SortedName;
use std::alloc::Global;

/// The sort of the values of a type.
pub fn sort_of_type(ty: Ty) -> Sort
    ensures { result ≡ sort_of (kinds.kind_of ty) }
{
    match kind_of(ty) {
        Kind::Obj => Sort::Obj,
        Kind::Int => Sort::Int,
        Kind::Bool => Sort::Bool,
        Kind::Set => Sort::Set,
    }
}

/// Notes what an assignment to a target writes.
fn note_target(alloc: Global, written: &mut Texts, target: &Target) -> Result<(), NoMemory>
    ensures { OnOk result (Notes written.old written.new (target_writes (target_in target.now))) }
{
    match target {
        Target::Nowhere => Ok(()),
        Target::New(_) => Ok(()),
        Target::Name(name) => written.note(alloc, name.text()),
        Target::Field(name, _, _) => written.note(alloc, name.text()),
    }
}

/// Adds the local that a target is.
fn add_target<'a>(
    locals: &mut Names<'a>,
    scope: &Names<'a>,
    target: &'a Target,
) -> Result<(), NoMemory>
    ensures { OnOk result (names_in locals.new ≡ target_adds (names_in scope.now) (target_in target.now) (names_in locals.old)) }
{
    match target {
        Target::Nowhere => Ok(()),
        Target::New(local) => locals.add(local.name.text(), sort_of_type(local.ty)),
        Target::Name(name) => match scope.sort(name.text()) {
            None => Ok(()),
            Some(sort) => locals.add(name.text(), sort),
        },
        Target::Field(_, _, _) => Ok(()),
    }
}

/// The name at a place.
pub fn state_at<'a>(states: &[SortedName<'a>], place: usize) -> SortedName<'a>
    requires { place < length states.now }
    ensures { slice_get states.now place ≡ Some result }
{
    states[place]
}

/// Notes the piece of state at a place, where there is one.
fn note_place(
    alloc: Global,
    written: &mut Texts,
    states: &[SortedName],
    place: usize,
) -> Result<(), NoMemory>
    ensures { OnOk result (Notes written.old written.new (is_text_of (standing_at states.now place))) }
{
    if place < states.len() {
        written.note(alloc, state_at(states, place).text)
    } else {
        Ok(())
    }
}

/// Notes the pieces of state at some places.
fn note_places(
    alloc: Global,
    written: &mut Texts,
    states: &[SortedName],
    places: &[usize],
) -> Result<(), NoMemory>
    ensures { OnOk result (Notes written.old written.new (is_text_of (standing states.now places.now))) }
{
    for place in places.iter() {
        note_place(alloc, written, states, *place)?;
    }
    Ok(())
}

/// The places of the state that a method of a number may write.
fn row_of(rows: &[Row<usize>], number: usize) -> &[usize]
    ensures { result.now ≡ passed_to rows.now number }
{
    match rows.get(number) {
        None => &[],
        Some(row) => row.items(),
    }
}

/// Notes what a method may write.
fn note_method(
    alloc: Global,
    written: &mut Texts,
    told: &Told,
    class: usize,
    method: &str,
) -> Result<(), NoMemory>
    ensures { OnOk result (Notes written.old written.new (method_writes told.now (record { class = class; name = method.now }))) }
{
    match told.numbers.number(class, method) {
        None => Ok(()),
        Some(number) => note_places(alloc, written, told.states, row_of(told.rows, number)),
    }
}

/// Notes what a ghost assignment writes, by the number of its left side.
fn note_ghost(table: &Table, written: &mut Texts, told: &Told, number: u32) -> Result<(), NoMemory>
    ensures { OnOk result (Notes written.old written.new (λ x. option_map_or (λ y. same_text y x) (ghost_text (value_at table.now (node_of told.now.formulas.now number))) false)) }
{
    match text_written(table, told.formulas, number) {
        None => Ok(()),
        Some(text) => written.note(table.alloc(), text),
    }
}

/// Notes what a new object of a class changes: it joins the objects of its class, and all objects.
fn note_new(
    alloc: Global,
    written: &mut Texts,
    class: &str,
    target: &Target,
) -> Result<(), NoMemory>
    ensures { OnOk result (Notes written.old written.new (λ x. same_text (codes "alloc") x || same_text class.now x || target_writes (target_in target.now) x)) }
{
    written.note(alloc, "alloc")?;
    written.note(alloc, class)?;
    note_target(alloc, written, target)
}

/// Notes what a call writes: what its method may, and its target.
fn note_call(
    alloc: Global,
    written: &mut Texts,
    told: &Told,
    call: &CallCode,
) -> Result<(), NoMemory>
    ensures { OnOk result (Notes written.old written.new (λ x. method_writes told.now (record { class = call.now.class; name = call.now.method }) x || target_writes (target_in call.now.target) x)) }
{
    note_method(alloc, written, told, call.class, call.method.text())?;
    note_target(alloc, written, &call.target)
}

/// Gathers what some statements write, and which locals they assign.
#[cycle(gather)]
fn gather_all<'a>(
    table: &Table,
    written: &mut Texts,
    locals: &mut Names<'a>,
    told: &Told<'a>,
    scope: &Names<'a>,
    codes: &'a [Code],
) -> Result<(), NoMemory>
    ensures written { OnOk result ((p : ProgramTree) (ws : Writes) → Tells told.now table.now p ws → Notes written.old written.new (stmts_write ws (codes_in p codes.now))) }
    ensures locals { OnOk result ((p : ProgramTree) → names_in locals.new ≡ stmts_add (names_in scope.now) (codes_in p codes.now) (names_in locals.old)) }
{
    for code in codes.iter() {
        gather_one(table, written, locals, told, scope, code)?;
    }
    Ok(())
}

/// Gathers what a statement writes, and which locals it assigns.
#[cycle(gather)]
pub fn gather_one<'a>(
    table: &Table,
    written: &mut Texts,
    locals: &mut Names<'a>,
    told: &Told<'a>,
    scope: &Names<'a>,
    code: &'a Code,
) -> Result<(), NoMemory>
    ensures written { OnOk result ((p : ProgramTree) (ws : Writes) → Tells told.now table.now p ws → Notes written.old written.new (stmt_writes ws (code_in p code.now))) }
    ensures locals { OnOk result ((p : ProgramTree) → names_in locals.new ≡ stmt_adds (names_in scope.now) (code_in p code.now) (names_in locals.old)) }
{
    match code {
        Code::Empty => Ok(()),
        Code::Block(codes) => {
            gather_all(table, written, locals, told, scope, codes.items())?;
            Ok(())
        }
        Code::Assign(target, _) => {
            note_target(table.alloc(), written, target)?;
            add_target(locals, scope, target)?;
            Ok(())
        }
        Code::New(_, target, class) => {
            note_new(table.alloc(), written, class.text(), target)?;
            add_target(locals, scope, target)?;
            Ok(())
        }
        Code::Call(call) => {
            note_call(table.alloc(), written, told, call)?;
            add_target(locals, scope, &call.target)?;
            Ok(())
        }
        Code::Branch(_, _, first, second) => {
            gather_one(table, written, locals, told, scope, first)?;
            gather_all(table, written, locals, told, scope, second.items())?;
            Ok(())
        }
        Code::Loop(_, _, _, body) => {
            gather_one(table, written, locals, told, scope, body)?;
            Ok(())
        }
        Code::Return(_) => Ok(()),
        Code::Assert(_) => Ok(()),
        Code::Note(_) => Ok(()),
        Code::Ghost(_, left, _, _) => {
            note_ghost(table, written, told, *left)?;
            Ok(())
        }
    }
}
