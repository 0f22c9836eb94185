ghost use Rattle.std.specs.Prelude.{◌≡◌, ◌<◌, ◌++◌, ◌∷◌, [], Some, map, filter, take, length, slice_get, IfOk, OnOk};
ghost use Rattle.std.specs.Option.{option_map_or};
ghost use Rattle.jh_ast.specs.Programs.{ProgramTree};
ghost use Rattle.jh_semantics.specs.Code.{Text};
ghost use Rattle.jh_semantics.specs.Program.{Program};
ghost use Rattle.jh_state_facts.specs.well_formedness.States.{local_of};
ghost use Rattle.jh_semantics.specs.typed_code.Statements.{code_in};
ghost use Rattle.jh_state_facts.specs.changes.Added.{sorted_in};
ghost use Rattle.jh_guard.specs.Items.{Sorted, is_of_objects, sorted_item};
ghost use Rattle.jh_guard.specs.Loops as loops;
ghost use Rattle.jh_guard.specs.Writes.{Writes, stmt_writes};
ghost use Rattle.jh_loop_targets.specs.Gathering.{stmt_adds, with_all};
ghost use Rattle.jh_loop_targets.specs.Noted.{holds, names_in};
ghost use Rattle.jh_loop_targets.specs.Telling.{AreStates, Tells};

use crate::names::Names;
use crate::texts::Texts;
use crate::told::Told;
use crate::walking::{gather_one, sort_of_type, state_at};
use jh_arena::table::Table;
use jh_name::NoMemory;
use jh_semantics::typed_code::Code;
use jh_state_facts::changes::SortedName;
use jh_state_facts::well_formedness::Known;
use std::alloc::Global;

/// The names that the body of a loop changes: of the state that it may write, in the order of the state, and then of the
/// locals that it assigns, each where it first stands; and the sets of objects among that state.
#[derive(Drop)]
pub struct Changed<'a> {
    pub names: Vec<SortedName<'a>>,
    pub sets: Vec<SortedName<'a>>,
}

/// The local at a place.
fn known_at<'a>(scope: &[Known<'a>], place: usize) -> Known<'a>
    requires { place < length scope.now }
    ensures { slice_get scope.now place ≡ Some result }
{
    scope[place]
}

/// The locals in scope, by their texts.
fn names_of<'a>(alloc: Global, scope: &[Known<'a>]) -> Result<Names<'a>, NoMemory>
    ensures { IfOk result (λ made. names_in made ≡ with_all [] (map local_of scope.now)) }
{
    let mut names = Names::none(alloc);
    for place in 0..scope.len() {
        let known = known_at(scope, place);
        names.add(known.text, sort_of_type(known.ty))?;
    }
    Ok(names)
}

/// Adds the names of the state whose texts were noted.
fn push_held<'a>(
    names: &mut Vec<SortedName<'a>>,
    written: &Texts,
    states: &[SortedName<'a>],
) -> Result<(), NoMemory>
    ensures { OnOk result (sorted_in names.new.items ≡ sorted_in names.old.items ++ filter (λ (s : Sorted). holds written.now s.text) (sorted_in states.now)) }
{
    for place in 0..states.len() {
        let state = state_at(states, place);
        if written.holds(state.text) {
            names.push(state)?;
        }
    }
    Ok(())
}

/// Adds the name at a place.
fn push_local<'a>(
    names: &mut Vec<SortedName<'a>>,
    locals: &Names<'a>,
    place: usize,
) -> Result<(), NoMemory>
    ensures { OnOk result (sorted_in names.new.items ≡ sorted_in names.old.items ++ option_map_or (λ s. s ∷ []) (slice_get (names_in locals.now) place) []) }
{
    match locals.sorts.get_index(place) {
        None => Ok(()),
        Some((text, sort)) => {
            names.push(SortedName {
                text: *text,
                sort: *sort,
            })?;
            Ok(())
        }
    }
}

/// Adds the names of locals.
fn push_locals<'a>(names: &mut Vec<SortedName<'a>>, locals: &Names<'a>) -> Result<(), NoMemory>
    ensures { OnOk result (sorted_in names.new.items ≡ sorted_in names.old.items ++ names_in locals.now) }
{
    for place in 0..locals.sorts.len() {
        push_local(names, locals, place)?;
    }
    Ok(())
}

/// What a body writes, by texts, and the locals that it assigns.
#[derive(Drop)]
struct Body<'a> {
    written: Texts,
    locals: Names<'a>,
}

/// What a body writes and assigns, over the locals in scope before it.
fn gathered<'a>(
    table: &Table,
    told: &Told<'a>,
    scope: &Names<'a>,
    body: &'a Code,
) -> Result<Body<'a>, NoMemory>
    ensures written { IfOk result (λ made. (p : ProgramTree) (ws : Writes) → Tells told.now table.now p ws → (x : Text) → holds made.written x ≡ stmt_writes ws (code_in p body.now) x) }
    ensures locals { IfOk result (λ made. (p : ProgramTree) → names_in made.locals ≡ stmt_adds (names_in scope.now) (code_in p body.now) []) }
{
    let mut written = Texts::none(table.alloc());
    let mut locals = Names::none(table.alloc());
    gather_one(table, &mut written, &mut locals, told, scope, body)?;
    Ok(Body { written, locals })
}

/// The first so many names.
fn front<'a, 'b>(names: &'b [SortedName<'a>], count: usize) -> &'b [SortedName<'a>]
    ensures { result.now ≡ take count names.now }
{
    if count < names.len() {
        &names[..count]
    } else {
        names
    }
}

/// The names of the state that were noted, and then the locals.
fn names_in_order<'a>(
    alloc: Global,
    told: &Told<'a>,
    gathered: &Body<'a>,
) -> Result<Vec<SortedName<'a>>, NoMemory>
    ensures { IfOk result (λ made. sorted_in made.items ≡ filter (λ (s : Sorted). holds gathered.now.written s.text) (sorted_in told.now.states.now) ++ names_in gathered.now.locals) }
{
    let mut names = Vec::new(alloc);
    push_held(&mut names, &gathered.written, told.states)?;
    push_locals(&mut names, &gathered.locals)?;
    Ok(names)
}

/// The sets of objects among the state that was noted.
fn sets_in_order<'a>(
    alloc: Global,
    told: &Told<'a>,
    written: &Texts,
) -> Result<Vec<SortedName<'a>>, NoMemory>
    ensures { IfOk result (λ made. sorted_in made.items ≡ filter (λ (s : Sorted). holds written.now s.text) (sorted_in (take told.now.sets told.now.states.now))) }
{
    let mut sets = Vec::new(alloc);
    push_held(&mut sets, written, front(told.states, told.sets))?;
    Ok(sets)
}

/// The names that a statement changes where it is the body of a loop, with these locals in scope before it.
pub fn changed_by<'a>(
    table: &Table,
    told: &Told<'a>,
    scope: &[Known<'a>],
    body: &'a Code,
) -> Result<Changed<'a>, NoMemory>
    ensures names { IfOk result (λ made. (p : ProgramTree) (program : Program) (ws : Writes) → Tells told.now table.now p ws → AreStates told.now program → sorted_in made.names.items ≡ loops.changed_by program ws (map local_of scope.now) (code_in p body.now)) }
    ensures sets { IfOk result (λ made. (p : ProgramTree) (program : Program) (ws : Writes) → Tells told.now table.now p ws → AreStates told.now program → sorted_in made.sets.items ≡ map sorted_item (filter is_of_objects (loops.written_by program ws (code_in p body.now)))) }
{
    let known = names_of(table.alloc(), scope)?;
    let gathered = gathered(table, told, &known, body)?;
    let sets = sets_in_order(table.alloc(), told, &gathered.written)?;
    let names = names_in_order(table.alloc(), told, &gathered)?;
    Ok(Changed { names, sets })
}
