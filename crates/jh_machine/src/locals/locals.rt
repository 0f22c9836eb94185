ghost use Rattle.std.specs.Prelude.{◌≡◌, ◌<◌, suc, List, map, get_or, IfOk};
ghost use Rattle.jh_name.specs.declared.naming.Name.{Name};
ghost use Rattle.jh_semantics.specs.Code.{Local};
ghost use Rattle.jh_semantics.specs.State.{State, named};
ghost use Rattle.jh_semantics.specs.Locals.{with_locals_of, without_locals, with_args};
ghost use Rattle.jh_store.specs.memory.Held.{state_of, IsNamed};
ghost use Rattle.jh_form.specs.Meaning.{an_object};
ghost use Rattle.jh_form.specs.Assigned.{assigned};
ghost use Rattle.jh_operands.specs.Exprs.{text_at, IsPlain};
ghost use Rattle.jh_operands.specs.Scalars.{datum_of};
ghost use Rattle.jh_machine_code.specs.code.Steps.{AreParams};
ghost use Rattle.jh_machine.specs.locals.Locals.{AreLocals, AreSaved, AreInside, AllInside, IsSaved, IsOf, no_value, with_name_of};

use crate::writes::{put_name, writes};
use jh_name::NoMemory;
use jh_operands::Scalar;
use jh_store::memory::Memory;
use std::alloc::Global;

/// What a name has at the sorts of locals.
#[derive(Clone, Copy)]
pub struct Saved {
    pub object: u32,
    pub number: i64,
    pub truth: bool,
}

/// What a name has.
fn saved_at(memory: &Memory<'_>, name: usize) -> Saved
    ensures saved { IsPlain memory.now.names name → IsSaved (state_of memory.now) (named (text_at memory.now.names name)) result }
    ensures inside { result.object < suc memory.now.last }
{
    if name < memory.names().len() {
        Saved {
            object: memory.object(name),
            number: memory.number(name),
            truth: memory.truth(name),
        }
    } else {
        none()
    }
}

/// Null, 0 and false.
fn none() -> Saved
    ensures { result ≡ no_value }
{
    Saved {
        object: 0,
        number: 0,
        truth: false,
    }
}

/// A name gets what another state has for it.
fn put_saved(memory: &mut Memory<'_>, name: usize, saved: Saved)
    ensures names { memory.new.names ≡ memory.old.names }
    ensures last { memory.new.last ≡ memory.old.last }
    ensures state { (t : State) → IsPlain memory.old.names name → saved.object < suc memory.old.last → IsSaved t (named (text_at memory.old.names name)) saved → state_of memory.new ≡ with_name_of (named (text_at memory.old.names name)) t (state_of memory.old) }
{
    writes::put_object(memory, name, saved.object);
    writes::put_number(memory, name, saved.number);
    writes::put_truth(memory, name, saved.truth);
}

/// What all locals have.
pub fn save(alloc: Global, memory: &Memory<'_>, locals: &[usize]) -> Result<Vec<Saved>, NoMemory>
    ensures saved { AreLocals memory.now.names locals.now → IfOk result (λ made. AreSaved memory.now.names (state_of memory.now) locals.now made.items) }
    ensures inside { IfOk result (λ made. AreInside memory.now.last made.items) }
    ensures known { IsOf memory.now.names (state_of memory.now) }
{
    let _names = memory.names();
    let mut made = Vec::new(alloc);
    for place in 0..locals.len() {
        made.push(saved_at(memory, locals[place]))?;
    }
    Ok(made)
}

/// All locals get what they have in another state.
pub fn restore(memory: &mut Memory<'_>, locals: &[usize], saved: &[Saved])
    ensures names { memory.new.names ≡ memory.old.names }
    ensures last { memory.new.last ≡ memory.old.last }
    ensures state { (t : State) → AreLocals memory.old.names locals.now → AreInside memory.old.last saved.now → AreSaved memory.old.names t locals.now saved.now → IsOf memory.old.names t → state_of memory.new ≡ with_locals_of (state_of memory.old) t }
{
    let _names = memory.names();
    for place in 0..locals.len() {
        put_saved(memory, locals[place], item(saved, place));
    }
}

/// What stands at a place, or defaults behind the last.
fn item(saved: &[Saved], place: usize) -> Saved
    ensures { result ≡ get_or saved.now place no_value }
{
    match saved.get(place) {
        Some(saved) => *saved,
        None => none(),
    }
}

/// All locals get their defaults.
pub fn clear(memory: &mut Memory<'_>, locals: &[usize])
    ensures names { memory.new.names ≡ memory.old.names }
    ensures last { memory.new.last ≡ memory.old.last }
    ensures state { AreLocals memory.old.names locals.now → state_of memory.new ≡ without_locals (state_of memory.old) }
{
    let _names = memory.names();
    for place in 0..locals.len() {
        put_saved(memory, locals[place], none());
    }
}

/// An object gets to a name.
pub fn put_this(memory: &mut Memory<'_>, name: usize, object: u32)
    ensures names { memory.new.names ≡ memory.old.names }
    ensures last { memory.new.last ≡ memory.old.last }
    ensures state { (x : Name) → IsNamed memory.old name x → object < suc memory.old.last → state_of memory.new ≡ assigned (state_of memory.old) x (an_object object) }
{
    writes::put_object(memory, name, object);
}

/// The parameters get their arguments, the last one first, as far as there are both.
pub fn put_args(memory: &mut Memory<'_>, params: &[usize], args: &[Scalar])
    ensures names { memory.new.names ≡ memory.old.names }
    ensures last { memory.new.last ≡ memory.old.last }
    ensures state { (ls : List Local) → AreParams memory.old.names params.now ls → AllInside memory.old.last args.now → state_of memory.new ≡ with_args ls (map datum_of args.now) (state_of memory.old) }
{
    let mut left = params.len().min(args.len());
    'given: while left > 0 {
        left -= 1;
        put_name(memory, params[left], args[left]);
    }
}
