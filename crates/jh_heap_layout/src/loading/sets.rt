ghost use Rattle.std.specs.Prelude.{◌≡◌, ◌<◌, ◌||◌, ℕ, suc, List, length, OnOk};
ghost use Rattle.std.specs.List.{list_any};
ghost use Rattle.jh_name.specs.declared.naming.Name.{Name};
ghost use Rattle.jh_form.specs.Meaning.{a_set};
ghost use Rattle.jh_form.specs.Assigned.{assigned};
ghost use Rattle.jh_semantics.specs.Code.{Text};
ghost use Rattle.jh_semantics.specs.Heaps.{is_in, with_classes};
ghost use Rattle.jh_store.specs.memory.Held.{state_of, IsNamed};
ghost use Rattle.jh_heap_layout.specs.loading.Places.{AreNumbers};
ghost use Rattle.jh_heap_layout.specs.loading.Steps.{put_one, class_put};

use jh_name::{NoMemory, Row};
use jh_store::memory::Memory;
use std::alloc::Global;

/// Objects join the set of a name.
fn join_all(memory: &mut Memory<'_>, number: usize, objects: &[u32]) -> Result<(), NoMemory>
    requires { number < length memory.old.names }
    ensures names { memory.new.names ≡ memory.old.names }
    ensures last { memory.new.last ≡ memory.old.last }
    ensures state { OnOk result ((x : Name) → IsNamed memory.old number x → state_of memory.new ≡ assigned (state_of memory.old) x (a_set (λ b. (state_of memory.old).set x b || is_in b objects.now))) }
{
    for object in objects {
        memory.join(number, *object)?;
    }
    Ok(())
}

/// The set of a name becomes that of some objects.
pub(crate) fn put_set(
    alloc: Global,
    memory: &mut Memory<'_>,
    number: usize,
    objects: &[u32],
) -> Result<(), NoMemory>
    requires { number < length memory.old.names }
    ensures names { memory.new.names ≡ memory.old.names }
    ensures last { memory.new.last ≡ memory.old.last }
    ensures state { OnOk result ((x : Name) → IsNamed memory.old number x → state_of memory.new ≡ assigned (state_of memory.old) x (a_set (λ b. is_in b objects.now))) }
{
    memory.put_set(number, Vec::new(alloc));
    join_all(memory, number, objects)
}

/// The set of a name becomes that of the objects of some rows.
pub(crate) fn put_all(
    alloc: Global,
    memory: &mut Memory<'_>,
    number: usize,
    rows: &[Row<u32>],
) -> Result<(), NoMemory>
    requires { number < length memory.old.names }
    ensures names { memory.new.names ≡ memory.old.names }
    ensures last { memory.new.last ≡ memory.old.last }
    ensures state { OnOk result ((x : Name) → IsNamed memory.old number x → state_of memory.new ≡ assigned (state_of memory.old) x (a_set (λ b. list_any (is_in b) rows.now))) }
{
    memory.put_set(number, Vec::new(alloc));
    for row in rows {
        join_all(memory, number, row.items())?;
    }
    Ok(())
}

/// The class at a place gets its objects, where there are some.
fn put_class(
    alloc: Global,
    memory: &mut Memory<'_>,
    numbers: &[usize],
    classes: &[Row<u32>],
    place: usize,
) -> Result<(), NoMemory>
    requires numbers { (cs : List Text) × AreNumbers memory.old.names numbers.now cs }
    requires place { place < length numbers.now }
    ensures names { memory.new.names ≡ memory.old.names }
    ensures last { memory.new.last ≡ memory.old.last }
    ensures state { (cs : List Text) → AreNumbers memory.old.names numbers.now cs → OnOk result (state_of memory.new ≡ put_one class_put cs classes.now place (state_of memory.old)) }
{
    match classes.get(place) {
        None => Ok(()),
        Some(row) => put_set(alloc, memory, numbers[place], row.items()),
    }
}

/// The classes get their objects, the last one first.
pub(crate) fn put_classes(
    alloc: Global,
    memory: &mut Memory<'_>,
    numbers: &[usize],
    classes: &[Row<u32>],
) -> Result<(), NoMemory>
    requires { (cs : List Text) × AreNumbers memory.old.names numbers.now cs }
    ensures names { memory.new.names ≡ memory.old.names }
    ensures last { memory.new.last ≡ memory.old.last }
    ensures state { (cs : List Text) → AreNumbers memory.old.names numbers.now cs → OnOk result (state_of memory.new ≡ with_classes cs classes.now (state_of memory.old)) }
{
    let count = numbers.len();
    for turn in 0..count {
        put_class(alloc, memory, numbers, classes, count - 1 - turn)?;
    }
    Ok(())
}
