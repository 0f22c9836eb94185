ghost use Rattle.std.specs.Prelude.{◌≡◌, List, filter, IfOk};
ghost use Rattle.jh_semantics.specs.Code.{Text};
ghost use Rattle.jh_semantics.specs.WellFormed.{all_classes};
ghost use Rattle.jh_arena.specs.table.Growth.{Grows};
ghost use Rattle.jh_semantics.specs.Program.{Program};
ghost use Rattle.jh_state_facts.specs.well_formedness.States.{member_in, members_in};
ghost use Rattle.jh_machine_code.specs.numbering.Numbered.{IsText};
ghost use Rattle.jh_heap_layout.specs.layout.Chosen.{is_chosen};
ghost use Rattle.jh_heap_layout.specs.layout.Lasting.{HasClasses, HasPlace, HasPlaces, HasAll};

use crate::layout::members::is_among;
use crate::loading::{Place, Places};
use jh_machine_code::numbering::text_number;
use jh_name::{NoMemory, Text};
use jh_state_facts::well_formedness::Member;
use jh_store::memory::Names;
use std::alloc::Global;

/// The numbers of the names of the classes, with that of the plain objects as the last.
fn class_numbers(alloc: Global, names: &mut Names, classes: &[Text]) -> Result<Vec<usize>, NoMemory>
    ensures numbers { IfOk result (λ made. HasClasses names.new made.items (all_classes classes.now)) }
    ensures grows { Grows names.old names.new }
{
    let mut made = Vec::new(alloc);
    for class in classes {
        let number = text_number(alloc, names, class.text())?;
        made.push(number)?;
    }
    let number = text_number(alloc, names, "Object")?;
    made.push(number)?;
    Ok(made)
}

/// The place of a member.
fn place_of(alloc: Global, names: &mut Names, member: &Member) -> Result<Place, NoMemory>
    ensures place { IfOk result (λ made. (classes : List Text) → HasPlace names.new made (member_in classes member.now)) }
    ensures grows { Grows names.old names.new }
{
    let number = text_number(alloc, names, member.text.text())?;
    Ok(Place {
        number,
        kind: member.kind,
    })
}

/// The places of the statics, or of the fields.
fn member_places(
    alloc: Global,
    names: &mut Names,
    members: &[Member],
    statics: bool,
) -> Result<Vec<Place>, NoMemory>
    ensures places { IfOk result (λ made. (classes : List Text) → HasPlaces names.new made.items (filter (is_chosen statics) (members_in classes members.now))) }
    ensures grows { Grows names.old names.new }
{
    let mut made = Vec::new(alloc);
    for member in members {
        if is_among(member, statics) {
            let place = place_of(alloc, names, member)?;
            made.push(place)?;
        }
    }
    Ok(made)
}

/// Where memory has what heaps of a program list, by its classes and members; names that have no number get one.
pub fn places_of(
    alloc: Global,
    names: &mut Names,
    classes: &[Text],
    members: &[Member],
) -> Result<Places, NoMemory>
    ensures places { IfOk result (λ made. (p : Program) → p.classes ≡ classes.now → p.members ≡ members_in classes.now members.now → HasAll names.new p made) }
    ensures grows { Grows names.old names.new }
{
    let all = text_number(alloc, names, "alloc")?;
    let numbers = class_numbers(alloc, names, classes)?;
    let statics = member_places(alloc, names, members, true)?;
    let fields = member_places(alloc, names, members, false)?;
    Ok(Places {
        all,
        classes: numbers,
        statics,
        fields,
    })
}
