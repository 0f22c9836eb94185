ghost use Rattle.std.specs.Prelude.{◌≡◌, ◌++◌, map, IfOk, OnOk, codes};
ghost use Rattle.jh_ast.specs.Bare.{class_part, program_tree};
ghost use Rattle.jh_vars.specs.Written.{state_names};
ghost use Rattle.jh_vars.specs.Resolved as r;
ghost use Rattle.jh_vars.specs.state_names.Pieces.{pieces_in};
ghost use Rattle.jh_vars.specs.state_names.States as states;

use crate::state_names::pieces::{Piece, pieces_of};
use crate::state_names::state::StateName;
use jh_ast::{Class, Program};
use jh_name::{Kind, Name, NoMemory, Sort, name};
use std::alloc::Global;

/// The sort at which a member stands.
fn member_sort(kind: Kind, fixed: bool) -> Sort
    ensures { result ≡ states.member_sort kind fixed }
{
    if !fixed {
        return Sort::Field;
    }
    match kind {
        Kind::Obj => Sort::Obj,
        Kind::Int => Sort::Int,
        Kind::Bool => Sort::Bool,
        Kind::Set => Sort::Set,
    }
}

/// The name of a member of a class.
fn member_name(alloc: Global, class: &str, own: &str) -> Result<Name, NoMemory>
    ensures { IfOk result (λ made. made ≡ r.own (class.now ++ codes "." ++ own.now) 0) }
{
    let mut text = String::from_str(alloc, class)?;
    text.push_str(".")?;
    text.push_str(own)?;
    name(alloc, text.as_str(), 0)
}

/// What a member of a class is as state.
fn member_state(
    alloc: Global,
    number: usize,
    class: &str,
    piece: &Piece,
) -> Result<StateName, NoMemory>
    ensures { IfOk result (λ made. made ≡ states.member_state number class.now (Rattle.jh_vars.specs.state_names.Pieces.piece_of piece.now)) }
{
    Ok(StateName {
        name: member_name(alloc, class, piece.word.text.text())?,
        sort: member_sort(piece.kind, piece.fixed),
        kind: piece.kind,
        class: Some(number),
        is_member: true,
        is_ghost: piece.is_ghost,
    })
}

/// What a set of objects is as state: those of a class, or others.
fn set_state(alloc: Global, text: &str, class: Option<usize>) -> Result<StateName, NoMemory>
    ensures { IfOk result (λ made. made ≡ states.set_state text.now class) }
{
    Ok(StateName {
        name: name(alloc, text, 0)?,
        sort: Sort::Set,
        kind: Kind::Set,
        class,
        is_member: false,
        is_ghost: false,
    })
}

/// Adds the members of a class.
fn push_pieces(
    alloc: Global,
    list: &mut Vec<StateName>,
    number: usize,
    class: &str,
    pieces: &[Piece],
) -> Result<(), NoMemory>
    ensures { OnOk result (list.new.items ≡ list.old.items ++ map (states.member_state number class.now) (pieces_in pieces.now)) }
{
    for piece in pieces {
        let state = member_state(alloc, number, class, piece)?;
        list.push(state)?;
    }
    Ok(())
}

/// Adds the statics, fields and ghost variables of a class.
fn push_class(
    alloc: Global,
    list: &mut Vec<StateName>,
    number: usize,
    class: &Class,
) -> Result<(), NoMemory>
    ensures { OnOk result (list.new.items ≡ list.old.items ++ states.class_states number (class_part class.now)) }
{
    let pieces = pieces_of(alloc, class)?;
    push_pieces(
        alloc,
        list,
        number,
        class.name.text.text(),
        pieces.as_slice(),
    )
}

/// Adds the sets of the objects of classes.
fn push_sets(alloc: Global, list: &mut Vec<StateName>, classes: &[Class]) -> Result<(), NoMemory>
    ensures { OnOk result (list.new.items ≡ list.old.items ++ states.class_sets 0 (map class_part classes.now)) }
{
    for number in 0..classes.len() {
        let state = set_state(alloc, classes[number].name.text.text(), Some(number))?;
        list.push(state)?;
    }
    let plain = set_state(alloc, "Object", None)?;
    list.push(plain)?;
    Ok(())
}

/// Adds the members of classes.
fn push_classes(alloc: Global, list: &mut Vec<StateName>, classes: &[Class]) -> Result<(), NoMemory>
    ensures { OnOk result (list.new.items ≡ list.old.items ++ states.members 0 (map class_part classes.now)) }
{
    for number in 0..classes.len() {
        push_class(alloc, list, number, &classes[number])?;
    }
    Ok(())
}

/// The state names of a program, in order: `alloc`; the sets of the objects of the classes, and that of the
/// plain objects; then, class by class, statics, fields and ghost variables.
pub fn state_list(alloc: Global, program: &Program) -> Result<Vec<StateName>, NoMemory>
    ensures list { IfOk result (λ made. made.items ≡ states.state_list (program_tree program.now)) }
    ensures names { IfOk result (λ made. map (λ s. s.name) made.items ≡ state_names (program_tree program.now)) }
{
    let mut list = Vec::new(alloc);
    let allocated = set_state(alloc, "alloc", None)?;
    list.push(allocated)?;
    push_sets(alloc, &mut list, program.classes.items())?;
    push_classes(alloc, &mut list, program.classes.items())?;
    Ok(list)
}
