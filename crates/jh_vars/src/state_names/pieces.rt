ghost use Rattle.std.specs.Prelude.{◌≡◌, ◌≤◌, ◌++◌, map, drop, length, IfOk, OnOk};
ghost use Rattle.std.specs.List.{flat_map};
ghost use Rattle.jh_ast.specs.Bare.{field_part, var_part, class_part};
ghost use Rattle.jh_vars.specs.Written as written;
ghost use Rattle.jh_vars.specs.state_names.Pieces.{piece_of, pieces_in};

use jh_ast::{Class, Field, SpecVar, Word};
use jh_name::{Kind, NoMemory};
use jh_rules::is_before;
use jh_symbols::scopes::kind_of_word;
use std::alloc::Global;

/// A static, field or ghost variable where it stands.
#[derive(Clone, Copy)]
pub struct Piece<'a> {
    pub word: &'a Word,
    pub kind: Kind,
    pub fixed: bool,
    pub is_ghost: bool,
}

/// The fields and statics of a class.
fn field_pieces(alloc: Global, fields: &[Field]) -> Result<Vec<Piece<'_>>, NoMemory>
    ensures { IfOk result (λ made. pieces_in made.items ≡ map (λ x. written.field_piece (field_part x)) fields.now) }
{
    let mut made = Vec::new(alloc);
    for field in fields {
        made.push(Piece {
            word: &field.name,
            kind: kind_of_word(&field.jtype),
            fixed: field.fixed,
            is_ghost: false,
        })?;
    }
    Ok(made)
}

/// The ghost variables of a class.
fn ghost_pieces(alloc: Global, vars: &[SpecVar]) -> Result<Vec<Piece<'_>>, NoMemory>
    ensures { IfOk result (λ made. pieces_in made.items ≡ flat_map (λ v. written.ghost_pieces (var_part v)) vars.now) }
{
    let mut made = Vec::new(alloc);
    for var in vars {
        if var.is_ghost {
            made.push(Piece {
                word: &var.name,
                kind: var.kind,
                fixed: var.fixed,
                is_ghost: true,
            })?;
        }
    }
    Ok(made)
}

/// Whether a piece stands before another.
fn stands_before(left: &Piece, right: &Piece) -> bool
    ensures { result ≡ written.stands_before (piece_of left.now) (piece_of right.now) }
{
    is_before(left.word.place, right.word.place)
}

/// Adds the pieces from a place of a list on that stand before one, and answers the place behind them.
fn push_before<'a>(
    made: &mut Vec<Piece<'a>>,
    next: &Piece,
    others: &[Piece<'a>],
    at: usize,
) -> Result<usize, NoMemory>
    requires { at ≤ length others.now }
    ensures pieces { IfOk result (λ end. pieces_in made.new.items ≡ pieces_in made.old.items ++ written.front_before (piece_of next.now) (pieces_in (drop at others.now))) }
    ensures rest { IfOk result (λ end. pieces_in (drop end others.now) ≡ written.rest_behind (piece_of next.now) (pieces_in (drop at others.now))) }
    ensures inside { IfOk result (λ end. end ≤ length others.now) }
{
    let mut end = at;
    while end < others.len() {
        if !stands_before(&others[end], next) {
            return Ok(end);
        }
        made.push(others[end])?;
        end += 1;
    }
    Ok(end)
}

/// Adds the pieces from a place of a list on.
fn push_rest<'a>(made: &mut Vec<Piece<'a>>, others: &[Piece<'a>], at: usize) -> Result<(), NoMemory>
    requires { at ≤ length others.now }
    ensures { OnOk result (pieces_in made.new.items ≡ pieces_in made.old.items ++ pieces_in (drop at others.now)) }
{
    made.extend_from_slice(&others[at..])?;
    Ok(())
}

/// Two lists in the order of the text as one.
fn merged<'a>(
    alloc: Global,
    left: &[Piece<'a>],
    right: &[Piece<'a>],
) -> Result<Vec<Piece<'a>>, NoMemory>
    ensures { IfOk result (λ made. pieces_in made.items ≡ written.merged (pieces_in left.now) (pieces_in right.now)) }
{
    let mut made = Vec::new(alloc);
    let mut at = 0;
    for piece in left {
        at = push_before(&mut made, piece, right, at)?;
        made.push(*piece)?;
    }
    push_rest(&mut made, right, at)?;
    Ok(made)
}

/// The statics, fields and ghost variables of a class in the order of the text.
pub fn pieces_of(alloc: Global, class: &Class) -> Result<Vec<Piece<'_>>, NoMemory>
    ensures { IfOk result (λ made. pieces_in made.items ≡ written.pieces_of (class_part class.now)) }
{
    let fields = field_pieces(alloc, class.fields.items())?;
    let ghosts = ghost_pieces(alloc, class.vars.items())?;
    merged(alloc, fields.as_slice(), ghosts.as_slice())
}
