#![tactic(auto, unfolding(crate::specs::classes::Equatable::equatable))]

ghost use Rattle.std.specs.Prelude.{◌≡◌, ◌↔◌, IsTrue};
ghost use Rattle.jh_arena.specs.table.Nodes.{nodes};
ghost use Rattle.jh_cong.specs.classes.Equatable.{equatable};
ghost use Rattle.jh_cong.specs.classes.Saying.{CanBeSaid};

use jh_arena::table::Table;
use jh_name::Sort;

/// Whether two sorts are one, and not that of fields.
fn are_equatable(left: Sort, right: Sort) -> bool
    ensures { result ≡ equatable left right }
{
    match left {
        Sort::Obj => match right {
            Sort::Obj => true,
            _ => false,
        },
        Sort::Int => match right {
            Sort::Int => true,
            _ => false,
        },
        Sort::Bool => match right {
            Sort::Bool => true,
            _ => false,
        },
        Sort::Set => match right {
            Sort::Set => true,
            _ => false,
        },
        Sort::Field => false,
    }
}

/// Whether two numbers are nodes whose equation can be asserted.
pub(crate) fn can_be_said(table: &Table, left: usize, right: usize) -> bool
    ensures { IsTrue result ↔ CanBeSaid (nodes table.now) left right }
{
    if left >= table.len() || right >= table.len() {
        return false;
    }
    are_equatable(table.sort(left), table.sort(right))
}
