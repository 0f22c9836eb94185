#![tactic(auto, unfolding(crate::specs::table::Sorts::shape_sort))]

ghost use Rattle.std.specs.Prelude.{◌≡◌};
ghost use Rattle.jh_arena.specs.table.Sorts.{shape_sort};

use crate::table::{Arena, Shape};
use jh_boxed::jh_name::Sort;

impl Shape {
    /// The sort of the shape's tree.
    pub fn sort(self) -> Sort
        ensures { result ≡ shape_sort self }
    {
        match self {
            Shape::Bound(_) => Sort::Obj,
            Shape::FreeObject(_) => Sort::Obj,
            Shape::Null => Sort::Obj,
            Shape::ReadObject(_, _) => Sort::Obj,
            Shape::Const(_) => Sort::Int,
            Shape::FreeNumber(_) => Sort::Int,
            Shape::ReadNumber(_, _) => Sort::Int,
            Shape::Add(_, _) => Sort::Int,
            Shape::Sub(_, _) => Sort::Int,
            Shape::Neg(_) => Sort::Int,
            Shape::Scale(_, _) => Sort::Int,
            Shape::Card(_) => Sort::Int,
            Shape::FreeSet(_) => Sort::Set,
            Shape::ReadSet(_, _) => Sort::Set,
            Shape::Empty => Sort::Set,
            Shape::Univ => Sort::Set,
            Shape::Single(_) => Sort::Set,
            Shape::Union(_, _) => Sort::Set,
            Shape::Inter(_, _) => Sort::Set,
            Shape::Diff(_, _) => Sort::Set,
            Shape::Compl(_) => Sort::Set,
            Shape::Compr(_) => Sort::Set,
            Shape::FreeField(_) => Sort::Field,
            Shape::Update(_, _, _) => Sort::Field,
            _ => Sort::Bool,
        }
    }
}
