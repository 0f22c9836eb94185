ghost use Rattle.std.specs.Prelude.{◌≡◌, ◌*◌, ◌≤◌, ◌-ℤ◌, length, unsigned_abs};
ghost use Rattle.jh_query.specs.queries.Sides.{side_tree};
ghost use Rattle.jh_query.specs.queries.Truth.{read_number};
ghost use Rattle.jh_query.specs.queries.Linear.{constant_part, number_factor, placed_part, rest_factor};
ghost use Rattle.jh_query.specs.queries.Size.{card_weight};
ghost use Rattle.jh_query_branching.specs.Branches.{Narrow, moved, or_nought};

use crate::counting::moved_side;
use jh_query::queries::{Part, Side, Spot, part_of_side};

/// A number that is there and isn't large.
fn narrowed(value: Option<i128>) -> i64
    requires { unsigned_abs (or_nought value) ≤ 67108864 }
    ensures { result ≡ or_nought value }
{
    match value {
        Some(value) => value as i64,
        None => 0,
    }
}

/// The factor of the rest of a region.
pub fn rest_factor(side: &Side<'_>, region: u64) -> i64
    requires { Narrow (rest_factor region) (side_tree side.now) }
    ensures { result ≡ read_number (rest_factor region) (side_tree side.now) }
{
    narrowed(part_of_side(side, Part::Rest(region)))
}

/// The factor of a number.
pub fn number_factor(side: &Side<'_>, number: u32) -> i64
    requires { Narrow (number_factor number) (side_tree side.now) }
    ensures { result ≡ read_number (number_factor number) (side_tree side.now) }
{
    narrowed(part_of_side(side, Part::Number(number)))
}

/// What is left where all rests and numbers are 0, and there are no elements.
fn constant(side: &Side<'_>) -> i64
    requires { Narrow constant_part (side_tree side.now) }
    ensures { result ≡ read_number constant_part (side_tree side.now) }
{
    narrowed(part_of_side(side, Part::Constant))
}

/// What the classes of a placement add.
fn moved(side: &Side<'_>, spots: &[Spot]) -> i64
    requires { length spots.now * card_weight (side_tree side.now) ≤ 67108864 }
    ensures value { result ≡ moved spots.now (side_tree side.now) }
    ensures bound { unsigned_abs result ≤ 67108864 }
{
    narrowed(moved_side(side, spots))
}

/// A difference.
fn minus(left: i64, right: i64) -> i64
    requires left { unsigned_abs left ≤ 134217728 }
    requires right { unsigned_abs right ≤ 67108864 }
    ensures { result ≡ left -ℤ right }
{
    left - right
}

/// The right side of an equation: what is added, without what is left of its side where all columns are 0.
pub fn right_of(side: &Side<'_>, added: i64, spots: &[Spot]) -> i64
    requires constant { Narrow constant_part (side_tree side.now) }
    requires cards { length spots.now * card_weight (side_tree side.now) ≤ 67108864 }
    requires added { unsigned_abs added ≤ 67108864 }
    ensures { result ≡ added -ℤ read_number (placed_part spots.now) (side_tree side.now) }
{
    let first = minus(added, constant(side));
    minus(first, moved(side, spots))
}
