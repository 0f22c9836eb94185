ghost use Rattle.std.specs.Prelude.{◌≡◌, ◌+◌, ◌*◌, ◌^◌, ◌≤◌};
ghost use Rattle.jh_containers.specs.capped_counts.Capped.{capped};

use crate::capped_counts::capped::plus;

/// How many columns the digit system of a query has, at most the greatest count: one for the rest of each region, two for
/// each number, and the slacks that its atoms add.
pub fn column_count(sets: u32, numbers: u32, slacks: u128) -> u128
    requires { sets ≤ 16 }
    ensures { result ≡ capped (2 ^ sets + (2 * numbers + slacks)) }
{
    plus(1 << sets, plus(2 * numbers as u128, slacks))
}
