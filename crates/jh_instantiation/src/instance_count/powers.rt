ghost use Rattle.std.specs.Prelude.{◌≡◌, ◌^◌};
ghost use Rattle.jh_query.specs.queries.Size.{capped};

use crate::instance_count::capped::times;

/// A power that stays at the greatest count.
pub(crate) fn power(base: u128, exponent: usize) -> u128
    ensures { result ≡ capped (base ^ exponent) }
{
    let mut made = 1;
    for _turn in 0..exponent {
        made = times(made, base);
    }
    made
}
