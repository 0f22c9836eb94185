ghost use Rattle.std.specs.Prelude.{◌≡◌, ◌+◌, ◌*◌};
ghost use Rattle.jh_seq.specs.counting.Goals.{capped};

/// A sum that stays at the greatest count.
pub(crate) fn plus(left: u128, right: u128) -> u128
    ensures { result ≡ capped (left + right) }
{
    left.saturating_add(right)
}

/// A product that stays at the greatest count.
pub(crate) fn times(left: u128, right: u128) -> u128
    ensures { result ≡ capped (left * right) }
{
    left.saturating_mul(right)
}
