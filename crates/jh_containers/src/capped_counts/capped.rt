ghost use Rattle.std.specs.Prelude.{◌≡◌, ◌+◌, ◌*◌};
ghost use Rattle.jh_containers.specs.capped_counts.Capped.{capped};

/// A sum that stays at the greatest count.
pub fn plus(left: u128, right: u128) -> u128
    ensures { result ≡ capped (left + right) }
{
    left.saturating_add(right)
}

/// A product that stays at the greatest count.
pub fn times(left: u128, right: u128) -> u128
    ensures { result ≡ capped (left * right) }
{
    left.saturating_mul(right)
}
