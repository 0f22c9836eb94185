ghost use Rattle.std.specs.Prelude.{◌≡◌};
ghost use Rattle.jh_rules.specs.Found.{lesser};

use jh_rules::{Fault, lesser};

/// The least of three faults, where there are any: the least place first, and there the least rule.
pub fn least_of_three(
    first: Option<Fault>,
    second: Option<Fault>,
    third: Option<Fault>,
) -> Option<Fault>
    ensures { result ≡ lesser (lesser first second) third }
{
    lesser(lesser(first, second), third)
}
