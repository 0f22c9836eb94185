#![tactic(auto, unfolding(jh_rules::specs::Found::least))]

ghost use Rattle.std.specs.Prelude.{◌≡◌};
ghost use Rattle.jh_rules.specs.Faults as faults;
ghost use Rattle.jh_rules.specs.Found.{least};

use jh_name::Place;
use jh_rules::Fault;

/// A fault where the test holds.
pub fn broken(rule: u8, place: Place, test: bool) -> Option<Fault>
    ensures { result ≡ least (faults.broken rule place test) }
{
    if test {
        Some(Fault { place, rule })
    } else {
        None
    }
}
