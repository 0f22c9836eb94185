ghost use Rattle.std.specs.Prelude.{◌≡◌, ◌<◌, length};
ghost use Rattle.jh_query_branching.specs.Branches.{new_spot};

use jh_query::queries::Spot;

/// Where the next element stands as an object of its own in a region: in a class of its own.
pub fn new_spot(spots: &[Spot], region: u64) -> Spot
    requires { length spots.now < 4294967296 }
    ensures { result ≡ new_spot spots.now region }
{
    let class = spots.len() as u32;
    Spot { class, region }
}
