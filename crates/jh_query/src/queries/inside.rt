#![tactic(auto, unfolding(crate::specs::queries::Bare::set_tree, crate::specs::queries::Bare::num_tree, crate::specs::queries::Bare::cond_tree))]

ghost use Rattle.std.specs.Prelude.{◌≡◌, Option};
ghost use Rattle.jh_query.specs.queries.Bare.{set_tree};
ghost use Rattle.jh_query.specs.queries.Truth.{class_lies, is_in, is_of, lies, nowhere, rest_lies, spot_of};

use crate::queries::{SetExpr, Spot};

/// Whether a region lies in a set.
fn is_in(region: u64, set: u32) -> bool
    ensures { result ≡ is_in region set }
{
    set < 64 && (region >> set) % 2 == 1
}

/// Where an element stands; what is no element stands nowhere.
pub fn spot_of(spots: &[Spot], element: usize) -> Spot
    ensures { result ≡ spot_of spots.now element }
{
    match spots.get(element) {
        Some(spot) => *spot,
        None => Spot {
            class: 0,
            region: 0,
        },
    }
}

/// Whether an element is of a class.
fn is_of(spots: &[Spot], class: Option<u32>, element: u32) -> bool
    ensures { result ≡ is_of spots.now class element }
{
    match class {
        Some(class) => spot_of(spots, element as usize).class == class,
        None => false,
    }
}

/// Whether an object of a region lies inside a set. It is each element of the class, and none where
/// there is no class.
fn lies(set: &SetExpr, region: u64, class: Option<u32>, spots: &[Spot]) -> bool
    ensures { result ≡ lies (is_of spots.now class) region (set_tree set.now) }
{
    match set {
        SetExpr::Var(set) => is_in(region, *set),
        SetExpr::Empty => false,
        SetExpr::All => true,
        SetExpr::One(element) => is_of(spots, class, *element),
        SetExpr::Union(left, right) => {
            lies(left, region, class, spots) || lies(right, region, class, spots)
        }
        SetExpr::Inter(left, right) => {
            lies(left, region, class, spots) && lies(right, region, class, spots)
        }
        SetExpr::Diff(left, right) => {
            lies(left, region, class, spots) && !lies(right, region, class, spots)
        }
        SetExpr::Compl(inner) => !lies(inner, region, class, spots),
    }
}

/// Whether the class of an element lies inside a set.
pub fn class_lies(set: &SetExpr, element: usize, spots: &[Spot]) -> bool
    ensures { result ≡ class_lies spots.now element (set_tree set.now) }
{
    let spot = spot_of(spots, element);
    lies(set, spot.region, Some(spot.class), spots)
}

/// Whether the objects of a region that are no element lie inside a set.
pub fn rest_lies(set: &SetExpr, region: u64) -> bool
    ensures { result ≡ rest_lies region (set_tree set.now) }
{
    lies(set, region, None, &[])
}
