ghost use Rattle.std.specs.Prelude.{◌≡◌, ◌↔◌, ◌^◌, ◌<◌, ℕ, IsTrue, length};
ghost use Rattle.jh_query.specs.queries.Bare.{query_tree};
ghost use Rattle.jh_query.specs.queries.Sizing.{sizing_of};
ghost use Rattle.jh_query.specs.queries.Truth.{Fits, spot_of};

use crate::queries::inside::spot_of;
use crate::queries::{Query, Sizes, Spot};

/// Whether there are as many as regions of so many sets.
fn is_region_count(count: usize, sets: u32) -> bool
    ensures { IsTrue result ↔ (count ≡ 2 ^ sets) }
{
    sets < 64 && count as u64 == 1u64 << sets
}

/// Whether a region is one of so many sets.
fn is_region(region: u64, sets: u32) -> bool
    ensures { IsTrue result ↔ (region < 2 ^ sets) }
{
    sets >= 64 || region < 1u64 << sets
}

/// Whether each element is in a region of so many sets.
fn are_regions(spots: &[Spot], sets: u32) -> bool
    ensures { IsTrue result ↔ ((i : ℕ) → i < length spots.now → (spot_of spots.now i).region < 2 ^ sets) }
{
    for element in 0..spots.len() {
        if !is_region(spot_of(spots, element).region, sets) {
            return false;
        }
    }
    true
}

/// Whether two elements are in one region, or of two classes.
fn are_apart(spots: &[Spot], element: usize, other: usize) -> bool
    ensures { IsTrue result ↔ ((spot_of spots.now element).class ≡ (spot_of spots.now other).class → (spot_of spots.now element).region ≡ (spot_of spots.now other).region) }
{
    let left = spot_of(spots, element);
    let right = spot_of(spots, other);
    left.class != right.class || left.region == right.region
}

/// Whether an element is in the region of each element of its class.
fn is_class(spots: &[Spot], element: usize) -> bool
    ensures { IsTrue result ↔ ((j : ℕ) → j < length spots.now → (spot_of spots.now element).class ≡ (spot_of spots.now j).class → (spot_of spots.now element).region ≡ (spot_of spots.now j).region) }
{
    for other in 0..spots.len() {
        if !are_apart(spots, element, other) {
            return false;
        }
    }
    true
}

/// Whether the elements of each class are in one region.
fn are_classes(spots: &[Spot]) -> bool
    ensures { IsTrue result ↔ ((i j : ℕ) → i < length spots.now → j < length spots.now → (spot_of spots.now i).class ≡ (spot_of spots.now j).class → (spot_of spots.now i).region ≡ (spot_of spots.now j).region) }
{
    for element in 0..spots.len() {
        if !is_class(spots, element) {
            return false;
        }
    }
    true
}

/// Whether the lists of sizes have the lengths of a query.
fn are_lengths(query: &Query, sizes: &Sizes) -> bool
    ensures { IsTrue result ↔ ((length sizes.now.rest ≡ 2 ^ query.now.sets) × (length sizes.now.spots ≡ query.now.elements) × (length sizes.now.numbers ≡ query.now.numbers) × (length sizes.now.flags ≡ query.now.flags)) }
{
    is_region_count(sizes.rest.items().len(), query.sets)
        && sizes.spots.items().len() == query.elements as usize
        && sizes.numbers.items().len() == query.numbers as usize
        && sizes.flags.items().len() == query.flags as usize
}

/// Whether sizes fit a query: their lists have its lengths, their regions are regions of its sets, and
/// elements of one class have one region.
pub fn fits(query: &Query, sizes: &Sizes) -> bool
    ensures { IsTrue result ↔ Fits (query_tree query.now) (sizing_of sizes.now) }
{
    let spots = sizes.spots.items();
    are_lengths(query, sizes) && are_regions(spots, query.sets) && are_classes(spots)
}
