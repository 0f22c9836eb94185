ghost use Rattle.std.specs.Prelude.{◌≡◌, ◌≢◌, ◌<◌, ◌≤◌, ℕ, length, slice_get, slice_index, Some};
ghost use Rattle.jh_closure.specs.union_find.Merges.{root};
ghost use Rattle.jh_closure.specs.union_find.Stamps.{IsStamped, IsTurn};

use crate::union_find::Merge;

/// The first merge by which one of two numbers went, and whether it was the left one.
#[derive(Clone, Copy)]
pub(crate) struct Turn {
    pub(crate) time: usize,
    pub(crate) left_went: bool,
}

/// The number at a place.
fn item(list: &[usize], place: usize) -> usize
    requires { place < length list.now }
    ensures { result ≡ slice_index list.now place }
{
    list[place]
}

/// The merge at a place.
pub(crate) fn merge_in(merges: &[Merge], time: usize) -> Merge
    requires { time < length merges.now }
    ensures { slice_get merges.now time ≡ Some result }
{
    merges[time]
}

/// The representative of a number after the first merges.
pub(crate) fn root_at(merges: &[Merge], stamps: &[usize], time: usize, number: usize) -> usize
    requires stamped { IsStamped merges.now stamps.now }
    requires time { time ≤ length merges.now }
    requires number { number < length stamps.now }
    ensures root { result ≡ root merges.now time number }
    ensures inside { result < length stamps.now }
{
    let mut at = number;
    while item(stamps, at) < time {
        at = merge_in(merges, item(stamps, at)).large;
    }
    at
}

/// The merge by which two numbers came together, where they are one after the first merges.
pub(crate) fn turn_of(
    merges: &[Merge],
    stamps: &[usize],
    before: usize,
    left: usize,
    right: usize,
) -> Turn
    requires stamped { IsStamped merges.now stamps.now }
    requires before { before ≤ length merges.now }
    requires left { left < length stamps.now }
    requires right { right < length stamps.now }
    requires apart { left ≢ right }
    requires same { root merges.now before left ≡ root merges.now before right }
    ensures before { result.time < before }
    ensures turn { IsTurn merges.now left right result }
    ensures late { (t : ℕ) → t ≤ slice_index stamps.now left → t ≤ slice_index stamps.now right → t ≤ result.time }
{
    let first = item(stamps, left);
    let second = item(stamps, right);
    if first < second {
        let large = merge_in(merges, first).large;
        if large == right {
            return Turn {
                time: first,
                left_went: true,
            };
        }
        turn_of(merges, stamps, before, large, right)
    } else {
        let large = merge_in(merges, second).large;
        if large == left {
            return Turn {
                time: second,
                left_went: false,
            };
        }
        turn_of(merges, stamps, before, left, large)
    }
}
