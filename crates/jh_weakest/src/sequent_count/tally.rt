#![tactic(auto, using(crate::proofs::sequent_count::Shares::share_steps))]

ghost use Rattle.std.specs.Prelude.{◌≡◌, ◌+◌, ◌*◌, ◌<◌, true, false, IfOk, IfSome, OnOk, List, [], ◌∷◌, length, slice_get, Some};
ghost use Rattle.jh_arena.specs.table.Entries.{Listing};
ghost use Rattle.jh_weakest.specs.declared.sequent_count.tally.Share.{Share};
ghost use Rattle.jh_seq.specs.counting.Goals.{Weights, capped, ones};
ghost use Rattle.jh_weakest.specs.sequent_count.Tallies.{name_at, shares_of, tally_of, AreNames, IsName, IsTaken, Lacks};

use crate::sequent_count::capped::plus;
use jh_name::NoMemory;
use std::alloc::Global;

/// How often a truth name stands as a whole goal, under a label or not. The name is known by its node.
#[derive(Clone, Copy)]
pub(crate) struct Share {
    pub(crate) leaf: usize,
    pub(crate) marked: bool,
    pub(crate) times: u128,
}

/// What has to be true: so many goals, and the shares of truth names.
#[derive(Drop)]
pub(crate) struct Tally {
    pub(crate) fixed: u128,
    pub(crate) shares: Vec<Share>,
}

/// The shares without those of one name, and how often it stands under no label and under one.
#[derive(Drop)]
pub(crate) struct Taken {
    pub(crate) rest: Vec<Share>,
    pub(crate) plain: u128,
    pub(crate) marked: u128,
}

impl Tally {
    /// No goals.
    pub(crate) fn new(alloc: Global) -> Tally
        ensures fixed { result.fixed ≡ 0 }
        ensures shares { result.shares.items ≡ [] }
    {
        Tally {
            fixed: 0,
            shares: Vec::new(alloc),
        }
    }

    /// The same tally once more.
    pub(crate) fn copy(&self, alloc: Global) -> Result<Tally, NoMemory>
        ensures fixed { IfOk result (λ made. made.fixed ≡ self.now.fixed) }
        ensures shares { IfOk result (λ made. made.shares.items ≡ self.now.shares.items) }
    {
        let mut shares = Vec::new(alloc);
        shares.extend_from_slice(self.shares.as_slice())?;
        Ok(Tally {
            fixed: self.fixed,
            shares,
        })
    }

    /// Adds goals that hang on no name.
    pub(crate) fn add_fixed(&mut self, often: u128)
        ensures fixed { self.new.fixed ≡ capped (self.old.fixed + often) }
        ensures shares { self.new.shares.items ≡ self.old.shares.items }
    {
        self.fixed = plus(self.fixed, often);
    }

    /// Adds a truth name as a goal, so often.
    pub(crate) fn add(&mut self, leaf: usize, marked: bool, often: u128) -> Result<(), NoMemory>
        ensures names { (t : Listing) → AreNames t self.old.shares.items → IsName t leaf → OnOk result (AreNames t self.new.shares.items) }
        ensures goals { OnOk result ((t : Listing) (w : Weights) → capped (tally_of t self.new.fixed self.new.shares.items w) ≡ capped (tally_of t self.old.fixed self.old.shares.items w + often * w (name_at t leaf) marked)) }
    {
        match place_of(self.shares.as_slice(), leaf, marked) {
            Some(place) => {
                let share = share_at(self.shares.as_slice(), place);
                let times = plus(share.times, often);
                self.shares[place] = Share {
                    leaf,
                    marked,
                    times,
                };
                Ok(())
            }
            None => {
                self.shares.push(Share {
                    leaf,
                    marked,
                    times: often,
                })?;
                Ok(())
            }
        }
    }

    /// The goals of two tallies.
    pub(crate) fn join(self, fixed: u128, shares: &[Share]) -> Result<Tally, NoMemory>
        ensures names { (t : Listing) → AreNames t self.shares.items → AreNames t shares.now → IfOk result (λ made. AreNames t made.shares.items) }
        ensures goals { IfOk result (λ made. (t : Listing) (w : Weights) → capped (tally_of t made.fixed made.shares.items w) ≡ capped (tally_of t self.fixed self.shares.items w + tally_of t fixed shares.now w)) }
    {
        let mut made = self;
        made.add_fixed(fixed);
        for index in 0..shares.len() {
            let share = share_at(shares, index);
            made.add(share.leaf, share.marked, share.times)?;
        }
        Ok(made)
    }

    /// All goals, where each truth name is one.
    pub(crate) fn total(&self) -> u128
        ensures { (t : Listing) → result ≡ capped (tally_of t self.now.fixed self.now.shares.items ones) }
    {
        let mut total = self.fixed;
        for index in 0..self.shares.len() {
            let share = share_at(self.shares.as_slice(), index);
            total = plus(total, share.times);
        }
        total
    }
}

/// The share at a place.
fn share_at(shares: &[Share], place: usize) -> Share
    requires { place < length shares.now }
    ensures { slice_get shares.now place ≡ Some result }
{
    shares[place]
}

/// The place of the share of a name, under a label or not.
fn place_of(shares: &[Share], leaf: usize, marked: bool) -> Option<usize>
    ensures within { IfSome result (λ place. place < length shares.now) }
    ensures there { IfSome result (λ place. (s : Share) → slice_get shares.now place ≡ Some s → (s.leaf ≡ leaf) × (s.marked ≡ marked)) }
{
    for index in 0..shares.len() {
        let share = share_at(shares, index);
        if share.leaf == leaf && share.marked == marked {
            return Some(index);
        }
    }
    None
}

/// Takes the shares of one name out.
pub(crate) fn take_out(alloc: Global, shares: &[Share], leaf: usize) -> Result<Taken, NoMemory>
    ensures names { IfOk result (λ made. (t : Listing) → AreNames t shares.now → AreNames t made.rest.items) }
    ensures lacks { IfOk result (λ made. Lacks leaf made.rest.items) }
    ensures goals { IfOk result (λ made. (t : Listing) (w : Weights) → capped (shares_of t shares.now w) ≡ capped (shares_of t made.rest.items w + (made.plain * w (name_at t leaf) false + made.marked * w (name_at t leaf) true))) }
{
    let mut made = Taken {
        rest: Vec::new(alloc),
        plain: 0,
        marked: 0,
    };
    for index in 0..shares.len() {
        let share = share_at(shares, index);
        sort_out(&mut made, share, leaf)?;
    }
    Ok(made)
}

/// Puts one share to the rest, or to what was taken.
fn sort_out(made: &mut Taken, share: Share, leaf: usize) -> Result<(), NoMemory>
    ensures names { (t : Listing) → AreNames t made.old.rest.items → IsName t share.leaf → OnOk result (AreNames t made.new.rest.items) }
    ensures lacks { Lacks leaf made.old.rest.items → OnOk result (Lacks leaf made.new.rest.items) }
    ensures goals { OnOk result ((t : Listing) (w : Weights) (all more : List Share) → IsTaken t w leaf all made.old.rest.items made.old.plain made.old.marked (share ∷ more) → IsTaken t w leaf all made.new.rest.items made.new.plain made.new.marked more) }
{
    if share.leaf != leaf {
        made.rest.push(share)?;
        return Ok(());
    }
    if share.marked {
        made.marked = plus(made.marked, share.times);
        Ok(())
    } else {
        made.plain = plus(made.plain, share.times);
        Ok(())
    }
}
