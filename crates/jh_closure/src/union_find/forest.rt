ghost use Rattle.std.specs.Prelude.{◌≡◌, ◌≢◌, ◌<◌, ◌≤◌, ◌++◌, ◌-◌, [], ◌∷◌, ℕ, Some, length, slice_get, take, IfNone, IfOk, IfSome, OnErr, OnOk, slice_set};
ghost use Rattle.jh_closure.specs.union_find.Merges.{root, class_of, merged, IsJoint, IsOriented};

use crate::union_find::climbing::{merge_in, root_at, turn_of};
use crate::union_find::{Cause, Joint, Merge};
use jh_name::NoMemory;
use std::alloc::Global;
use std::marker::Model;

/// The stamp of a number whose class hasn't gone into another one.
const NEVER: usize = usize::MAX;

/// Classes of numbers from 0 on, and the merges that made them, in their order.
#[derive(Drop)]
pub struct Forest {
    merges: Vec<Merge>,
    stamps: Vec<usize>,
    weights: Vec<usize>,
}

impl Model for Forest {
    ghost use Rattle.std.specs.Prelude.{length};
    ghost use Rattle.jh_closure.specs.union_find.Merges.{Classes};
    ghost use Rattle.jh_closure.specs.union_find.Stamps.{IsForest};

    ghost Value = { Classes };

    ghost view = { λ f. record { count = length f.stamps.items; merges = f.merges.items } };

    ghost invariant = { λ f. IsForest f.merges.items f.stamps.items f.weights.items };
}

/// Adds a merge, and stamps the number that goes by it. Where memory is wanting nothing changes.
fn note(merges: &mut Vec<Merge>, stamps: &mut Vec<usize>, merge: Merge) -> Result<(), NoMemory>
    requires { merge.small < length stamps.old.items }
    ensures merges { OnOk result (merges.new.items ≡ merges.old.items ++ merge ∷ []) }
    ensures stamps { OnOk result (stamps.new.items ≡ slice_set stamps.old.items merge.small (length merges.old.items)) }
    ensures merges_stay { OnErr result (merges.new.items ≡ merges.old.items) }
    ensures stamps_stay { OnErr result (stamps.new.items ≡ stamps.old.items) }
{
    let time = merges.as_slice().len();
    merges.push(merge)?;
    stamps[merge.small] = time;
    Ok(())
}

/// Adds the weight of one number to that of another.
fn add_weight(weights: &mut Vec<usize>, from: usize, to: usize)
    requires from { from < length weights.old.items }
    requires to { to < length weights.old.items }
    ensures { length weights.new.items ≡ length weights.old.items }
{
    weights[to] = weights[to].wrapping_add(weights[from]);
}

/// Takes the weight of one number off that of another.
fn take_weight(weights: &mut Vec<usize>, from: usize, to: usize)
    requires from { from < length weights.old.items }
    requires to { to < length weights.old.items }
    ensures { length weights.new.items ≡ length weights.old.items }
{
    weights[to] = weights[to].wrapping_sub(weights[from]);
}

impl Forest {
    /// Each number from 0 on is a class of its own, and weighs what the list says.
    pub fn new(alloc: Global, weights: Vec<usize>) -> Result<Forest, NoMemory>
        ensures { IfOk result (λ made. made ≡ record { count = length weights.items; merges = [] }) }
    {
        let stamps = vec![in alloc; NEVER; weights.len()]?;
        Ok(Forest {
            merges: Vec::new(alloc),
            stamps,
            weights,
        })
    }

    /// How many merges there are. There are fewer than numbers.
    pub fn len(&self) -> usize
        ensures len { result ≡ length self.now.merges }
        ensures few { length self.now.merges ≤ self.now.count }
    {
        self.merges.as_slice().len()
    }

    /// The merge at a place.
    pub fn merge_at(&self, time: usize) -> Merge
        requires { time < length self.now.merges }
        ensures { slice_get self.now.merges time ≡ Some result }
    {
        merge_in(self.merges.as_slice(), time)
    }

    /// The representative of a number's class.
    pub fn find(&self, number: usize) -> usize
        requires { number < self.now.count }
        ensures class { result ≡ class_of self.now.merges number }
        ensures inside { result < self.now.count }
    {
        root_at(
            self.merges.as_slice(),
            self.stamps.as_slice(),
            self.merges.as_slice().len(),
            number,
        )
    }

    /// The merge by which two numbers came together, where they are one after the first merges.
    pub fn joint(&self, before: usize, left: usize, right: usize) -> Joint
        requires before { before ≤ length self.now.merges }
        requires left { left < self.now.count }
        requires right { right < self.now.count }
        requires apart { left ≢ right }
        requires same { root self.now.merges before left ≡ root self.now.merges before right }
        ensures before { result.time < before }
        ensures joint { IsJoint self.now.merges left right result }
    {
        let turn = turn_of(
            self.merges.as_slice(),
            self.stamps.as_slice(),
            before,
            left,
            right,
        );
        if turn.left_went {
            Joint {
                time: turn.time,
                goes: left,
                stays: right,
            }
        } else {
            Joint {
                time: turn.time,
                goes: right,
                stays: left,
            }
        }
    }

    /// The merge of the classes of two numbers that are one, where these are their representatives. The lighter class
    /// goes.
    pub fn merge_of(&self, cause: Cause, first: usize, second: usize) -> Merge
        requires first { first < self.now.count }
        requires second { second < self.now.count }
        ensures { IsOriented cause first second result }
    {
        if self.weights[first] <= self.weights[second] {
            Merge {
                left: cause.left,
                right: cause.right,
                small: first,
                large: second,
                why: cause.why,
            }
        } else {
            Merge {
                left: cause.right,
                right: cause.left,
                small: second,
                large: first,
                why: cause.why,
            }
        }
    }

    /// Adds a merge of two classes, each named by its representative. Where memory is wanting nothing changes.
    pub fn attach(&mut self, merge: Merge) -> Result<(), NoMemory>
        requires small { merge.small < self.old.count }
        requires large { merge.large < self.old.count }
        requires small_root { class_of self.old.merges merge.small ≡ merge.small }
        requires large_root { class_of self.old.merges merge.large ≡ merge.large }
        requires apart { merge.small ≢ merge.large }
        ensures ok { OnOk result (self.new ≡ record { count = self.old.count; merges = self.old.merges ++ merge ∷ [] }) }
        ensures few { OnOk result (length self.new.merges ≤ self.new.count) }
        ensures err { OnErr result (self.new ≡ self.old) }
    {
        note(&mut self.merges, &mut self.stamps, merge)?;
        add_weight(&mut self.weights, merge.small, merge.large);
        Ok(())
    }

    /// Takes the last merge back, if there is one.
    pub fn detach(&mut self) -> Option<Merge>
        ensures some { IfSome result (λ m. self.old.merges ≡ self.new.merges ++ m ∷ []) }
        ensures small { IfSome result (λ m. m.small < self.old.count) }
        ensures large { IfSome result (λ m. m.large < self.old.count) }
        ensures apart { IfSome result (λ m. m.small ≢ m.large) }
        ensures none { IfNone result (self.old.merges ≡ []) }
        ensures rest { self.new.merges ≡ take (length self.old.merges - 1) self.old.merges }
        ensures count { self.new.count ≡ self.old.count }
    {
        let merge = self.merges.pop()?;
        self.stamps[merge.small] = NEVER;
        take_weight(&mut self.weights, merge.small, merge.large);
        Some(merge)
    }
}
