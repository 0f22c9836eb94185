ghost use Rattle.std.specs.Prelude.{◌≡◌, ◌≢◌, ◌<◌, ◌≤◌, ◌+◌, ◌*◌, ◌++◌, ◌⊎◌, [], ◌∷◌, ℕ, IfOk, List, OnOk, Some, length, slice_get, slice_set, true};
ghost use Rattle.jh_closure.specs.union_find.Merges.{class_of, root};
ghost use Rattle.jh_closure.specs.congruence_closure.Nodes.{EachPart, FollowsFrom, Gives, Has, MeetsListed, Structure, node_value, sig};
ghost use Rattle.jh_closure.specs.congruence_closure.Closing.{IsTrail, Justified, PartsInside};
ghost use Rattle.jh_closure.specs.congruence_closure.Explaining.{AreQuestions, EqualUpTo, Explains, IsQuestion, effort, efforts};
ghost use Rattle.jh_closure.specs.declared.congruence_closure.equation.Equation.{Equation};
ghost use Rattle.jh_closure.specs.declared.congruence_closure.explaining.Question.{Question};
ghost use Rattle.jh_closure.specs.declared.union_find.merge.Merge.{Merge};

use crate::congruence_closure::Node;
use crate::congruence_closure::node::node_at;
use crate::union_find::{Forest, Merge, Why};
use jh_name::NoMemory;
use std::alloc::Global;

/// Two nodes that are one after the first merges, of which it is asked why.
#[derive(Clone, Copy)]
pub(crate) struct Question {
    pub(crate) left: usize,
    pub(crate) right: usize,
    pub(crate) before: usize,
}

/// Asks why two nodes are one.
fn ask(asked: &mut Vec<Question>, left: usize, right: usize, before: usize) -> Result<(), NoMemory>
    ensures { OnOk result (asked.new.items ≡ asked.old.items ++ record { left = left; right = right; before = before } ∷ []) }
{
    asked.push(Question {
        left,
        right,
        before,
    })?;
    Ok(())
}

/// Asks why the parts of two nodes of one signature are one.
fn ask_parts(
    left: Node,
    right: Node,
    before: usize,
    asked: &mut Vec<Question>,
) -> Result<(), NoMemory>
    ensures keeps { OnOk result ((q : Question) → Has asked.old.items q → Has asked.new.items q) }
    ensures only { OnOk result ((q : Question) → Has asked.new.items q → Has asked.old.items q ⊎ (q.before ≡ before)) }
    ensures asked { OnOk result ((ms : List Merge) (n : ℕ) → before ≤ length ms → sig (root ms before) left ≡ sig (root ms before) right → EachPart (λ p. p < n) left → EachPart (λ p. p < n) right → AreQuestions ms n asked.old.items → AreQuestions ms n asked.new.items) }
    ensures leads { OnOk result ((f : ℕ → ℕ) (s : Structure ℕ) (at : ℕ → ℕ) → sig f left ≡ sig f right → EqualUpTo at asked.new.items before → node_value s at left ≡ node_value s at right) }
    ensures effort { OnOk result (efforts asked.new.items ≤ efforts asked.old.items + 2 * effort before) }
{
    match left {
        Node::Leaf(_) => Ok(()),
        Node::Apply(_, first, second) => match right {
            Node::Leaf(_) => Ok(()),
            Node::Apply(_, third, fourth) => {
                ask(asked, first, third, before)?;
                ask(asked, second, fourth, before)
            }
        },
    }
}

/// Adds why a merge was made: the number of its equation, or questions of the parts of its nodes.
fn add_reason(
    nodes: &[Node],
    merge: Merge,
    time: usize,
    asked: &mut Vec<Question>,
    listed: &mut Vec<usize>,
) -> Result<(), NoMemory>
    requires left { merge.left < length nodes.now }
    requires right { merge.right < length nodes.now }
    requires parts { PartsInside (length nodes.now) nodes.now }
    ensures keeps { OnOk result ((q : Question) → Has asked.old.items q → Has asked.new.items q) }
    ensures only { OnOk result ((q : Question) → Has asked.new.items q → Has asked.old.items q ⊎ (q.before ≡ time)) }
    ensures asked { OnOk result ((said : List Equation) (ms : List Merge) → time ≤ length ms → Justified nodes.now said (root ms time) merge.why merge.left merge.right → AreQuestions ms (length nodes.now) asked.old.items → AreQuestions ms (length nodes.now) asked.new.items) }
    ensures listed { OnOk result ((i : ℕ) → Has listed.old.items i → Has listed.new.items i) }
    ensures numbers { OnOk result ((said : List Equation) (f : ℕ → ℕ) → Justified nodes.now said f merge.why merge.left merge.right → (i : ℕ) → Has listed.new.items i → Has listed.old.items i ⊎ (i < length said)) }
    ensures leads { OnOk result ((said : List Equation) (f : ℕ → ℕ) (s : Structure ℕ) (at : ℕ → ℕ) → Justified nodes.now said f merge.why merge.left merge.right → Gives s nodes.now at → MeetsListed at said listed.new.items → EqualUpTo at asked.new.items time → at merge.left ≡ at merge.right) }
    ensures effort { OnOk result (efforts asked.new.items ≤ efforts asked.old.items + 2 * effort time) }
{
    match merge.why {
        Why::Given(number) => {
            listed.push(number)?;
            Ok(())
        }
        Why::Alike => ask_parts(
            node_at(nodes, merge.left),
            node_at(nodes, merge.right),
            time,
            asked,
        ),
    }
}

/// Marks a merge as used. Whether it was marked before.
fn was_used(used: &mut Vec<bool>, time: usize) -> bool
    requires { time < length used.old.items }
    ensures old { slice_get used.old.items time ≡ Some result }
    ensures new { used.new.items ≡ slice_set used.old.items time true }
{
    let was = used[time];
    used[time] = true;
    was
}

/// Answers one question, by others that are asked of fewer merges.
fn answer(
    nodes: &[Node],
    forest: &Forest,
    question: Question,
    asked: &mut Vec<Question>,
    used: &mut Vec<bool>,
    listed: &mut Vec<usize>,
) -> Result<(), NoMemory>
    requires count { forest.now.count ≡ length nodes.now }
    requires used { length used.old.items ≡ length forest.now.merges }
    requires question { IsQuestion forest.now.merges (length nodes.now) question }
    requires asked { AreQuestions forest.now.merges (length nodes.now) asked.old.items }
    requires parts { PartsInside (length nodes.now) nodes.now }
    requires trail { (said : List Equation) × IsTrail nodes.now said forest.now.merges }
    ensures used { length used.new.items ≡ length used.old.items }
    ensures asked { OnOk result (AreQuestions forest.now.merges (length nodes.now) asked.new.items) }
    ensures explains { OnOk result ((said : List Equation) (left right : ℕ) → IsTrail nodes.now said forest.now.merges → Explains nodes.now said forest.now.merges listed.old.items used.old.items (asked.old.items ++ question ∷ []) left right → Explains nodes.now said forest.now.merges listed.new.items used.new.items asked.new.items left right) }
    ensures effort { OnOk result (efforts asked.new.items < efforts asked.old.items + effort question.before) }
{
    if question.left == question.right {
        return Ok(());
    }
    let joint = forest.joint(question.before, question.left, question.right);
    let merge = forest.merge_at(joint.time);
    ask(asked, joint.goes, merge.left, joint.time)?;
    ask(asked, merge.right, joint.stays, joint.time)?;
    if was_used(used, joint.time) {
        return Ok(());
    }
    add_reason(nodes, merge, joint.time, asked, listed)
}

/// The numbers of equations from which alone it follows that two nodes of one class are one.
pub(crate) fn explain(
    alloc: Global,
    nodes: &[Node],
    forest: &Forest,
    left: usize,
    right: usize,
) -> Result<Vec<usize>, NoMemory>
    requires count { forest.now.count ≡ length nodes.now }
    requires left { left < length nodes.now }
    requires right { right < length nodes.now }
    requires same { class_of forest.now.merges left ≡ class_of forest.now.merges right }
    requires parts { PartsInside (length nodes.now) nodes.now }
    requires trail { (said : List Equation) × IsTrail nodes.now said forest.now.merges }
    ensures follows { IfOk result (λ listed. (said : List Equation) → IsTrail nodes.now said forest.now.merges → FollowsFrom nodes.now said listed.items left right) }
    ensures numbers { IfOk result (λ listed. (said : List Equation) → IsTrail nodes.now said forest.now.merges → (i : ℕ) → Has listed.items i → i < length said) }
{
    let mut used = vec![in alloc; false; forest.len()]?;
    let mut listed = Vec::new(alloc);
    let mut asked = Vec::new(alloc);
    ask(&mut asked, left, right, forest.len())?;
    while let Some(question) = asked.pop() {
        answer(nodes, forest, question, &mut asked, &mut used, &mut listed)?;
    }
    Ok(listed)
}
