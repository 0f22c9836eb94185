ghost use Rattle.std.specs.Prelude.{◌≡◌, ◌<◌, ◌+◌, ℕ, IfOk, OnOk, Some, length, slice_get};
ghost use Rattle.jh_closure.specs.congruence_closure.Nodes.{EachPart};
ghost use Rattle.jh_closure.specs.declared.congruence_closure.node.Node.TheVariants.{Leaf, Apply};
ghost use Rattle.jh_cong.specs.flattening.Plain.{IsHelper, IsFactor, IsChain, AddsHelpers, minus, plus};

use crate::flattening::flat::{CONS, PAIR};
use jh_closure::congruence_closure::Node;
use jh_name::NoMemory;

/// The number of the next helper.
fn next_number(count: usize, helpers: &[Node]) -> Result<usize, NoMemory>
    ensures { IfOk result (λ number. number ≡ count + length helpers.now) }
{
    match count.checked_add(helpers.len()) {
        Some(number) => Ok(number),
        None => Err(NoMemory),
    }
}

/// Adds a helper behind a count of nodes, and answers its number.
pub(crate) fn add(helpers: &mut Vec<Node>, count: usize, node: Node) -> Result<usize, NoMemory>
    requires { EachPart (λ p. p < count + length helpers.old.items) node }
    ensures here { IfOk result (λ made. IsHelper count helpers.new.items made node) }
    ensures adds { OnOk result (AddsHelpers count helpers.old.items helpers.new.items) }
{
    let number = next_number(count, helpers.as_slice())?;
    helpers.push(node)?;
    Ok(number)
}

/// A number where it is positive, and else 0.
fn plus_part(number: i64) -> u64
    ensures { result ≡ plus number }
{
    if number > 0 { number as u64 } else { 0 }
}

/// The negated number where it is negative, and else 0.
fn minus_part(number: i64) -> u64
    ensures { result ≡ minus number }
{
    if number < 0 { number.unsigned_abs() } else { 0 }
}

/// Adds a number.
pub(crate) fn add_number(
    helpers: &mut Vec<Node>,
    count: usize,
    number: usize,
) -> Result<usize, NoMemory>
    ensures here { IfOk result (λ made. IsHelper count helpers.new.items made (Leaf number)) }
    ensures adds { OnOk result (AddsHelpers count helpers.old.items helpers.new.items) }
{
    add(helpers, count, Node::Leaf(number))
}

/// Adds the pair of two helpers.
fn add_both(
    helpers: &mut Vec<Node>,
    count: usize,
    left: usize,
    right: usize,
) -> Result<usize, NoMemory>
    requires left { left < count + length helpers.old.items }
    requires right { right < count + length helpers.old.items }
    ensures here { IfOk result (λ made. IsHelper count helpers.new.items made (Apply 37 left right)) }
    ensures adds { OnOk result (AddsHelpers count helpers.old.items helpers.new.items) }
{
    add(helpers, count, Node::Apply(PAIR, left, right))
}

/// Adds a whole number.
pub(crate) fn add_factor(
    helpers: &mut Vec<Node>,
    count: usize,
    factor: i64,
) -> Result<usize, NoMemory>
    ensures here { IfOk result (λ made. IsFactor count helpers.new.items factor made) }
    ensures adds { OnOk result (AddsHelpers count helpers.old.items helpers.new.items) }
{
    let plus = add_number(helpers, count, plus_part(factor) as usize)?;
    let minus = add_number(helpers, count, minus_part(factor) as usize)?;
    add_both(helpers, count, plus, minus)
}

/// Adds a pair of two nodes.
pub(crate) fn add_pair(
    helpers: &mut Vec<Node>,
    count: usize,
    left: usize,
    right: usize,
) -> Result<usize, NoMemory>
    requires left { left < count }
    requires right { right < count }
    ensures here { IfOk result (λ made. IsHelper count helpers.new.items made (Apply 37 left right)) }
    ensures adds { OnOk result (AddsHelpers count helpers.old.items helpers.new.items) }
{
    add(helpers, count, Node::Apply(PAIR, left, right))
}

/// Adds a node before a list.
fn add_link(
    helpers: &mut Vec<Node>,
    count: usize,
    field: usize,
    rest: usize,
) -> Result<usize, NoMemory>
    requires field { field < count }
    requires rest { rest < count + length helpers.old.items }
    ensures here { IfOk result (λ made. IsHelper count helpers.new.items made (Apply 38 field rest)) }
    ensures adds { OnOk result (AddsHelpers count helpers.old.items helpers.new.items) }
{
    add(helpers, count, Node::Apply(CONS, field, rest))
}

/// The field at a place.
fn field_at(fields: &[usize], place: usize) -> usize
    requires { place < length fields.now }
    ensures { slice_get fields.now place ≡ Some result }
{
    fields[place]
}

/// Adds a list of nodes, from its end.
pub(crate) fn add_chain(
    helpers: &mut Vec<Node>,
    count: usize,
    fields: &[usize],
) -> Result<usize, NoMemory>
    requires { (i k : ℕ) → slice_get fields.now i ≡ Some k → k < count }
    ensures here { IfOk result (λ made. IsChain count helpers.new.items fields.now made) }
    ensures adds { OnOk result (AddsHelpers count helpers.old.items helpers.new.items) }
{
    let mut chain = add_number(helpers, count, 0)?;
    for turn in 0..fields.len() {
        let field = field_at(fields, fields.len() - 1 - turn);
        chain = add_link(helpers, count, field, chain)?;
    }
    Ok(chain)
}
