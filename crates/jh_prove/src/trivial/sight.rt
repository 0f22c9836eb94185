ghost use Rattle.std.specs.Prelude.{◌≡◌, ◌<◌, ◌↔◌, true, length, map, slice_get, IsTrue};
ghost use Rattle.std.specs.List.{list_all};
ghost use Rattle.jh_arena.specs.table.Entries.{is_truth, the_truth};
ghost use Rattle.jh_arena.specs.table.Nodes.{nodes};
ghost use Rattle.jh_prove.specs.trivial.Trivial.{IsEvident, Gives, IsTrivialOver};
ghost use Rattle.jh_prove.specs.trivial.Facts.{truth_at, AreTruths};

use jh_arena::table::{Shape, Table};

/// Whether a formula without labels is evident: it is True, or an equation of two equal sides.
pub fn is_evident(table: &Table, goal: usize) -> bool
    requires { is_truth (slice_get (nodes table.now) goal) ≡ true }
    ensures { IsTrue result ↔ IsEvident (truth_at table.now goal) }
{
    table.nodes_differ();
    match table.shape(goal) {
        Shape::True => true,
        Shape::EqObject(left, right) => left == right,
        Shape::EqNumber(left, right) => left == right,
        Shape::EqSet(left, right) => left == right,
        _ => false,
    }
}

/// Whether a fact gives a goal at sight: it is the goal, or False. Neither has labels.
pub fn gives(table: &Table, goal: usize, fact: usize) -> bool
    requires goal { is_truth (slice_get (nodes table.now) goal) ≡ true }
    requires fact { is_truth (slice_get (nodes table.now) fact) ≡ true }
    ensures { IsTrue result ↔ Gives (truth_at table.now goal) (truth_at table.now fact) }
{
    table.nodes_differ();
    if fact == goal {
        return true;
    }
    matches!(table.shape(fact), Shape::False)
}

/// Whether a sequent over formulas without labels is trivial: its goal is evident, or a hypothesis gives it.
pub fn is_trivial(table: &Table, facts: &[usize], goal: usize) -> bool
    requires goal { is_truth (slice_get (nodes table.now) goal) ≡ true }
    requires facts { AreTruths table.now facts.now }
    ensures { IsTrue result ↔ IsTrivialOver (map (truth_at table.now) facts.now) (truth_at table.now goal) }
{
    if is_evident(table, goal) {
        return true;
    }
    for fact in facts.iter() {
        if gives(table, goal, *fact) {
            return true;
        }
    }
    false
}
