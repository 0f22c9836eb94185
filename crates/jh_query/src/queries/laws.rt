ghost use Rattle.std.specs.Prelude.{◌≡◌, ◌≤◌, ◌+◌, ◌*◌, List, length, true, unsigned_abs};
ghost use Rattle.jh_query.specs.declared.queries.sizes.Spot.{Spot};
ghost use Rattle.jh_query.specs.queries.Tree.{CondTree, NumTree, QueryTree};
ghost use Rattle.jh_query.specs.queries.Sizing.{Sizing};
ghost use Rattle.jh_query.specs.queries.Truth.{Fits, query_true, read_number};
ghost use Rattle.jh_query.specs.queries.Named.{IsRenamed, IsWellFormed, moved_to};
ghost use Rattle.jh_query.specs.queries.Linear.{constant_part, placed_part};
ghost use Rattle.jh_query.specs.queries.Linearity.{IsLinear};
ghost use Rattle.jh_query.specs.queries.Same.{same_atom};
ghost use Rattle.jh_query.specs.queries.Size.{card_weight};

/// Under sizes a number is the sum of its factors times the rests and times the numbers, and of what is
/// left where these are 0. It is a law, and does nothing.
pub fn numbers_are_linear()
    ensures { (z : Sizing) (a : NumTree) → IsLinear z a }
{}

/// What is left of a number under a placement is no farther from 0 than its constant, and once the number
/// of elements for each size of a set in it, times the factor of that. It is a law, and does nothing.
pub fn placements_are_bounded()
    ensures { (spots : List Spot) (a : NumTree) → unsigned_abs (read_number (placed_part spots) a) ≤ unsigned_abs (read_number constant_part a) + length spots * card_weight a }
{}

/// Two atoms are the same only where their trees are equal. It is a law, and does nothing.
pub fn same_atoms_are_equal()
    ensures { (a b : CondTree) → same_atom a b ≡ true → a ≡ b }
{}

/// Of the classes of elements it matters alone which are one: with the same elements in one class, and
/// in the same regions, sizes fit a query and make it true as before. It is a law, and does nothing.
pub fn classes_may_be_renamed()
    ensures same { (q : QueryTree) (z : Sizing) (u : List Spot) → IsWellFormed q → Fits q z → IsRenamed z.spots u → query_true q z ≡ query_true q (moved_to z u) }
    ensures fit { (q : QueryTree) (z : Sizing) (u : List Spot) → Fits q z → IsRenamed z.spots u → Fits q (moved_to z u) }
{}
