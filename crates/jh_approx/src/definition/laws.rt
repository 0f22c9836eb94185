ghost use Rattle.jh_approx.specs.definition.Laws.{LinkedIsLeast, QueriesAreWellFormed, RefutedIsFalse, TrueQueryIsValid};

use jh_query::queries::classes_may_be_renamed;

/// A sequent is valid where its query is true under all sizes that fit it. It is a law, and does nothing.
pub fn true_query_is_valid()
    ensures { TrueQueryIsValid }
{}

/// The query of a sequent names only its own sets, elements, numbers and flags, has null for element 0, and divides by 1 or
/// more. It is a law, and does nothing.
pub fn queries_are_well_formed()
    ensures { QueriesAreWellFormed }
{}

/// A hypothesis is linked where it shares a linking name with the goal or with a linked hypothesis, and only there. It is a
/// law, and does nothing.
pub fn linked_is_least()
    ensures { LinkedIsLeast }
{}

/// Sizes that refute the query of a plain sequent list an interpretation in which the hypotheses that are kept are true and the goal
/// is false. It is a law, and does nothing.
pub fn refuted_is_false()
    ensures { RefutedIsFalse }
{
    classes_may_be_renamed();
}
