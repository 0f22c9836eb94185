ghost use Rattle.std.specs.Prelude.{◌≡◌, ◌∷◌, Option, option_copied};
ghost use Rattle.std.specs.List.{list_any};
ghost use Rattle.jh_form.specs.Passing.{name_equal};
ghost use Rattle.jh_form.specs.declared.mark.Mark.{Mark};
ghost use Rattle.jh_approx.specs.definition.Links.{named_in};
ghost use Rattle.jh_seq.specs.splitting.Split.{mark_of};
ghost use Rattle.jh_abstraction.specs.jh_splitting.Standing.{IsLabel, name_under};
ghost use Rattle.jh_fca.specs.local_form.Chosen.{well_formed};
ghost use Rattle.jh_local_form.specs.local_sequents.Choosing.{is_chosen_by};

use jh_arena::table::Table;
use jh_name::Name;

/// The names of the facts that alone are to be used under a label.
fn from_of(table: &Table, label: Option<usize>) -> &[Name]
    requires { (mark : Option Mark) × IsLabel table.now label mark }
    ensures { (mark : Option Mark) → IsLabel table.now label mark → result.now ≡ (mark_of mark).from }
{
    match label {
        None => &[],
        Some(number) => table.mark_at(number).from.items(),
    }
}

/// The name of what stands under a label.
fn name_of(table: &Table, label: Option<usize>) -> Option<&Name>
    requires { (mark : Option Mark) × IsLabel table.now label mark }
    ensures { (mark : Option Mark) → IsLabel table.now label mark → option_copied result ≡ name_under mark }
{
    match label {
        None => None,
        Some(number) => table.mark_at(number).name.as_ref(),
    }
}

/// Whether a name is that of what says that the state is well formed.
#[tactic(auto, unfolding(jh_form::specs::Passing::name_equal))]
fn is_well_formed(name: &Name) -> bool
    ensures { result ≡ name_equal name.now well_formed }
{
    name.turn() == 0 && name.text() == "wf"
}

/// Whether a name is one of these.
#[tactic(auto, unfolding(jh_form::specs::Passing::name_equal))]
fn is_among(names: &[Name], name: &Name) -> bool
    ensures { result ≡ list_any (name_equal name.now) names.now }
{
    names.iter().any(|other| name.same(other))
}

/// Whether a hypothesis has a name that is one of these, or that of what says that the state is well formed.
#[tactic(auto, unfolding(jh_approx::specs::definition::Links::named_in))]
fn is_named(names: &[Name], name: Option<&Name>) -> bool
    ensures { result ≡ named_in (well_formed ∷ names.now) (option_copied name.entry) }
{
    match name {
        None => false,
        Some(name) => is_well_formed(name) || is_among(names, name),
    }
}

/// Whether the facts of hypotheses with this name are chosen where these alone are to be used; where there are none of these, all are.
fn is_used(names: &[Name], name: Option<&Name>) -> bool
    ensures { result ≡ is_chosen_by names.now (option_copied name.entry) }
{
    names.is_empty() || is_named(names, name)
}

/// Whether what stands under the second label is chosen where the goal stands under the first.
pub(crate) fn is_chosen(table: &Table, label: Option<usize>, hyp: Option<usize>) -> bool
    requires label { (mark : Option Mark) × IsLabel table.now label mark }
    requires hyp { (mark : Option Mark) × IsLabel table.now hyp mark }
    ensures { (m k : Option Mark) → IsLabel table.now label m → IsLabel table.now hyp k → result ≡ is_chosen_by (mark_of m).from (name_under k) }
{
    is_used(from_of(table, label), name_of(table, hyp))
}
