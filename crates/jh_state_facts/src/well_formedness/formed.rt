#![tactic(auto, using(crate::proofs::well_formedness::FactSteps::fact_steps, crate::proofs::well_formedness::FormedSteps::formed_steps, jh_arena::proofs::table::Listed::growth_steps))]

ghost use Rattle.std.specs.Prelude.{◌≡◌, map, Some, slice_get, IfOk, OnOk};
ghost use Rattle.jh_form.specs.Tree.{of_truth};
ghost use Rattle.jh_arena.specs.table.Growth.{Extends};
ghost use Rattle.jh_arena.specs.table.Nodes.{nodes};
ghost use Rattle.jh_semantics.specs.Program.{Program};
ghost use Rattle.jh_semantics.specs.WellFormed as formed;
ghost use Rattle.jh_state_facts.specs.well_formedness.Facts.{AddsFacts, AreFacts};
ghost use Rattle.jh_state_facts.specs.well_formedness.Formed.{set_facts, head_facts, tail_facts, formed_facts};
ghost use Rattle.jh_state_facts.specs.well_formedness.States.{members_in, local_of};

use crate::well_formedness::classes::{all_texts, push_apart, push_null_out, push_whole};
use crate::well_formedness::lying::{push_locals, push_this};
use crate::well_formedness::members::{push_defaults, push_fields, push_statics};
use crate::well_formedness::state::{Known, Member};
use jh_arena::makers::conjunction_of;
use jh_arena::table::Table;
use jh_name::{NoMemory, Row, Text};

/// The facts of each state that hang on no local: those that come before the facts of locals, and those behind them.
#[derive(Drop)]
pub struct StateFacts {
    pub head: Row<usize>,
    pub tail: Row<usize>,
}

/// Adds what is said of the sets of objects.
fn push_sets(table: &mut Table, facts: &mut Vec<usize>, classes: &[Text]) -> Result<(), NoMemory>
    ensures facts { OnOk result (AddsFacts table.new facts.old.items facts.new.items (set_facts classes.now)) }
    ensures grows { Extends table.old table.new }
{
    let texts = all_texts(table.alloc(), classes)?;
    push_whole(table, facts, texts.as_slice())?;
    push_apart(table, facts, texts.as_slice())?;
    push_null_out(table, facts)
}

/// The facts before those of locals.
fn head_of(table: &mut Table, classes: &[Text], members: &[Member]) -> Result<Vec<usize>, NoMemory>
    ensures facts { IfOk result (λ made. AreFacts table.new made.items (head_facts classes.now (members_in classes.now members.now))) }
    ensures grows { Extends table.old table.new }
{
    let mut facts = Vec::new(table.alloc());
    push_sets(table, &mut facts, classes)?;
    push_statics(table, &mut facts, classes, members)?;
    Ok(facts)
}

/// The facts behind those of locals.
fn tail_of(table: &mut Table, classes: &[Text], members: &[Member]) -> Result<Vec<usize>, NoMemory>
    ensures facts { IfOk result (λ made. AreFacts table.new made.items (tail_facts classes.now (members_in classes.now members.now))) }
    ensures grows { Extends table.old table.new }
{
    let mut facts = Vec::new(table.alloc());
    push_fields(table, &mut facts, classes, members)?;
    push_defaults(table, &mut facts, classes, members)?;
    Ok(facts)
}

/// The facts of each state that hang on no local, once for a program.
pub fn state_facts(
    table: &mut Table,
    classes: &[Text],
    members: &[Member],
) -> Result<StateFacts, NoMemory>
    ensures head { IfOk result (λ made. AreFacts table.new made.head (head_facts classes.now (members_in classes.now members.now))) }
    ensures tail { IfOk result (λ made. AreFacts table.new made.tail (tail_facts classes.now (members_in classes.now members.now))) }
    ensures grows { Extends table.old table.new }
{
    let head = head_of(table, classes, members)?;
    let tail = tail_of(table, classes, members)?;
    Ok(StateFacts {
        head: Row::of(head),
        tail: Row::of(tail),
    })
}

/// The facts of a state, with those of locals.
fn all_facts(
    table: &mut Table,
    classes: &[Text],
    _members: &[Member],
    facts: &StateFacts,
    scope: &[Known<'_>],
    this: Option<usize>,
) -> Result<Vec<usize>, NoMemory>
    requires head { AreFacts table.old facts.now.head (head_facts classes.now (members_in classes.now _members.now)) }
    requires tail { AreFacts table.old facts.now.tail (tail_facts classes.now (members_in classes.now _members.now)) }
    ensures facts { IfOk result (λ made. AreFacts table.new made.items (formed_facts classes.now (members_in classes.now _members.now) (map local_of scope.now) this)) }
    ensures grows { Extends table.old table.new }
{
    let mut made = Vec::new(table.alloc());
    made.extend_from_slice(facts.head.items())?;
    push_locals(table, &mut made, classes, scope)?;
    push_this(table, &mut made, classes, this)?;
    made.extend_from_slice(facts.tail.items())?;
    Ok(made)
}

/// The node of the formula that is true of each state of the program, with these parameters and locals in scope, and
/// `this` of the class of a number. `facts` are those of `state_facts`, at any time before.
pub fn well_formed(
    table: &mut Table,
    classes: &[Text],
    members: &[Member],
    facts: &StateFacts,
    scope: &[Known<'_>],
    this: Option<usize>,
) -> Result<usize, NoMemory>
    requires head { AreFacts table.old facts.now.head (head_facts classes.now (members_in classes.now members.now)) }
    requires tail { AreFacts table.old facts.now.tail (tail_facts classes.now (members_in classes.now members.now)) }
    ensures node { (p : Program) → p.classes ≡ classes.now → p.members ≡ members_in classes.now members.now → IfOk result (λ made. slice_get (nodes table.new) made ≡ Some (of_truth (formed.well_formed p (map local_of scope.now) this))) }
    ensures grows { Extends table.old table.new }
{
    let all = all_facts(table, classes, members, facts, scope, this)?;
    conjunction_of(table, all.as_slice())
}
