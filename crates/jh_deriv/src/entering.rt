#![tactic(auto, using(jh_arena::proofs::table::Listed::growth_steps, crate::proofs::Operands::entered_steps))]

ghost use Rattle.std.specs.Prelude.{◌≡◌, IfOk, Some, slice_get};
ghost use Rattle.jh_form.specs.Tree.{FieldTrees, of_object, of_truth, of_field};
ghost use Rattle.jh_form.specs.Tree as t;
ghost use Rattle.jh_form.specs.Bare.{term_tree, field_tree, value_tree, formula_tree, list_tree};
ghost use Rattle.jh_boxed_operations.specs.comparison.Unmarked.{unmarked_term, unmarked_field, unmarked_fields, unmarked_value, unmarked_formula};
ghost use Rattle.jh_arena.specs.table.Growth.{Extends};
ghost use Rattle.jh_arena.specs.table.Nodes.{nodes};
ghost use Rattle.jh_reach.specs.Standing.{AreFields};
ghost use Rattle.jh_derivation_rules.specs.Steps.{base_tree, option_base, step_tree, bare_base, bare_step};
ghost use Rattle.jh_derivation_rules.specs.Steps as s;
ghost use Rattle.jh_deriv.specs.Replays.{Enters, bare_list};

use jh_arena::makers::{forest, free_object, negation};
use jh_arena::table::{Shape, Table};
use jh_derivation_rules::{Base, DerivStep};
use jh_derivation_steps::premises::NodeStep;
use jh_form::{FieldTerm, Formula, Term, Value};
use jh_import::entering::{enter, enter_field, enter_formula, enter_term};
use jh_name::{Kind, Name, NoMemory};
use jh_normal_forms::negation_normal_form::unlabelled;

/// The node of a formula without labels.
pub fn bare_formula(table: &mut Table, formula: &Formula) -> Result<usize, NoMemory>
    ensures node { IfOk result (λ node. slice_get (nodes table.new) node ≡ Some (of_truth (unmarked_formula (formula_tree formula.now)))) }
    ensures grows { Extends table.old table.new }
{
    let node = enter_formula(table, formula)?;
    unlabelled(table, node)
}

/// The node of a term without labels.
pub fn bare_term(table: &mut Table, term: &Term) -> Result<usize, NoMemory>
    ensures node { IfOk result (λ node. slice_get (nodes table.new) node ≡ Some (of_object (unmarked_term (term_tree term.now)))) }
    ensures grows { Extends table.old table.new }
{
    let node = enter_term(table, term)?;
    unlabelled(table, node)
}

/// The node of a field without labels.
pub fn bare_field(table: &mut Table, field: &FieldTerm) -> Result<usize, NoMemory>
    ensures node { IfOk result (λ node. slice_get (nodes table.new) node ≡ Some (of_field (unmarked_field (field_tree field.now)))) }
    ensures grows { Extends table.old table.new }
{
    let node = enter_field(table, field)?;
    unlabelled(table, node)
}

/// The node of a value without labels.
pub fn bare_value(table: &mut Table, value: &Value) -> Result<usize, NoMemory>
    ensures node { IfOk result (λ node. slice_get (nodes table.new) node ≡ Some (unmarked_value (value_tree value.now))) }
    ensures grows { Extends table.old table.new }
{
    let node = enter(table, value)?;
    unlabelled(table, node)
}

/// The node of the negation of a formula without labels.
pub fn negated_goal(table: &mut Table, goal: &Formula) -> Result<usize, NoMemory>
    ensures node { IfOk result (λ node. slice_get (nodes table.new) node ≡ Some (of_truth (t.negation (unmarked_formula (formula_tree goal.now))))) }
    ensures grows { Extends table.old table.new }
{
    let node = bare_formula(table, goal)?;
    negation(table, node)
}

fn symmetric(table: &mut Table, left: &Value, right: &Value) -> Result<NodeStep, NoMemory>
    ensures step { Enters (nodes table.new) (s.symmetric (unmarked_value (value_tree left.now)) (unmarked_value (value_tree right.now))) result }
    ensures grows { Extends table.old table.new }
{
    let left = bare_value(table, left)?;
    let right = bare_value(table, right)?;
    Ok(NodeStep::Symmetric(left, right))
}

fn transitive(
    table: &mut Table,
    first: &Value,
    second: &Value,
    third: &Value,
) -> Result<NodeStep, NoMemory>
    ensures step { Enters (nodes table.new) (s.transitive (unmarked_value (value_tree first.now)) (unmarked_value (value_tree second.now)) (unmarked_value (value_tree third.now))) result }
    ensures grows { Extends table.old table.new }
{
    let first = bare_value(table, first)?;
    let second = bare_value(table, second)?;
    let third = bare_value(table, third)?;
    Ok(NodeStep::Transitive(first, second, third))
}

fn reading(
    table: &mut Table,
    kind: Kind,
    field: &FieldTerm,
    left: &Term,
    right: &Term,
) -> Result<NodeStep, NoMemory>
    ensures step { Enters (nodes table.new) (s.reading kind (unmarked_field (field_tree field.now)) (unmarked_term (term_tree left.now)) (unmarked_term (term_tree right.now))) result }
    ensures grows { Extends table.old table.new }
{
    let field = bare_field(table, field)?;
    let left = bare_term(table, left)?;
    let right = bare_term(table, right)?;
    Ok(NodeStep::Reading(kind, field, left, right))
}

fn replacing(
    table: &mut Table,
    fact: &Formula,
    made: &Formula,
    old: &Value,
    new: &Value,
) -> Result<NodeStep, NoMemory>
    ensures step { Enters (nodes table.new) (s.replacing (unmarked_formula (formula_tree fact.now)) (unmarked_formula (formula_tree made.now)) (unmarked_value (value_tree old.now)) (unmarked_value (value_tree new.now))) result }
    ensures grows { Extends table.old table.new }
{
    let fact = bare_formula(table, fact)?;
    let made = bare_formula(table, made)?;
    let old = bare_value(table, old)?;
    let new = bare_value(table, new)?;
    Ok(NodeStep::Replacing(fact, made, old, new))
}

fn instance(table: &mut Table, fact: &Formula, term: &Term) -> Result<NodeStep, NoMemory>
    ensures step { Enters (nodes table.new) (s.instance_at (unmarked_formula (formula_tree fact.now)) (unmarked_term (term_tree term.now))) result }
    ensures grows { Extends table.old table.new }
{
    let fact = bare_formula(table, fact)?;
    let term = bare_term(table, term)?;
    Ok(NodeStep::Instance(fact, term))
}

fn witness(table: &mut Table, fact: &Formula, name: &Name) -> Result<NodeStep, NoMemory>
    ensures step { Enters (nodes table.new) (s.witness (unmarked_formula (formula_tree fact.now)) name.now) result }
    ensures grows { Extends table.old table.new }
{
    let fact = bare_formula(table, fact)?;
    let name = free_object(table, name)?;
    Ok(NodeStep::Witness(fact, name))
}

/// The nodes of some fields without labels.
fn bare_fields(table: &mut Table, fields: &[FieldTerm]) -> Result<Vec<usize>, NoMemory>
    ensures nodes { IfOk result (λ made. AreFields table.new made.items (bare_list fields.now)) }
    ensures grows { Extends table.old table.new }
{
    let mut made = Vec::new(table.alloc());
    for field in fields {
        let node = bare_field(table, field)?;
        made.push(node)?;
    }
    Ok(made)
}

/// The node of that some fields without labels are a forest.
fn bare_forest(table: &mut Table, fields: &[FieldTerm]) -> Result<usize, NoMemory>
    ensures node { IfOk result (λ node. slice_get (nodes table.new) node ≡ Some (of_truth (t.tree (unmarked_fields (list_tree fields.now))))) }
    ensures grows { Extends table.old table.new }
{
    let nodes = bare_fields(table, fields)?;
    forest(table, nodes.as_slice())
}

/// The node of the update of which a base tells, without labels.
fn bare_update(table: &mut Table, base: &Base) -> Result<usize, NoMemory>
    ensures node { IfOk result (λ node. slice_get (nodes table.new) node ≡ Some (of_field (t.update (unmarked_field (field_tree base.now.field)) (unmarked_term (term_tree base.now.at)) (of_object (unmarked_term (term_tree base.now.value)))))) }
    ensures grows { Extends table.old table.new }
{
    let field = bare_field(table, &base.field)?;
    let at = bare_term(table, &base.at)?;
    let value = bare_term(table, &base.value)?;
    table.make(Shape::Update(field, at, value))
}

/// The step that takes an axiom of a list of fields whose node is known, with a base.
fn based(table: &mut Table, number: u8, list: usize, base: &Base) -> Result<NodeStep, NoMemory>
    ensures step { (fs : FieldTrees) → slice_get (nodes table.old) list ≡ Some (of_truth (t.tree fs)) → Enters (nodes table.new) (s.axiom_of number fs (bare_base (Some (base_tree base.now)))) result }
    ensures grows { Extends table.old table.new }
{
    let update = bare_update(table, base)?;
    Ok(NodeStep::BasedAxiom(number, list, base.place, update))
}

fn axiom(
    table: &mut Table,
    number: u8,
    fields: &[FieldTerm],
    base: &Option<Base>,
) -> Result<NodeStep, NoMemory>
    ensures step { Enters (nodes table.new) (s.axiom_of number (unmarked_fields (list_tree fields.now)) (bare_base (option_base base.now))) result }
    ensures grows { Extends table.old table.new }
{
    let list = bare_forest(table, fields)?;
    match base {
        None => Ok(NodeStep::Axiom(number, list)),
        Some(base) => based(table, number, list, base),
    }
}

/// The step over nodes: its operands entered without labels.
#[tactic(auto, using(jh_arena::proofs::table::Listed::growth_steps, crate::proofs::Operands::entered_steps), unfolding(jh_derivation_rules::specs::Steps::bare_step, jh_derivation_rules::specs::Steps::step_tree))]
pub fn entered(table: &mut Table, step: &DerivStep) -> Result<NodeStep, NoMemory>
    ensures step { Enters (nodes table.new) (bare_step (step_tree step.now)) result }
    ensures grows { Extends table.old table.new }
{
    match step {
        DerivStep::Absurd => Ok(NodeStep::Absurd),
        DerivStep::Symmetric(left, right) => symmetric(table, left, right),
        DerivStep::Transitive(first, second, third) => transitive(table, first, second, third),
        DerivStep::Read(kind, field, left, right) => reading(table, *kind, field, left, right),
        DerivStep::Replace(fact, made, old, new) => replacing(table, fact, made, old, new),
        DerivStep::All(fact, term) => instance(table, fact, term),
        DerivStep::Exists(fact, name) => witness(table, fact, name),
        DerivStep::Update(field) => Ok(NodeStep::Updating(bare_field(table, field)?)),
        DerivStep::Axiom(number, fields, base) => axiom(table, *number, fields.items(), base),
        DerivStep::Pair(fact) => Ok(NodeStep::Pair(bare_formula(table, fact)?)),
        DerivStep::Reflexive(fact) => Ok(NodeStep::Reflexive(bare_formula(table, fact)?)),
        DerivStep::And(fact) => Ok(NodeStep::Conjuncts(bare_formula(table, fact)?)),
        DerivStep::Or(fact) => Ok(NodeStep::Disjuncts(bare_formula(table, fact)?)),
        DerivStep::Implies(fact) => Ok(NodeStep::Implication(bare_formula(table, fact)?)),
        DerivStep::Iff(fact) => Ok(NodeStep::Equivalence(bare_formula(table, fact)?)),
        DerivStep::Not(fact) => Ok(NodeStep::Inward(bare_formula(table, fact)?)),
        DerivStep::Cut(fact) => Ok(NodeStep::Cut(bare_formula(table, fact)?)),
        DerivStep::Open(fact) => Ok(NodeStep::Relation(bare_formula(table, fact)?)),
    }
}
