// Written by tools/enter.py.
ghost use Rattle.std.specs.Prelude.{◌≡◌, true, IfOk, Some, slice_get};
ghost use Rattle.jh_form.specs.Tree.{of_object, of_number, of_truth, of_set, of_field};
ghost use Rattle.jh_form.specs.Bare.{term_tree, int_tree, set_tree, field_tree, value_tree, formula_tree, list_tree};
ghost use Rattle.jh_arena.specs.table.Growth.{Extends};
ghost use Rattle.jh_arena.specs.table.Nodes.{nodes};
ghost use Rattle.jh_import.specs.entering.Atoms.{is_atom};
ghost use Rattle.jh_import.specs.entering.Entered.{IsList, AddsParts, AddsFields};

use jh_arena::table::{Shape, Table};
use jh_form::{FieldTerm, Formula, IntTerm, SetTerm, Term, Value};
use jh_name::NoMemory;

/// The node of a term for an object. Nodes that are new are made, each a part of it; those before stay.
#[cycle(entered)]
#[tactic(auto, using(crate::proofs::entering::EnterSteps::object_steps))]
pub fn enter_term(table: &mut Table, term: &Term) -> Result<usize, NoMemory>
    ensures node { IfOk result (λ node. slice_get (nodes table.new) node ≡ Some (of_object (term_tree term.now))) }
    ensures grows { Extends table.old table.new }
    ensures only { AddsParts table.old table.new (of_object (term_tree term.now)) }
{
    match term {
        Term::Bound(number) => table.make(Shape::Bound(*number)),
        Term::Free(name) => {
            let name = table.name(name)?;
            table.make(Shape::FreeObject(name))
        }
        Term::Null => table.make(Shape::Null),
        Term::Read(a, b) => {
            let a = enter_field(table, a)?;
            let b = enter_term(table, b)?;
            table.make(Shape::ReadObject(a, b))
        }
    }
}

/// The node of a term for a number. Nodes that are new are made, each a part of it; those before stay.
#[cycle(entered)]
#[tactic(auto, using(crate::proofs::entering::EnterSteps::number_steps))]
pub fn enter_int(table: &mut Table, term: &IntTerm) -> Result<usize, NoMemory>
    ensures node { IfOk result (λ node. slice_get (nodes table.new) node ≡ Some (of_number (int_tree term.now))) }
    ensures grows { Extends table.old table.new }
    ensures only { AddsParts table.old table.new (of_number (int_tree term.now)) }
{
    match term {
        IntTerm::Const(number) => table.make(Shape::Const(*number)),
        IntTerm::Free(name) => {
            let name = table.name(name)?;
            table.make(Shape::FreeNumber(name))
        }
        IntTerm::Read(a, b) => {
            let a = enter_field(table, a)?;
            let b = enter_term(table, b)?;
            table.make(Shape::ReadNumber(a, b))
        }
        IntTerm::Add(a, b) => {
            let a = enter_int(table, a)?;
            let b = enter_int(table, b)?;
            table.make(Shape::Add(a, b))
        }
        IntTerm::Sub(a, b) => {
            let a = enter_int(table, a)?;
            let b = enter_int(table, b)?;
            table.make(Shape::Sub(a, b))
        }
        IntTerm::Neg(a) => {
            let a = enter_int(table, a)?;
            table.make(Shape::Neg(a))
        }
        IntTerm::Scale(number, a) => {
            let a = enter_int(table, a)?;
            table.make(Shape::Scale(*number, a))
        }
        IntTerm::Card(a) => {
            let a = enter_set(table, a)?;
            table.make(Shape::Card(a))
        }
    }
}

/// The node of a term for a set. Nodes that are new are made, each a part of it; those before stay.
#[cycle(entered)]
#[tactic(auto, using(crate::proofs::entering::EnterSteps::set_steps))]
pub fn enter_set(table: &mut Table, term: &SetTerm) -> Result<usize, NoMemory>
    ensures node { IfOk result (λ node. slice_get (nodes table.new) node ≡ Some (of_set (set_tree term.now))) }
    ensures grows { Extends table.old table.new }
    ensures only { AddsParts table.old table.new (of_set (set_tree term.now)) }
{
    match term {
        SetTerm::Free(name) => {
            let name = table.name(name)?;
            table.make(Shape::FreeSet(name))
        }
        SetTerm::Read(a, b) => {
            let a = enter_field(table, a)?;
            let b = enter_term(table, b)?;
            table.make(Shape::ReadSet(a, b))
        }
        SetTerm::Empty => table.make(Shape::Empty),
        SetTerm::Univ => table.make(Shape::Univ),
        SetTerm::Single(a) => {
            let a = enter_term(table, a)?;
            table.make(Shape::Single(a))
        }
        SetTerm::Union(a, b) => {
            let a = enter_set(table, a)?;
            let b = enter_set(table, b)?;
            table.make(Shape::Union(a, b))
        }
        SetTerm::Inter(a, b) => {
            let a = enter_set(table, a)?;
            let b = enter_set(table, b)?;
            table.make(Shape::Inter(a, b))
        }
        SetTerm::Diff(a, b) => {
            let a = enter_set(table, a)?;
            let b = enter_set(table, b)?;
            table.make(Shape::Diff(a, b))
        }
        SetTerm::Compl(a) => {
            let a = enter_set(table, a)?;
            table.make(Shape::Compl(a))
        }
        SetTerm::Compr(a) => {
            let a = enter_formula(table, a)?;
            table.make(Shape::Compr(a))
        }
    }
}

/// The node of a field. Nodes that are new are made, each a part of it; those before stay.
#[cycle(entered)]
#[tactic(auto, using(crate::proofs::entering::EnterSteps::field_steps))]
pub fn enter_field(table: &mut Table, field: &FieldTerm) -> Result<usize, NoMemory>
    ensures node { IfOk result (λ node. slice_get (nodes table.new) node ≡ Some (of_field (field_tree field.now))) }
    ensures grows { Extends table.old table.new }
    ensures only { AddsParts table.old table.new (of_field (field_tree field.now)) }
{
    match field {
        FieldTerm::Free(name) => {
            let name = table.name(name)?;
            table.make(Shape::FreeField(name))
        }
        FieldTerm::Update(a, b, c) => {
            let a = enter_field(table, a)?;
            let b = enter_term(table, b)?;
            let c = enter_value(table, c)?;
            table.make(Shape::Update(a, b, c))
        }
    }
}

/// The node of a formula. Nodes that are new are made, each a part of it; those before stay.
#[cycle(entered)]
#[tactic(auto, using(crate::proofs::entering::EnterSteps::truth_steps))]
pub fn enter_formula(table: &mut Table, formula: &Formula) -> Result<usize, NoMemory>
    ensures node { IfOk result (λ node. slice_get (nodes table.new) node ≡ Some (of_truth (formula_tree formula.now))) }
    ensures grows { Extends table.old table.new }
    ensures only { AddsParts table.old table.new (of_truth (formula_tree formula.now)) }
{
    match formula {
        Formula::True => table.make(Shape::True),
        Formula::False => table.make(Shape::False),
        Formula::Not(a) => {
            let a = enter_formula(table, a)?;
            table.make(Shape::Negation(a))
        }
        Formula::And(a, b) => {
            let a = enter_formula(table, a)?;
            let b = enter_formula(table, b)?;
            table.make(Shape::And(a, b))
        }
        Formula::Or(a, b) => {
            let a = enter_formula(table, a)?;
            let b = enter_formula(table, b)?;
            table.make(Shape::Or(a, b))
        }
        Formula::Implies(a, b) => {
            let a = enter_formula(table, a)?;
            let b = enter_formula(table, b)?;
            table.make(Shape::Implies(a, b))
        }
        Formula::Iff(a, b) => {
            let a = enter_formula(table, a)?;
            let b = enter_formula(table, b)?;
            table.make(Shape::Iff(a, b))
        }
        Formula::All(a) => {
            let a = enter_formula(table, a)?;
            table.make(Shape::All(a))
        }
        Formula::Ex(a) => {
            let a = enter_formula(table, a)?;
            table.make(Shape::Ex(a))
        }
        Formula::Mark(mark, a) => {
            let a = enter_formula(table, a)?;
            let mark = table.mark(mark)?;
            table.make(Shape::Mark(mark, a))
        }
        Formula::Free(_)
        | Formula::Read(_, _)
        | Formula::EqObj(_, _)
        | Formula::EqInt(_, _)
        | Formula::EqSet(_, _)
        | Formula::Less(_, _)
        | Formula::LessEq(_, _)
        | Formula::Divides(_, _)
        | Formula::Member(_, _)
        | Formula::Subset(_, _)
        | Formula::Reach(_, _, _)
        | Formula::Tree(_) => enter_atom(table, formula),
    }
}

/// The node of a value of any sort. Nodes that are new are made, each a part of it; those before stay.
#[cycle(entered)]
#[tactic(auto, using(crate::proofs::entering::EnterSteps::value_steps))]
pub fn enter_value(table: &mut Table, value: &Value) -> Result<usize, NoMemory>
    ensures node { IfOk result (λ node. slice_get (nodes table.new) node ≡ Some (value_tree value.now)) }
    ensures grows { Extends table.old table.new }
    ensures only { AddsParts table.old table.new (value_tree value.now) }
{
    match value {
        Value::Obj(a) => enter_term(table, a),
        Value::Int(a) => enter_int(table, a),
        Value::Bool(a) => enter_formula(table, a),
        Value::Set(a) => enter_set(table, a),
        Value::Field(a) => enter_field(table, a),
    }
}

/// The node of a formula that is an atom.
#[cycle(entered)]
#[inline(never)]
#[tactic(auto, using(crate::proofs::entering::EnterSteps::truth_steps))]
fn enter_atom(table: &mut Table, formula: &Formula) -> Result<usize, NoMemory>
    requires { is_atom formula.now ≡ true }
    ensures node { IfOk result (λ node. slice_get (nodes table.new) node ≡ Some (of_truth (formula_tree formula.now))) }
    ensures grows { Extends table.old table.new }
    ensures only { AddsParts table.old table.new (of_truth (formula_tree formula.now)) }
{
    match formula {
        Formula::Free(name) => {
            let name = table.name(name)?;
            table.make(Shape::FreeTruth(name))
        }
        Formula::Read(a, b) => {
            let a = enter_field(table, a)?;
            let b = enter_term(table, b)?;
            table.make(Shape::ReadTruth(a, b))
        }
        Formula::EqObj(a, b) => {
            let a = enter_term(table, a)?;
            let b = enter_term(table, b)?;
            table.make(Shape::EqObject(a, b))
        }
        Formula::EqInt(a, b) => {
            let a = enter_int(table, a)?;
            let b = enter_int(table, b)?;
            table.make(Shape::EqNumber(a, b))
        }
        Formula::EqSet(a, b) => {
            let a = enter_set(table, a)?;
            let b = enter_set(table, b)?;
            table.make(Shape::EqSet(a, b))
        }
        Formula::Less(a, b) => {
            let a = enter_int(table, a)?;
            let b = enter_int(table, b)?;
            table.make(Shape::Less(a, b))
        }
        Formula::LessEq(a, b) => {
            let a = enter_int(table, a)?;
            let b = enter_int(table, b)?;
            table.make(Shape::LessEqual(a, b))
        }
        Formula::Divides(number, a) => {
            let a = enter_int(table, a)?;
            table.make(Shape::Divides(*number, a))
        }
        Formula::Member(a, b) => {
            let a = enter_term(table, a)?;
            let b = enter_set(table, b)?;
            table.make(Shape::Member(a, b))
        }
        Formula::Subset(a, b) => {
            let a = enter_set(table, a)?;
            let b = enter_set(table, b)?;
            table.make(Shape::Subset(a, b))
        }
        Formula::Reach(fields, a, b) => {
            let a = enter_term(table, a)?;
            let b = enter_term(table, b)?;
            let fields = enter_fields(table, fields.items())?;
            table.make(Shape::Reach(fields, a, b))
        }
        Formula::Tree(fields) => {
            let fields = enter_fields(table, fields.items())?;
            table.make(Shape::Tree(fields))
        }
        Formula::True => unreachable!(),
        Formula::False => unreachable!(),
        Formula::Not(_) => unreachable!(),
        Formula::And(_, _) => unreachable!(),
        Formula::Or(_, _) => unreachable!(),
        Formula::Implies(_, _) => unreachable!(),
        Formula::Iff(_, _) => unreachable!(),
        Formula::All(_) => unreachable!(),
        Formula::Ex(_) => unreachable!(),
        Formula::Mark(_, _) => unreachable!(),
    }
}

#[cycle(entered)]
#[tactic(auto, using(crate::proofs::entering::EnterSteps::list_steps))]
fn enter_fields(table: &mut Table, fields: &[FieldTerm]) -> Result<usize, NoMemory>
    ensures list { IfOk result (λ number. IsList table.new number (list_tree fields.now)) }
    ensures grows { Extends table.old table.new }
    ensures only { AddsFields table.old table.new (list_tree fields.now) }
{
    let mut made = Vec::new(table.alloc());
    for field in fields {
        let node = enter_field(table, field)?;
        made.push(node)?;
    }
    table.list(made.as_slice())
}
