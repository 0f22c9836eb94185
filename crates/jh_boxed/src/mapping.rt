#![tactic(auto, using(jh_form::proofs::Steps::tree_steps, crate::proofs::MapSteps::map_steps))]

ghost use Rattle.std.specs.Prelude.{◌≡◌, IfOk, true};
ghost use Rattle.jh_form.specs.Bare.{term_tree, int_tree, set_tree, field_tree, value_tree, formula_tree, list_tree};
ghost use Rattle.jh_boxed.specs.Shapes.{is_read, is_not, is_connective, is_binder, is_eq_obj, compares_numbers, compares_sets, is_divides, is_member, is_reach, is_tree, is_mark};
ghost use Rattle.jh_boxed.specs.Mapped.{mapped_term, mapped_int, mapped_set, mapped_field, mapped_value, mapped_formula, mapped_fields};

use crate::boxes::boxed;
use crate::copying::copy_mark;
use crate::counting::deeper;
use crate::walk::Leaves;
use jh_form::{FieldTerm, Formula, IntTerm, SetTerm, Term, Value};
use jh_name::{NoMemory, Row};
use std::alloc::Global;

#[cycle(map)]
pub fn map_term<L: Leaves>(
    alloc: Global,
    term: &Term,
    depth: u32,
    leaves: &L,
) -> Result<Term, NoMemory>
    ensures { IfOk result (λ made. term_tree made ≡ mapped_term (term_tree term.now) (L.leaves leaves.now) depth) }
{
    match term {
        Term::Bound(number) => leaves.bound(alloc, *number, depth),
        Term::Free(name) => leaves.object(alloc, name, depth),
        Term::Null => Ok(Term::Null),
        Term::Read(a, b) => {
            let a = field_box(alloc, a, depth, leaves)?;
            let b = term_box(alloc, b, depth, leaves)?;
            Ok(Term::Read(a, b))
        }
    }
}

#[cycle(map)]
pub fn map_int<L: Leaves>(
    alloc: Global,
    term: &IntTerm,
    depth: u32,
    leaves: &L,
) -> Result<IntTerm, NoMemory>
    ensures { IfOk result (λ made. int_tree made ≡ mapped_int (int_tree term.now) (L.leaves leaves.now) depth) }
{
    match term {
        IntTerm::Const(number) => Ok(IntTerm::Const(*number)),
        IntTerm::Free(name) => leaves.integer(alloc, name, depth),
        IntTerm::Read(a, b) => {
            let a = field_box(alloc, a, depth, leaves)?;
            let b = term_box(alloc, b, depth, leaves)?;
            Ok(IntTerm::Read(a, b))
        }
        IntTerm::Add(a, b) => {
            let a = int_box(alloc, a, depth, leaves)?;
            let b = int_box(alloc, b, depth, leaves)?;
            Ok(IntTerm::Add(a, b))
        }
        IntTerm::Sub(a, b) => {
            let a = int_box(alloc, a, depth, leaves)?;
            let b = int_box(alloc, b, depth, leaves)?;
            Ok(IntTerm::Sub(a, b))
        }
        IntTerm::Neg(a) => {
            let a = int_box(alloc, a, depth, leaves)?;
            Ok(IntTerm::Neg(a))
        }
        IntTerm::Scale(number, a) => {
            let a = int_box(alloc, a, depth, leaves)?;
            Ok(IntTerm::Scale(*number, a))
        }
        IntTerm::Card(a) => {
            let a = set_box(alloc, a, depth, leaves)?;
            Ok(IntTerm::Card(a))
        }
    }
}

#[cycle(map)]
pub fn map_set<L: Leaves>(
    alloc: Global,
    term: &SetTerm,
    depth: u32,
    leaves: &L,
) -> Result<SetTerm, NoMemory>
    ensures { IfOk result (λ made. set_tree made ≡ mapped_set (set_tree term.now) (L.leaves leaves.now) depth) }
{
    match term {
        SetTerm::Free(name) => leaves.set(alloc, name, depth),
        SetTerm::Read(a, b) => {
            let a = field_box(alloc, a, depth, leaves)?;
            let b = term_box(alloc, b, depth, leaves)?;
            Ok(SetTerm::Read(a, b))
        }
        SetTerm::Empty => Ok(SetTerm::Empty),
        SetTerm::Univ => Ok(SetTerm::Univ),
        SetTerm::Single(a) => {
            let a = term_box(alloc, a, depth, leaves)?;
            Ok(SetTerm::Single(a))
        }
        SetTerm::Union(a, b) => {
            let a = set_box(alloc, a, depth, leaves)?;
            let b = set_box(alloc, b, depth, leaves)?;
            Ok(SetTerm::Union(a, b))
        }
        SetTerm::Inter(a, b) => {
            let a = set_box(alloc, a, depth, leaves)?;
            let b = set_box(alloc, b, depth, leaves)?;
            Ok(SetTerm::Inter(a, b))
        }
        SetTerm::Diff(a, b) => {
            let a = set_box(alloc, a, depth, leaves)?;
            let b = set_box(alloc, b, depth, leaves)?;
            Ok(SetTerm::Diff(a, b))
        }
        SetTerm::Compl(a) => {
            let a = set_box(alloc, a, depth, leaves)?;
            Ok(SetTerm::Compl(a))
        }
        SetTerm::Compr(a) => {
            let below = deeper(depth)?;
            let a = formula_box(alloc, a, below, leaves)?;
            Ok(SetTerm::Compr(a))
        }
    }
}

#[cycle(map)]
pub fn map_field<L: Leaves>(
    alloc: Global,
    field: &FieldTerm,
    depth: u32,
    leaves: &L,
) -> Result<FieldTerm, NoMemory>
    ensures { IfOk result (λ made. field_tree made ≡ mapped_field (field_tree field.now) (L.leaves leaves.now) depth) }
{
    match field {
        FieldTerm::Free(name) => leaves.field(alloc, name, depth),
        FieldTerm::Update(a, b, c) => {
            let a = field_box(alloc, a, depth, leaves)?;
            let b = term_box(alloc, b, depth, leaves)?;
            let c = value_box(alloc, c, depth, leaves)?;
            Ok(FieldTerm::Update(a, b, c))
        }
    }
}

#[cycle(map)]
pub fn map_value<L: Leaves>(
    alloc: Global,
    value: &Value,
    depth: u32,
    leaves: &L,
) -> Result<Value, NoMemory>
    ensures { IfOk result (λ made. value_tree made ≡ mapped_value (value_tree value.now) (L.leaves leaves.now) depth) }
{
    match value {
        Value::Obj(a) => {
            let made = map_term(alloc, a, depth, leaves)?;
            Ok(Value::Obj(made))
        }
        Value::Int(a) => {
            let made = map_int(alloc, a, depth, leaves)?;
            Ok(Value::Int(made))
        }
        Value::Bool(a) => {
            let made = map_formula(alloc, a, depth, leaves)?;
            Ok(Value::Bool(made))
        }
        Value::Set(a) => {
            let made = map_set(alloc, a, depth, leaves)?;
            Ok(Value::Set(made))
        }
        Value::Field(a) => {
            let made = map_field(alloc, a, depth, leaves)?;
            Ok(Value::Field(made))
        }
    }
}

#[cycle(map)]
pub fn map_formula<L: Leaves>(
    alloc: Global,
    formula: &Formula,
    depth: u32,
    leaves: &L,
) -> Result<Formula, NoMemory>
    ensures { IfOk result (λ made. formula_tree made ≡ mapped_formula (formula_tree formula.now) (L.leaves leaves.now) depth) }
{
    match formula {
        Formula::True => Ok(Formula::True),
        Formula::False => Ok(Formula::False),
        Formula::Free(name) => leaves.truth(alloc, name, depth),
        Formula::Read(_, _) => map_read(alloc, formula, depth, leaves),
        Formula::Not(_) => map_not(alloc, formula, depth, leaves),
        Formula::And(_, _) => map_connective(alloc, formula, depth, leaves),
        Formula::Or(_, _) => map_connective(alloc, formula, depth, leaves),
        Formula::Implies(_, _) => map_connective(alloc, formula, depth, leaves),
        Formula::Iff(_, _) => map_connective(alloc, formula, depth, leaves),
        Formula::All(_) => map_binder(alloc, formula, depth, leaves),
        Formula::Ex(_) => map_binder(alloc, formula, depth, leaves),
        Formula::EqObj(_, _) => map_eq_obj(alloc, formula, depth, leaves),
        Formula::EqInt(_, _) => map_numbers(alloc, formula, depth, leaves),
        Formula::EqSet(_, _) => map_sets(alloc, formula, depth, leaves),
        Formula::Less(_, _) => map_numbers(alloc, formula, depth, leaves),
        Formula::LessEq(_, _) => map_numbers(alloc, formula, depth, leaves),
        Formula::Divides(_, _) => map_divides(alloc, formula, depth, leaves),
        Formula::Member(_, _) => map_member(alloc, formula, depth, leaves),
        Formula::Subset(_, _) => map_sets(alloc, formula, depth, leaves),
        Formula::Reach(_, _, _) => map_reach(alloc, formula, depth, leaves),
        Formula::Tree(_) => map_tree(alloc, formula, depth, leaves),
        Formula::Mark(_, _) => map_mark(alloc, formula, depth, leaves),
    }
}

#[cycle(map)]
#[inline(never)]
fn map_read<L: Leaves>(
    alloc: Global,
    formula: &Formula,
    depth: u32,
    leaves: &L,
) -> Result<Formula, NoMemory>
    requires { is_read formula.now ≡ true }
    ensures { IfOk result (λ made. formula_tree made ≡ mapped_formula (formula_tree formula.now) (L.leaves leaves.now) depth) }
{
    let Formula::Read(a, b) = formula else {
        unreachable!()
    };
    let a = field_box(alloc, a, depth, leaves)?;
    let b = term_box(alloc, b, depth, leaves)?;
    Ok(Formula::Read(a, b))
}

#[cycle(map)]
#[inline(never)]
fn map_not<L: Leaves>(
    alloc: Global,
    formula: &Formula,
    depth: u32,
    leaves: &L,
) -> Result<Formula, NoMemory>
    requires { is_not formula.now ≡ true }
    ensures { IfOk result (λ made. formula_tree made ≡ mapped_formula (formula_tree formula.now) (L.leaves leaves.now) depth) }
{
    let Formula::Not(a) = formula else {
        unreachable!()
    };
    let a = formula_box(alloc, a, depth, leaves)?;
    Ok(Formula::Not(a))
}

#[cycle(map)]
#[inline(never)]
fn map_connective<L: Leaves>(
    alloc: Global,
    formula: &Formula,
    depth: u32,
    leaves: &L,
) -> Result<Formula, NoMemory>
    requires { is_connective formula.now ≡ true }
    ensures { IfOk result (λ made. formula_tree made ≡ mapped_formula (formula_tree formula.now) (L.leaves leaves.now) depth) }
{
    match formula {
        Formula::And(a, b) => {
            let a = formula_box(alloc, a, depth, leaves)?;
            let b = formula_box(alloc, b, depth, leaves)?;
            Ok(Formula::And(a, b))
        }
        Formula::Or(a, b) => {
            let a = formula_box(alloc, a, depth, leaves)?;
            let b = formula_box(alloc, b, depth, leaves)?;
            Ok(Formula::Or(a, b))
        }
        Formula::Implies(a, b) => {
            let a = formula_box(alloc, a, depth, leaves)?;
            let b = formula_box(alloc, b, depth, leaves)?;
            Ok(Formula::Implies(a, b))
        }
        Formula::Iff(a, b) => {
            let a = formula_box(alloc, a, depth, leaves)?;
            let b = formula_box(alloc, b, depth, leaves)?;
            Ok(Formula::Iff(a, b))
        }
        _ => unreachable!(),
    }
}

#[cycle(map)]
#[inline(never)]
fn map_binder<L: Leaves>(
    alloc: Global,
    formula: &Formula,
    depth: u32,
    leaves: &L,
) -> Result<Formula, NoMemory>
    requires { is_binder formula.now ≡ true }
    ensures { IfOk result (λ made. formula_tree made ≡ mapped_formula (formula_tree formula.now) (L.leaves leaves.now) depth) }
{
    match formula {
        Formula::All(a) => {
            let below = deeper(depth)?;
            let a = formula_box(alloc, a, below, leaves)?;
            Ok(Formula::All(a))
        }
        Formula::Ex(a) => {
            let below = deeper(depth)?;
            let a = formula_box(alloc, a, below, leaves)?;
            Ok(Formula::Ex(a))
        }
        _ => unreachable!(),
    }
}

#[cycle(map)]
#[inline(never)]
fn map_eq_obj<L: Leaves>(
    alloc: Global,
    formula: &Formula,
    depth: u32,
    leaves: &L,
) -> Result<Formula, NoMemory>
    requires { is_eq_obj formula.now ≡ true }
    ensures { IfOk result (λ made. formula_tree made ≡ mapped_formula (formula_tree formula.now) (L.leaves leaves.now) depth) }
{
    let Formula::EqObj(a, b) = formula else {
        unreachable!()
    };
    let a = map_term(alloc, a, depth, leaves)?;
    let b = map_term(alloc, b, depth, leaves)?;
    Ok(Formula::EqObj(a, b))
}

#[cycle(map)]
#[inline(never)]
fn map_numbers<L: Leaves>(
    alloc: Global,
    formula: &Formula,
    depth: u32,
    leaves: &L,
) -> Result<Formula, NoMemory>
    requires { compares_numbers formula.now ≡ true }
    ensures { IfOk result (λ made. formula_tree made ≡ mapped_formula (formula_tree formula.now) (L.leaves leaves.now) depth) }
{
    match formula {
        Formula::EqInt(a, b) => {
            let a = map_int(alloc, a, depth, leaves)?;
            let b = map_int(alloc, b, depth, leaves)?;
            Ok(Formula::EqInt(a, b))
        }
        Formula::Less(a, b) => {
            let a = map_int(alloc, a, depth, leaves)?;
            let b = map_int(alloc, b, depth, leaves)?;
            Ok(Formula::Less(a, b))
        }
        Formula::LessEq(a, b) => {
            let a = map_int(alloc, a, depth, leaves)?;
            let b = map_int(alloc, b, depth, leaves)?;
            Ok(Formula::LessEq(a, b))
        }
        _ => unreachable!(),
    }
}

#[cycle(map)]
#[inline(never)]
fn map_sets<L: Leaves>(
    alloc: Global,
    formula: &Formula,
    depth: u32,
    leaves: &L,
) -> Result<Formula, NoMemory>
    requires { compares_sets formula.now ≡ true }
    ensures { IfOk result (λ made. formula_tree made ≡ mapped_formula (formula_tree formula.now) (L.leaves leaves.now) depth) }
{
    match formula {
        Formula::EqSet(a, b) => {
            let a = map_set(alloc, a, depth, leaves)?;
            let b = map_set(alloc, b, depth, leaves)?;
            Ok(Formula::EqSet(a, b))
        }
        Formula::Subset(a, b) => {
            let a = map_set(alloc, a, depth, leaves)?;
            let b = map_set(alloc, b, depth, leaves)?;
            Ok(Formula::Subset(a, b))
        }
        _ => unreachable!(),
    }
}

#[cycle(map)]
#[inline(never)]
fn map_divides<L: Leaves>(
    alloc: Global,
    formula: &Formula,
    depth: u32,
    leaves: &L,
) -> Result<Formula, NoMemory>
    requires { is_divides formula.now ≡ true }
    ensures { IfOk result (λ made. formula_tree made ≡ mapped_formula (formula_tree formula.now) (L.leaves leaves.now) depth) }
{
    let Formula::Divides(number, a) = formula else {
        unreachable!()
    };
    let a = map_int(alloc, a, depth, leaves)?;
    Ok(Formula::Divides(*number, a))
}

#[cycle(map)]
#[inline(never)]
fn map_member<L: Leaves>(
    alloc: Global,
    formula: &Formula,
    depth: u32,
    leaves: &L,
) -> Result<Formula, NoMemory>
    requires { is_member formula.now ≡ true }
    ensures { IfOk result (λ made. formula_tree made ≡ mapped_formula (formula_tree formula.now) (L.leaves leaves.now) depth) }
{
    let Formula::Member(a, b) = formula else {
        unreachable!()
    };
    let a = map_term(alloc, a, depth, leaves)?;
    let b = map_set(alloc, b, depth, leaves)?;
    Ok(Formula::Member(a, b))
}

#[cycle(map)]
#[inline(never)]
fn map_reach<L: Leaves>(
    alloc: Global,
    formula: &Formula,
    depth: u32,
    leaves: &L,
) -> Result<Formula, NoMemory>
    requires { is_reach formula.now ≡ true }
    ensures { IfOk result (λ made. formula_tree made ≡ mapped_formula (formula_tree formula.now) (L.leaves leaves.now) depth) }
{
    let Formula::Reach(fields, a, b) = formula else {
        unreachable!()
    };
    let fields = map_fields(alloc, fields.items(), depth, leaves)?;
    let a = map_term(alloc, a, depth, leaves)?;
    let b = map_term(alloc, b, depth, leaves)?;
    Ok(Formula::Reach(Row::of(fields), a, b))
}

#[cycle(map)]
#[inline(never)]
fn map_tree<L: Leaves>(
    alloc: Global,
    formula: &Formula,
    depth: u32,
    leaves: &L,
) -> Result<Formula, NoMemory>
    requires { is_tree formula.now ≡ true }
    ensures { IfOk result (λ made. formula_tree made ≡ mapped_formula (formula_tree formula.now) (L.leaves leaves.now) depth) }
{
    let Formula::Tree(fields) = formula else {
        unreachable!()
    };
    let fields = map_fields(alloc, fields.items(), depth, leaves)?;
    Ok(Formula::Tree(Row::of(fields)))
}

#[cycle(map)]
#[inline(never)]
fn map_mark<L: Leaves>(
    alloc: Global,
    formula: &Formula,
    depth: u32,
    leaves: &L,
) -> Result<Formula, NoMemory>
    requires { is_mark formula.now ≡ true }
    ensures { IfOk result (λ made. formula_tree made ≡ mapped_formula (formula_tree formula.now) (L.leaves leaves.now) depth) }
{
    let Formula::Mark(mark, a) = formula else {
        unreachable!()
    };
    let a = formula_box(alloc, a, depth, leaves)?;
    let mark = copy_mark(alloc, mark)?;
    Ok(Formula::Mark(mark, a))
}

#[cycle(map)]
pub fn map_fields<L: Leaves>(
    alloc: Global,
    fields: &[FieldTerm],
    depth: u32,
    leaves: &L,
) -> Result<Vec<FieldTerm>, NoMemory>
    ensures { IfOk result (λ made. list_tree made.items ≡ mapped_fields (list_tree fields.now) (L.leaves leaves.now) depth) }
{
    let mut made = Vec::new(alloc);
    for field in fields {
        let mapped = map_field(alloc, field, depth, leaves)?;
        made.push(mapped)?;
    }
    Ok(made)
}

#[cycle(map)]
#[inline(never)]
fn term_box<L: Leaves>(
    alloc: Global,
    term: &Term,
    depth: u32,
    leaves: &L,
) -> Result<Box<Term>, NoMemory>
    ensures { IfOk result (λ made. term_tree made.value ≡ mapped_term (term_tree term.now) (L.leaves leaves.now) depth) }
{
    let made = map_term(alloc, term, depth, leaves)?;
    boxed(alloc, made)
}

#[cycle(map)]
#[inline(never)]
fn int_box<L: Leaves>(
    alloc: Global,
    term: &IntTerm,
    depth: u32,
    leaves: &L,
) -> Result<Box<IntTerm>, NoMemory>
    ensures { IfOk result (λ made. int_tree made.value ≡ mapped_int (int_tree term.now) (L.leaves leaves.now) depth) }
{
    let made = map_int(alloc, term, depth, leaves)?;
    boxed(alloc, made)
}

#[cycle(map)]
#[inline(never)]
fn set_box<L: Leaves>(
    alloc: Global,
    term: &SetTerm,
    depth: u32,
    leaves: &L,
) -> Result<Box<SetTerm>, NoMemory>
    ensures { IfOk result (λ made. set_tree made.value ≡ mapped_set (set_tree term.now) (L.leaves leaves.now) depth) }
{
    let made = map_set(alloc, term, depth, leaves)?;
    boxed(alloc, made)
}

#[cycle(map)]
#[inline(never)]
fn field_box<L: Leaves>(
    alloc: Global,
    field: &FieldTerm,
    depth: u32,
    leaves: &L,
) -> Result<Box<FieldTerm>, NoMemory>
    ensures { IfOk result (λ made. field_tree made.value ≡ mapped_field (field_tree field.now) (L.leaves leaves.now) depth) }
{
    let made = map_field(alloc, field, depth, leaves)?;
    boxed(alloc, made)
}

#[cycle(map)]
#[inline(never)]
fn value_box<L: Leaves>(
    alloc: Global,
    value: &Value,
    depth: u32,
    leaves: &L,
) -> Result<Box<Value>, NoMemory>
    ensures { IfOk result (λ made. value_tree made.value ≡ mapped_value (value_tree value.now) (L.leaves leaves.now) depth) }
{
    let made = map_value(alloc, value, depth, leaves)?;
    boxed(alloc, made)
}

#[cycle(map)]
#[inline(never)]
fn formula_box<L: Leaves>(
    alloc: Global,
    formula: &Formula,
    depth: u32,
    leaves: &L,
) -> Result<Box<Formula>, NoMemory>
    ensures { IfOk result (λ made. formula_tree made.value ≡ mapped_formula (formula_tree formula.now) (L.leaves leaves.now) depth) }
{
    let made = map_formula(alloc, formula, depth, leaves)?;
    boxed(alloc, made)
}
