#![tactic(auto, unfolding(jh_ast::specs::Bare::method_part))]

ghost use Rattle.std.specs.Prelude.{◌≡◌, Option, option_map, IfOk};
ghost use Rattle.jh_ast.specs.Bare.{field_part, method_part, var_part};
ghost use Rattle.jh_rules.specs.Kinds.{kind_of};
ghost use Rattle.jh_rules.specs.Names as names;
ghost use Rattle.indexmap.specs.IndexMap.{get_by_text};
ghost use Rattle.jh_symbols.specs.declarations.Entries as entries;

use crate::scopes::{Member, MemberEntry};
use indexmap::IndexMap;
use jh_ast::{Field, JType, Method, Param, SpecVar};
use jh_name::{Kind, NoMemory, Row};
use jh_rules::{FieldEntry, MethodEntry, StateEntry, Ty, kind_of};
use std::alloc::Global;

/// The type of a class name.
fn class_type(numbers: &IndexMap<String, usize>, text: &str) -> Option<Ty>
    ensures { result ≡ names.class_type (λ x. get_by_text numbers.now x) text.now }
{
    match numbers.get(text).copied() {
        Some(class) => Some(Ty::Class(class)),
        None => {
            if text == "Object" {
                Some(Ty::Object)
            } else {
                None
            }
        }
    }
}

/// The type of a type word.
pub fn type_of(numbers: &IndexMap<String, usize>, jtype: &JType) -> Option<Ty>
    ensures { result ≡ names.type_of (λ x. get_by_text numbers.now x) jtype.now }
{
    match jtype {
        JType::Int => Some(Ty::Int),
        JType::Boolean => Some(Ty::Boolean),
        JType::Void => Some(Ty::Void),
        JType::Class(word) => class_type(numbers, word.text.text()),
    }
}

/// The kind of a type that may be unknown.
fn kind_known(ty: Option<Ty>) -> Option<Kind>
    ensures { result ≡ option_map kind_of ty }
{
    match ty {
        None => None,
        Some(ty) => Some(kind_of(ty)),
    }
}

/// What a field or static is.
pub fn field_member(numbers: &IndexMap<String, usize>, class: usize, field: &Field) -> Member
    ensures { result ≡ entries.field_member (λ x. get_by_text numbers.now x) class (field_part field.now) }
{
    let ty = type_of(numbers, &field.jtype);
    let state = StateEntry {
        class,
        kind: kind_known(ty),
        fixed: field.fixed,
        is_variable: false,
        is_ghost: false,
        is_defined: false,
    };
    let entry = FieldEntry {
        fixed: field.fixed,
        ty,
    };
    Member {
        place: field.name.place,
        entry: MemberEntry::Field(entry, state),
    }
}

/// What a specification variable is.
pub fn var_member(class: usize, is_defined: bool, var: &SpecVar) -> Member
    ensures { result ≡ entries.var_member class is_defined (var_part var.now) }
{
    let state = StateEntry {
        class,
        kind: Some(var.kind),
        fixed: var.fixed,
        is_variable: true,
        is_ghost: var.is_ghost,
        is_defined,
    };
    Member {
        place: var.name.place,
        entry: MemberEntry::Variable(state),
    }
}

/// The types of parameters.
fn param_types(
    alloc: Global,
    numbers: &IndexMap<String, usize>,
    params: &[Param],
) -> Result<Row<Option<Ty>>, NoMemory>
    ensures { IfOk result (λ made. made ≡ entries.param_types (λ x. get_by_text numbers.now x) params.now) }
{
    let mut made = Vec::new(alloc);
    for param in params.iter() {
        made.push(type_of(numbers, &param.jtype))?;
    }
    Ok(Row::of(made))
}

/// What a method is.
pub fn method_member(
    alloc: Global,
    numbers: &IndexMap<String, usize>,
    method: &Method,
) -> Result<Member, NoMemory>
    ensures { IfOk result (λ made. made ≡ entries.method_member (λ x. get_by_text numbers.now x) (method_part method.now)) }
{
    let params = param_types(alloc, numbers, method.params.items())?;
    let entry = MethodEntry {
        fixed: method.fixed,
        result: type_of(numbers, &method.result),
        params,
    };
    Ok(Member {
        place: method.name.place,
        entry: MemberEntry::Method(entry),
    })
}
