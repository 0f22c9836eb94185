ghost use Rattle.std.specs.Prelude.{◌≡◌, Option, is_some, ◌∷◌, ◌++◌, [], ℕ, List, None, map, OnOk, IfOk};
ghost use Rattle.indexmap.specs.IndexMap.{get_by_text};
ghost use Rattle.jh_ast.specs.Programs.{DefPart};
ghost use Rattle.jh_ast.specs.Bare.{def_part, field_part, method_part, var_part, class_part};
ghost use Rattle.jh_rules.specs.Names as parts;
ghost use Rattle.jh_rules.specs.Names.{MemberPart, def_in, members_of};
ghost use Rattle.jh_rules.specs.Words.{text_of};
ghost use Rattle.jh_symbols.specs.declarations.Entries as entries;
ghost use Rattle.jh_symbols.specs.declarations.Entries.{Holds, Puts};

use crate::declarations::entries::{field_member, method_member, var_member};
use crate::declarations::putting::{from_end, put};
use crate::scopes::{Member, Members};
use indexmap::IndexMap;
use jh_ast::{Class, Field, Method, SpecVar, VarDef};
use jh_name::{NoMemory, Place};
use jh_rules::is_before;
use std::alloc::Global;

/// Marks the names that have definitions.
fn put_defs(
    alloc: Global,
    table: &mut IndexMap<String, bool>,
    defs: &[VarDef],
) -> Result<(), NoMemory>
    requires { (x : List ℕ) → get_by_text table.old x ≡ None }
    ensures { OnOk result ((x : List ℕ) → get_by_text table.new x ≡ entries.marked (def_in x (map def_part defs.now))) }
{
    for back in 0..defs.len() {
        let index = from_end(defs.len(), back);
        put(alloc, table, defs[index].name.text.text(), true)?;
    }
    Ok(())
}

/// Whether no member of a name stands before a place.
fn is_first(names: &IndexMap<String, Member>, text: &str, place: Place) -> bool
    ensures { result ≡ entries.is_first (get_by_text names.now text.now) place }
{
    match names.get(text) {
        None => true,
        Some(member) => !is_before(member.place, place),
    }
}

/// Takes a member in, where no member of its name stands before it.
fn put_member(
    alloc: Global,
    names: &mut IndexMap<String, Member>,
    text: &str,
    member: Member,
) -> Result<(), NoMemory>
    ensures { OnOk result (Puts (λ x. get_by_text names.old x) (λ x. get_by_text names.new x) text.now member) }
{
    if is_first(names, text, member.place) {
        put(alloc, names, text, member)?;
    }
    Ok(())
}

/// Takes a field in.
fn put_field(
    alloc: Global,
    numbers: &IndexMap<String, usize>,
    class: usize,
    names: &mut IndexMap<String, Member>,
    field: &Field,
) -> Result<(), NoMemory>
    ensures { OnOk result (Puts (λ x. get_by_text names.old x) (λ x. get_by_text names.new x) (text_of field.now.name) (entries.field_member (λ x. get_by_text numbers.now x) class (field_part field.now))) }
{
    let member = field_member(numbers, class, field);
    put_member(alloc, names, field.name.text.text(), member)
}

/// Takes a method in.
fn put_method(
    alloc: Global,
    numbers: &IndexMap<String, usize>,
    names: &mut IndexMap<String, Member>,
    method: &Method,
) -> Result<(), NoMemory>
    ensures { OnOk result (Puts (λ x. get_by_text names.old x) (λ x. get_by_text names.new x) (text_of method.now.name) (entries.method_member (λ x. get_by_text numbers.now x) (method_part method.now))) }
{
    let member = method_member(alloc, numbers, method)?;
    put_member(alloc, names, method.name.text.text(), member)
}

/// Takes a specification variable in.
fn put_var(
    alloc: Global,
    class: usize,
    defs: &IndexMap<String, bool>,
    names: &mut IndexMap<String, Member>,
    var: &SpecVar,
) -> Result<(), NoMemory>
    ensures { OnOk result (Puts (λ x. get_by_text names.old x) (λ x. get_by_text names.new x) (text_of var.now.name) (entries.var_member class (is_some (get_by_text defs.now (text_of var.now.name))) (var_part var.now))) }
{
    let is_defined = defs.get(var.name.text.text()).is_some();
    let member = var_member(class, is_defined, var);
    put_member(alloc, names, var.name.text.text(), member)
}

/// Takes fields in, before the members that are there.
fn put_fields(
    alloc: Global,
    numbers: &IndexMap<String, usize>,
    class: usize,
    names: &mut IndexMap<String, Member>,
    fields: &[Field],
) -> Result<(), NoMemory>
    ensures { OnOk result ((ds : List DefPart) (ms : List MemberPart) → Holds (entries.entry_of (λ x. get_by_text numbers.now x) class ds) (λ x. get_by_text names.old x) ms → Holds (entries.entry_of (λ x. get_by_text numbers.now x) class ds) (λ x. get_by_text names.new x) (map parts.field (map field_part fields.now) ++ ms)) }
{
    for back in 0..fields.len() {
        let index = from_end(fields.len(), back);
        put_field(alloc, numbers, class, names, &fields[index])?;
    }
    Ok(())
}

/// Takes methods in, before the members that are there.
fn put_methods(
    alloc: Global,
    numbers: &IndexMap<String, usize>,
    names: &mut IndexMap<String, Member>,
    methods: &[Method],
) -> Result<(), NoMemory>
    ensures { OnOk result ((class : ℕ) (ds : List DefPart) (ms : List MemberPart) → Holds (entries.entry_of (λ x. get_by_text numbers.now x) class ds) (λ x. get_by_text names.old x) ms → Holds (entries.entry_of (λ x. get_by_text numbers.now x) class ds) (λ x. get_by_text names.new x) (map parts.method (map method_part methods.now) ++ ms)) }
{
    for back in 0..methods.len() {
        let index = from_end(methods.len(), back);
        put_method(alloc, numbers, names, &methods[index])?;
    }
    Ok(())
}

/// Takes specification variables in, before the members that are there.
fn put_vars(
    alloc: Global,
    class: usize,
    defs: &IndexMap<String, bool>,
    names: &mut IndexMap<String, Member>,
    vars: &[SpecVar],
) -> Result<(), NoMemory>
    ensures { OnOk result ((numbers : List ℕ → Option ℕ) (ds : List DefPart) (ms : List MemberPart) → ((x : List ℕ) → get_by_text defs.now x ≡ entries.marked (def_in x ds)) → Holds (entries.entry_of numbers class ds) (λ x. get_by_text names.old x) ms → Holds (entries.entry_of numbers class ds) (λ x. get_by_text names.new x) (map parts.var (map var_part vars.now) ++ ms)) }
{
    for back in 0..vars.len() {
        let index = from_end(vars.len(), back);
        put_var(alloc, class, defs, names, &vars[index])?;
    }
    Ok(())
}

/// Takes the members of a class in.
fn put_members(
    alloc: Global,
    numbers: &IndexMap<String, usize>,
    class: usize,
    names: &mut IndexMap<String, Member>,
    part: &Class,
) -> Result<(), NoMemory>
    requires { (x : List ℕ) → get_by_text names.old x ≡ None }
    ensures { OnOk result (Holds (entries.entry_of (λ x. get_by_text numbers.now x) class (map def_part part.now.defs)) (λ x. get_by_text names.new x) (entries.members part.now)) }
{
    let mut defs = IndexMap::new(alloc);
    put_defs(alloc, &mut defs, part.defs.items())?;
    put_vars(alloc, class, &defs, names, part.vars.items())?;
    put_methods(alloc, numbers, names, part.methods.items())?;
    put_fields(alloc, numbers, class, names, part.fields.items())?;
    Ok(())
}

/// The members of a class.
fn members_in(
    alloc: Global,
    numbers: &IndexMap<String, usize>,
    class: usize,
    part: &Class,
) -> Result<Members, NoMemory>
    ensures { IfOk result (λ made. Holds (entries.entry_of (λ x. get_by_text numbers.now x) class (map def_part part.now.defs)) (λ x. get_by_text made.names x) (entries.members part.now)) }
{
    let mut names = IndexMap::new(alloc);
    put_members(alloc, numbers, class, &mut names, part)?;
    Ok(Members { names })
}

/// The members of each class.
pub fn put_tables(
    alloc: Global,
    numbers: &IndexMap<String, usize>,
    tables: &mut Vec<Members>,
    classes: &[Class],
) -> Result<(), NoMemory>
    requires { tables.old.items ≡ [] }
    ensures { OnOk result (entries.AreTables (λ x. get_by_text numbers.now x) 0 tables.new.items (map class_part classes.now)) }
{
    for index in 0..classes.len() {
        let made = members_in(alloc, numbers, index, &classes[index])?;
        tables.push(made)?;
    }
    Ok(())
}
