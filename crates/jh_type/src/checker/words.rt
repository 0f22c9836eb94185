ghost use Rattle.std.specs.Prelude.{◌≡◌, ◌||◌, map, IfOk, OnOk};
ghost use Rattle.jh_ast.specs.declared.word.Word.{Word};
ghost use Rattle.jh_ast.specs.declared.program.Class.{Class};
ghost use Rattle.jh_ast.specs.declared.program.Field.{Field};
ghost use Rattle.jh_ast.specs.declared.program.Method.{Method};
ghost use Rattle.jh_ast.specs.declared.program.SpecVar.{SpecVar};
ghost use Rattle.jh_ast.specs.declared.program.VarDef.{VarDef};
ghost use Rattle.jh_rules.specs.Words.{used_before};
ghost use Rattle.jh_symbols.specs.scopes.Firsts as firsts;
ghost use Rattle.jh_type.specs.checker.Parts as parts;

use jh_ast::{Class, Field, Labelled, Method, SpecVar, VarDef};
use jh_name::NoMemory;
use jh_symbols::scopes::Firsts;
use std::alloc::Global;

/// Takes the names of classes in.
fn add_classes(alloc: Global, found: &mut Firsts, classes: &[Class]) -> Result<(), NoMemory>
    ensures { OnOk result ((w : Word) → firsts.is_behind found.new w ≡ firsts.is_behind found.old w || used_before (map (λ (x : Class). x.name) classes.now) w) }
{
    for class in classes.iter() {
        found.add(alloc, &class.name)?;
    }
    Ok(())
}

/// Takes the names of fields in.
fn add_fields(alloc: Global, found: &mut Firsts, fields: &[Field]) -> Result<(), NoMemory>
    ensures { OnOk result ((w : Word) → firsts.is_behind found.new w ≡ firsts.is_behind found.old w || used_before (map (λ (x : Field). x.name) fields.now) w) }
{
    for field in fields.iter() {
        found.add(alloc, &field.name)?;
    }
    Ok(())
}

/// Takes the names of methods in.
fn add_methods(alloc: Global, found: &mut Firsts, methods: &[Method]) -> Result<(), NoMemory>
    ensures { OnOk result ((w : Word) → firsts.is_behind found.new w ≡ firsts.is_behind found.old w || used_before (map (λ (x : Method). x.name) methods.now) w) }
{
    for method in methods.iter() {
        found.add(alloc, &method.name)?;
    }
    Ok(())
}

/// Takes the names of variables in.
fn add_vars(alloc: Global, found: &mut Firsts, vars: &[SpecVar]) -> Result<(), NoMemory>
    ensures { OnOk result ((w : Word) → firsts.is_behind found.new w ≡ firsts.is_behind found.old w || used_before (map (λ (x : SpecVar). x.name) vars.now) w) }
{
    for var in vars.iter() {
        found.add(alloc, &var.name)?;
    }
    Ok(())
}

/// Takes the names of definitions in.
fn add_defs(alloc: Global, found: &mut Firsts, defs: &[VarDef]) -> Result<(), NoMemory>
    ensures { OnOk result ((w : Word) → firsts.is_behind found.new w ≡ firsts.is_behind found.old w || used_before (map (λ (x : VarDef). x.name) defs.now) w) }
{
    for definition in defs.iter() {
        found.add(alloc, &definition.name)?;
    }
    Ok(())
}

/// Takes the name of an invariant in, where it has one.
fn add_label(alloc: Global, found: &mut Firsts, invariant: &Labelled) -> Result<(), NoMemory>
    ensures { OnOk result ((w : Word) → firsts.is_behind found.new w ≡ firsts.is_behind found.old w || used_before (parts.words_of invariant.now) w) }
{
    match &invariant.name {
        None => Ok(()),
        Some(word) => {
            found.add(alloc, word)?;
            Ok(())
        }
    }
}

/// Takes the names of invariants in.
fn add_labels(alloc: Global, found: &mut Firsts, invariants: &[Labelled]) -> Result<(), NoMemory>
    ensures { OnOk result ((w : Word) → firsts.is_behind found.new w ≡ firsts.is_behind found.old w || used_before (parts.label_words_of invariants.now) w) }
{
    for invariant in invariants.iter() {
        add_label(alloc, found, invariant)?;
    }
    Ok(())
}

/// Which words come behind another name of a class.
pub fn class_firsts(alloc: Global, classes: &[Class]) -> Result<Firsts, NoMemory>
    ensures { IfOk result (λ made. (w : Word) → firsts.is_behind made w ≡ used_before (map (λ (x : Class). x.name) classes.now) w) }
{
    let mut found = Firsts::new(alloc);
    add_classes(alloc, &mut found, classes)?;
    Ok(found)
}

/// Which words come behind another name of a definition.
pub fn def_firsts(alloc: Global, defs: &[VarDef]) -> Result<Firsts, NoMemory>
    ensures { IfOk result (λ made. (w : Word) → firsts.is_behind made w ≡ used_before (parts.def_words defs.now) w) }
{
    let mut found = Firsts::new(alloc);
    add_defs(alloc, &mut found, defs)?;
    Ok(found)
}

/// Which words come behind another name of an invariant.
pub fn label_firsts(alloc: Global, invariants: &[Labelled]) -> Result<Firsts, NoMemory>
    ensures { IfOk result (λ made. (w : Word) → firsts.is_behind made w ≡ used_before (parts.label_words_of invariants.now) w) }
{
    let mut found = Firsts::new(alloc);
    add_labels(alloc, &mut found, invariants)?;
    Ok(found)
}

/// Which words come behind another name of a member.
pub fn member_firsts(alloc: Global, class: &Class) -> Result<Firsts, NoMemory>
    ensures { IfOk result (λ made. (w : Word) → firsts.is_behind made w ≡ used_before (parts.member_words class.now) w) }
{
    let mut found = Firsts::new(alloc);
    add_fields(alloc, &mut found, class.fields.items())?;
    add_methods(alloc, &mut found, class.methods.items())?;
    add_vars(alloc, &mut found, class.vars.items())?;
    Ok(found)
}
