#![tactic(auto)]

ghost use Rattle.std.specs.Prelude.{◌≡◌, map, IfOk};
ghost use Rattle.std.specs.List.{flat_map};
ghost use Rattle.jh_ast.specs.Bare.{class_part, labelled_part, program_tree};
ghost use Rattle.jh_rules.specs.Breaks.{faults_of};
ghost use Rattle.jh_rules.specs.Found.{least, lesser};
ghost use Rattle.jh_rules.specs.Names.{declared_in};
ghost use Rattle.jh_symbols.specs.scopes.Firsts.{is_behind};
ghost use Rattle.jh_symbols.specs.scopes.Lookings.{declared_by};
ghost use Rattle.jh_type.specs.checker.Parts as parts;
ghost use Rattle.jh_type.specs.checker.Wholes as wholes;

use crate::checker::faults::{
    all_defs, all_fields, all_invariants, all_methods, all_vars, class_name_fault, field_names,
    label_names, method_names, var_names,
};
use crate::checker::words::{class_firsts, def_firsts, label_firsts, member_firsts};
use crate::least_fault::least_of_three;
use crate::method_bodies::outermost;
use jh_ast::{Class, Labelled, Program};
use jh_name::NoMemory;
use jh_rules::{Fault, lesser};
use jh_symbols::declarations::lookups_of;
use jh_symbols::scopes::{Firsts, Lookups};
use std::alloc::Global;

/// The least fault of the names of the members of a class.
fn member_names(alloc: Global, class: &Class) -> Result<Option<Fault>, NoMemory>
    ensures { IfOk result (λ found. found ≡ least (wholes.member_names (class_part class.now))) }
{
    let words = member_firsts(alloc, class)?;
    let fields = field_names(&words, class.fields.items());
    let methods = method_names(&words, class.methods.items());
    let vars = var_names(&words, class.vars.items());
    Ok(least_of_three(fields, methods, vars))
}

/// The least fault of the names of some invariants.
fn label_faults(alloc: Global, invariants: &[Labelled]) -> Result<Option<Fault>, NoMemory>
    ensures { IfOk result (λ found. found ≡ least (wholes.label_names (map labelled_part invariants.now))) }
{
    let words = label_firsts(alloc, invariants)?;
    Ok(label_names(&words, invariants))
}

/// The least fault of the definitions of a class.
fn def_faults(
    alloc: Global,
    lookups: &Lookups,
    number: usize,
    class: &Class,
) -> Result<Option<Fault>, NoMemory>
    ensures { IfOk result (λ found. found ≡ least (wholes.all_defs (declared_by lookups.now) number (class_part class.now))) }
{
    let words = def_firsts(alloc, class.defs.items())?;
    let found = all_defs(alloc, lookups, number, &words, class.defs.items())?;
    Ok(found)
}

/// The least fault of the invariants of a class.
fn invariant_faults(
    alloc: Global,
    lookups: &Lookups,
    number: usize,
    invariants: &[Labelled],
) -> Result<Option<Fault>, NoMemory>
    ensures { IfOk result (λ found. found ≡ least (flat_map (parts.invariant_faults (declared_by lookups.now) number) (map labelled_part invariants.now))) }
{
    let at = outermost(alloc, number, false);
    let found = all_invariants(alloc, lookups, &at, invariants)?;
    Ok(found)
}

/// The least fault of what a class declares beside its methods.
fn state_faults(
    alloc: Global,
    lookups: &Lookups,
    number: usize,
    class: &Class,
    found: Option<Fault>,
) -> Result<Option<Fault>, NoMemory>
    ensures { IfOk result (λ made. made ≡ wholes.with_state (declared_by lookups.now) number (class_part class.now) found) }
{
    let fields = all_fields(lookups, class.fields.items());
    let vars = all_vars(lookups, number, class.vars.items());
    let defs = def_faults(alloc, lookups, number, class)?;
    let invariants = invariant_faults(alloc, lookups, number, class.invariants.items())?;
    let state = least_of_three(found, fields, vars);
    Ok(least_of_three(state, defs, invariants))
}

/// The least fault of a class.
fn class_faults(
    alloc: Global,
    lookups: &Lookups,
    names: &Firsts,
    number: usize,
    class: &Class,
) -> Result<Option<Fault>, NoMemory>
    ensures { IfOk result (λ found. found ≡ least (wholes.class_faults (declared_by lookups.now) number (is_behind names.now) (class_part class.now))) }
{
    let name = class_name_fault(names, &class.name);
    let members = member_names(alloc, class)?;
    let labels = label_faults(alloc, class.invariants.items())?;
    let found = least_of_three(name, members, labels);
    let state = state_faults(alloc, lookups, number, class, found)?;
    let methods = all_methods(alloc, lookups, number, class.methods.items())?;
    Ok(lesser(state, methods))
}

/// The least fault of some classes.
fn all_classes(
    alloc: Global,
    lookups: &Lookups,
    names: &Firsts,
    classes: &[Class],
) -> Result<Option<Fault>, NoMemory>
    ensures { IfOk result (λ found. found ≡ least (wholes.all_classes (declared_by lookups.now) 0 (is_behind names.now) (map class_part classes.now))) }
{
    let mut found = None;
    for index in 0..classes.len() {
        let next = class_faults(alloc, lookups, names, index, &classes[index])?;
        found = lesser(found, next);
    }
    Ok(found)
}

/// The least fault of a program, of which the tables are made.
fn faults_with(
    alloc: Global,
    lookups: &Lookups,
    program: &Program,
) -> Result<Option<Fault>, NoMemory>
    ensures { IfOk result (λ found. declared_by lookups.now ≡ declared_in (program_tree program.now) → found ≡ least (faults_of (program_tree program.now))) }
{
    let names = class_firsts(alloc, program.classes.items())?;
    let found = all_classes(alloc, lookups, &names, program.classes.items())?;
    Ok(found)
}

/// The least fault of a program, where there is one.
pub fn least_fault(alloc: Global, program: &Program) -> Result<Option<Fault>, NoMemory>
    ensures { IfOk result (λ found. found ≡ least (faults_of (program_tree program.now))) }
{
    let lookups = lookups_of(alloc, program)?;
    let found = faults_with(alloc, &lookups, program)?;
    Ok(found)
}
