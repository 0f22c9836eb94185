#![tactic(auto, using(jh_arena::proofs::table::Listed::growth_steps), unfolding(jh_ast::specs::Bare::class_part, jh_vars::specs::Opened::in_class, jh_vars::specs::Opened::in_classes))]

ghost use Rattle.std.specs.Prelude.{◌≡◌, ◌∷◌, ◌++◌, [], ℕ, List, None, map, false, OnOk, IfOk, Some, slice_get};
ghost use Rattle.std.specs.List.{flat_map};
ghost use Rattle.jh_ast.specs.Bare.{var_part, def_part, labelled_part, method_part, class_part, form_tree};
ghost use Rattle.jh_ast.specs.Forms.{LabelledPart};
ghost use Rattle.jh_ast.specs.Programs.{VarPart, DefPart};
ghost use Rattle.jh_arena.specs.table.Growth.{Extends};
ghost use Rattle.jh_arena.specs.table.Nodes.{nodes};
ghost use Rattle.jh_symbols.specs.scopes.Lookings.{scope_by};
ghost use Rattle.jh_vars.specs.Opened as opened;
ghost use Rattle.jh_definitions.specs.jh_resolution.Spots.{spot_of};
ghost use Rattle.jh_unfolding.specs.unfolder.Adding.{program_of, IsReady, Adds, outer_values};

use crate::unfolder::closing::of_every_object;
use crate::unfolder::formulas::{Gathered, add_formula, add_node, add_some, node_of};
use crate::unfolder::methods::add_method;
use crate::unfolder::statements::Unfolding;
use crate::unfolder::this::{Using, uses_this};
use jh_arena::table::Table;
use jh_ast::{Class, Labelled, Method, SpecTree, SpecVar, VarDef};
use jh_definitions::jh_resolution::{Context, Spot};
use jh_name::{Kind, NoMemory};
use jh_symbols::scopes::ScopeTable;
use std::alloc::Global;

/// The place of a formula outside methods, over a scope without names.
fn outside<'a>(at: &'a ScopeTable, class: usize, this_bound: bool) -> Spot<'a>
    requires { (x : List ℕ) → (scope_by at.now).local x ≡ None }
    ensures { spot_of result ≡ opened.outside class this_bound }
{
    Spot {
        class,
        scope: at,
        result: Kind::Obj,
        bound: &[],
        this_bound,
    }
}

/// Adds the initial values of variables.
fn add_inits(
    gathered: &mut Gathered,
    context: &Context,
    at: &Spot,
    vars: &[SpecVar],
) -> Result<(), NoMemory>
    requires { IsReady gathered.old.table context.now }
    ensures ready { OnOk result (IsReady gathered.new.table context.now) }
    ensures adds { OnOk result (Adds (program_of context.now) gathered.old gathered.new (flat_map (λ (v : VarPart). opened.valued_some (program_of context.now) (spot_of at.now) v.init) (map var_part vars.now))) }
{
    for next in vars {
        add_some(gathered, context, at, &next.init)?;
    }
    Ok(())
}

/// Adds definitions, as they are said of `this`.
fn add_defs(
    gathered: &mut Gathered,
    context: &Context,
    at: &Spot,
    defs: &[VarDef],
) -> Result<(), NoMemory>
    requires { IsReady gathered.old.table context.now }
    ensures ready { OnOk result (IsReady gathered.new.table context.now) }
    ensures adds { OnOk result (Adds (program_of context.now) gathered.old gathered.new (flat_map (λ (d : DefPart). opened.valued (program_of context.now) (spot_of at.now) d.spec) (map def_part defs.now))) }
{
    for next in defs {
        add_formula(gathered, context, at, &next.body)?;
    }
    Ok(())
}

/// The node of the value of an invariant of a class.
fn invariant_node(
    table: &mut Table,
    context: &Context,
    at: &ScopeTable,
    number: usize,
    class: &Class,
    form: &SpecTree,
) -> Result<usize, NoMemory>
    requires ready { IsReady table.old context.now }
    requires outside { (x : List ℕ) → (scope_by at.now).local x ≡ None }
    ensures node { IfOk result (λ made. slice_get (nodes table.new) made ≡ Some (opened.invariant_value (program_of context.now) number (class_part class.now) (form_tree form.now))) }
    ensures ready { IfOk result (λ made. IsReady table.new context.now) }
    ensures grows { Extends table.old table.new }
{
    let using = Using {
        context: &*context,
        class: number,
        bound: &[],
    };
    let uses = uses_this(table.alloc(), &using, form)?;
    if uses {
        let node = node_of(table, context, &outside(at, number, true), form)?;
        of_every_object(table, class, node)
    } else {
        node_of(table, context, &outside(at, number, false), form)
    }
}

/// Adds the invariants of a class.
fn add_invariants(
    gathered: &mut Gathered,
    context: &Context,
    at: &ScopeTable,
    number: usize,
    class: &Class,
    invariants: &[Labelled],
) -> Result<(), NoMemory>
    requires ready { IsReady gathered.old.table context.now }
    requires outside { (x : List ℕ) → (scope_by at.now).local x ≡ None }
    ensures ready { OnOk result (IsReady gathered.new.table context.now) }
    ensures adds { OnOk result (Adds (program_of context.now) gathered.old gathered.new (flat_map (λ (l : LabelledPart). (l.spec.number, opened.invariant_value (program_of context.now) number (class_part class.now) l.spec.form) ∷ []) (map labelled_part invariants.now))) }
{
    for next in invariants {
        let node = invariant_node(
            &mut gathered.table,
            context,
            at,
            number,
            class,
            &next.body.body,
        )?;
        add_node(gathered, next.body.number, node)?;
    }
    Ok(())
}

/// Adds the formulas of methods of a class.
fn add_methods(
    alloc: Global,
    visitor: &mut Unfolding,
    class: usize,
    methods: &[Method],
) -> Result<(), NoMemory>
    requires { IsReady visitor.old.gathered.table visitor.old.context }
    ensures ready { OnOk result (IsReady visitor.new.gathered.table visitor.new.context) }
    ensures context { OnOk result (visitor.new.context ≡ visitor.old.context) }
    ensures adds { OnOk result (Adds (program_of visitor.old.context) visitor.old.gathered visitor.new.gathered (flat_map (opened.in_method (program_of visitor.old.context) class) (map method_part methods.now))) }
{
    for next in methods {
        add_method(alloc, visitor, class, next)?;
    }
    Ok(())
}

/// Adds the formulas of a class that stand outside methods.
fn add_outer(
    gathered: &mut Gathered,
    context: &Context,
    at: &ScopeTable,
    number: usize,
    class: &Class,
) -> Result<(), NoMemory>
    requires ready { IsReady gathered.old.table context.now }
    requires outside { (x : List ℕ) → (scope_by at.now).local x ≡ None }
    ensures ready { OnOk result (IsReady gathered.new.table context.now) }
    ensures adds { OnOk result (Adds (program_of context.now) gathered.old gathered.new (outer_values (program_of context.now) number (class_part class.now))) }
{
    let spot = outside(at, number, false);
    add_inits(gathered, context, &spot, class.vars.items())?;
    add_defs(gathered, context, &spot, class.defs.items())?;
    add_invariants(
        gathered,
        context,
        at,
        number,
        class,
        class.invariants.items(),
    )?;
    Ok(())
}

/// Adds the formulas of a class.
fn add_class(
    alloc: Global,
    visitor: &mut Unfolding,
    at: &ScopeTable,
    number: usize,
    class: &Class,
) -> Result<(), NoMemory>
    requires ready { IsReady visitor.old.gathered.table visitor.old.context }
    requires outside { (x : List ℕ) → (scope_by at.now).local x ≡ None }
    ensures ready { OnOk result (IsReady visitor.new.gathered.table visitor.new.context) }
    ensures context { OnOk result (visitor.new.context ≡ visitor.old.context) }
    ensures adds { OnOk result (Adds (program_of visitor.old.context) visitor.old.gathered visitor.new.gathered (opened.in_class (program_of visitor.old.context) number (class_part class.now))) }
{
    add_outer(&mut visitor.gathered, &visitor.context, at, number, class)?;
    add_methods(alloc, visitor, number, class.methods.items())?;
    Ok(())
}

/// Adds the formulas of classes.
pub fn add_classes(
    alloc: Global,
    visitor: &mut Unfolding,
    at: &ScopeTable,
    classes: &[Class],
) -> Result<(), NoMemory>
    requires ready { IsReady visitor.old.gathered.table visitor.old.context }
    requires outside { (x : List ℕ) → (scope_by at.now).local x ≡ None }
    ensures adds { OnOk result (Adds (program_of visitor.old.context) visitor.old.gathered visitor.new.gathered (opened.in_classes (program_of visitor.old.context) 0 (map class_part classes.now))) }
{
    for number in 0..classes.len() {
        add_class(alloc, visitor, at, number, &classes[number])?;
    }
    Ok(())
}
