#![tactic(auto, using(jh_arena::proofs::table::Listed::growth_steps, crate::proofs::unfolder::Addings::adds_steps))]

ghost use Rattle.std.specs.Prelude.{◌≡◌, [], ◌∷◌, Some, option_map, map, slice_get, OnOk, IfOk};
ghost use Rattle.jh_ast.specs.Bare.{form_tree, spec_part, labelled_part};
ghost use Rattle.jh_ast.specs.Programs.{ProgramTree};
ghost use Rattle.jh_form.specs.Tree.{ValueTree};
ghost use Rattle.jh_arena.specs.table.Growth.{Extends};
ghost use Rattle.jh_arena.specs.table.Nodes.{nodes};
ghost use Rattle.jh_symbols.specs.scopes.Lookings.{scope_by};
ghost use Rattle.jh_vars.specs.Opened as opened;
ghost use Rattle.jh_definitions.specs.jh_resolution.Spots.{spot_of};
ghost use Rattle.jh_unfolding.specs.unfolder.Adding.{program_of, IsReady, Adds};

use crate::unfolder::places::Places;
use jh_arena::table::Table;
use jh_ast::{Labelled, Spec, SpecTree};
use jh_definitions::jh_resolution::{Context, Spot, resolved};
use jh_name::{Kind, NoMemory};
use jh_symbols::scopes::ScopeTable;

/// The formulas that were gathered: a table, and the node of each formula by its number.
#[derive(Drop)]
pub struct Gathered {
    pub table: Table,
    pub places: Places,
}

/// The place of a formula of a method.
pub fn inside<'a>(at: &'a ScopeTable, kind: Kind) -> Spot<'a>
    ensures { spot_of result ≡ opened.inside kind (scope_by at.now) }
{
    Spot {
        class: at.class,
        scope: at,
        result: kind,
        bound: &[],
        this_bound: false,
    }
}

/// The node of the value of a formula at a place of the program.
pub fn node_of(
    table: &mut Table,
    context: &Context,
    at: &Spot,
    form: &SpecTree,
) -> Result<usize, NoMemory>
    requires { IsReady table.old context.now }
    ensures node { IfOk result (λ made. slice_get (nodes table.new) made ≡ Some (opened.value_at (program_of context.now) (spot_of at.now) (form_tree form.now))) }
    ensures ready { IsReady table.new context.now }
    ensures grows { Extends table.old table.new }
{
    resolved(table, context, at, form)
}

/// Adds the node of a formula.
pub fn add_node(gathered: &mut Gathered, number: u32, node: usize) -> Result<(), NoMemory>
    ensures table { gathered.new.table ≡ gathered.old.table }
    ensures adds { OnOk result ((p : ProgramTree) (v : ValueTree) → slice_get (nodes gathered.old.table) node ≡ Some v → Adds p gathered.old gathered.new ((number, v) ∷ [])) }
{
    gathered.places.note(number, node)
}

/// Adds a formula at a place of the program.
pub fn add_formula(
    gathered: &mut Gathered,
    context: &Context,
    at: &Spot,
    spec: &Spec,
) -> Result<(), NoMemory>
    requires { IsReady gathered.old.table context.now }
    ensures ready { OnOk result (IsReady gathered.new.table context.now) }
    ensures adds { OnOk result (Adds (program_of context.now) gathered.old gathered.new (opened.valued (program_of context.now) (spot_of at.now) (spec_part spec.now))) }
{
    let node = node_of(&mut gathered.table, context, at, &spec.body)?;
    add_node(gathered, spec.number, node)
}

/// Adds a formula, where there is one.
pub fn add_some(
    gathered: &mut Gathered,
    context: &Context,
    at: &Spot,
    spec: &Option<Spec>,
) -> Result<(), NoMemory>
    requires { IsReady gathered.old.table context.now }
    ensures ready { OnOk result (IsReady gathered.new.table context.now) }
    ensures adds { OnOk result (Adds (program_of context.now) gathered.old gathered.new (opened.valued_some (program_of context.now) (spot_of at.now) (option_map spec_part spec.now))) }
{
    match spec {
        None => Ok(()),
        Some(spec) => add_formula(gathered, context, at, spec),
    }
}

/// Adds formulas with labels.
pub fn add_labelled(
    gathered: &mut Gathered,
    context: &Context,
    at: &Spot,
    labelled: &[Labelled],
) -> Result<(), NoMemory>
    requires { IsReady gathered.old.table context.now }
    ensures ready { OnOk result (IsReady gathered.new.table context.now) }
    ensures adds { OnOk result (Adds (program_of context.now) gathered.old gathered.new (opened.labelled_values (program_of context.now) (spot_of at.now) (map labelled_part labelled.now))) }
{
    for next in labelled {
        add_formula(gathered, context, at, &next.body)?;
    }
    Ok(())
}
