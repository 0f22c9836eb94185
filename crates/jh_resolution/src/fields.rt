#![tactic(auto, using(crate::proofs::ValueSteps::value_steps, jh_arena::proofs::table::Listed::growth_steps))]

ghost use Rattle.std.specs.Prelude.{◌≡◌, ◌<◌, true, IfOk, Some, length, slice_get};
ghost use Rattle.jh_ast.specs.Bare.{form_tree};
ghost use Rattle.jh_form.specs.Tree.{of_field, of_truth, free_field};
ghost use Rattle.jh_form.specs.Tree as t;
ghost use Rattle.jh_arena.specs.table.Entries.{are_fields, fields_at, the_value};
ghost use Rattle.jh_arena.specs.table.Growth.{Extends};
ghost use Rattle.jh_arena.specs.table.Nodes.{nodes};
ghost use Rattle.jh_vars.specs.Resolved as r;
ghost use Rattle.jh_resolution.specs.Spots.{field_in, fields_in, path_in};

use crate::coercing::both;
use crate::context::{Context, Spot};
use crate::naming::{field, state_name};
use crate::own::own_name;
use jh_arena::makers::{forest, reach};
use jh_arena::table::Table;
use jh_ast::{SpecTree, Word};
use jh_name::{Name, NoMemory, Sort, name};
use jh_type::formula_kinds::{equation_fields, state_named};
use std::alloc::Global;

/// The name of the field that a word names.
fn field_name(alloc: Global, context: &Context, at: &Spot, word: &Word) -> Result<Name, NoMemory>
    ensures { IfOk result (λ made. made ≡ field_in context.now at.now word.now) }
{
    let text = word.text.text();
    match state_named(context.lookups, at.class, text) {
        None => name(alloc, "", 0),
        Some(state) => state_name(alloc, context, state.class, own_name(text)),
    }
}

/// The node of the field that a word names.
fn field_node(
    table: &mut Table,
    context: &Context,
    at: &Spot,
    word: &Word,
) -> Result<usize, NoMemory>
    ensures node { IfOk result (λ made. slice_get (nodes table.new) made ≡ Some (of_field (free_field (field_in context.now at.now word.now)))) }
    ensures grows { Extends table.old table.new }
{
    let name = field_name(table.alloc(), context, at, word)?;
    field(table, &name)
}

/// The nodes of the fields that words name.
fn field_nodes(
    table: &mut Table,
    context: &Context,
    at: &Spot,
    words: &[Word],
) -> Result<Vec<usize>, NoMemory>
    ensures fields { IfOk result (λ made. are_fields (nodes table.new) made.items ≡ true) }
    ensures trees { IfOk result (λ made. fields_at (nodes table.new) made.items ≡ fields_in context.now at.now words.now) }
    ensures grows { Extends table.old table.new }
{
    let mut made = Vec::new(table.alloc());
    for word in words {
        let node = field_node(table, context, at, word)?;
        made.push(node)?;
    }
    Ok(made)
}

/// The node of that the fields of some words are a forest.
pub fn forest_of(
    table: &mut Table,
    context: &Context,
    at: &Spot,
    words: &[Word],
) -> Result<usize, NoMemory>
    ensures node { IfOk result (λ made. slice_get (nodes table.new) made ≡ Some (of_truth (t.tree (fields_in context.now at.now words.now)))) }
    ensures grows { Extends table.old table.new }
{
    let fields = field_nodes(table, context, at, words)?;
    forest(table, fields.as_slice())
}

/// The two names and the body of a path.
#[derive(Clone, Copy)]
pub struct Path<'a> {
    pub first: &'a Word,
    pub second: &'a Word,
    pub body: &'a SpecTree,
}

/// The nodes of the fields of a path.
fn path_nodes(
    table: &mut Table,
    context: &Context,
    at: &Spot,
    path: &Path,
) -> Result<Vec<usize>, NoMemory>
    ensures fields { IfOk result (λ made. are_fields (nodes table.new) made.items ≡ true) }
    ensures trees { IfOk result (λ made. fields_at (nodes table.new) made.items ≡ path_in context.now at.now path.now.first.now path.now.second.now (form_tree path.now.body.now)) }
    ensures grows { Extends table.old table.new }
{
    let alloc = table.alloc();
    match equation_fields(alloc, path.first, path.second, path.body)? {
        None => Ok(Vec::new(alloc)),
        Some(words) => field_nodes(table, context, at, words.items()),
    }
}

/// The node of that an object is reached from another along the fields of a path.
pub fn reach_of(
    table: &mut Table,
    context: &Context,
    at: &Spot,
    path: &Path,
    left: usize,
    right: usize,
) -> Result<usize, NoMemory>
    requires left { left < length (nodes table.old) }
    requires right { right < length (nodes table.old) }
    ensures node { IfOk result (λ made. slice_get (nodes table.new) made ≡ Some (of_truth (t.reach (path_in context.now at.now path.now.first.now path.now.second.now (form_tree path.now.body.now)) (r.as_object (the_value (slice_get (nodes table.old) left))) (r.as_object (the_value (slice_get (nodes table.old) right)))))) }
    ensures grows { Extends table.old table.new }
{
    let two = both(table, left, Sort::Obj, right, Sort::Obj)?;
    let fields = path_nodes(table, context, at, path)?;
    reach(table, fields.as_slice(), two.left, two.right)
}
