#![tactic(auto, using(crate::proofs::NameSteps::name_steps, jh_arena::proofs::table::Listed::growth_steps))]

ghost use Rattle.std.specs.Prelude.{◌≡◌, ◌++◌, true, IfOk, Some, codes, slice_get};
ghost use Rattle.jh_form.specs.Tree.{of_field, of_object, free_field};
ghost use Rattle.jh_form.specs.Tree as t;
ghost use Rattle.jh_arena.specs.table.Entries.{is_object, the_object};
ghost use Rattle.jh_arena.specs.table.Growth.{Extends};
ghost use Rattle.jh_arena.specs.table.Nodes.{nodes};
ghost use Rattle.jh_vars.specs.Resolved as r;
ghost use Rattle.jh_resolution.specs.Spots.{spelled_by, kind_of_state};

use crate::context::Context;
use jh_arena::table::{Shape, Table};
use jh_name::{Kind, Name, NoMemory, name};
use jh_rules::StateEntry;
use std::alloc::Global;

/// The node of a free name of a kind.
pub fn free(table: &mut Table, kind: Kind, name: &Name) -> Result<usize, NoMemory>
    ensures node { IfOk result (λ made. slice_get (nodes table.new) made ≡ Some (r.free kind name.now)) }
    ensures grows { Extends table.old table.new }
{
    let number = table.name(name)?;
    match kind {
        Kind::Obj => table.make(Shape::FreeObject(number)),
        Kind::Int => table.make(Shape::FreeNumber(number)),
        Kind::Bool => table.make(Shape::FreeTruth(number)),
        Kind::Set => table.make(Shape::FreeSet(number)),
    }
}

/// The node of a field.
pub fn field(table: &mut Table, name: &Name) -> Result<usize, NoMemory>
    ensures node { IfOk result (λ made. slice_get (nodes table.new) made ≡ Some (of_field (free_field name.now))) }
    ensures grows { Extends table.old table.new }
{
    let number = table.name(name)?;
    table.make(Shape::FreeField(number))
}

/// The node of the value of a field, of a kind, at a receiver.
pub fn read(table: &mut Table, kind: Kind, name: &Name, receiver: usize) -> Result<usize, NoMemory>
    requires { is_object (slice_get (nodes table.old) receiver) ≡ true }
    ensures node { IfOk result (λ made. slice_get (nodes table.new) made ≡ Some (r.read kind name.now (the_object (slice_get (nodes table.old) receiver)))) }
    ensures grows { Extends table.old table.new }
{
    let field = field(table, name)?;
    match kind {
        Kind::Obj => table.make(Shape::ReadObject(field, receiver)),
        Kind::Int => table.make(Shape::ReadNumber(field, receiver)),
        Kind::Bool => table.make(Shape::ReadTruth(field, receiver)),
        Kind::Set => table.make(Shape::ReadSet(field, receiver)),
    }
}

/// The node of a free name of the source.
pub fn plain(table: &mut Table, kind: Kind, text: &str) -> Result<usize, NoMemory>
    ensures node { IfOk result (λ made. slice_get (nodes table.new) made ≡ Some (r.free kind (r.own text.now 0))) }
    ensures grows { Extends table.old table.new }
{
    let name = name(table.alloc(), text, 0)?;
    free(table, kind, &name)
}

/// The kind of a field, static or specification variable.
pub fn kind_of_state(state: StateEntry) -> Kind
    ensures { result ≡ kind_of_state state }
{
    match state.kind {
        None => Kind::Obj,
        Some(kind) => kind,
    }
}

impl Context<'_> {
    /// The text of the class of a number.
    fn class_text(&self, class: usize) -> &str
        ensures { result.now ≡ spelled_by self.now.classes.now class }
    {
        match self.classes.get(class) {
            None => "",
            Some(class) => class.name.text.text(),
        }
    }
}

/// The name of a static, a field or a ghost variable, by its class and its own name.
pub fn state_name(
    alloc: Global,
    context: &Context,
    class: usize,
    own: &str,
) -> Result<Name, NoMemory>
    ensures { IfOk result (λ made. made ≡ r.own (spelled_by context.now.classes.now class ++ codes "." ++ own.now) 0) }
{
    let mut text = String::from_str(alloc, context.class_text(class))?;
    text.push_str(".")?;
    text.push_str(own)?;
    name(alloc, text.as_str(), 0)
}
