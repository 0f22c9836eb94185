#![tactic(auto, using(crate::proofs::Resolving::class_spelled))]

ghost use Rattle.std.specs.Prelude.{◌≡◌, ◌++◌, IfOk, codes};
ghost use Rattle.jh_semantics.specs.Lowered as lowered;
ghost use Rattle.jh_lowering.specs.Lowering.{IsDeclared, source_of, spelled};

use crate::context::Context;
use jh_name::{Kind, Name, NoMemory, name};
use jh_rules::{FieldEntry, kind_of};
use std::alloc::Global;

/// The kind of a static or field.
fn field_kind(entry: FieldEntry) -> Kind
    ensures { result ≡ lowered.field_kind entry }
{
    match entry.ty {
        None => Kind::Obj,
        Some(ty) => kind_of(ty),
    }
}

impl Context<'_> {
    /// The text of the class of a number.
    fn class_text(&self, class: usize) -> &str
        ensures { result.now ≡ spelled self.now.program.now.classes class }
    {
        match self.program.classes.items().get(class) {
            None => "",
            Some(class) => class.name.text.text(),
        }
    }

    /// The kind of a static or field of a class.
    pub fn member_kind(&self, class: usize, own: &str) -> Kind
        requires { IsDeclared self.now }
        ensures { result ≡ lowered.member_kind (source_of self.now) class own.now }
    {
        match self.lookups.field_of(class, own) {
            None => Kind::Obj,
            Some(entry) => field_kind(entry),
        }
    }

    /// The name of a static, field or ghost variable of a class.
    pub fn member_name(&self, alloc: Global, class: usize, own: &str) -> Result<Name, NoMemory>
        ensures { IfOk result (λ made. made.text ≡ lowered.member_text (source_of self.now) class own.now) }
    {
        let mut text = String::from_str(alloc, self.class_text(class))?;
        text.push_str(".")?;
        text.push_str(own)?;
        name(alloc, text.as_str(), 0)
    }
}
