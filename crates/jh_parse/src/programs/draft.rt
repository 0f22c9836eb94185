//! A class as far as it is read.
ghost use Rattle.std.specs.Prelude.{◌≡◌, [], ◌∷◌, map, IfOk};
ghost use Rattle.jh_ast.specs.Bare.{class_part};
ghost use Rattle.jh_parse.specs.programs.MemberReads.{draft_tree, with_items};
ghost use Rattle.jh_parse.specs.programs.Members.{class_of};
ghost use Rattle.jh_spec.specs.parser.PartReads.{item_tree};

use jh_ast::{Class, Field, Labelled, Method, SpecVar, VarDef, Word};
use jh_name::{NoMemory, Row};
use jh_spec::parser::SpecItem;
use std::alloc::Global;

/// What a class has so far. Each list is in the order of the text.
#[derive(Drop)]
pub struct Draft {
    pub(crate) name: Word,
    pub(crate) fields: Vec<Field>,
    pub(crate) methods: Vec<Method>,
    pub(crate) vars: Vec<SpecVar>,
    pub(crate) defs: Vec<VarDef>,
    pub(crate) invariants: Vec<Labelled>,
}

impl Draft {
    /// A class of this name without members.
    pub(crate) fn of(alloc: Global, name: Word) -> Draft
        ensures { draft_tree result ≡ class_of name [] }
    {
        Draft {
            name,
            fields: Vec::new(alloc),
            methods: Vec::new(alloc),
            vars: Vec::new(alloc),
            defs: Vec::new(alloc),
            invariants: Vec::new(alloc),
        }
    }

    /// The class.
    #[tactic(auto, unfolding(jh_ast::specs::Bare::class_part))]
    pub(crate) fn finished(self) -> Class
        ensures { class_part result ≡ draft_tree self }
    {
        Class {
            name: self.name,
            fields: Row::of(self.fields),
            methods: Row::of(self.methods),
            vars: Row::of(self.vars),
            defs: Row::of(self.defs),
            invariants: Row::of(self.invariants),
        }
    }

    /// One more of what a specification declares.
    fn add(&mut self, item: SpecItem) -> Result<(), NoMemory>
        ensures { IfOk result (λ _. draft_tree self.new ≡ with_items (draft_tree self.old) (item_tree item ∷ [])) }
    {
        match item {
            SpecItem::Var(variable) => self.vars.push(variable)?,
            SpecItem::Def(definition) => self.defs.push(definition)?,
            SpecItem::Invariant(invariant) => self.invariants.push(invariant)?,
        }
        Ok(())
    }

    /// All that a specification declares.
    pub(crate) fn add_items(&mut self, items: Vec<SpecItem>) -> Result<(), NoMemory>
        ensures { IfOk result (λ _. draft_tree self.new ≡ with_items (draft_tree self.old) (map item_tree items.items)) }
    {
        for item in items {
            self.add(item)?;
        }
        Ok(())
    }
}
