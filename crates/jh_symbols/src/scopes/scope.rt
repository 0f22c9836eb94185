ghost use Rattle.std.specs.Prelude.{◌≡◌, ◌∷◌, ◌++◌, [], ◌≤◌, length, take, drop, OnOk, IfOk};
ghost use Rattle.jh_symbols.specs.scopes.Lookings.{scope_by};
ghost use Rattle.jh_symbols.specs.scopes.Lookings.{declared_by};
ghost use Rattle.jh_symbols.specs.scopes.Changing as changing;
ghost use Rattle.jh_rules.specs.Names as names;
ghost use Rattle.jh_rules.specs.Scopes as scopes;

use crate::scopes::Lookups;
use indexmap::IndexMap;
use jh_ast::{JType, Param};
use jh_name::{Kind, NoMemory, Text};
use jh_rules::{LocalEntry, Sorts, Ty};
use std::alloc::Global;

/// What a name stood for before it was declared.
#[derive(Drop)]
pub struct Undo {
    pub name: Text,
    pub before: Option<LocalEntry>,
}

/// Where code stands, with what is to be put back at the end of each block.
#[derive(Drop)]
pub struct ScopeTable {
    pub alloc: Global,
    pub class: usize,
    pub fixed: bool,
    pub locals: IndexMap<String, Option<LocalEntry>>,
    pub earlier: IndexMap<String, Sorts>,
    pub labels: IndexMap<String, bool>,
    pub undos: Vec<Undo>,
}

impl ScopeTable {
    /// The parameter or local of a name in scope.
    pub fn local(&self, text: &str) -> Option<LocalEntry>
        ensures { result ≡ (scope_by self.now).local text.now }
    {
        match self.locals.get(text) {
            None => None,
            Some(local) => *local,
        }
    }

    /// The sorts of the declarations of a name in the text of the method before.
    pub fn earlier(&self, text: &str) -> Sorts
        ensures { result ≡ (scope_by self.now).earlier text.now }
    {
        match self.earlier.get(text) {
            None => Sorts {
                objects: false,
                numbers: false,
                truths: false,
            },
            Some(sorts) => *sorts,
        }
    }

    /// Whether a loop invariant or note before has this label.
    pub fn has_label(&self, text: &str) -> bool
        ensures { result ≡ (scope_by self.now).labels text.now }
    {
        self.labels.get(text).is_some()
    }

    /// Lets a name stand for a local, or for none.
    fn put_local(&mut self, text: &str, entry: Option<LocalEntry>) -> Result<(), NoMemory>
        ensures changed { OnOk result (scope_by self.new ≡ changing.with_local (scope_by self.old) text.now entry) }
        ensures undos { self.new.undos.items ≡ self.old.undos.items }
    {
        let key = String::from_str(self.alloc, text)?;
        self.locals.insert(key, entry)?;
        Ok(())
    }

    /// Says of which sorts the declarations of a name are.
    pub fn put_sorts(&mut self, text: &str, sorts: Sorts) -> Result<(), NoMemory>
        ensures changed { OnOk result (scope_by self.new ≡ changing.with_sorts (scope_by self.old) text.now sorts) }
        ensures undos { self.new.undos.items ≡ self.old.undos.items }
    {
        let key = String::from_str(self.alloc, text)?;
        self.earlier.insert(key, sorts)?;
        Ok(())
    }

    /// Takes a label in.
    pub fn put_label(&mut self, text: &str) -> Result<(), NoMemory>
        ensures changed { OnOk result (scope_by self.new ≡ changing.with_label (scope_by self.old) text.now) }
        ensures undos { self.new.undos.items ≡ self.old.undos.items }
    {
        let key = String::from_str(self.alloc, text)?;
        self.labels.insert(key, true)?;
        Ok(())
    }

    /// Keeps what a name stands for.
    fn keep(&mut self, text: &str) -> Result<(), NoMemory>
        ensures same { scope_by self.new ≡ scope_by self.old }
        ensures undos { OnOk result (self.new.undos.items ≡ self.old.undos.items ++ changing.undo text.now ((scope_by self.old).local text.now) ∷ []) }
    {
        let undo = Undo {
            name: Text::of(String::from_str(self.alloc, text)?),
            before: self.local(text),
        };
        self.undos.push(undo)?;
        Ok(())
    }

    /// Declares a parameter or local.
    pub fn declare(
        &mut self,
        lookups: &Lookups,
        param: &Param,
        is_param: bool,
    ) -> Result<(), NoMemory>
        ensures changed { OnOk result (scope_by self.new ≡ scopes.declare (declared_by lookups.now) is_param (scope_by self.old) param.now) }
        ensures undos { OnOk result (self.new.undos.items ≡ self.old.undos.items ++ changing.undo param.now.name.text.text ((scope_by self.old).local param.now.name.text.text) ∷ []) }
    {
        let text = param.name.text.text();
        let sorts = with_sort(kind_of_word(&param.jtype), self.earlier(text));
        let entry = LocalEntry {
            ty: type_of(lookups, &param.jtype),
            is_param,
        };
        self.keep(text)?;
        self.put_local(text, Some(entry))?;
        self.put_sorts(text, sorts)?;
        Ok(())
    }

    /// How many declarations can be undone.
    pub fn mark(&self) -> usize
        ensures { result ≡ length self.now.undos.items }
    {
        self.undos.len()
    }

    /// Undoes all declarations but the first so many: each name stands again for what it stood for before.
    pub fn leave(&mut self, mark: usize) -> Result<(), NoMemory>
        requires { mark ≤ length self.old.undos.items }
        ensures changed { OnOk result (scope_by self.new ≡ changing.undone (scope_by self.old) (drop mark self.old.undos.items)) }
        ensures undos { OnOk result (self.new.undos.items ≡ take mark self.old.undos.items) }
    {
        while self.undos.len() > mark {
            match self.undos.pop() {
                None => return Ok(()),
                Some(undo) => self.put_local(undo.name.text(), undo.before)?,
            }
        }
        Ok(())
    }
}

/// The type of a class name.
pub fn class_type(lookups: &Lookups, text: &str) -> Option<Ty>
    ensures { result ≡ names.class_type (declared_by lookups.now).class_named text.now }
{
    match lookups.class_named(text) {
        Some(class) => Some(Ty::Class(class)),
        None => {
            if text == "Object" {
                Some(Ty::Object)
            } else {
                None
            }
        }
    }
}

/// The type of a type word.
pub fn type_of(lookups: &Lookups, jtype: &JType) -> Option<Ty>
    ensures { result ≡ names.type_of (declared_by lookups.now).class_named jtype.now }
{
    match jtype {
        JType::Int => Some(Ty::Int),
        JType::Boolean => Some(Ty::Boolean),
        JType::Void => Some(Ty::Void),
        JType::Class(word) => class_type(lookups, word.text.text()),
    }
}

/// The kind of a value of a type word.
pub fn kind_of_word(jtype: &JType) -> Kind
    ensures { result ≡ names.kind_of_word jtype.now }
{
    match jtype {
        JType::Int => Kind::Int,
        JType::Boolean => Kind::Bool,
        JType::Void => Kind::Obj,
        JType::Class(_) => Kind::Obj,
    }
}

/// The sorts of declarations, with one more of a kind.
fn with_sort(kind: Kind, sorts: Sorts) -> Sorts
    ensures { result ≡ scopes.with_sort kind sorts }
{
    match kind {
        Kind::Int => Sorts {
            numbers: true,
            ..sorts
        },
        Kind::Bool => Sorts {
            truths: true,
            ..sorts
        },
        _ => Sorts {
            objects: true,
            ..sorts
        },
    }
}
