#![tactic(auto, using(crate::proofs::method_bodies::Leasts::least_steps), unfolding(jh_rules::specs::Found::least, jh_rules::specs::Statements::param_faults, jh_rules::specs::Scopes::declare_all))]

ghost use Rattle.std.specs.Prelude.{◌≡◌, IfOk, OnOk};
ghost use Rattle.jh_rules.specs.Found.{least};
ghost use Rattle.jh_rules.specs.Rules as rules;
ghost use Rattle.jh_rules.specs.Scopes as scopes;
ghost use Rattle.jh_rules.specs.Statements as statements;
ghost use Rattle.jh_symbols.specs.scopes.Lookings.{declared_by, scope_by};
ghost use Rattle.jh_type.specs.method_bodies.Parts as parts;

use crate::method_bodies::faulting::broken;
use jh_ast::{JType, Param, Word};
use jh_name::{Kind, NoMemory};
use jh_rules::{Fault, Sorts, lesser};
use jh_symbols::scopes::{Lookups, ScopeTable, class_type, kind_of_word};

/// A type word that is no class.
pub fn word_fault(lookups: &Lookups, jtype: &JType) -> Option<Fault>
    ensures { result ≡ least (rules.rule_4 (declared_by lookups.now) jtype.now) }
{
    match jtype {
        JType::Int => None,
        JType::Boolean => None,
        JType::Void => None,
        JType::Class(word) => {
            let known = class_type(lookups, word.text.text()).is_some();
            broken(4, word.place, !known)
        }
    }
}

/// Whether there are declarations of another sort.
fn has_other_sort(kind: Kind, sorts: Sorts) -> bool
    ensures { result ≡ scopes.has_other_sort kind sorts }
{
    match kind {
        Kind::Int => sorts.objects || sorts.truths,
        Kind::Bool => sorts.objects || sorts.numbers,
        Kind::Obj => sorts.numbers || sorts.truths,
        Kind::Set => sorts.numbers || sorts.truths,
    }
}

/// A parameter or local whose name is in scope, or was another sort's before.
fn again_fault(at: &ScopeTable, param: &Param) -> Option<Fault>
    ensures { result ≡ least (rules.rule_5 (scope_by at.now) param.now) }
{
    let text = param.name.text.text();
    let is_again = at.local(text).is_some()
        || has_other_sort(kind_of_word(&param.jtype), at.earlier(text));
    broken(5, param.name.place, is_again)
}

/// Whether a name may be no parameter's and no local's, classes aside.
fn is_kept(text: &str) -> bool
    ensures { result ≡ parts.is_kept text.now }
{
    text == "result" || text == "alloc" || text == "Object"
}

/// A parameter or local whose name may not be one's.
fn name_fault(lookups: &Lookups, word: &Word) -> Option<Fault>
    ensures { result ≡ least (rules.rule_6_local (declared_by lookups.now) word.now) }
{
    let text = word.text.text();
    let is_wrong = is_kept(text) || lookups.class_named(text).is_some();
    broken(6, word.place, is_wrong)
}

/// The least fault of a declaration of a parameter or local.
pub fn declared_faults(lookups: &Lookups, at: &ScopeTable, param: &Param) -> Option<Fault>
    ensures { result ≡ least (statements.declared_faults (declared_by lookups.now) (scope_by at.now) param.now) }
{
    let word = word_fault(lookups, &param.jtype);
    let again = again_fault(at, param);
    let name = name_fault(lookups, &param.name);
    lesser(lesser(word, again), name)
}

/// Declares parameters, each where those before it are, and gives the least fault.
pub fn param_faults(
    lookups: &Lookups,
    at: &mut ScopeTable,
    params: &[Param],
) -> Result<Option<Fault>, NoMemory>
    ensures found { IfOk result (λ found. found ≡ least (statements.param_faults (declared_by lookups.now) (scope_by at.old) params.now)) }
    ensures scope { OnOk result (scope_by at.new ≡ scopes.declare_all (declared_by lookups.now) (scope_by at.old) params.now) }
{
    let mut found = None;
    for param in params.iter() {
        found = lesser(found, declared_faults(lookups, at, param));
        at.declare(lookups, param, true)?;
    }
    Ok(found)
}
