#![tactic(auto)]

ghost use Rattle.std.specs.Prelude.{◌≡◌, ℕ, map, option_map, IfOk};
ghost use Rattle.jh_ast.specs.Bare.{spec_part, labelled_part};
ghost use Rattle.jh_semantics.specs.LoweredStmts as lowered;
ghost use Rattle.jh_semantics.specs.typed_code.Statements.{local_in, claim_in};
ghost use Rattle.jh_lowering.specs.Lowering.{IsDeclared, boxed_code, source_of};

use crate::context::Context;
use crate::making::{BoxedCode, constant, null_code, truth_value};
use jh_ast::{JType, Labelled, Param, Spec, Word};
use jh_name::{Name, NoMemory, Row};
use jh_rules::Ty;
use jh_semantics::typed_code::{Claim, Local};
use jh_symbols::scopes::type_of;
use std::alloc::Global;

/// The default of a type.
pub fn default_code(alloc: Global, ty: Ty) -> Result<BoxedCode, NoMemory>
    ensures { IfOk result (λ made. boxed_code made ≡ lowered.default_code ty) }
{
    match ty {
        Ty::Int => constant(alloc, 0),
        Ty::Boolean => truth_value(alloc, false),
        _ => null_code(alloc),
    }
}

/// The type that a type word names.
pub fn word_type(context: &Context, word: &JType) -> Ty
    requires { IsDeclared context.now }
    ensures { result ≡ lowered.word_type (source_of context.now) word.now }
{
    match type_of(context.lookups, word) {
        None => Ty::Object,
        Some(ty) => ty,
    }
}

/// A parameter or a local.
pub fn local_code(alloc: Global, context: &Context, param: &Param) -> Result<Local, NoMemory>
    requires { IsDeclared context.now }
    ensures { IfOk result (λ made. local_in made ≡ lowered.local_code (source_of context.now) param.now) }
{
    let ty = word_type(context, &param.jtype);
    let name = param.name.text.copy(alloc)?;
    Ok(Local { name, ty })
}

/// The names of some words.
fn names_of(alloc: Global, words: &[Word]) -> Result<Row<Name>, NoMemory>
    ensures { IfOk result (λ made. made ≡ map (λ w. w.text) words.now) }
{
    let mut names = Vec::new(alloc);
    for word in words.iter() {
        names.push(word.text.copy(alloc)?)?;
    }
    Ok(Row::of(names))
}

/// The name of a word, where there is one.
fn name_of(alloc: Global, word: &Option<Word>) -> Result<Option<Name>, NoMemory>
    ensures { IfOk result (λ made. made ≡ option_map (λ w. w.text) word.now) }
{
    match word {
        None => Ok(None),
        Some(word) => Ok(Some(word.text.copy(alloc)?)),
    }
}

/// A formula without a label.
pub fn claim_of(alloc: Global, spec: &Spec) -> Claim
    ensures { (p : _) → claim_in p result ≡ lowered.claim_of p (spec_part spec.now) }
{
    Claim {
        label: None,
        place: spec.place,
        from: Row::of(Vec::new(alloc)),
        number: spec.number,
    }
}

/// A formula with its label and what it follows from.
pub fn labelled_claim(alloc: Global, labelled: &Labelled) -> Result<Claim, NoMemory>
    ensures { IfOk result (λ made. (p : _) → claim_in p made ≡ lowered.labelled_claim p (labelled_part labelled.now)) }
{
    let label = name_of(alloc, &labelled.name)?;
    let from = names_of(alloc, labelled.from.items())?;
    Ok(Claim {
        label,
        place: labelled.body.place,
        from,
        number: labelled.body.number,
    })
}

/// Some formulas with their labels.
pub fn labelled_claims(alloc: Global, labelled: &[Labelled]) -> Result<Row<Claim>, NoMemory>
    ensures { IfOk result (λ made. (p : _) → map (claim_in p) made ≡ map (lowered.labelled_claim p) (map labelled_part labelled.now)) }
{
    let mut claims = Vec::new(alloc);
    for one in labelled.iter() {
        claims.push(labelled_claim(alloc, one)?)?;
    }
    Ok(Row::of(claims))
}
