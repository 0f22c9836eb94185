#![tactic(auto, using(jh_ast::proofs::FormSteps::form_steps, crate::proofs::NoLiteral::literal_steps), unfolding(jh_vars::specs::Resolved::literal, jh_vars::specs::Resolved::plain_literal))]

ghost use Rattle.std.specs.Prelude.{◌≡◌, IfOk, option_map, neg_ℤ};
ghost use Rattle.jh_ast.specs.Bare.{form_tree};
ghost use Rattle.jh_vars.specs.Resolved as resolved;

use jh_ast::{SpecBody, SpecTree};
use jh_name::NoMemory;

/// The number that a formula is, where it is a literal.
fn plain_literal(form: &SpecTree) -> Option<i64>
    ensures { result ≡ resolved.plain_literal (form_tree form.now) }
{
    match &form.body {
        SpecBody::Number(number) => Some(*number),
        _ => None,
    }
}

/// The number that a formula is, negated. The answer is want of memory where that is no i64, which no source
/// can bring about.
fn negated_literal(form: &SpecTree) -> Result<Option<i64>, NoMemory>
    ensures { IfOk result (λ number. number ≡ option_map neg_ℤ (resolved.plain_literal (form_tree form.now))) }
{
    match plain_literal(form) {
        None => Ok(None),
        Some(number) => match number.checked_neg() {
            None => Err(NoMemory),
            Some(negated) => Ok(Some(negated)),
        },
    }
}

/// The number that a formula is as a literal, plain or negated.
pub fn literal(form: &SpecTree) -> Result<Option<i64>, NoMemory>
    ensures { IfOk result (λ number. number ≡ resolved.literal (form_tree form.now)) }
{
    match &form.body {
        SpecBody::Number(number) => Ok(Some(*number)),
        SpecBody::Minus(inner) => negated_literal(inner),
        _ => Ok(None),
    }
}
