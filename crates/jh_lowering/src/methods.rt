#![tactic(auto, unfolding(jh_ast::specs::Bare::method_part))]

ghost use Rattle.std.specs.Prelude.{◌≡◌, map, option_map, IfOk};
ghost use Rattle.jh_ast.specs.Bare.{method_part, spec_part};
ghost use Rattle.jh_semantics.specs.LoweredProgram as program;
ghost use Rattle.jh_semantics.specs.LoweredStmts as lowered;
ghost use Rattle.jh_lowering.specs.Lowering.{IsDeclared, source_of};
ghost use Rattle.jh_semantics.specs.typed_code.Statements.{local_in, claim_in, codes_in, method_in};

use crate::context::Context;
use crate::lowering::lower_all;
use crate::parts::{claim_of, local_code, word_type};
use jh_ast::{Method, Param, Spec};
use jh_name::{NoMemory, Row};
use jh_semantics::typed_code::{Claim, Code, Local, MethodCode};
use jh_unfolding::visitor::entry;
use std::alloc::Global;

/// The parameters of a method.
fn params_of(alloc: Global, context: &Context, params: &[Param]) -> Result<Row<Local>, NoMemory>
    requires { IsDeclared context.now }
    ensures { IfOk result (λ made. map local_in made ≡ map (lowered.local_code (source_of context.now)) params.now) }
{
    let mut locals = Vec::new(alloc);
    for param in params.iter() {
        locals.push(local_code(alloc, context, param)?)?;
    }
    Ok(Row::of(locals))
}

/// A formula of a contract, where there is one.
fn claim_where(alloc: Global, spec: &Option<Spec>) -> Option<Claim>
    ensures { (p : _) → option_map (claim_in p) result ≡ option_map (lowered.claim_of p) (option_map spec_part spec.now) }
{
    match spec {
        None => None,
        Some(spec) => Some(claim_of(alloc, spec)),
    }
}

/// The code of the body of a method.
fn body_of(
    alloc: Global,
    context: &Context,
    class: usize,
    method: &Method,
) -> Result<Row<Code>, NoMemory>
    requires { IsDeclared context.now }
    ensures { IfOk result (λ made. codes_in (source_of context.now) made ≡ (program.method_code (source_of context.now) class (method_part method.now)).body) }
{
    let mut at = entry(alloc, context.lookups, class, method)?;
    let body = lower_all(alloc, context, &mut at, method.body.items())?;
    Ok(Row::of(body))
}

/// The code of a method of a class.
pub fn method_code(
    alloc: Global,
    context: &Context,
    class: usize,
    method: &Method,
) -> Result<MethodCode, NoMemory>
    requires { IsDeclared context.now }
    ensures { IfOk result (λ made. method_in (source_of context.now) made ≡ program.method_code (source_of context.now) class (method_part method.now)) }
{
    let params = params_of(alloc, context, method.params.items())?;
    let body = body_of(alloc, context, class, method)?;
    Ok(MethodCode {
        place: method.name.place,
        is_public: method.public,
        this: if method.fixed { None } else { Some(class) },
        params,
        result: word_type(context, &method.result),
        pre: claim_where(alloc, &method.pre),
        post: claim_where(alloc, &method.post),
        body,
    })
}
