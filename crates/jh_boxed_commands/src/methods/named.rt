#![tactic(auto, unfolding(jh_ast::specs::Bare::class_part, jh_ast::specs::Bare::method_part, jh_ast::specs::Bare::program_tree))]

ghost use Rattle.std.specs.Prelude.{◌≡◌, None, IfSome, option_map};
ghost use Rattle.jh_ast.specs.Bare.{program_tree};
ghost use Rattle.jh_boxed_commands.specs.methods.Methods.{callee_at, callee_with};

use jh_ast::Program;
use jh_name::MethodId;

/// The own name of the method of these numbers, where there is one.
pub fn method_name(program: &Program, id: MethodId) -> Option<&str>
    ensures name { option_map (λ text. callee_with id text.now) result ≡ callee_at (program_tree program.now) id }
    ensures there { IfSome result (λ text. callee_at (program_tree program.now) id ≡ None → ⊥) }
{
    match program.classes.items().get(id.class as usize) {
        None => None,
        Some(class) => match class.methods.items().get(id.method as usize) {
            None => None,
            Some(method) => Some(method.name.text.text()),
        },
    }
}
