ghost use Rattle.std.specs.Prelude.{◌≡◌, List};
ghost use Rattle.jh_ast.specs.Programs.{ProgramTree};
ghost use Rattle.jh_lex.specs.declared.lexer.token.Token.{Token};
ghost use Rattle.jh_parse.specs.programs.Members.{Spells};

/// A list of tokens spells at most one program.
pub fn at_most_one_program()
    ensures { (ts : List Token) (p q : ProgramTree) → Spells ts p → Spells ts q → p ≡ q }
{}
