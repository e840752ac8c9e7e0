//! Laws of the grammar: calls that do nothing, whose contracts speak of all tokens.
ghost use Rattle.std.specs.Prelude.{◌≡◌, Some, List};
ghost use Rattle.dw_lex.specs.declared.token.Token.{Token};
ghost use Rattle.dw_model.specs.declared.statements.Statement.{Statement};
ghost use Rattle.dw_parse.specs.Grammar.{Derives};
ghost use Rattle.dw_parse.specs.Reading.{read_statement};

/// The statement that the grammar derives from tokens is the one that they read as.
pub fn derived_statements_are_read()
    ensures { (tokens : List Token) (statement : Statement) →
        Derives tokens statement → read_statement tokens ≡ Some statement }
{}

/// The statement that tokens read as is derived from them.
pub fn read_statements_are_derived()
    ensures { (tokens : List Token) (statement : Statement) →
        read_statement tokens ≡ Some statement → Derives tokens statement }
{}

/// The grammar derives at most one statement from given tokens.
pub fn at_most_one_statement_is_derived()
    ensures { (tokens : List Token) (first second : Statement) →
        Derives tokens first → Derives tokens second → first ≡ second }
{}
