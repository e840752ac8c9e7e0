//! Laws of expressions: calls that do nothing, whose contracts speak of all tokens.
ghost use Rattle.std.specs.Prelude.{◌≡◌, ◌<◌, ◌≤◌, ℕ, Some, List};
ghost use Rattle.dw_lex.specs.declared.token.Token.{Token};
ghost use Rattle.dw_expr.specs.Tree.{Tree};
ghost use Rattle.dw_parse_expr.specs.Marks.{mark_at, level_of};
ghost use Rattle.dw_parse_expr.specs.Grammar.{Derives, IsExpression};
ghost use Rattle.dw_parse_expr.specs.Reading.{expression_at};

/// An expression that the grammar derives, at most 64 deep, up to where no expression goes on, is what is read.
pub fn derived_expressions_are_read()
    ensures { (tokens : List Token) (i j d : ℕ) (tree : Tree) → Derives tokens 8 i tree d j → d ≤ 64
        → 8 < level_of (mark_at tokens j) → expression_at tokens i ≡ Some (tree, j) }
{}

/// What is read is an expression that the grammar derives from the tokens up to the place after it, at most 64 deep.
pub fn read_expressions_are_derived()
    ensures { (tokens : List Token) (i j : ℕ) (tree : Tree) → expression_at tokens i ≡ Some (tree, j)
        → IsExpression tokens i tree j }
{}

/// The grammar derives at most one expression from the tokens between two places, where no expression goes on at the
/// second.
pub fn at_most_one_expression_is_derived()
    ensures { (tokens : List Token) (i j : ℕ) (a b : Tree) → IsExpression tokens i a j → IsExpression tokens i b j
        → 8 < level_of (mark_at tokens j) → a ≡ b }
{}
