//! Laws of queries, tuples, changes and conditions: calls that do nothing, whose contracts speak of all tokens.
ghost use Rattle.std.specs.Prelude.{◌≡◌, ℕ, Option, Some, List};
ghost use Rattle.dw_lex.specs.declared.token.Token.{Token};
ghost use Rattle.dw_expr.specs.Tree.{Tree};
ghost use Rattle.dw_query.specs.declared.queries.Query.{Query};
ghost use Rattle.dw_query.specs.declared.queries.Assignment.{Assignment};
ghost use Rattle.dw_parse_query.specs.Grammar.{IsQuery, IsTuples, IsChange, IsCondition};
ghost use Rattle.dw_parse_query.specs.Reading.{query_at, tuples_at, change_at, condition_at};

/// What the grammar derives from the tokens from a place up to the end is what they read as.
pub fn derived_parts_are_read()
    ensures queries { (tokens : List Token) (i : ℕ) (query : Query) →
        IsQuery tokens i query → query_at tokens i ≡ Some query }
    ensures tuples { (tokens : List Token) (i : ℕ) (rows : List (List Tree)) →
        IsTuples tokens i rows → tuples_at tokens i ≡ Some rows }
    ensures changes { (tokens : List Token) (i : ℕ) (sets : List Assignment) (keep : Option Tree) →
        IsChange tokens i sets keep → change_at tokens i ≡ Some (sets, keep) }
    ensures conditions { (tokens : List Token) (i : ℕ) (keep : Option Tree) →
        IsCondition tokens i keep → condition_at tokens i ≡ Some keep }
{}

/// What the tokens from a place up to the end read as is derived from them.
pub fn read_parts_are_derived()
    ensures queries { (tokens : List Token) (i : ℕ) (query : Query) →
        query_at tokens i ≡ Some query → IsQuery tokens i query }
    ensures tuples { (tokens : List Token) (i : ℕ) (rows : List (List Tree)) →
        tuples_at tokens i ≡ Some rows → IsTuples tokens i rows }
    ensures changes { (tokens : List Token) (i : ℕ) (sets : List Assignment) (keep : Option Tree) →
        change_at tokens i ≡ Some (sets, keep) → IsChange tokens i sets keep }
    ensures conditions { (tokens : List Token) (i : ℕ) (keep : Option Tree) →
        condition_at tokens i ≡ Some keep → IsCondition tokens i keep }
{}

/// The grammar derives at most one part of each form from the tokens from a place up to the end.
pub fn at_most_one_part_is_derived()
    ensures queries { (tokens : List Token) (i : ℕ) (first second : Query) →
        IsQuery tokens i first → IsQuery tokens i second → first ≡ second }
    ensures tuples { (tokens : List Token) (i : ℕ) (first second : List (List Tree)) →
        IsTuples tokens i first → IsTuples tokens i second → first ≡ second }
    ensures changes { (tokens : List Token) (i : ℕ) (sets others : List Assignment) (keep other : Option Tree) →
        IsChange tokens i sets keep → IsChange tokens i others other → (sets ≡ others) × (keep ≡ other) }
    ensures conditions { (tokens : List Token) (i : ℕ) (first second : Option Tree) →
        IsCondition tokens i first → IsCondition tokens i second → first ≡ second }
{}
