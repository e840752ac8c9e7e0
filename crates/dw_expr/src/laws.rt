//! Laws of expressions: calls that do nothing, whose contracts speak of every bound expression and every row.
ghost use Rattle.std.specs.Prelude.{◌≡◌, true, Bool, List as Items, Ok, IsOk, option_map};
ghost use Rattle.dw_value.specs.declared.kinds.Comparison.{Comparison as Test};
ghost use Rattle.dw_value.specs.declared.kinds.Comparison.TheVariants.{AtLeast, AtMost};
ghost use Rattle.dw_value.specs.declared.kinds.Truth.{Truth as Known};
ghost use Rattle.dw_value.specs.declared.values.Value.{Value as Item};
ghost use Rattle.dw_expr.specs.declared.typed.Typed.{Typed as Part};
ghost use Rattle.dw_expr.specs.BoundTree.{BoundTree, BoundTrees, both, opposite, compared, between, in_list};
ghost use Rattle.dw_expr.specs.Binding.{opposite_if, between_of, between_tests, in_of, equality_tests};
ghost use Rattle.dw_expr.specs.Evaluation.{value};
ghost use Rattle.dw_expr.specs.Safety.{is_safe, is_plain, reads_nothing};
ghost use Rattle.dw_expr.specs.Truths.{truth_value};
ghost use Rattle.dw_expr.specs.Laws.{equalities};

/// BETWEEN means that its operand is at least the one and at most the other, on every row, and so does what it is bound
/// to: where that clashes, the two comparisons do, too.
pub fn between_is_two_comparisons()
    ensures values { (row : Items Item) (negated : Bool) (a low high : BoundTree) →
        value row (between negated a low high)
        ≡ value row (opposite_if negated (both (compared AtLeast a low) (compared AtMost a high))) }
    ensures bound { (row : Items Item) (negated : Bool) (a low high : Part) →
        option_map (value row) (between_of negated a low high)
        ≡ option_map (value row) (option_map (opposite_if negated) (between_tests a low high)) }
{}

/// IN means that its operand equals one of the list, on every row, and so does what it is bound to: where that clashes,
/// one of the comparisons does, too.
pub fn in_is_the_or_of_equalities()
    ensures values { (row : Items Item) (negated : Bool) (a : BoundTree) (list : BoundTrees) →
        value row (in_list negated a list) ≡ value row (opposite_if negated (equalities a list)) }
    ensures bound { (row : Items Item) (negated : Bool) (a : Part) (list : Items Part) →
        option_map (value row) (in_of negated a list)
        ≡ option_map (value row) (option_map (opposite_if negated) (equality_tests a list)) }
{}

/// NOT after NOT leaves a truth as it is, what is unknown too, and a third NOT does what one does.
pub fn not_of_not()
    ensures twice { (row : Items Item) (a : BoundTree) (truth : Known) → value row a ≡ Ok (truth_value truth) →
        value row (opposite (opposite a)) ≡ value row a }
    ensures thrice { (row : Items Item) (a : BoundTree) →
        value row (opposite (opposite (opposite a))) ≡ value row (opposite a) }
{}

/// An expression that reads no column has one value, or one fault, on all rows.
pub fn constants_have_one_value()
    ensures { (row other : Items Item) (a : BoundTree) → reads_nothing a ≡ true → value row a ≡ value other a }
{}

/// A comparison of columns and literals has no fault on any row.
pub fn plain_comparisons_have_no_fault()
    ensures { (row : Items Item) (comparison : Test) (a b : BoundTree) → is_plain a ≡ true → is_plain b ≡ true →
        IsOk (value row (compared comparison a b)) }
{}

/// A predicate of the safe forms has no fault on any row.
pub fn safe_predicates_have_no_fault()
    ensures { (row : Items Item) (a : BoundTree) → is_safe a ≡ true → IsOk (value row a) }
{}
