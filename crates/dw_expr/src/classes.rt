//! Which kinds go together, and the kinds that branches and sums come to.
ghost use Rattle.std.specs.Prelude.{◌≡◌};
ghost use Rattle.dw_value.specs.Kinds.{wider};
ghost use Rattle.dw_expr.specs.Classes.{same_class, branch_kind, sum_kind, is_assignable, is_castable};

use dw_value::Kind;

/// Whether values of two kinds are of one class, so that they may be compared: both numbers, texts, dates or truths. It
/// takes no memory.
pub fn is_same_class(a: Kind, b: Kind) -> bool
    ensures { result ≡ same_class a b }
{
    (a.takes_numbers() && b.takes_numbers())
        || (a.takes_texts() && b.takes_texts())
        || (matches!(a, Kind::Date) && matches!(b, Kind::Date))
        || (matches!(a, Kind::Bool) && matches!(b, Kind::Bool))
}

/// The wider of two kinds of whole numbers; of other kinds the second.
fn wider(a: Kind, b: Kind) -> Kind
    ensures { result ≡ wider a b }
{
    match (a, b) {
        (Kind::Big, _) => Kind::Big,
        (Kind::Int, Kind::Big) => Kind::Big,
        (Kind::Int, _) => Kind::Int,
        _ => b,
    }
}

/// The kind that two branches of CASE or COALESCE have together: the wider one of whole numbers, DECIMAL(38,s) of the
/// greater scale where one is a decimal, VARCHAR(65535) for texts, a date or a truth. `None` comes exactly where their
/// kinds are of two classes. It takes no memory.
pub fn branch_kind(a: Kind, b: Kind) -> Option<Kind>
    ensures { result ≡ branch_kind a b }
{
    if a.is_whole() && b.is_whole() {
        return Some(wider(a, b));
    }
    if a.takes_numbers() && b.takes_numbers() {
        let scale = a.scale().max(b.scale());
        return Some(Kind::Decimal {
            precision: 38,
            scale,
        });
    }
    if a.takes_texts() && b.takes_texts() {
        return Some(Kind::Varchar { length: 65535 });
    }
    if is_same_class(a, b) { Some(a) } else { None }
}

/// The kind of a sum of numbers of a kind: BIGINT for SMALLINT and INTEGER, else DECIMAL(38,s) of the same scale. `None`
/// comes exactly for a kind that isn't of numbers. It takes no memory.
pub fn sum_kind(kind: Kind) -> Option<Kind>
    ensures { result ≡ sum_kind kind }
{
    match kind {
        Kind::Small | Kind::Int => Some(Kind::Big),
        Kind::Big => Some(Kind::Decimal {
            precision: 38,
            scale: 0,
        }),
        Kind::Decimal { scale, .. } => Some(Kind::Decimal {
            precision: 38,
            scale,
        }),
        _ => None,
    }
}

/// Whether a column of the kind `to` takes values of the kind `from`: those of its class, and a date also texts. It takes
/// no memory.
pub fn is_assignable(to: Kind, from: Kind) -> bool
    ensures { result ≡ is_assignable to from }
{
    is_same_class(to, from) || (matches!(to, Kind::Date) && from.takes_texts())
}

/// Whether CAST brings values of the kind `from` to the kind `to`: what an assignment does, any kind to a text, and a
/// text to a number. It takes no memory.
pub fn is_castable(to: Kind, from: Kind) -> bool
    ensures { result ≡ is_castable to from }
{
    is_assignable(to, from) || to.takes_texts() || (to.takes_numbers() && from.takes_texts())
}
