//! The kinds of literals and of results.
ghost use Rattle.std.specs.Prelude.{◌≡◌};
ghost use Rattle.dw_value.specs.Kinds.{wider, literal_kind, decimal_kind, result_kind};

use crate::columns::holds_number;
use crate::kinds::{Kind, Op};

/// The kind of a number literal that is written with `places` digits after its point: without any INTEGER or BIGINT
/// where that holds it, and else DECIMAL(38,0); with some DECIMAL of as many digits. It takes no memory.
pub fn literal_kind(number: i128, places: u8) -> Kind
    ensures { result ≡ literal_kind number places }
{
    if places > 0 {
        return decimal(places);
    }
    if holds_number(Kind::Int, number) {
        Kind::Int
    } else if holds_number(Kind::Big, number) {
        Kind::Big
    } else {
        decimal(0)
    }
}

/// The longest decimals of a scale.
fn decimal(scale: u8) -> Kind
    ensures { result ≡ Kind.Decimal 38 scale }
{
    Kind::Decimal {
        precision: 38,
        scale,
    }
}

/// Of two kinds of whole numbers the one that holds more of them.
fn wider(a: Kind, b: Kind) -> Kind
    ensures { result ≡ wider a b }
{
    match (a, b) {
        (Kind::Big, _) | (Kind::Int, Kind::Big) => Kind::Big,
        (Kind::Int, _) => Kind::Int,
        (_, kind) => kind,
    }
}

/// The kind of an operation on decimals of two scales, if there is one.
fn decimal_kind(op: Op, a_scale: u8, b_scale: u8) -> Option<Kind>
    ensures { result ≡ decimal_kind op a_scale b_scale }
{
    match op {
        Op::Add | Op::Subtract => Some(decimal(a_scale.max(b_scale))),
        Op::Multiply if a_scale <= 37 && b_scale <= 37 - a_scale => Some(decimal(
            a_scale + b_scale,
        )),
        Op::Multiply | Op::Divide | Op::Remainder => None,
    }
}

/// The kind of an operation on values of two kinds: of SMALLINT, INTEGER and BIGINT the wider one; with a DECIMAL it is
/// DECIMAL(38,s), where s is the greater scale for `+` and `-` and the sum of the scales for `*`, and a whole number
/// has the scale 0. `None` comes exactly where one of the kinds isn't of numbers, for `/` and `%` with a DECIMAL, and
/// for `*` where the sum of the scales is over 37. It takes no memory.
pub fn result_kind(op: Op, a: Kind, b: Kind) -> Option<Kind>
    ensures { result ≡ result_kind op a b }
{
    if a.is_whole() && b.is_whole() {
        Some(wider(a, b))
    } else if a.takes_numbers() && b.takes_numbers() {
        decimal_kind(op, a.scale(), b.scale())
    } else {
        None
    }
}
