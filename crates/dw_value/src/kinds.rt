//! Kinds, encodings and styles, which encodings a kind may have, comparisons and truths, operations and faults.
ghost use Rattle.std.specs.Prelude.{◌≡◌};
ghost use Rattle.dw_value.specs.Values.{takes_numbers, takes_texts};
ghost use Rattle.dw_value.specs.Kinds.{scale_of, is_whole};
ghost use Rattle.dw_value.specs.Encodings.{width, has_steps, allows};

/// What a column takes: the kinds of the Amazon Redshift guide (data types) that this project has.
#[derive(Debug, Clone, Copy, PartialEq, Eq, Drop)]
pub enum Kind {
    /// SMALLINT: a whole number from -32,768 to 32,767.
    Small,
    /// INTEGER: a whole number from -2,147,483,648 to 2,147,483,647.
    Int,
    /// BIGINT: a whole number from -2^63 to 2^63 - 1.
    Big,
    /// DECIMAL(p,s): a number with `scale` digits after the point, and at most `precision` digits in all. The precision
    /// is from 1 to 38, the scale from 0 to 37 and at most the precision.
    Decimal { precision: u8, scale: u8 },
    /// CHAR(n): a text of at most `length` bytes, from 1 to 4,096, without the spaces at its end.
    Char { length: u32 },
    /// VARCHAR(n): a text of at most `length` bytes, from 1 to 65,535.
    Varchar { length: u32 },
    /// DATE: a day.
    Date,
    /// BOOLEAN: false or true.
    Bool,
}

/// How a column's values are spelled in its blocks: the compression encodings of the Amazon Redshift guide that this
/// project has.
#[derive(Debug, Clone, Copy, PartialEq, Eq, Drop)]
pub enum Encoding {
    /// RAW: one value after another.
    Raw,
    /// BYTEDICT: the different values, and a byte for each value's place among them.
    Bytedict,
    /// DELTA: each value by its difference from the one before, in a byte where it is small.
    Delta,
    /// DELTA32K: the same in two bytes.
    Delta32k,
    /// MOSTLY8: small values in a byte.
    Mostly8,
    /// MOSTLY16: small values in two bytes.
    Mostly16,
    /// MOSTLY32: small values in four bytes.
    Mostly32,
    /// RUNLENGTH: each run of equal values once, with its length.
    Runlength,
}

/// How two values are compared in a condition.
#[derive(Debug, Clone, Copy, PartialEq, Eq, Drop)]
pub enum Comparison {
    /// `=`
    Equal,
    /// `<>` or `!=`
    Unequal,
    /// `<`
    Less,
    /// `<=`
    AtMost,
    /// `>`
    Greater,
    /// `>=`
    AtLeast,
}

/// What a condition comes to, in the three-valued logic of the SQL standard.
#[derive(Debug, Clone, Copy, PartialEq, Eq, Drop)]
pub enum Truth {
    /// It doesn't hold.
    False,
    /// A NULL keeps it open.
    Unknown,
    /// It holds.
    True,
}

/// Why a column can't hold a value.
#[derive(Debug, Clone, Copy, PartialEq, Eq, Drop)]
pub enum Misfit {
    /// The number is outside the range of the column's kind.
    Range,
    /// The text has more bytes than the column's kind takes.
    Length,
    /// The text is no date.
    Date,
}

/// Why a text gives no number of a kind.
#[derive(Debug, Clone, Copy, PartialEq, Eq, Drop)]
pub enum Misread {
    /// The text doesn't have the form of a number of this kind.
    Form,
    /// The number is outside the range of the kind.
    Range,
}

/// How the rows of a table are shared out, after the distribution styles of the Amazon Redshift guide.
#[derive(Debug, Clone, Copy, PartialEq, Eq, Drop)]
pub enum Style {
    /// EVEN: in turn.
    Even,
    /// KEY: by the value of one column, whose place among the columns is counted from 0.
    Key { column: u32 },
    /// ALL: each row at each place.
    All,
}

/// An operation on two numbers.
#[derive(Debug, Clone, Copy, PartialEq, Eq, Drop)]
pub enum Op {
    /// `+`
    Add,
    /// `-`
    Subtract,
    /// `*`
    Multiply,
    /// `/`
    Divide,
    /// `%`
    Remainder,
}

/// Why an operation gives no value.
#[derive(Debug, Clone, Copy, PartialEq, Eq, Drop)]
pub enum Fault {
    /// A number is outside the range of its kind.
    Range,
    /// The divisor is zero.
    Zero,
}

impl Kind {
    /// How many digits after the point the numbers of the kind have: 0 but for DECIMAL. It takes no memory.
    pub fn scale(self) -> u8
        ensures { result ≡ scale_of self }
    {
        match self {
            Kind::Decimal { scale, .. } => scale,
            _ => 0,
        }
    }

    /// Whether a column of this kind takes numbers: SMALLINT, INTEGER, BIGINT and DECIMAL do. It takes no memory.
    pub fn takes_numbers(self) -> bool
        ensures { result ≡ takes_numbers self }
    {
        self.is_whole() || matches!(self, Kind::Decimal { .. })
    }

    /// Whether a column of this kind takes texts: CHAR and VARCHAR do. It takes no memory.
    pub fn takes_texts(self) -> bool
        ensures { result ≡ takes_texts self }
    {
        matches!(self, Kind::Char { .. } | Kind::Varchar { .. })
    }

    /// Whether the numbers of the kind are whole by its name: SMALLINT, INTEGER and BIGINT. It takes no memory.
    pub fn is_whole(self) -> bool
        ensures { result ≡ is_whole self }
    {
        matches!(self, Kind::Small | Kind::Int | Kind::Big)
    }

    /// How many bytes a number of the kind takes in a block: 2 for SMALLINT, 4 for INTEGER and DATE, 8 for BIGINT and a
    /// DECIMAL of up to 18 digits, 16 for one of more, and 1 for BOOLEAN. Of a text it says nothing, and gives 1. It
    /// takes no memory.
    pub fn width(self) -> u8
        ensures { result ≡ width self }
    {
        match self {
            Kind::Small => 2,
            Kind::Int | Kind::Date => 4,
            Kind::Big => 8,
            Kind::Decimal { precision, .. } if precision <= 18 => 8,
            Kind::Decimal { .. } => 16,
            Kind::Char { .. } | Kind::Varchar { .. } | Kind::Bool => 1,
        }
    }

    /// Whether a kind's numbers may be spelled by their differences.
    fn has_steps(self) -> bool
        ensures { result ≡ has_steps self }
    {
        matches!(self, Kind::Date) || self.takes_numbers()
    }
}

/// Whether a column of this kind may have the encoding, as the Amazon Redshift guide says it: RAW and RUNLENGTH for all
/// kinds; BYTEDICT for all but BOOLEAN; DELTA for SMALLINT, INTEGER, BIGINT, DECIMAL and DATE, and DELTA32K for these
/// but SMALLINT; MOSTLY8 for SMALLINT, INTEGER, BIGINT and DECIMAL, MOSTLY16 for these but SMALLINT, and MOSTLY32 for
/// BIGINT and DECIMAL. It takes no memory.
pub fn allows(encoding: Encoding, kind: Kind) -> bool
    ensures { result ≡ allows encoding kind }
{
    match encoding {
        Encoding::Raw | Encoding::Runlength => true,
        Encoding::Bytedict => !matches!(kind, Kind::Bool),
        Encoding::Delta => kind.has_steps(),
        Encoding::Delta32k => kind.has_steps() && kind.width() > 2,
        Encoding::Mostly8 => kind.takes_numbers(),
        Encoding::Mostly16 => kind.takes_numbers() && kind.width() > 2,
        Encoding::Mostly32 => kind.takes_numbers() && kind.width() > 4,
    }
}
