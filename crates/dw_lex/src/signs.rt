//! The signs of SQL and their spelling.
ghost use Rattle.std.specs.Prelude.{◌≡◌};
ghost use Rattle.dw_lex.specs.Signs.{sign_of_one, sign_of_two};

/// A sign of SQL, by what it says. Where a sign has two spellings, both are the same sign.
#[derive(Clone, Copy, Debug, PartialEq, Eq)]
pub enum Sign {
    /// `(`
    Open,
    /// `)`
    Close,
    /// `,`
    Comma,
    /// `.`
    Dot,
    /// `+`
    Plus,
    /// `-`
    Minus,
    /// `*`
    Star,
    /// `/`
    Slash,
    /// `%`
    Percent,
    /// `=`
    Equal,
    /// `<>` or `!=`
    Unequal,
    /// `<`
    Less,
    /// `<=`
    AtMost,
    /// `>`
    Greater,
    /// `>=`
    AtLeast,
    /// `||`
    Join,
    /// `::`
    Cast,
}

/// The sign of these two characters.
pub fn sign_of_two(first: u8, second: u8) -> Option<Sign>
    ensures { result ≡ sign_of_two first second }
{
    match (first, second) {
        (b'<', b'>') | (b'!', b'=') => Some(Sign::Unequal),
        (b'<', b'=') => Some(Sign::AtMost),
        (b'>', b'=') => Some(Sign::AtLeast),
        (b'|', b'|') => Some(Sign::Join),
        (b':', b':') => Some(Sign::Cast),
        _ => None,
    }
}

/// The sign of this one character.
pub fn sign_of_one(character: u8) -> Option<Sign>
    ensures { result ≡ sign_of_one character }
{
    match character {
        b'(' => Some(Sign::Open),
        b')' => Some(Sign::Close),
        b',' => Some(Sign::Comma),
        b'.' => Some(Sign::Dot),
        b'+' => Some(Sign::Plus),
        b'-' => Some(Sign::Minus),
        b'*' => Some(Sign::Star),
        b'/' => Some(Sign::Slash),
        b'%' => Some(Sign::Percent),
        b'=' => Some(Sign::Equal),
        b'<' => Some(Sign::Less),
        b'>' => Some(Sign::Greater),
        _ => None,
    }
}
