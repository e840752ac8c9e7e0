//! Whether a text goes with a pattern.
ghost use Rattle.std.specs.Prelude.{◌≡◌, [], ◌∷◌, MatchOption};
ghost use Rattle.std.specs.Str.{chars};
ghost use Rattle.dw_like.specs.Like.{is_like, goes_like};
ghost use Rattle.dw_like.specs.Fronts.{IsFront};

/// Stands in a pattern for any characters.
const MANY: char = '%';

/// Stands in a pattern for one character.
const ONE: char = '_';

/// What a text and a pattern come to where the pattern's next `%` is.
enum Front<'a> {
    /// The text does not begin like the pattern, or one of them ends before the other.
    Fails,
    /// Both end, and are alike.
    Ends,
    /// They are alike so far: the rest of the text, and the pattern after the `%`.
    Many { rest: &'a str, after: &'a str },
}

/// Whether the text is like the pattern, in which `%` stands for any characters, also for none, `_` for one, and every
/// other character, a backslash too, for itself. It takes no memory, and at most (n + 1) × (m + 1) steps for a text of
/// n characters and a pattern of m.
pub fn is_like(text: &str, pattern: &str) -> bool
    ensures { result ≡ is_like text.now pattern.now }
{
    match match_front(text, pattern) {
        Front::Fails => false,
        Front::Ends => true,
        Front::Many { rest, after } => some_tail_is_like(rest, after),
    }
}

/// Whether some tail of the text is like the pattern. Where the characters up to the next `%` are found, no later place
/// of theirs is tried: what a later place leaves of the text is a tail of what this one leaves.
fn some_tail_is_like(text: &str, pattern: &str) -> bool
    ensures { result ≡ goes_like (37 ∷ chars pattern.now) (chars text.now) }
{
    let mut start = text;
    let mut wanted = pattern;
    loop {
        match match_front(start, wanted) {
            Front::Ends => return true,
            Front::Many { rest, after } => {
                start = rest;
                wanted = after;
            }
            Front::Fails => match first(start) {
                Some((_, rest)) => start = rest,
                None => return false,
            },
        }
    }
}

/// Goes through both up to the pattern's next `%`, or to its end.
fn match_front<'a>(text: &'a str, pattern: &'a str) -> Front<'a>
    ensures { IsFront (chars text.now) (chars pattern.now) result }
{
    let mut text_left = text;
    let mut pattern_left = pattern;
    while let Some((wanted, after)) = first(pattern_left) {
        if wanted == MANY {
            return Front::Many {
                rest: text_left,
                after,
            };
        }
        match first(text_left) {
            Some((character, rest)) if wanted == ONE || character == wanted => {
                text_left = rest;
                pattern_left = after;
            }
            _ => return Front::Fails,
        }
    }
    match first(text_left) {
        Some(_) => Front::Fails,
        None => Front::Ends,
    }
}

/// The first character of a text and what follows it, or none of an empty text.
fn first(text: &str) -> Option<(char, &str)>
    ensures { MatchOption result (chars text.now ≡ []) (λ p. chars text.now ≡ p.0 ∷ chars p.1.now) }
{
    let mut rest = text.chars();
    match rest.next() {
        Some(character) => Some((character, rest.as_str())),
        None => None,
    }
}
