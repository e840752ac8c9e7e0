//! Where one stands in a script: outside, in a text, in a quoted name or in a comment.
ghost use Rattle.std.specs.Prelude.{◌≡◌, ◌+◌, ◌<◌, ◌≤◌, length};
ghost use Rattle.dw_script.specs.Place.{begun, commented, closed, after, nested_in, open_part, place_after};
ghost use Rattle.dw_script.specs.Statements.{is_blank, pending_mark, begins_statement, ends_statement};

use crate::script::ScriptCause;

/// Ends a statement outside of texts, quoted names and comments.
pub(crate) const SEMICOLON: u8 = b';';

/// Begins a text and ends it. Two of them in a row in a text stand for one of it.
pub(crate) const QUOTE: u8 = b'\'';

/// Begins a quoted name and ends it.
pub(crate) const NAME_QUOTE: u8 = b'"';

/// Two of them begin a comment to the end of the line.
pub(crate) const DASH: u8 = b'-';

/// Ends a line.
pub(crate) const LINE_FEED: u8 = b'\n';

/// With a star after it begins a block comment, and with a star before it ends one.
pub(crate) const SLASH: u8 = b'/';

/// Stands beside the slash that begins or ends a block comment.
pub(crate) const STAR: u8 = b'*';

/// Where one stands in a script, after some of its bytes.
#[derive(Clone, Copy)]
pub(crate) enum Place {
    /// In no text, quoted name or comment.
    Outside,
    /// In the text that begins at this byte.
    InText { begins: usize },
    /// After a quote in the text that begins at this byte. The text ends there, unless another quote follows.
    AfterQuote { begins: usize },
    /// In the quoted name that begins at this byte.
    InName { begins: usize },
    /// Outside, after a dash, with which another one begins a comment.
    AfterDash,
    /// In a comment to the end of the line.
    InLine,
    /// Outside, after the slash at this byte, with which a star begins a comment.
    AfterSlash { begins: usize },
    /// In the block comment that begins at this byte, and in so many others inside of it.
    InBlock { begins: usize, nested: usize },
    /// In a block comment, after a star, with which a slash ends the innermost.
    AfterStar { begins: usize, nested: usize },
    /// In a block comment, after a slash, with which a star begins one more inside of it.
    AfterInnerSlash { begins: usize, nested: usize },
}

/// Whether a byte is a space, a tab, an LF or a CR.
fn is_blank(byte: u8) -> bool
    ensures { result ≡ is_blank byte }
{
    matches!(byte, b' ' | b'\t' | b'\n' | b'\r')
}

/// Where one stands after `byte`, which is at `at`, outside.
fn begun(at: usize, byte: u8) -> Place
    ensures { result ≡ begun at byte }
{
    match byte {
        QUOTE => Place::InText { begins: at },
        NAME_QUOTE => Place::InName { begins: at },
        DASH => Place::AfterDash,
        SLASH => Place::AfterSlash { begins: at },
        _ => Place::Outside,
    }
}

/// Where one stands after `byte` in a block comment.
fn commented(begins: usize, nested: usize, byte: u8) -> Place
    ensures { result ≡ commented begins nested byte }
{
    match byte {
        STAR => Place::AfterStar { begins, nested },
        SLASH => Place::AfterInnerSlash { begins, nested },
        _ => Place::InBlock { begins, nested },
    }
}

/// Where one stands after the end of the innermost of the comments in which one stands.
fn closed(begins: usize, nested: usize) -> Place
    ensures { result ≡ closed begins nested }
{
    match nested.checked_sub(1) {
        Some(nested) => Place::InBlock { begins, nested },
        None => Place::Outside,
    }
}

impl Place {
    /// Where one stands after `byte`, which is at `at`, if one stood here before it.
    pub(crate) fn after(self, at: usize, byte: u8) -> Place
        requires { nested_in self < usize.MAX }
        ensures place { result ≡ after self at byte }
        ensures deeper { nested_in result ≤ nested_in self + 1 }
    {
        match (self, byte) {
            (Place::InText { begins }, QUOTE) => Place::AfterQuote { begins },
            (Place::AfterQuote { begins }, QUOTE) => Place::InText { begins },
            (Place::InName { .. }, NAME_QUOTE) | (Place::InLine, LINE_FEED) => Place::Outside,
            (Place::AfterDash, DASH) => Place::InLine,
            (Place::AfterSlash { begins }, STAR) => Place::InBlock { begins, nested: 0 },
            (Place::AfterStar { begins, nested }, SLASH) => closed(begins, nested),
            (Place::AfterInnerSlash { begins, nested }, STAR) => {
                let nested = nested + 1;
                Place::InBlock { begins, nested }
            }
            (Place::InText { .. } | Place::InName { .. } | Place::InLine, _) => self,
            (
                Place::InBlock { begins, nested }
                | Place::AfterStar { begins, nested }
                | Place::AfterInnerSlash { begins, nested },
                _,
            ) => commented(begins, nested, byte),
            _ => begun(at, byte),
        }
    }

    /// Whether `byte` ends a statement here: a `;` outside of texts, quoted names and comments does.
    pub(crate) fn ends_statement(self, byte: u8) -> bool
        ensures { result ≡ ends_statement (self, byte) }
    {
        match self {
            Place::Outside
            | Place::AfterQuote { .. }
            | Place::AfterDash
            | Place::AfterSlash { .. } => byte == SEMICOLON,
            _ => false,
        }
    }

    /// How many of the bytes just passed belong to a comment only if the next byte makes them one: a dash or a slash.
    pub(crate) fn pending_mark_len(self) -> usize
        ensures { result ≡ length (pending_mark self) }
    {
        match self {
            Place::AfterDash | Place::AfterSlash { .. } => 1,
            _ => 0,
        }
    }

    /// Whether `byte` is no blank and in no comment, or shows that the dash or the slash before it isn't.
    pub(crate) fn begins_statement(self, byte: u8) -> bool
        ensures { result ≡ begins_statement self byte }
    {
        match self {
            Place::Outside => !(is_blank(byte) || byte == DASH || byte == SLASH),
            Place::AfterDash => byte != DASH,
            Place::AfterSlash { .. } => byte != STAR,
            _ => false,
        }
    }

    /// Why a script cannot be read that ends here: the text, the quoted name or the block comment in which one stands
    /// is open.
    pub(crate) fn open_part(self) -> Option<ScriptCause>
        ensures { result ≡ open_part self }
    {
        match self {
            Place::InText { begins } | Place::InName { begins } => Some(ScriptCause::OpenText {
                place: begins as u64,
            }),
            Place::InBlock { begins, .. }
            | Place::AfterStar { begins, .. }
            | Place::AfterInnerSlash { begins, .. } => Some(ScriptCause::OpenComment {
                place: begins as u64,
            }),
            _ => None,
        }
    }
}

/// Where one stands after all of `bytes`.
pub(crate) fn place_after(bytes: &[u8]) -> Place
    ensures { result ≡ place_after bytes.now }
{
    let mut place = Place::Outside;
    for (at, byte) in bytes.iter().enumerate() {
        place = place.after(at, *byte);
    }
    place
}
