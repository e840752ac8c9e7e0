//! Blanks and comments between tokens.
ghost use Rattle.std.specs.Prelude.{◌≡◌, ◌≤◌, ◌+◌, ◌&&◌, ◌==◌, length, IfSome};
ghost use Rattle.dw_lex.specs.Characters.{is_blank, begins_comment, slash, star};
ghost use Rattle.dw_lex.specs.Gaps.{line_at, blocks_end, gap_at};

fn is_blank(byte: u8) -> bool
    ensures { result ≡ is_blank byte }
{
    matches!(byte, b' ' | b'\t' | b'\n' | b'\r')
}

/// Whether these two characters begin a comment.
pub fn begins_comment(first: u8, second: u8) -> bool
    ensures { result ≡ begins_comment first second }
{
    matches!((first, second), (b'-', b'-') | (b'/', b'*'))
}

fn line_at(bytes: &[u8]) -> usize
    ensures long { result ≡ line_at bytes.now }
    ensures within { result ≤ length bytes.now }
{
    bytes.iter().take_while(|byte| **byte != b'\n').count()
}

fn ends_block(first: u8, second: u8) -> bool
    ensures { result ≡ ((first == star) && (second == slash)) }
{
    first == b'*' && second == b'/'
}

fn begins_block(first: u8, second: u8) -> bool
    ensures { result ≡ ((first == slash) && (second == star)) }
{
    first == b'/' && second == b'*'
}

// A block comment, by the bytes after its opening.
fn block_at(inside: &[u8]) -> Option<usize>
    ensures end { result ≡ blocks_end 1 inside.now 2 }
    ensures within { IfSome result (λ long. long ≤ length inside.now + 2) }
{
    let mut blocks: usize = 1;
    let mut at = 0;
    while at + 1 < inside.len() {
        if ends_block(inside[at], inside[at + 1]) {
            if blocks == 1 {
                return Some(at + 4);
            }
            blocks -= 1;
            at += 2;
        } else if begins_block(inside[at], inside[at + 1]) {
            blocks += 1;
            at += 2;
        } else {
            at += 1;
        }
    }
    None
}

/// How many bytes the blank or the comment takes at the front of the bytes, and 0 where neither begins. A block comment
/// that is not closed is none.
pub fn gap_at(bytes: &[u8]) -> usize
    ensures long { result ≡ gap_at bytes.now }
    ensures within { result ≤ length bytes.now }
{
    match bytes {
        [first, ..] if is_blank(*first) => 1,
        [b'-', b'-', inside @ ..] => 2 + line_at(inside),
        [b'/', b'*', inside @ ..] => block_at(inside).unwrap_or(0),
        _ => 0,
    }
}
