//! Schedules, and how they are read.
ghost use Rattle.std.specs.Prelude.{◌≡◌, ◌≤◌, ◌<◌, ◌==◌, [], ◌∷◌, Ok, Err, length, IfOk, IfErr, IfSome, IfNone, OnOk, All};
ghost use Rattle.std.specs.Char.{is_ascii_digit};
ghost use Rattle.std.specs.List.{list_all, position, slice_split};
ghost use Rattle.std.specs.Str.Lines.{strip_carriage_return};
ghost use Rattle.dw_script.specs.Schedule.{most_moves, number_up_to, move_by, move_of, words_on, ReadsOn, EndsAt, read_schedule, IsMove, IfBadLine};
ghost use Rattle.dw_script.specs.declared.schedule.ScheduleFault.TheVariants.{Memory};

use crate::place::LINE_FEED;
use dw_value::List;
use std::alloc::{AllocError, AllocFailed, Global};
use thiserror::Error;

/// The most moves that a schedule may have. The limit is this project's own.
const MAX_MOVES: usize = 10_000;

/// The most steps that one move may have. The limit is this project's own.
const MAX_COUNT: u32 = 10_000;

/// Begins a line that is a comment.
pub(crate) const NUMBER_SIGN: u8 = b'#';

/// Parts the words of a line.
pub(crate) const SPACE: u8 = b' ';

/// Stands between a session and a count of steps.
pub(crate) const TIMES: u8 = b'*';

/// The digit with which no number begins.
pub(crate) const ZERO: u8 = b'0';

/// So many steps of one session, one after the other.
#[derive(Clone, Copy, Debug, PartialEq, Eq)]
pub struct Move {
    /// The session, counted from 1.
    pub session: u32,
    /// How many steps it takes: from 1 to 10,000.
    pub count: u32,
}

/// Which session takes the next steps.
#[derive(Debug, Drop)]
pub struct Schedule {
    /// The moves in their order, at most 10,000.
    pub moves: List<Move>,
}

/// Why a schedule was not read.
#[derive(Clone, Copy, Debug, PartialEq, Eq, Drop, Error)]
pub enum ScheduleFault {
    /// This line, counted from 1, is the first that is not of the form of a line, or has the move after the last that a
    /// schedule may have.
    #[error("bad schedule at line {line}")]
    Bad { line: u64 },
    /// Memory ran out.
    #[error("out of memory")]
    Memory,
}

impl From<AllocError> for ScheduleFault {
    ghost from_gives = { λ _ fault. fault ≡ Memory };

    fn from(_error: AllocError) -> ScheduleFault {
        ScheduleFault::Memory
    }
}

impl<T: Drop> From<AllocFailed<T>> for ScheduleFault {
    ghost from_gives = { λ _ fault. fault ≡ Memory };

    fn from(_error: AllocFailed<T>) -> ScheduleFault {
        ScheduleFault::Memory
    }
}

/// Reads a schedule for sessions from 1 to `sessions`, whose moves are put into memory of `alloc`.
///
/// Lines end with LF or CR LF, and the last one needs no end. A line is empty, or begins with `#` and counts for
/// nothing, or is words parted by single spaces. A word is `S`, a session, which takes one step, or `S*K`, a session
/// and a count of steps from 1 to 10,000, in decimal without leading zeros. The form is this project's own.
///
/// `Bad` comes exactly where a line is of another form, or has one word more than 10,000 words of the whole schedule,
/// with the first such line, unless memory runs out first. The time is linear in the bytes.
pub fn read_schedule(alloc: Global, bytes: &[u8], sessions: u32) -> Result<Schedule, ScheduleFault>
    ensures read { IfOk result (λ schedule. read_schedule sessions bytes.now ≡ Ok schedule.moves) }
    ensures moves { IfOk result (λ schedule. All (IsMove sessions) schedule.moves) }
    ensures few { IfOk result (λ schedule. length schedule.moves ≤ most_moves) }
    ensures bad { IfErr result (λ fault. IfBadLine fault (λ line. read_schedule sessions bytes.now ≡ Err line)) }
{
    let mut moves = List::new(alloc);
    let mut number = 1;
    let mut rest = bytes;
    while let Some((line, tail)) = cut_at(rest, LINE_FEED) {
        read_line(&mut moves, without_return(line), number, sessions)?;
        rest = tail;
        number += 1;
    }
    read_line(&mut moves, rest, number, sessions)?;
    Ok(Schedule { moves })
}

/// A line without the CR at its end, if it has one.
fn without_return(line: &[u8]) -> &[u8]
    ensures { result.now ≡ strip_carriage_return line.now }
{
    match line {
        [front @ .., b'\r'] => front,
        _ => line,
    }
}

/// Puts the moves of the words of one line after the others.
fn read_line(
    moves: &mut List<Move>,
    line: &[u8],
    number: u64,
    sessions: u32,
) -> Result<(), ScheduleFault>
    ensures ok { OnOk result (ReadsOn sessions (words_on number line.now) moves.old moves.new) }
    ensures bad { IfErr result (λ fault.
        IfBadLine fault (λ bad. EndsAt sessions (words_on number line.now) moves.old bad)) }
{
    if matches!(line.first(), None | Some(&NUMBER_SIGN)) {
        return Ok(());
    }
    let mut rest = line;
    while let Some((word, tail)) = cut_at(rest, SPACE) {
        push_move(moves, word, number, sessions)?;
        rest = tail;
    }
    push_move(moves, rest, number, sessions)?;
    Ok(())
}

/// Puts the move of one word after the others, if the word says one and the schedule may have it.
fn push_move(
    moves: &mut List<Move>,
    word: &[u8],
    number: u64,
    sessions: u32,
) -> Result<(), ScheduleFault>
    ensures ok { OnOk result (ReadsOn sessions ((number, word.now) ∷ []) moves.old moves.new) }
    ensures bad { IfErr result (λ fault.
        IfBadLine fault (λ bad. EndsAt sessions ((number, word.now) ∷ []) moves.old bad)) }
{
    let bad = ScheduleFault::Bad { line: number };
    if moves.len() >= MAX_MOVES {
        return Err(bad);
    }
    let Some(next) = move_of(word, sessions) else {
        return Err(bad);
    };
    moves.push(next)?;
    Ok(())
}

/// The move that a word says.
fn move_of(word: &[u8], sessions: u32) -> Option<Move>
    ensures { result ≡ move_of sessions word.now }
{
    match first_place(word, TIMES) {
        Some(times) => {
            let session = number_up_to(&word[..times], sessions);
            let count = number_up_to(&word[times + 1..], MAX_COUNT);
            move_by(session, count)
        }
        None => move_by(number_up_to(word, sessions), Some(1)),
    }
}

/// The move of a session and a count, where both are there.
fn move_by(session: Option<u32>, count: Option<u32>) -> Option<Move>
    ensures { result ≡ move_by session count }
{
    match (session, count) {
        (Some(session), Some(count)) => Some(Move { session, count }),
        _ => None,
    }
}

/// Where this byte stands first, if it does.
fn first_place(bytes: &[u8], wanted: u8) -> Option<usize>
    ensures place { result ≡ position (λ byte. byte == wanted) bytes.now }
    ensures within { IfSome result (λ place. place < length bytes.now) }
{
    bytes.iter().position(|byte| *byte == wanted)
}

/// What stands before this byte where it stands first, and what after.
fn cut_at(bytes: &[u8], wanted: u8) -> Option<(&[u8], &[u8])>
    ensures cut { IfSome result (λ cut. slice_split (λ byte. byte == wanted) bytes.now
        ≡ cut.0.now ∷ slice_split (λ byte. byte == wanted) cut.1.now) }
    ensures shorter { IfSome result (λ cut. length cut.1.now < length bytes.now) }
    ensures whole { IfNone result (slice_split (λ byte. byte == wanted) bytes.now ≡ bytes.now ∷ []) }
{
    let place = first_place(bytes, wanted)?;
    Some((&bytes[..place], &bytes[place + 1..]))
}

/// The number that digits write, if it is from 1 to `limit` and has no leading zero.
fn number_up_to(digits: &[u8], limit: u32) -> Option<u32>
    ensures { result ≡ number_up_to limit digits.now }
{
    let Ok(text) = std::str::from_utf8(digits) else {
        return None;
    };
    if digits.first() == Some(&ZERO) || !is_all_digits(digits) {
        return None;
    }
    match text.parse::<u32>() {
        Ok(number) if 1 <= number && number <= limit => Some(number),
        _ => None,
    }
}

/// Whether there is nothing but decimal digits.
fn is_all_digits(bytes: &[u8]) -> bool
    ensures { result ≡ list_all is_ascii_digit bytes.now }
{
    bytes.iter().all(|byte| byte.is_ascii_digit())
}
