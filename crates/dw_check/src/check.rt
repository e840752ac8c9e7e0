//! The call that judges a printed report, from its words to its status.
ghost use Rattle.std.specs.Prelude.{◌≡◌, ◌≢◌, ◌≤◌, ◌↔◌, ◌⊎◌, ℕ, false, length, map, take, zip, IfOk, IfErr};
ghost use Rattle.dw_io.specs.Outside.{Held, Rose, appended};
ghost use Rattle.dw_journal.specs.declared.Journal.{Journal as Events};
ghost use Rattle.dw_journal.specs.Contents.{contents};
ghost use Rattle.dw_journal.specs.Follows.{Follows};
ghost use Rattle.dw_journal.specs.History.{history_of};
ghost use Rattle.dw_journal.specs.Legal.{IsLegal};
ghost use Rattle.dw_journal.specs.Worlds.{AreShort};
ghost use Rattle.dw_journal.specs.Serial.{serial_order};
ghost use Rattle.dw_print.specs.Report.{report_of};
ghost use Rattle.dw_input.specs.Words.{have_form};
ghost use Rattle.dw_input.specs.Files.{bytes_under};
ghost use Rattle.dw_input.specs.Scripts.{givens_of, world_of, world_under, bad_script};
ghost use Rattle.dw_input.specs.Statuses.{ComesBefore, ComesOfBytes};
ghost use Rattle.dw_check.specs.Answers.{IsAnswer, IsJudged, IsDue, IsDueAfter, IsDueOfNames, IsReportOf, MayAnswer, due_of_scripts};
ghost use Rattle.dw_check.specs.Answers.{right_text, world_in, bytes_in};
ghost use Rattle.dw_check.specs.NamedReports.{NamesReport};

use crate::ends::wrong_line;
use dw_input::{MAX_SCRIPT, names, read_file, read_files, read_scripts};
use dw_io::{Files, Sink, write_whole};
use dw_journal::{Journal, World};
use dw_judge::{Verdict, judge};
use dw_model::{Database, FileMap};
use dw_print::{checked_text, report_text};
use dw_read_report::{ReportFault, read_report};
use dw_script::Status;
use dw_serial::{legal_is_serial, serial_order};
use dw_value::{List, Text};
use std::alloc::{AllocError, Global};

/// The most bytes that a journal may have: 64 MiB. The limit is this project's own.
const MAX_JOURNAL: usize = 67_108_864;

/// Judges the report that `words` name beside the scripts that they name, and writes to `out` that it is right: how many
/// events and commits it has, and its serial order. Whoever printed the report isn't trusted: each event is judged by the
/// definitions, and each line after the journal is compared with the one that the journal gives.
///
/// `words` are those after the program's name: a journal's name, and those of 1 to 64 scripts, a session for each. The
/// files are read once, in this order: the journal of at most 64 MiB, each script of at most 16 MiB, and all together of at
/// most 1 GiB.
///
/// A status comes exactly where it is due, the first in this order: `Usage`, then `Missing` or `TooLong` for the first file
/// that gives one, `BadScript` for the first script that can't be read, `BadJournal` for the first line that isn't in the
/// report's grammar, `NotLegal` or `NotFollows` for the first event that isn't legal or isn't due, `WrongEnd` for the first
/// line that isn't the journal's. `Memory` may come in place of any but `Usage`. `ReadFault` and `WriteFault` come only
/// where the count of faults of `files` or of `out` rose in this call. After a `WriteFault` the sink has a part of the
/// answer from the front; after any other status but `Ok` it has what it had.
///
/// Where the words name the report of a right journal and its scripts, as those of each run, and no fault came, the status
/// is `Ok` or `Memory`.
pub fn top_check<F: Files, S: Sink>(
    alloc: Global,
    words: &[Text],
    files: &mut F,
    out: &mut S,
) -> Status
    // Words.
    ensures usage { (result ≡ Status.Usage) ↔ (have_form words.now ≡ false) }
    // Files, the sink and their faults.
    ensures keeps { F.held files.new ≡ F.held files.old }
    ensures files_count { F.faults files.old ≤ F.faults files.new }
    ensures out_count { S.faults out.old ≤ S.faults out.new }
    ensures read { result ≡ Status.ReadFault → Rose (F.faults files.old) (F.faults files.new) }
    ensures write { result ≡ Status.WriteFault → Rose (S.faults out.old) (S.faults out.new) }
    // The status that is due, and what is told of a right report.
    ensures untouched { result ≢ Status.Ok → result ≢ Status.WriteFault → S.has out.new ≡ S.has out.old }
    ensures due { (h : Held) → F.held files.old ≡ Some h → MayAnswer (IsDue words.now h) result }
    ensures sound { (h : Held) → F.held files.old ≡ Some h → result ≡ Status.Ok →
        (journal : Events) × IsReportOf (world_in words.now h) (bytes_in words.now h) journal
        × (S.has out.new ≡ appended (S.has out.old) (right_text journal)) }
    ensures prefix { (h : Held) → F.held files.old ≡ Some h → result ≡ Status.WriteFault →
        (journal : Events) × IsReportOf (world_in words.now h) (bytes_in words.now h) journal
        × ((n : ℕ) × (S.has out.new ≡ appended (S.has out.old) (take n (right_text journal)))) }
    ensures complete { (h : Held) → F.held files.old ≡ Some h → IsDue words.now h Status.Ok →
        ¬ (Rose (F.faults files.old) (F.faults files.new)) → ¬ (Rose (S.faults out.old) (S.faults out.new)) →
        (result ≡ Status.Ok) ⊎ (result ≡ Status.Memory) }
    ensures takes { (h : Held) → F.held files.old ≡ Some h → NamesReport words.now h →
        ¬ (Rose (F.faults files.old) (F.faults files.new)) → ¬ (Rose (S.faults out.old) (S.faults out.new)) →
        (result ≡ Status.Ok) ⊎ (result ≡ Status.Memory) }
{
    let Some((journal, scripts)) = names(words) else {
        return Status::Usage;
    };
    let answer = match prepare(alloc, journal, scripts, files) {
        Ok(answer) => answer,
        Err(status) => return status,
    };
    match write_whole(out, answer.as_slice()) {
        Ok(()) => Status::Ok,
        Err(_) => Status::WriteFault,
    }
}

/// What is written of the report of that name beside the scripts of those names, where all is right, or what is due in its
/// place.
fn prepare<F: Files>(
    alloc: Global,
    journal: &Text,
    scripts: &[Text],
    files: &mut F,
) -> Result<List<u8>, Status>
    requires { length scripts.now ≤ 64 }
    ensures keeps { F.held files.new ≡ F.held files.old }
    ensures count { F.faults files.old ≤ F.faults files.new }
    ensures fault { result ≡ Err Status.ReadFault → Rose (F.faults files.old) (F.faults files.new) }
    ensures early { IfErr result ComesBefore }
    ensures refused { (h : Held) → F.held files.old ≡ Some h → IfErr result (MayAnswer (IsDueOfNames journal.now scripts.now h)) }
    ensures due { (h : Held) → F.held files.old ≡ Some h → IfOk result (λ text. IsDueOfNames journal.now scripts.now h Status.Ok) }
    ensures right { (h : Held) → F.held files.old ≡ Some h → IfOk result (λ text.
        (events : Events) × IsReportOf (world_under scripts.now h) (bytes_under h journal.now) events
        × (text ≡ right_text events)) }
{
    let report = read_file(alloc, files, journal, MAX_JOURNAL, 0)?;
    let statements = read_files(alloc, files, scripts, report.len())?;
    answer_of(alloc, scripts, report.as_slice(), statements.as_slice())
}

/// What is written of these bytes beside these scripts, of which each is named, where all is right, or what is due in its
/// place.
fn answer_of(
    alloc: Global,
    names: &[Text],
    report: &[u8],
    scripts: &[List<u8>],
) -> Result<List<u8>, Status>
    requires same { length names.now ≡ length scripts.now }
    requires few { length scripts.now ≤ 64 }
    ensures of_bytes { IfErr result ComesOfBytes }
    ensures refused { IfErr result (MayAnswer (IsDueAfter (due_of_scripts (bad_script (zip names.now scripts.now)))
        (world_of (map givens_of scripts.now)) report.now)) }
    ensures due { IfOk result (λ text. IsDueAfter (due_of_scripts (bad_script (zip names.now scripts.now)))
        (world_of (map givens_of scripts.now)) report.now Status.Ok) }
    ensures right { IfOk result (λ text.
        (events : Events) × IsReportOf (world_of (map givens_of scripts.now)) report.now events
        × (text ≡ right_text events)) }
{
    let statements = read_scripts(alloc, names, scripts)?;
    let world = World {
        scripts: statements,
        files: FileMap::new(alloc),
    };
    answer_beside(alloc, &world, report)
}

/// What is written of these bytes beside this world, where all is right, or what is due in its place.
fn answer_beside(alloc: Global, world: &World, report: &[u8]) -> Result<List<u8>, Status>
    requires few { length world.now.scripts ≤ 64 }
    requires short { AreShort world.now.scripts }
    ensures of_bytes { IfErr result ComesOfBytes }
    ensures refused { IfErr result (MayAnswer (IsAnswer world.now report.now)) }
    ensures due { IfOk result (λ text. IsAnswer world.now report.now Status.Ok) }
    ensures right { IfOk result (λ text.
        (events : Events) × IsReportOf world.now report.now events × (text ≡ right_text events)) }
{
    let read = match read_report(alloc, report) {
        Ok(read) => read,
        Err(ReportFault::Bad { line }) => return Err(Status::BadJournal { line }),
        Err(ReportFault::Memory) => return Err(Status::Memory),
    };
    judged(alloc, world, report, &read.journal)
}

/// What is written of these bytes, whose journal this is, where all is right, or what is due in its place.
fn judged(
    alloc: Global,
    world: &World,
    report: &[u8],
    journal: &Journal,
) -> Result<List<u8>, Status>
    requires few { length world.now.scripts ≤ 64 }
    requires short { AreShort world.now.scripts }
    ensures of_bytes { IfErr result ComesOfBytes }
    ensures refused { IfErr result (MayAnswer (IsJudged world.now report.now journal.now)) }
    ensures right { IfOk result (λ text. IsReportOf world.now report.now journal.now × (text ≡ right_text journal.now)) }
{
    match judge(alloc, world, journal) {
        Ok(Verdict::Passes { database }) => ended(alloc, world, report, journal, &database),
        Ok(Verdict::NotLegal { event }) => Err(Status::NotLegal { event }),
        Ok(Verdict::NotFollows { event }) => Err(Status::NotFollows { event }),
        Err(_) => Err(Status::Memory),
    }
}

/// What is written of these bytes, whose journal is right and leaves this database, where they are its report, or what is
/// due in its place.
fn ended(
    alloc: Global,
    world: &World,
    report: &[u8],
    journal: &Journal,
    database: &Database,
) -> Result<List<u8>, Status>
    requires legal { IsLegal world.now journal.now }
    requires follows { Follows world.now journal.now }
    requires database { database.now ≡ contents (history_of world.now journal.now) }
    ensures of_bytes { IfErr result ComesOfBytes }
    ensures refused { IfErr result (MayAnswer (IsJudged world.now report.now journal.now)) }
    ensures right { IfOk result (λ text. IsReportOf world.now report.now journal.now × (text ≡ right_text journal.now)) }
{
    let Ok((due, answer)) = texts_due(alloc, journal, database) else {
        return Err(Status::Memory);
    };
    legal_is_serial();
    match wrong_line(report, due.as_slice()) {
        None => Ok(answer),
        Some(line) => Err(Status::WrongEnd { line }),
    }
}

#[tactic(auto, unfolding(crate::specs::Answers::right_text))]
/// The report of a journal that leaves this database, and what is written where that is the report that was printed.
fn texts_due(
    alloc: Global,
    journal: &Journal,
    database: &Database,
) -> Result<(List<u8>, List<u8>), AllocError>
    ensures report { IfOk result (λ texts. texts.0
        ≡ report_of journal.now database.now (map (λ commit. commit.stamp) (serial_order journal.now))) }
    ensures answer { IfOk result (λ texts. texts.1 ≡ right_text journal.now) }
{
    let serial = serial_order(alloc, journal)?;
    let report = report_text(alloc, journal, database, &serial)?;
    let events = journal.events.len() as u64;
    let answer = checked_text(alloc, events, serial.len() as u64, &serial)?;
    Ok((report, answer))
}
