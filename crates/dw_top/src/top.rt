//! The call that runs a whole program, from its words to its status.
ghost use Rattle.std.specs.Prelude.{◌≡◌, ◌≢◌, ◌<◌, ◌≤◌, ◌^◌, ◌↔◌, ◌⊎◌, ℕ, false, length, map, take, All, IfOk, IfErr};
ghost use Rattle.dw_io.specs.Outside.{Held, Rose, appended};
ghost use Rattle.dw_script.specs.Schedule.{IsMove, read_schedule};
ghost use Rattle.dw_journal.specs.declared.Journal.{Journal as Events};
ghost use Rattle.dw_journal.specs.Worlds.{AreShort, session_count};
ghost use Rattle.dw_print.specs.Report.{report};
ghost use Rattle.dw_engine.specs.EngineInvariant.{HaveNoVacuum};
ghost use Rattle.dw_input.specs.Words.{have_form};
ghost use Rattle.dw_input.specs.Files.{bytes_under};
ghost use Rattle.dw_input.specs.Scripts.{givens_of, world_of, world_under};
ghost use Rattle.dw_input.specs.Statuses.{MayAnswer, ComesBefore, ComesOfBytes};
ghost use Rattle.dw_top.specs.Due.{due, due_of_names, due_of_bytes, MayRejectMoves};
ghost use Rattle.dw_top.specs.Run.{IsPrintedRun, world_in, moves_of, moves_read, moves_in};

use crate::run::run_scripts;
use dw_input::{MAX_SCRIPT, names, read_file, read_files, read_scripts};
use dw_io::{Files, Sink, write_whole};
use dw_journal::World;
use dw_model::FileMap;
use dw_print::report_text;
use dw_script::{Move, Schedule, ScheduleFault, Status, read_schedule};
use dw_serial::serial_order;
use dw_value::{List, Text};
use std::alloc::{AllocError, Global};

/// Runs the scripts that `words` name, a session for each, under the schedule that they name, and writes the report of
/// the run to `out`.
///
/// `words` are those after the program's name: a schedule's name, and those of 1 to 64 scripts, of which one may stand
/// twice. The files are read once, in this order, each of at most 16 MiB and all together of at most 1 GiB, and nothing is
/// written before the run is done. Each move of the schedule is so many steps of one session, from 1 to the number of
/// scripts; past the last move the sessions take one step each in turn, until all scripts are at their end.
///
/// A status other than `Ok` comes exactly where it is due, the first in this order: `Usage`, then `Missing` or `TooLong`
/// for the first file that gives one, `BadScript` for the first script that can't be read, `BadSchedule` for the first bad
/// line. `Memory` may come in place of any but `Usage`. `ReadFault` and `WriteFault` come only where the count of faults of
/// `files` or of `out` rose in this call. After a `WriteFault` the sink has a part of the report from the front; after
/// any other status but `Ok` it has what it had.
pub fn top<F: Files, S: Sink>(alloc: Global, words: &[Text], files: &mut F, out: &mut S) -> Status
    // Words.
    ensures usage { (result ≡ Status.Usage) ↔ (have_form words.now ≡ false) }
    // Files, the sink and their faults.
    ensures keeps { F.held files.new ≡ F.held files.old }
    ensures files_count { F.faults files.old ≤ F.faults files.new }
    ensures out_count { S.faults out.old ≤ S.faults out.new }
    ensures read { result ≡ Status.ReadFault → Rose (F.faults files.old) (F.faults files.new) }
    ensures write { result ≡ Status.WriteFault → Rose (S.faults out.old) (S.faults out.new) }
    // The status that is due, and the report.
    ensures untouched { result ≢ Status.Ok → result ≢ Status.WriteFault → S.has out.new ≡ S.has out.old }
    ensures due { (h : Held) → F.held files.old ≡ Some h → MayAnswer (due words.now h) result }
    ensures headline { (h : Held) → F.held files.old ≡ Some h → result ≡ Status.Ok →
        (journal : Events) × IsPrintedRun (world_in words.now h) (moves_in words.now h) journal
        × (S.has out.new ≡ appended (S.has out.old) (report (world_in words.now h) journal)) }
    ensures prefix { (h : Held) → F.held files.old ≡ Some h → result ≡ Status.WriteFault →
        (journal : Events) × IsPrintedRun (world_in words.now h) (moves_in words.now h) journal
        × ((n : ℕ) × (S.has out.new ≡ appended (S.has out.old) (take n (report (world_in words.now h) journal)))) }
    ensures complete { (h : Held) → F.held files.old ≡ Some h → due words.now h ≡ Status.Ok →
        ¬ (Rose (F.faults files.old) (F.faults files.new)) → ¬ (Rose (S.faults out.old) (S.faults out.new)) →
        (result ≡ Status.Ok) ⊎ (result ≡ Status.Memory) }
{
    let Some((schedule, scripts)) = names(words) else {
        return Status::Usage;
    };
    let report = match prepare(alloc, schedule, scripts, files) {
        Ok(report) => report,
        Err(status) => return status,
    };
    match write_whole(out, report.as_slice()) {
        Ok(()) => Status::Ok,
        Err(_) => Status::WriteFault,
    }
}

/// The report of the run of the scripts of those names, under the schedule of that name, or what is due in its place.
fn prepare<F: Files>(
    alloc: Global,
    schedule: &Text,
    scripts: &[Text],
    files: &mut F,
) -> Result<List<u8>, Status>
    requires { length scripts.now ≤ 64 }
    ensures keeps { F.held files.new ≡ F.held files.old }
    ensures count { F.faults files.old ≤ F.faults files.new }
    ensures fault { result ≡ Err Status.ReadFault → Rose (F.faults files.old) (F.faults files.new) }
    ensures early { IfErr result ComesBefore }
    ensures refused { (h : Held) → F.held files.old ≡ Some h → IfErr result (MayAnswer (due_of_names schedule.now scripts.now h)) }
    ensures due { (h : Held) → F.held files.old ≡ Some h → IfOk result (λ bytes. due_of_names schedule.now scripts.now h ≡ Status.Ok) }
    ensures run { (h : Held) → F.held files.old ≡ Some h → IfOk result (λ bytes.
        (journal : Events) × IsPrintedRun (world_under scripts.now h) (moves_read (length scripts.now) (bytes_under h schedule.now)) journal
        × (bytes ≡ report (world_under scripts.now h) journal)) }
{
    let moves = read_file(alloc, files, schedule, MAX_SCRIPT, 0)?;
    let statements = read_files(alloc, files, scripts, moves.len())?;
    report_of(alloc, scripts, moves.as_slice(), statements.as_slice())
}

/// The report of the run of these scripts, of which each is named, under this schedule, or what is due in its place.
fn report_of(
    alloc: Global,
    names: &[Text],
    schedule: &[u8],
    scripts: &[List<u8>],
) -> Result<List<u8>, Status>
    requires same { length names.now ≡ length scripts.now }
    requires few { length scripts.now ≤ 64 }
    ensures of_bytes { IfErr result ComesOfBytes }
    ensures refused { IfErr result (MayAnswer (due_of_bytes names.now schedule.now scripts.now)) }
    ensures due { IfOk result (λ bytes. due_of_bytes names.now schedule.now scripts.now ≡ Status.Ok) }
    ensures run { IfOk result (λ bytes.
        (journal : Events) × IsPrintedRun (world_of (map givens_of scripts.now)) (moves_read (length scripts.now) schedule.now) journal
        × (bytes ≡ report (world_of (map givens_of scripts.now)) journal)) }
{
    let statements = read_scripts(alloc, names, scripts)?;
    let schedule = read_moves(alloc, schedule, scripts.len() as u32)?;
    let world = World {
        scripts: statements,
        files: FileMap::new(alloc),
    };
    match report_of_run(alloc, world, schedule.moves.as_slice()) {
        Ok(report) => Ok(report),
        Err(_) => Err(Status::Memory),
    }
}

/// The schedule that these bytes say, for so many sessions, or its first bad line.
fn read_moves(alloc: Global, bytes: &[u8], sessions: u32) -> Result<Schedule, Status>
    ensures read { IfOk result (λ schedule. read_schedule sessions bytes.now ≡ Ok schedule.moves) }
    ensures moves { IfOk result (λ schedule. All (IsMove sessions) schedule.moves) }
    ensures rejected { IfErr result (MayRejectMoves (read_schedule sessions bytes.now)) }
    ensures of_bytes { IfErr result ComesOfBytes }
{
    match read_schedule(alloc, bytes, sessions) {
        Ok(schedule) => Ok(schedule),
        Err(ScheduleFault::Bad { line }) => Err(Status::BadSchedule { line }),
        Err(ScheduleFault::Memory) => Err(Status::Memory),
    }
}

/// The report of the run of scripts under the moves of a schedule.
fn report_of_run(alloc: Global, world: World, moves: &[Move]) -> Result<List<u8>, AllocError>
    requires sessions { session_count world < 2 ^ 16 }
    requires short { AreShort world.scripts }
    requires no_vacuum { HaveNoVacuum world }
    requires moves { All (IsMove (session_count world)) moves.now }
    ensures { IfOk result (λ bytes. (journal : Events) × IsPrintedRun world (moves_of moves.now) journal
        × (bytes ≡ report world journal)) }
{
    let ran = run_scripts(alloc, world, moves)?;
    let serial = serial_order(alloc, &ran.journal)?;
    report_text(alloc, &ran.journal, &ran.database, &serial)
}
