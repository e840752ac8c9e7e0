//! Values of several kinds, changed by one pass, by passes that are split and joined, and by threads.
ghost use Rattle.std.specs.Prelude.{◌≡◌, ◌+◌, ◌<◌, ◌≤◌, ◌⊎◌, ⊤, [], ◌∷◌, ◌++◌, length, replicate, vec_len, All, OnOk, IfOk, MatchOption};
ghost use Rattle.dw_history.specs.Histories.{entries_of};
ghost use Rattle.dw_history.specs.Calls.{known, most_passes, IsPassOf};

use crate::{Act, Grown, Kept, Pass};
use std::alloc::{AllocError, Global};
use std::sync::Wait;
use std::test::*;
use std::thread;
use std::thread::Threads;

/// A value that counts. Its history has one entry for each tick, all of the pass 0.
#[derive(Drop)]
struct Counter(u64);

impl Grown for Counter {
    type Entry = ();

    type Ground = ();

    ghost history_of = { λ counter. replicate counter.0 tt };

    ghost number_of = { λ entry. 0 };

    ghost ground_of = { λ counter. tt };
}

/// One tick, where there is room for one.
#[derive(Drop)]
struct Tick;

impl Act<Counter> for Tick {
    ghost number = { λ tick. 0 };

    ghost need = { λ own history tick. ⊤ };

    ghost outcome = { λ own before after old new. ⊤ };

    fn act(&mut self, counter: &mut Counter) {
        if counter.0 < u64::MAX {
            counter.0 += 1;
        }
    }
}

/// A list of numbers, each of the pass that put it there.
impl Grown for Vec<u32> {
    type Entry = u32;

    type Ground = ();

    ghost history_of = { λ numbers. numbers.items };

    ghost number_of = { λ number. number };

    ghost ground_of = { λ numbers. tt };
}

/// Puts the number of the pass at the end, and tells how long the list was, if there was memory. It needs to know how
/// often the number stands there.
#[derive(Drop)]
struct Sign {
    number: u32,
    times: u32,
    found: Option<usize>,
}

impl Sign {
    fn of(number: u32, times: u32) -> Sign
        ensures { (result.number ≡ number) × (result.times ≡ times) }
    {
        Sign {
            number,
            times,
            found: None,
        }
    }
}

impl Act<Vec<u32>> for Sign {
    ghost number = { λ sign. sign.number };

    ghost need = { λ own history sign. length (entries_of (λ number. number) sign.number history) ≡ sign.times };

    ghost outcome = { λ own before after old new.
        MatchOption new.found (after ≡ before) (λ found. after ≡ before ++ old.number ∷ []) };

    fn act(&mut self, numbers: &mut Vec<u32>) {
        let found = numbers.len();
        self.found = numbers.push(self.number).ok().map(|_| found);
    }
}

/// A list of pairs: the number of a pass, and what it noted.
#[derive(Drop)]
struct Diary {
    pairs: Vec<(u32, u64)>,
}

impl Grown for Diary {
    type Entry = (u32, u64);

    type Ground = ();

    ghost history_of = { λ diary. diary.pairs.items };

    ghost number_of = { λ pair. pair.0 };

    ghost ground_of = { λ diary. tt };
}

#[derive(Drop)]
struct Note {
    number: u32,
    what: u64,
}

impl Act<Diary> for Note {
    ghost number = { λ note. note.number };

    ghost need = { λ own history note. ⊤ };

    ghost outcome = { λ own before after old new. (after ≡ before) ⊎ (after ≡ before ++ (old.number, old.what) ∷ []) };

    fn act(&mut self, diary: &mut Diary) {
        let _ = diary.pairs.push((self.number, self.what));
    }
}

/// Notes so many things, one a turn.
fn note_all<R: Wait>(rt: &R, kept: &Kept<Diary>, pass: &mut Pass<Diary>, number: u32, count: u64)
    requires kept { IsPassOf ⟦<Diary as Grown>⟧.ground_of kept.now pass.old }
    requires number { (known pass.old).number ≡ number }
    ensures kept { IsPassOf ⟦<Diary as Grown>⟧.ground_of kept.now pass.new }
    ensures number { (known pass.new).number ≡ number }
    ensures made { (known pass.new).made ≡ (known pass.old).made }
    ensures joined { (known pass.new).joined ≡ (known pass.old).joined }
{
    for what in 0..count {
        kept.turn(rt, pass, &mut Note { number, what });
    }
}

/// A pass, and its number.
#[derive(Drop)]
struct Job {
    number: u32,
    pass: Pass<Diary>,
}

/// Splits passes off until there are so many.
fn split_all(
    alloc: Global,
    kept: &Kept<Diary>,
    first: &mut Pass<Diary>,
    count: u32,
) -> Result<Vec<Job>, AllocError>
    requires kept { IsPassOf ⟦<Diary as Grown>⟧.ground_of kept.now first.old }
    requires first { ((known first.old).number ≡ 0) × ((known first.old).made ≡ 1) × ((known first.old).joined ≡ []) }
    requires room { (1 ≤ count) × (count ≤ most_passes kept.now) }
    ensures kept { OnOk result (IsPassOf ⟦<Diary as Grown>⟧.ground_of kept.now first.new) }
    ensures first { OnOk result (((known first.new).number ≡ 0) × ((known first.new).made ≡ count)) }
    ensures joined { OnOk result ((known first.new).joined ≡ []) }
    ensures jobs { IfOk result (λ jobs.
        All (λ job. IsPassOf ⟦<Diary as Grown>⟧.ground_of kept.now job.pass × ((known job.pass).number ≡ job.number))
        jobs.items) }
    ensures all { IfOk result (λ jobs. vec_len jobs + 1 ≡ count) }
{
    let mut jobs = Vec::new(alloc);
    for number in 1..count {
        let pass = kept.split_pass(first)?;
        jobs.push(Job { number, pass })?;
    }
    Ok(jobs)
}

fn run<R: Wait>(rt: &R, kept: &Kept<Diary>, job: Job) -> Job
    requires { IsPassOf ⟦<Diary as Grown>⟧.ground_of kept.now job.pass × ((known job.pass).number ≡ job.number) }
    ensures kept { IsPassOf ⟦<Diary as Grown>⟧.ground_of kept.now result.pass }
    ensures number { (known result.pass).number ≡ result.number }
{
    let Job { number, mut pass } = job;
    note_all(rt, kept, &mut pass, number, 1000);
    Job { number, pass }
}

/// Runs each job on a thread of its own.
fn run_all<R: Threads + Wait + Sync>(
    rt: &R,
    kept: &Kept<Diary>,
    jobs: Vec<Job>,
) -> Result<Vec<Job>, AllocError>
    requires { All
        (λ job. IsPassOf ⟦<Diary as Grown>⟧.ground_of kept.now job.pass × ((known job.pass).number ≡ job.number))
        jobs.items }
    ensures jobs { IfOk result (λ done.
        All (λ job. IsPassOf ⟦<Diary as Grown>⟧.ground_of kept.now job.pass × ((known job.pass).number ≡ job.number))
        done.items) }
    ensures all { IfOk result (λ done. vec_len done ≡ vec_len jobs) }
{
    thread::map_vec(rt, jobs, &|job| run(rt, kept, job))
}

fn join_all(kept: &Kept<Diary>, first: &mut Pass<Diary>, mut jobs: Vec<Job>)
    requires kept { IsPassOf ⟦<Diary as Grown>⟧.ground_of kept.now first.old }
    requires first { (known first.old).number ≡ 0 }
    requires made { (known first.old).made ≡ vec_len jobs + length (known first.old).joined + 1 }
    requires jobs { All
        (λ job. IsPassOf ⟦<Diary as Grown>⟧.ground_of kept.now job.pass × ((known job.pass).number ≡ job.number))
        jobs.items }
    ensures kept { IsPassOf ⟦<Diary as Grown>⟧.ground_of kept.now first.new }
    ensures first { ((known first.new).number ≡ 0) × ((known first.new).made ≡ length (known first.new).joined + 1) }
{
    while let Some(job) = jobs.pop() {
        let Job { number: _, pass } = job;
        kept.join_pass(first, pass);
    }
}

fn shared<T: Sync>(_it: &T) {}

fn moved<T: Send + Drop>(_it: T) {}

/// Threads may share a kept value and move its passes, whatever the value, if it may move itself.
fn cross_threads<V: Grown + Send>(kept: &Kept<V>, pass: Pass<V>) {
    shared(kept);
    moved(pass);
}

#[test]
fn one_pass(rt: HostRuntime) -> Result<(), Fail> {
    let (kept, mut pass) = Kept::new(rt.alloc(), Counter(0), 1)?;
    for _ in 0..3 {
        kept.turn(&rt, &mut pass, &mut Tick);
    }
    let counter = kept.close(pass);
    assert_eq!(rt; counter.0, 3);
    Ok(())
}

#[test]
fn a_pass_is_split_used_and_joined(rt: HostRuntime) -> Result<(), Fail> {
    let (kept, mut first) = Kept::new(rt.alloc(), Vec::new(rt.alloc()), 3)?;
    let mut one = kept.split_pass(&mut first)?;
    let mut two = kept.split_pass(&mut first)?;
    let mut sign = Sign::of(2, 0);
    kept.turn(&rt, &mut two, &mut sign);
    assert_eq!(rt; sign.found, Some(0));
    sign = Sign::of(0, 0);
    kept.turn(&rt, &mut first, &mut sign);
    assert_eq!(rt; sign.found, Some(1));
    sign = Sign::of(1, 0);
    kept.turn(&rt, &mut one, &mut sign);
    assert_eq!(rt; sign.found, Some(2));
    kept.join_pass(&mut first, two);
    sign = Sign::of(0, 1);
    kept.turn(&rt, &mut first, &mut sign);
    assert_eq!(rt; sign.found, Some(3));
    kept.join_pass(&mut first, one);
    let numbers = kept.close(first);
    assert_eq!(rt; numbers.as_slice(), [2, 0, 1, 0].as_slice());
    Ok(())
}

#[test]
fn threads_take_turns(rt: HostRuntime) -> Result<(), Fail> {
    let pairs = Vec::with_capacity(rt.alloc(), 64000)?;
    let (kept, mut first) = Kept::new(rt.alloc(), Diary { pairs }, 64)?;
    let mut jobs = split_all(rt.alloc(), &kept, &mut first, 64)?;
    jobs = run_all(&rt, &kept, jobs)?;
    note_all(&rt, &kept, &mut first, 0, 1000);
    join_all(&kept, &mut first, jobs);
    let diary = kept.close(first);
    assert_eq!(rt; diary.pairs.len(), 64000);
    let mut next = [0u64; 64];
    for pair in &diary.pairs {
        let number = pair.0 as usize;
        assert!(rt; number < 64);
        assert_eq!(rt; next[number], pair.1, "of the pass {number}");
        next[number] = pair.1.saturating_add(1);
    }
    assert_eq!(rt; next, [1000; 64]);
    Ok(())
}
