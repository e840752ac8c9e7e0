//! The core: which event may come next of each session, and the calls that append it.
ghost use Rattle.std.specs.Prelude.{◌≡◌, ◌+◌, ◌*◌, ◌<◌, ◌≤◌, [], ◌∷◌, ℕ, None, Some, vec_len, vec_capacity, OnOk, OnErr, IfOk, IfSome};
ghost use Rattle.std.specs.Bool.{Decides};
ghost use Rattle.std.specs.Option.{option_copied};
ghost use Rattle.dw_journal.specs.declared.Event.TheVariants as event;
ghost use Rattle.dw_journal.specs.Worlds.{AreShort, IsSession, given_at, session_count};
ghost use Rattle.dw_journal.specs.History.{events_of, newest_event, session_of, with_event};
ghost use Rattle.dw_journal.specs.Blocks.{block_of};
ghost use Rattle.dw_journal.specs.Transactions.{commits, taken_of};
ghost use Rattle.dw_journal.specs.Vacuums.{swept_by};
ghost use Rattle.dw_journal.specs.Locks.{lock_state, wants_of};
ghost use Rattle.dw_journal.specs.Turns.{AnswerOf, number_due, turn_of};
ghost use Rattle.dw_journal.specs.Follows.{EachFollows, FollowsAfter};
ghost use Rattle.dw_journal.specs.Legal.{EachIsLegal, IsLegal, IsLockWait, IsNextEvent, blockers_of, certified, cycle_of, high_of, low_of, snapshot_due};
ghost use Rattle.dw_locks.specs.Holders.{exclusive_holder_by};
ghost use Rattle.dw_locks.specs.Requests.{answer_by};
ghost use Rattle.dw_core.specs.Asking.{HasWaited, IsAnswered, IsToAsk, wait_due};
ghost use Rattle.dw_core.specs.Changes.{HasRoomKept, IsPlain};
ghost use Rattle.dw_core.specs.CoreInvariant.{IsKept};
ghost use Rattle.dw_core.specs.DueEvents.{commit_due, decision_of, opening_due, route_due};
ghost use Rattle.dw_ssn.specs.CommitList.{entry_count};
ghost use Rattle.dw_core.specs.Pruned.{pruned_at};
ghost use Rattle.dw_core.specs.Readers.{MeansTurn};
ghost use Rattle.dw_core.specs.Traces.{LeavesNoTrace, LeavesUnlessStamped};

use crate::decisions::{Committed, decide, settle};
use crate::grants::grant_and_open;
use crate::sessions::{Session, Stage, given, put};
use crate::waits::are_same;
use dw_journal::{BlockState, Event, Given, Journal, Route, Shape, Want, World, place_of};
use dw_locks::{Asked, Locks, wants};
use dw_model::{Answer, FileMap, Refusal, Word};
use dw_ssn::{Certifier, Marks, Taken};
use dw_value::{List, Text};
use std::alloc::{AllocError, Global};
use std::marker::Model;

/// What is due of a session.
#[derive(Clone, Copy, Debug, PartialEq, Eq)]
pub enum Next {
    /// Nothing: its script is at its end, and that is in the journal.
    Nothing,
    /// The answer of its open statement.
    Answer,
    /// The commit of a statement that was answered outside a block.
    Commit,
    /// Its next statement is to be taken.
    Take,
    /// No statement is left, and the end is to be told.
    End,
}

/// A warehouse in the making: the scripts of its sessions, and the journal of what they have done so far. Contracts see
/// its history: the shape, the world, and the events, newest first. Sessions are numbered from 1.
#[derive(Debug, Drop)]
pub struct Core {
    shape: Shape,
    world: World,
    events: Vec<Event>,
    sessions: Vec<Session>,
    certifier: Certifier,
    locks: Locks,
}

impl Model for Core {
    ghost use Rattle.std.specs.Coded.{codes};
    ghost use Rattle.std.specs.Prelude.{reverse, vec_len, vec_capacity};
    ghost use Rattle.dw_model.specs.contracts.files.FileMap as files;
    ghost use Rattle.dw_journal.specs.History.{History};

    ghost Value = { History };

    ghost coded = { Prim.hlevel (codes, files.the_row.coded) };

    ghost use Rattle.dw_core.specs.CoreInvariant.{CoreInvariant};

    ghost view = { λ core. record { shape = core.shape; world = core.world; events = reverse core.events.items } };

    ghost invariant = { λ core. CoreInvariant
        (record { shape = core.shape; world = core.world; events = reverse core.events.items })
        core.sessions.items core.certifier core.locks (vec_len core.events) (vec_capacity core.events) };
}

impl Core {
    /// A warehouse in which nothing has happened yet, with a session for each script. It gives an error where there is
    /// no memory for it.
    pub fn new(alloc: Global, shape: Shape, world: World) -> Result<Core, AllocError>
        requires sessions { shape.sessions ≡ session_count world }
        requires short { AreShort world.scripts }
        ensures { IfOk result (λ core. core ≡ record { shape = shape; world = world; events = [] }) }
    {
        let mut sessions = Vec::new(alloc);
        for _ in 0..shape.sessions {
            sessions.push(Session::fresh())?;
        }
        let locks = Locks::new(alloc, shape.sessions)?;
        Ok(Core {
            shape,
            world,
            events: Vec::new(alloc),
            sessions,
            certifier: Certifier::new(alloc),
            locks,
        })
    }

    /// What is kept of the session.
    fn keeping(&self, session: u32) -> &Session
        requires session { IsSession self.now.world session }
        ensures kept { IsKept self.now session result.now }
        ensures short { AreShort self.now.world.scripts }
        ensures follows { EachFollows self.now.shape self.now.world self.now.events }
        ensures snapshot { IfSome (taken_of self.now session) (λ taken. taken.snapshot ≤ commits self.now.events) }
    {
        &self.sessions[place_of(session)]
    }

    /// What is due of the session, and the number of the statement that is due; 0 where none is.
    fn due(&self, session: u32) -> (Next, u32)
        requires session { IsSession self.now.world session }
        ensures turn { MeansTurn self.now session result.0 }
        ensures number { result.1 ≡ number_due self.now session }
    {
        let kept = self.keeping(session);
        match kept.stage {
            Stage::Ended => (Next::Nothing, 0),
            Stage::Opened => (Next::Answer, kept.taken),
            Stage::Answered => (Next::Commit, kept.taken),
            Stage::Between => match given(&self.world, session, kept.taken as usize + 1) {
                Some(_) => (Next::Take, kept.taken + 1),
                None => (Next::End, 0),
            },
        }
    }

    /// The events so far follow from the scripts and are legal, in a warehouse with a session for each script, and no
    /// vacuum runs. It does nothing.
    pub fn is_legal(&self)
        ensures follows { EachFollows self.now.shape self.now.world self.now.events }
        ensures legal { EachIsLegal self.now.shape self.now.world self.now.events }
        ensures shaped { self.now.shape.sessions ≡ session_count self.now.world }
        ensures unswept { (other : ℕ) → swept_by other self.now.events ≡ None }
    {
        let _count = self.events.len();
    }

    /// What is due of the session.
    pub fn next(&self, session: u32) -> Next
        requires session { IsSession self.now.world session }
        ensures { MeansTurn self.now session result }
    {
        self.due(session).0
    }

    /// The number of the statement that is due of the session; 0 where none is.
    fn number_due(&self, session: u32) -> u32
        requires session { IsSession self.now.world session }
        ensures { result ≡ number_due self.now session }
    {
        self.due(session).1
    }

    /// The statement that is due of the session, read or refused. There is none where no statement is due.
    pub fn given(&self, session: u32) -> Option<&Given>
        requires session { IsSession self.now.world session }
        ensures { option_copied result ≡ given_at self.now.world session (number_due self.now session) }
    {
        let number = self.number_due(session);
        given(&self.world, session, number as usize)
    }

    /// The files that the statements are read beside.
    pub fn files(&self) -> &FileMap
        ensures { result.now ≡ self.now.world.files }
    {
        &self.world.files
    }

    /// Where the session stands.
    pub fn block(&self, session: u32) -> BlockState
        requires session { IsSession self.now.world session }
        ensures { result ≡ block_of self.now session }
    {
        self.keeping(session).block
    }

    /// What the session's open transaction took, the open statement's objects among it.
    pub fn transaction(&self, session: u32) -> Option<&Taken>
        requires session { IsSession self.now.world session }
        ensures taken { option_copied result ≡ taken_of self.now session }
        ensures snapshot { IfSome (taken_of self.now session) (λ taken. taken.snapshot ≤ commits self.now.events) }
    {
        match &self.keeping(session).transaction {
            Some(transaction) => Some(&transaction.taken),
            None => None,
        }
    }

    /// The watermarks that the session's transaction has if it commits next; 0 where none is open. It takes no memory.
    pub fn marks(&self, session: u32) -> Marks
        requires session { IsSession self.now.world session }
        ensures low { result.low ≡ low_of self.now session }
        ensures high { result.high ≡ high_of self.now session }
    {
        match self.transaction(session) {
            Some(taken) => self.certifier.watermarks(taken),
            None => Marks {
                low: 0,
                high: 0,
                by: None,
            },
        }
    }

    /// The locks that the session's next statement wants.
    pub fn wants(&self, session: u32) -> Result<List<Want>, AllocError>
        requires session { IsSession self.now.world session }
        ensures { IfOk result (λ wants. wants ≡ wants_of self.now.world session (number_due self.now session)) }
    {
        wants(*self.events.allocator(), self.given(session))
    }

    /// Asks for the locks of the session's next statement, which are all those that it wants. Where nobody stands in
    /// their way, nothing happens: `opened` grants them. Else the session waits for those who do, which is an event
    /// where it didn't wait for just these before; or, where it would close a cycle, the statement is refused, and its
    /// transaction ends without a trace. Where memory runs out, nothing has happened.
    pub fn ask(&mut self, session: u32, wants: &List<Want>) -> Result<Asked, AllocError>
        requires session { IsSession self.old.world session }
        requires work { IsToAsk self.old session }
        requires wants { wants.now ≡ wants_of self.old.world session (number_due self.old session) }
        ensures ok { IfOk result (λ asked. IsAnswered self.old session asked self.new) }
        ensures err { OnErr result (self.new ≡ self.old) }
    {
        let asked = self.answer(session, wants)?;
        match &asked {
            Asked::Granted => {}
            Asked::Waits { holders } => self.wait(session, wants, holders)?,
            Asked::Deadlock { cycle } => {
                let cycle = cycle.copy()?;
                self.declined(session, Refusal::Deadlock { cycle })?;
            }
        }
        Ok(asked)
    }

    /// What the session is answered if it asks for these locks.
    fn answer(&self, session: u32, wants: &List<Want>) -> Result<Asked, AllocError>
        requires session { IsSession self.now.world session }
        requires wants { wants.now ≡ wants_of self.now.world session (number_due self.now session) }
        ensures { IfOk result (λ asked. asked
            ≡ answer_by (blockers_of self.now session (number_due self.now session))
            (cycle_of self.now session (number_due self.now session))) }
    {
        self.locks.answer(session, wants)
    }

    /// Whether the session's newest event is its wait for just these holders.
    fn is_waiting(&self, session: u32, holders: &List<u32>) -> bool
        requires session { IsSession self.now.world session }
        ensures { Decides result (newest_event session self.now.events
            ≡ Some (wait_due self.now session holders.now)) }
    {
        match &self.keeping(session).waits {
            Some(waits) => are_same(waits, holders),
            None => false,
        }
    }

    /// The session waits for these holders of locks in the way of what it wants. Where it waits for just these by its
    /// newest event, or where memory runs out, nothing happens.
    fn wait(
        &mut self,
        session: u32,
        wants: &List<Want>,
        holders: &List<u32>,
    ) -> Result<(), AllocError>
        requires session { IsSession self.old.world session }
        requires work { IsToAsk self.old session }
        requires wants { wants.now ≡ wants_of self.old.world session (number_due self.old session) }
        requires waits { IsLockWait self.old session (number_due self.old session) holders.now }
        ensures ok { OnOk result (HasWaited self.old session holders.now self.new) }
        ensures err { OnErr result (self.new ≡ self.old) }
    {
        let statement = self.number_due(session);
        if self.is_waiting(session, holders) {
            return Ok(());
        }
        let named = holders.copy()?;
        let kept = holders.copy()?;
        make_room(&mut self.events, self.shape.sessions)?;
        let _waits = self.locks.request(session, wants)?;
        self.sessions[place_of(session)].waits = Some(kept);
        let event = Event::Wait {
            session,
            statement,
            holders: named,
        };
        put(
            &self.world,
            &mut self.locks,
            &mut self.sessions,
            &mut self.events,
            session,
            event,
        );
        Ok(())
    }

    /// The least session, the background worker among them, that holds an `AccessExclusive` lock on the table. It takes
    /// no memory.
    pub fn holder(&self, table: &Text) -> Option<u32>
        ensures { result ≡ exclusive_holder_by (lock_state self.now) table.now }
    {
        self.locks.holder(table)
    }

    /// The event of the session has happened. Where memory runs out, nothing has.
    fn record(&mut self, session: u32, event: Event) -> Result<(), AllocError>
        requires session { IsSession self.old.world session }
        requires plain { IsPlain session event }
        requires next { IsNextEvent self.old event }
        ensures ok { OnOk result (self.new ≡ with_event self.old event) }
        ensures err { OnErr result (self.new ≡ self.old) }
        ensures unswept { (other : ℕ) → swept_by other self.new.events ≡ None }
    {
        make_room(&mut self.events, self.shape.sessions)?;
        put(
            &self.world,
            &mut self.locks,
            &mut self.sessions,
            &mut self.events,
            session,
            event,
        );
        Ok(())
    }

    /// The event of the session has happened, for which there is room. It takes no memory.
    fn record_in_room(&mut self, session: u32, event: Event)
        requires session { IsSession self.old.world session }
        requires plain { IsPlain session event }
        requires room { HasRoomKept self.old session event }
        requires next { IsNextEvent self.old event }
        ensures now { self.new ≡ with_event self.old event }
        ensures unswept { (other : ℕ) → swept_by other self.new.events ≡ None }
    {
        put(
            &self.world,
            &mut self.locks,
            &mut self.sessions,
            &mut self.events,
            session,
            event,
        );
    }

    /// The session's BEGIN begins a block. Where memory runs out, nothing has happened.
    pub fn begun(&mut self, session: u32) -> Result<(), AllocError>
        requires session { IsSession self.old.world session }
        requires comes { IsNextEvent self.old (event.Begin session (number_due self.old session)) }
        ensures ok { OnOk result (self.new ≡ with_event self.old (event.Begin session (number_due self.old session))) }
        ensures err { OnErr result (self.new ≡ self.old) }
    {
        let statement = self.number_due(session);
        self.record(session, Event::Begin { session, statement })
    }

    /// The session's BEGIN, COMMIT or ROLLBACK has nothing to do. Where memory runs out, nothing has happened.
    pub fn passed(&mut self, session: u32, word: Word) -> Result<(), AllocError>
        requires session { IsSession self.old.world session }
        requires comes { IsNextEvent self.old (event.Pass session (number_due self.old session) word) }
        ensures ok { OnOk result (self.new
            ≡ with_event self.old (event.Pass session (number_due self.old session) word)) }
        ensures err { OnErr result (self.new ≡ self.old) }
    {
        let statement = self.number_due(session);
        self.record(
            session,
            Event::Pass {
                session,
                statement,
                word,
            },
        )
    }

    /// The session's script is at its end. Where memory runs out, nothing has happened.
    pub fn ended(&mut self, session: u32) -> Result<(), AllocError>
        requires session { IsSession self.old.world session }
        requires comes { IsNextEvent self.old (event.End session) }
        ensures ok { OnOk result (self.new ≡ with_event self.old (event.End session)) }
        ensures err { OnErr result (self.new ≡ self.old) }
    {
        self.record(session, Event::End { session })
    }

    /// The session's next statement is refused without being opened, and its transaction ends without a trace. Where
    /// memory runs out, nothing has happened.
    pub fn declined(&mut self, session: u32, refusal: Refusal) -> Result<(), AllocError>
        requires session { IsSession self.old.world session }
        requires comes { IsNextEvent self.old (event.Refuse session (number_due self.old session) refusal) }
        ensures ok { OnOk result (self.new
            ≡ with_event self.old (event.Refuse session (number_due self.old session) refusal)) }
        ensures trace { OnOk result (LeavesNoTrace self.old session self.new) }
        ensures err { OnErr result (self.new ≡ self.old) }
    {
        let statement = self.number_due(session);
        self.record(
            session,
            Event::Refuse {
                session,
                statement,
                refusal,
            },
        )
    }

    /// The session's open statement is refused, and its transaction ends without a trace. It takes no memory.
    pub fn refused(&mut self, session: u32, refusal: Refusal)
        requires session { IsSession self.old.world session }
        requires open { turn_of self.old session ≡ AnswerOf (number_due self.old session) }
        requires comes { IsNextEvent self.old (event.Refuse session (number_due self.old session) refusal) }
        ensures now { self.new ≡ with_event self.old (event.Refuse session (number_due self.old session) refusal) }
        ensures trace { LeavesNoTrace self.old session self.new }
    {
        let statement = self.number_due(session);
        self.record_in_room(
            session,
            Event::Refuse {
                session,
                statement,
                refusal,
            },
        );
    }

    /// The session's block ends without a trace. It takes no memory.
    pub fn rolled_back(&mut self, session: u32)
        requires session { IsSession self.old.world session }
        requires comes { IsNextEvent self.old (event.Rollback session (number_due self.old session)) }
        ensures { self.new ≡ with_event self.old (event.Rollback session (number_due self.old session)) }
    {
        let statement = self.number_due(session);
        self.record_in_room(session, Event::Rollback { session, statement });
    }

    /// The session's open statement is answered. It takes no memory.
    pub fn answered(&mut self, session: u32, answer: Answer)
        requires session { IsSession self.old.world session }
        requires comes { IsNextEvent self.old (event.Answer session (number_due self.old session) answer) }
        ensures { self.new ≡ with_event self.old (event.Answer session (number_due self.old session) answer) }
    {
        let statement = self.number_due(session);
        self.record_in_room(
            session,
            Event::Answer {
                session,
                statement,
                answer,
            },
        );
    }

    /// The snapshot of the statement that the session opens next: its transaction's, or all commits where it begins
    /// one.
    fn snapshot_due(&self, session: u32) -> u64
        requires session { IsSession self.now.world session }
        ensures { result ≡ snapshot_due self.now session }
    {
        match self.transaction(session) {
            Some(taken) => taken.snapshot,
            None => self.certifier.len(),
        }
    }

    /// The session's next statement is opened: it is granted the locks that it wants, begins a transaction where none is
    /// open, and it gives where the statement is worked on. Where memory runs out, nothing has happened.
    pub fn opened(&mut self, session: u32) -> Result<Route, AllocError>
        requires session { IsSession self.old.world session }
        requires comes { IsNextEvent self.old (opening_due self.old session) }
        ensures ok { IfOk result (λ route. (route ≡ route_due self.old session)
            × (self.new ≡ with_event self.old (opening_due self.old session))) }
        ensures err { OnErr result (self.new ≡ self.old) }
    {
        let statement = self.number_due(session);
        let snapshot = self.snapshot_due(session);
        let wants = self.wants(session)?;
        make_room(&mut self.events, self.shape.sessions)?;
        let given = given(&self.world, session, statement as usize);
        let kept = &mut self.sessions[place_of(session)];
        grant_and_open(
            &mut self.locks,
            session,
            &wants,
            &mut kept.transaction,
            given,
            snapshot,
        )?;
        let event = Event::Opened {
            session,
            statement,
            snapshot,
            route: Route::Main,
        };
        put(
            &self.world,
            &mut self.locks,
            &mut self.sessions,
            &mut self.events,
            session,
            event,
        );
        Ok(Route::Main)
    }

    /// Decides on the commit that is due of the session: the transaction is committed where its low watermark is above
    /// its high one, and the certifier is pruned at the horizon then. Else it is a violation, and where memory runs out
    /// for the certifier, the commit is refused; both leave no trace.
    pub fn commit(&mut self, session: u32) -> Committed
        requires session { IsSession self.old.world session }
        requires follows { FollowsAfter self.old (commit_due self.old session) }
        ensures now { self.new ≡ with_event self.old (decision_of session (number_due self.old session) result) }
        ensures comes { IsNextEvent self.old (decision_of session (number_due self.old session) result) }
        ensures trace { LeavesUnlessStamped result self.old session self.new }
    {
        let statement = self.number_due(session);
        let Some(transaction) = self.sessions[place_of(session)].transaction.take() else {
            unreachable!()
        };
        let (decided, event) = decide(&mut self.certifier, session, statement, transaction);
        put(
            &self.world,
            &mut self.locks,
            &mut self.sessions,
            &mut self.events,
            session,
            event,
        );
        settle(&mut self.certifier, self.sessions.as_slice(), &decided);
        decided
    }

    /// The number of entries that the certifier keeps: for each object one for each of its writers past the horizon of
    /// the newest commit, and one more where it has a writer at or before that. It takes no memory.
    pub fn kept(&self) -> u64
        ensures { result ≡ entry_count (pruned_at self.now) (certified self.now) }
    {
        self.certifier.entries()
    }

    /// The journal of what happened, which is legal.
    pub fn into_journal(self) -> Journal
        ensures shape { result.shape ≡ self.shape }
        ensures events { events_of result ≡ self.events }
        ensures legal { IsLegal self.world result }
    {
        let Core { shape, events, .. } = self;
        Journal {
            shape,
            events: List::from_vec(events),
        }
    }
}

/// Makes room for two more events of each session, and for one beside them. The events stay.
fn make_room(events: &mut Vec<Event>, sessions: u32) -> Result<(), AllocError>
    ensures items { events.new.items ≡ events.old.items }
    ensures len { vec_len events.new ≡ vec_len events.old }
    ensures capacity { vec_capacity events.old ≤ vec_capacity events.new }
    ensures room { OnOk result (vec_len events.new + 2 * sessions + 1 ≤ vec_capacity events.new) }
{
    events.reserve(2 * sessions as usize + 1)
}
