//! The journal of a run, event by event, and what makes it right.
//!
//! `specs/` holds the definitions: which event follows from the scripts, which is legal, which journals arise from a
//! schedule, and the serial order of what was committed. They speak of any number of sessions.
#![tactic(auto)]

mod laws;
mod locks;
mod sessions;
mod transactions;

ghost use Rattle.std.specs.Prelude.{◌≡◌};
ghost use Rattle.dw_journal.specs.Shapes.{standard_shape};

use dw_model::{Answer, FileMap, Object, Refusal, Statement, Word};
use dw_value::{List, Text};
pub use laws::{
    commits_leave_objects, contents_stand, driven_is_legal, edges_rise,
    events_bring_nearer_the_end, one_driven_journal, serial_order_is_in_order,
    transactions_have_a_frame, violations_are_exact, watermarks_are_attained, worked_examples,
};
pub use locks::{Mode, Want};
pub use sessions::place_of;
pub use transactions::{commits, horizon, snapshot_of};

/// How large a warehouse is, and how many sessions it serves.
#[derive(Clone, Copy, Debug, PartialEq, Eq)]
pub struct Shape {
    /// Nodes, 1 to 16.
    pub nodes: u32,
    /// Slices of each node, 1 to 16.
    pub slices: u32,
    /// Scaling clusters, 0 to 9.
    pub clusters: u32,
    /// Statements that a cluster works on at once, 1 to 50.
    pub slots: u32,
    /// Sessions, 1 to 64.
    pub sessions: u32,
}

impl Shape {
    /// The shape of a warehouse where nothing else is asked for: 2 nodes of 2 slices, 1 cluster, 5 slots.
    pub fn standard(sessions: u32) -> Shape
        ensures { result ≡ standard_shape sessions }
    {
        Shape {
            nodes: 2,
            slices: 2,
            clusters: 1,
            slots: 5,
            sessions,
        }
    }
}

/// A statement of a script: what the grammar makes of its text.
#[derive(Debug, Drop)]
pub enum Given {
    /// The grammar derives this statement.
    Read(Statement),
    /// The grammar refuses it, with this refusal.
    Refused(Refusal),
}

/// The statements of each session's script, sessions in ascending number.
pub type Scripts = List<List<Given>>;

/// What a journal is read beside: the scripts, and the files that were handed in.
#[derive(Debug, Drop)]
pub struct World {
    /// The statements of each session's script: session 1 first.
    pub scripts: Scripts,
    /// The bytes of each file under its name. A name that isn't there is of no file.
    pub files: FileMap,
}

/// Where a session stands, after the SQL standard's transactions.
#[derive(Clone, Copy, Debug, PartialEq, Eq)]
pub enum BlockState {
    /// In no block: each statement is a transaction of its own.
    Outside,
    /// In a block, whose statements are one transaction.
    Within,
    /// In a block of which a statement was refused, so that it can only be rolled back.
    Aborted,
}

/// Where a statement is worked on.
#[derive(Clone, Copy, Debug)]
pub enum Route {
    /// On the warehouse's own nodes.
    Main,
    /// On the scaling cluster of this number, from 1.
    Cluster(u32),
}

/// One event of a journal. In each, `session` is a session's number, from 1, or 0 for the background worker; `statement`
/// is the place in that session's script, from 1, or 0 for the background worker. Clusters are numbered from 1, slices
/// from 0. `stamp` is the place of a committed transaction among all, from 1. `snapshot` and `horizon` are numbers of
/// commits, from 0. `low` is a stamp, and `high` is a stamp or 0.
#[derive(Debug, Drop)]
pub enum Event {
    /// BEGIN: a block of statements begins.
    Begin {
        session: u32,
        statement: u32,
    },
    /// A BEGIN, COMMIT or ROLLBACK that has nothing to do.
    Pass {
        session: u32,
        statement: u32,
        word: Word,
    },
    /// The statement waits for these sessions, in ascending number.
    Wait {
        session: u32,
        statement: u32,
        holders: List<u32>,
    },
    /// The statement is opened: its names are found in what the session sees, which is what was committed up to
    /// `snapshot`, with the changes of its own transaction.
    Opened {
        session: u32,
        statement: u32,
        snapshot: u64,
        route: Route,
    },
    /// The open statement is answered.
    Answer {
        session: u32,
        statement: u32,
        answer: Answer,
    },
    /// The session's transaction is committed, with its stamp and its watermarks.
    Commit {
        session: u32,
        statement: u32,
        stamp: u64,
        low: u64,
        high: u64,
    },
    /// The session's transaction can't be committed, since its low watermark is at most its high one. `object` is one
    /// that it read and that a transaction of that low watermark wrote after its snapshot: the least one.
    Violation {
        session: u32,
        statement: u32,
        low: u64,
        high: u64,
        object: Object,
    },
    /// The statement is refused.
    Refuse {
        session: u32,
        statement: u32,
        refusal: Refusal,
    },
    /// The session's block ends without a trace.
    Rollback {
        session: u32,
        statement: u32,
    },
    /// A vacuum of this table begins.
    VacuumBegin {
        session: u32,
        statement: u32,
        table: Text,
    },
    /// The vacuum has rebuilt this slice, without the rows that were deleted at or before the horizon.
    VacuumSlice {
        session: u32,
        statement: u32,
        slice: u32,
        horizon: u64,
    },
    /// The vacuum has rebuilt all slices.
    VacuumEnd {
        session: u32,
        statement: u32,
    },
    /// The scaling cluster now serves what was committed up to this stamp.
    Refresh {
        cluster: u32,
        stamp: u64,
    },
    /// The session's script is at its end.
    End {
        session: u32,
    },
}

impl Event {
    ghost use Rattle.dw_journal.specs.History.{session_of};

    /// The session that the event is of. A `Refresh` is of none.
    pub fn session(&self) -> Option<u32>
        ensures { result ≡ session_of self.now }
    {
        match self {
            Event::Begin { session, .. }
            | Event::Pass { session, .. }
            | Event::Wait { session, .. }
            | Event::Opened { session, .. }
            | Event::Answer { session, .. }
            | Event::Commit { session, .. }
            | Event::Violation { session, .. }
            | Event::Refuse { session, .. }
            | Event::Rollback { session, .. }
            | Event::VacuumBegin { session, .. }
            | Event::VacuumSlice { session, .. }
            | Event::VacuumEnd { session, .. }
            | Event::End { session } => Some(*session),
            Event::Refresh { .. } => None,
        }
    }
}

/// What a transaction took: the commits that it sees, and the objects that it read and wrote.
#[derive(Debug, Drop)]
pub struct Taken {
    /// The number of commits that it sees.
    pub snapshot: u64,
    /// The objects that it read, each once, in ascending order.
    pub reads: List<Object>,
    /// The objects that it wrote, each once, in ascending order.
    pub writes: List<Object>,
}

/// A committed transaction as the watermarks of later ones see it.
#[derive(Debug, Drop)]
pub struct Certified {
    /// Its low watermark, from 1.
    pub low: u64,
    /// What it took.
    pub taken: Taken,
}

/// What happened in a warehouse of this shape, the oldest event first.
#[derive(Debug, Drop)]
pub struct Journal {
    /// The warehouse's shape.
    pub shape: Shape,
    /// Its events, the oldest first.
    pub events: List<Event>,
}
