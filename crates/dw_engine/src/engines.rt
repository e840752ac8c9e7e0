//! The engine: the core, with the databases that it is right about.
ghost use Rattle.std.specs.Prelude.{◌≡◌, ℕ, [], replicate, None, IfOk};
ghost use Rattle.dw_core.specs.Readers.{MeansTurn};
ghost use Rattle.dw_journal.specs.Worlds.{AreShort, IsSession, session_count};
ghost use Rattle.dw_journal.specs.History.{events_of, has_ended};
ghost use Rattle.dw_journal.specs.Contents.{contents};
ghost use Rattle.dw_journal.specs.Follows.{EachFollows};
ghost use Rattle.dw_journal.specs.Legal.{EachIsLegal, IsLegal};
ghost use Rattle.dw_journal.specs.Vacuums.{swept_by};
ghost use Rattle.dw_engine.specs.EngineInvariant.{HaveNoVacuum};

use dw_commit::View;
use dw_core::{Core, Next};
use dw_journal::{Journal, Shape, World};
use dw_model::Database;
use std::alloc::{AllocError, Global};
use std::marker::Model;

/// A warehouse that scripts are run on: the core, the newest committed database, and for each session with an open
/// transaction what it sees. Contracts see its history: the shape, the world, and the events, newest first. Sessions
/// are numbered from 1.
#[derive(Debug, Drop)]
pub struct Engine {
    pub(crate) core: Core,
    pub(crate) database: Database,
    pub(crate) views: Vec<Option<View>>,
}

impl Model for Engine {
    ghost use Rattle.std.specs.Coded.{codes};
    ghost use Rattle.dw_model.specs.contracts.files.FileMap as files;
    ghost use Rattle.dw_journal.specs.History.{History};

    ghost Value = { History };

    ghost coded = { Prim.hlevel (codes, files.the_row.coded) };

    ghost use Rattle.dw_engine.specs.EngineInvariant.{EngineInvariant};

    ghost view = { λ engine. engine.core };

    ghost invariant = { λ engine. EngineInvariant engine.core engine.database engine.views.items };
}

/// What a run leaves: its journal, and the committed tables.
#[derive(Debug, Drop)]
pub struct Ran {
    /// The journal, which is legal.
    pub journal: Journal,
    /// The committed tables after its last event.
    pub database: Database,
}

impl Engine {
    /// An engine on which nothing has happened yet, with a session for each script. No script may sweep a table, since
    /// vacuums can't be driven yet. Where memory runs out, there is no engine.
    pub fn new(alloc: Global, shape: Shape, world: World) -> Result<Engine, AllocError>
        requires sessions { shape.sessions ≡ session_count world }
        requires short { AreShort world.scripts }
        requires no_vacuum { HaveNoVacuum world }
        ensures { IfOk result (λ engine. engine ≡ record { shape = shape; world = world; events = [] }) }
    {
        let views = no_views(alloc, shape.sessions)?;
        Ok(Engine {
            core: Core::new(alloc, shape, world)?,
            database: Database::new(alloc),
            views,
        })
    }

    /// What is due of the session.
    pub fn next(&self, session: u32) -> Next
        requires session { IsSession self.now.world session }
        ensures { MeansTurn self.now session result }
    {
        self.core.next(session)
    }

    /// Whether the session's script is at its end.
    pub fn has_ended(&self, session: u32) -> bool
        requires session { IsSession self.now.world session }
        ensures { result ≡ has_ended session self.now.events }
    {
        matches!(self.core.next(session), Next::Nothing)
    }

    /// The events so far follow from the scripts and are legal, in a warehouse with a session for each script, and no
    /// vacuum runs. It does nothing.
    pub fn is_legal(&self)
        ensures follows { EachFollows self.now.shape self.now.world self.now.events }
        ensures legal { EachIsLegal self.now.shape self.now.world self.now.events }
        ensures shaped { self.now.shape.sessions ≡ session_count self.now.world }
        ensures unswept { (session : ℕ) → swept_by session self.now.events ≡ None }
    {
        self.core.is_legal();
    }

    /// The newest committed database.
    pub fn database(&self) -> &Database
        ensures { result.now ≡ contents self.now }
    {
        &self.database
    }

    /// The journal of what happened, which is legal, and the newest committed database.
    pub fn into_parts(self) -> Ran
        ensures shape { result.journal.shape ≡ self.shape }
        ensures events { events_of result.journal ≡ self.events }
        ensures legal { IsLegal self.world result.journal }
        ensures database { result.database ≡ contents self }
    {
        let Engine { core, database, .. } = self;
        Ran {
            journal: core.into_journal(),
            database,
        }
    }
}

/// So many sessions without a view.
fn no_views(alloc: Global, sessions: u32) -> Result<Vec<Option<View>>, AllocError>
    ensures { IfOk result (λ views. views.items ≡ replicate sessions None) }
{
    let mut views = Vec::new(alloc);
    for _ in 0..sessions {
        views.push(None)?;
    }
    Ok(views)
}
