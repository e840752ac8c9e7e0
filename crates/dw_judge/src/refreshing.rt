//! The step of a refresh that is right.
ghost use Rattle.std.specs.Prelude.{◌≡◌, ◌<◌, ℕ, vec_len, OnOk};
ghost use Rattle.dw_journal.specs.declared.Event.TheVariants as kinds;
ghost use Rattle.dw_journal.specs.History.{with_event};
ghost use Rattle.dw_judge.specs.Summaries.{StandsFor, stamp_kept};
ghost use Rattle.dw_judge.specs.Verdicts.{history_before};

use crate::summaries::Summary;
use dw_journal::{Event, Journal, World};
use std::alloc::AllocError;

/// A refresh has happened: the cluster has this stamp.
pub(crate) fn refresh(
    world: &World,
    journal: &Journal,
    place: usize,
    summary: &mut Summary,
    event: &Event,
    cluster: u32,
    stamp: u64,
) -> Result<(), AllocError>
    requires is { event.now ≡ kinds.Refresh cluster stamp }
    requires stands { StandsFor journal.now.events (history_before world.now journal.now place) summary.old }
    ensures { OnOk result (StandsFor journal.now.events
        (with_event (history_before world.now journal.now place) event.now) summary.new) }
{
    let _scripts = &world.scripts;
    let _events = &journal.events;
    let _session = event.session();
    let _place = place;
    make_room(&mut summary.stamps, cluster)?;
    summary.stamps[cluster as usize] = Some(stamp);
    Ok(())
}

/// Makes room for the stamp of this cluster. Clusters that come in have none.
fn make_room(stamps: &mut Vec<Option<u64>>, cluster: u32) -> Result<(), AllocError>
    ensures same { OnOk result ((other : ℕ) →
        stamp_kept stamps.new.items other ≡ stamp_kept stamps.old.items other) }
    ensures within { OnOk result (cluster < vec_len stamps.new) }
{
    while stamps.len() <= cluster as usize {
        stamps.push(None)?;
    }
    Ok(())
}
