//! A replayed history that ends in a started task.
ghost use Rattle.std.specs.Prelude.{◌≡◌, ◌++◌, ◌≤◌, length, true, OnOk, IsOkAnd};
ghost use Rattle.wh_workflow.specs.Counting.{risen};
ghost use Rattle.wh_workflow.specs.Scripts.{lookup_version};
ghost use Rattle.wh_replay.specs.Replays.{ends_in_task};
ghost use Rattle.wh_replay.specs.Runs.{IsReplayed, run_of, steps, advance_steps, status_in};
ghost use Rattle.wh_replay.specs.Private.Advances.{GivesHistory};

use crate::continuing::{ends_in_task, replay_joined};
use crate::fault::{Fault, RunFault};
use crate::pushing::push_all;
use crate::replaying::replay;
use crate::state::ReplayState;
use std::alloc::Global;
use std::marker::Model;
use wh_events::{Event, EventNo, MOST_EVENTS, Status};
use wh_machines::Track;
use wh_workflow::{Command, Meter, Workflow};

/// A history that ends in a started workflow task, with what its replay gives. Contracts see the
/// events, the machines (each event that opened something, with its status), the settled versions
/// and the unsent commands.
#[derive(Drop)]
pub struct ReplayedHistory<W: Workflow> {
    track: Track,
    replayed: ReplayState<W::State>,
}

impl<W: Workflow> Model for ReplayedHistory<W> {
    ghost use Rattle.wh_replay.specs.Runs.{HistoryView};
    ghost use Rattle.wh_replay.specs.Private.Views.{IsRunOf, view_of};

    ghost Value = { HistoryView };

    ghost view = { λ history. view_of history.track history.replayed.versions history.replayed.unsent.items };

    ghost invariant = { λ history. IsRunOf W.program history.track history.replayed };
}

impl<W: Workflow> ReplayedHistory<W> {
    /// Replays a history from its first event. Fails with `Fault::NotATask` if it does not end in a
    /// started task.
    pub(crate) fn from_first(
        alloc: Global,
        events: Vec<Event>,
        meter: &mut Meter,
    ) -> Result<Self, RunFault>
        ensures history { GivesHistory W.program events.items result }
        ensures meter { OnOk result (meter.new ≡ risen meter.old (steps W.program events.items)) }
        ensures never_lowered { meter.old ≤ meter.new }
    {
        if !ends_in_task(events.as_slice()) {
            return Err(RunFault::Fault(Fault::NotATask));
        }
        // Called for the proof: its contract says that the meter fits 64 bits.
        let _proof_fits = meter.count();
        let (track, walk) = replay::<W>(alloc, events, meter)?;
        Ok(ReplayedHistory {
            track,
            replayed: walk.replayed,
        })
    }

    /// Continues with events that end in a started task.
    pub(crate) fn extend(
        self,
        alloc: Global,
        events: Vec<Event>,
        meter: &mut Meter,
    ) -> Result<Self, RunFault>
        requires ends { ends_in_task events.items ≡ true }
        ensures history { GivesHistory W.program (self.events ++ events.items) result }
        ensures meter { OnOk result (meter.new ≡ risen meter.old (advance_steps W.program self.events events.items)) }
        ensures never_lowered { meter.old ≤ meter.new }
    {
        let ReplayedHistory {
            mut track,
            replayed,
        } = self;
        let held = track.len();
        if let Err(fault) = push_all(&mut track, events) {
            drop(replayed);
            drop(track);
            return Err(fault);
        }
        // Called for the proof: its contract says that the meter fits 64 bits.
        let _proof_fits = meter.count();
        match replay_joined::<W>(alloc, &track, held, replayed, meter) {
            Ok(walk) => Ok(ReplayedHistory {
                track,
                replayed: walk.replayed,
            }),
            Err(fault) => {
                drop(track);
                Err(fault)
            }
        }
    }

    /// Does nothing. Its contract says what holds of every replayed history.
    pub fn invariant(&self)
        ensures { IsReplayed W.program self.now }
    {
        let _track = &self.track;
    }

    /// Returns the number of events.
    pub fn len(&self) -> usize
        ensures len { result ≡ length self.now.events }
        ensures most { result ≤ MOST_EVENTS }
    {
        self.track.len()
    }

    /// Returns the events.
    pub(crate) fn events(&self) -> &[Event]
        ensures { result.now ≡ self.now.events }
    {
        self.track.events()
    }

    /// Returns the status of the thing that the event of a number opened, if it opened one.
    pub(crate) fn status(&self, number: EventNo) -> Option<Status>
        ensures { result ≡ status_in self.now.machines number }
    {
        self.track.status(number)
    }

    /// Returns the state of the workflow.
    pub fn state(&self) -> &W::State
        ensures { IsOkAnd (run_of W.program self.now.events) (λ replayed. result.now ≡ replayed.state) }
    {
        &self.replayed.state
    }

    /// Returns the commands that are not sent yet.
    pub(crate) fn commands(&self) -> &[Command]
        ensures { result.now ≡ self.now.unsent }
    {
        self.replayed.unsent.as_slice()
    }

    /// Returns the settled version of a change, if there is one.
    pub(crate) fn version(&self, change_id: &str) -> Option<i32>
        ensures { result ≡ lookup_version change_id.now self.now.settled }
    {
        self.replayed.versions.get(change_id)
    }
}
