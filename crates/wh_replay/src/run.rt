//! A run: its key, and a history that ends in a started task.
ghost use Rattle.std.specs.Prelude.{◌≡◌, ◌-◌, ◌≤◌, length, slice_get, option_map, IfOk, IsOkAnd, OnOk};
ghost use Rattle.wh_workflow.specs.Scripts.{lookup_version};
ghost use Rattle.wh_replay.specs.Runs.{history_of, run_under, status_in, IsReplayed, run_of, steps};
ghost use Rattle.wh_replay.specs.Advances.{IsJoined, Begins, Advances, Counts};
ghost use Rattle.wh_replay.specs.Private.Advances.{spent};
ghost use Rattle.wh_replay.specs.declared.run.Answer.TheVariants.{Complete};
ghost use Rattle.wh_workflow.specs.Counting.{risen};

use crate::continuing::{ends_in_task, follows};
use crate::fault::{Fault, RunFault};
use crate::history::ReplayedHistory;
use std::alloc::Global;
use std::marker::Model;
use wh_events::{Event, EventNo, Items, MOST_EVENTS, OutOfMemory, RunKey, Status};
use wh_workflow::{Command, Meter, Workflow};

/// A run of a workflow, as far as its history was replayed: a key, a history that ends in a started
/// workflow task, and the state, machines, versions and unsent commands that its replay gives.
/// Contracts see the key, the held events, the machines (each event that opened something, with its
/// status), the settled versions and the unsent commands. `invariant` says that replay of the held
/// events from the first one gives them, and `state` that it gives the state.
#[derive(Drop)]
pub struct Run<W: Workflow> {
    key: RunKey,
    history: ReplayedHistory<W>,
}

impl<W: Workflow> Model for Run<W> {
    ghost use Rattle.wh_replay.specs.Runs.{Held, run_under};

    ghost Value = { Held };

    ghost view = { λ run. run_under run.key run.history };
}

/// Why a run does not advance. The first two faults return the run unchanged; after the others it
/// is dropped.
#[derive(Drop)]
pub enum AdvanceFault<W: Workflow> {
    /// The new events don't end in a started workflow task.
    NotATask(Run<W>),
    /// The first new event does not have the number after the last held one.
    Gap(Run<W>),
    /// Replay of the held events and the new ones has a fault.
    Fault(Fault),
    /// An allocation was refused. This can replace a `Fault`, but neither `NotATask` nor `Gap`.
    OutOfMemory,
}

impl<W: Workflow> AdvanceFault<W> {
    /// Returns the fault of a replay after which the run is dropped.
    fn without_run(fault: RunFault) -> Self
        ensures { result ≡ spent fault }
    {
        match fault {
            RunFault::Fault(fault) => AdvanceFault::Fault(fault),
            RunFault::OutOfMemory => AdvanceFault::OutOfMemory,
        }
    }
}

/// The answer to a workflow task.
#[derive(Debug, Drop)]
pub enum Answer {
    /// The task is completed with these commands.
    Complete(Items<Command>),
    /// The task failed with this fault.
    Fail(Fault),
}

/// Copies the commands. Fails with `OutOfMemory` if an allocation was refused.
pub fn copy_commands(alloc: Global, commands: &[Command]) -> Result<Vec<Command>, OutOfMemory>
    ensures { IfOk result (λ copies. copies.items ≡ commands.now) }
{
    let mut copies = Vec::new(alloc);
    for command in commands {
        copies.push(command.try_copy()?)?;
    }
    Ok(copies)
}

impl Answer {
    /// Returns an equal answer. Fails with `OutOfMemory` if an allocation was refused.
    pub fn try_copy(&self, alloc: Global) -> Result<Self, OutOfMemory>
        ensures { IfOk result (λ copy. copy ≡ self.now) }
    {
        match self {
            Answer::Complete(commands) => {
                let copies = copy_commands(alloc, commands.get())?;
                Ok(Answer::Complete(Items::new(copies)))
            }
            Answer::Fail(fault) => Ok(Answer::Fail(*fault)),
        }
    }
}

impl<W: Workflow> Run<W> {
    /// Replays a history that ends in a started task, and raises the meter by the steps of all its
    /// tasks. On an error the key and the events are dropped, and the meter may have risen.
    pub fn from_first(
        alloc: Global,
        key: RunKey,
        events: Vec<Event>,
        meter: &mut Meter,
    ) -> Result<Self, RunFault>
        ensures run { Begins W.program key events.items result }
        ensures meter { OnOk result (meter.new ≡ risen meter.old (steps W.program events.items)) }
        ensures never_lowered { meter.old ≤ meter.new }
    {
        match ReplayedHistory::<W>::from_first(alloc, events, meter) {
            Ok(history) => Ok(Run { key, history }),
            Err(fault) => {
                drop(key);
                Err(fault)
            }
        }
    }

    /// Continues with new events, as if the whole history were replayed from its first event. If
    /// the new events complete the last task with the commands that it left unsent, only the new
    /// tasks are stepped, as in sticky execution (Temporal documentation). After `Fault` and
    /// `OutOfMemory` the run is dropped, and the meter may have risen.
    pub fn advance(
        self,
        alloc: Global,
        events: Vec<Event>,
        meter: &mut Meter,
    ) -> Result<Self, AdvanceFault<W>>
        ensures run { Advances W.program self events.items result }
        ensures meter { Counts W.program self events.items meter.old meter.new result }
        ensures never_lowered { meter.old ≤ meter.new }
    {
        if !ends_in_task(events.as_slice()) {
            return Err(AdvanceFault::NotATask(self));
        }
        if !follows(self.history.len(), events.as_slice()) {
            return Err(AdvanceFault::Gap(self));
        }
        self.extend(alloc, events, meter)
    }

    /// Continues with events that are joined to those of the run.
    fn extend(
        self,
        alloc: Global,
        events: Vec<Event>,
        meter: &mut Meter,
    ) -> Result<Self, AdvanceFault<W>>
        requires joined { IsJoined self.events events.items }
        ensures run { Advances W.program self events.items result }
        ensures meter { Counts W.program self events.items meter.old meter.new result }
        ensures never_lowered { meter.old ≤ meter.new }
    {
        let Run { key, history } = self;
        match history.extend(alloc, events, meter) {
            Ok(history) => Ok(Run { key, history }),
            Err(fault) => {
                drop(key);
                Err(AdvanceFault::without_run(fault))
            }
        }
    }

    /// Returns a run of the key and a replayed history.
    pub fn from_parts(key: RunKey, history: ReplayedHistory<W>) -> Self
        ensures { result ≡ run_under key history }
    {
        Run { key, history }
    }

    /// Returns the key and the replayed history.
    pub fn into_parts(self) -> (RunKey, ReplayedHistory<W>)
        ensures key { result.0 ≡ self.key }
        ensures history { result.1 ≡ history_of self }
    {
        (self.key, self.history)
    }

    /// Returns the key of the run.
    pub fn key(&self) -> &RunKey
        ensures { result.now ≡ self.now.key }
    {
        &self.key
    }

    /// Does nothing. Its contract says what holds of every run: replay of its held events from the
    /// first one gives its machines, versions and unsent commands.
    pub fn invariant(&self)
        ensures { IsReplayed W.program (history_of self.now) }
    {
        self.history.invariant();
    }

    /// Returns the number of held events.
    pub fn held_len(&self) -> usize
        ensures len { result ≡ length self.now.events }
        ensures most { result ≤ MOST_EVENTS }
    {
        self.history.len()
    }

    /// Returns the held events.
    pub fn events(&self) -> &[Event]
        ensures { result.now ≡ self.now.events }
    {
        self.history.events()
    }

    /// Returns the held event with a number, if there is one.
    pub fn event(&self, number: EventNo) -> Option<&Event>
        ensures { option_map (λ event. event.now) result ≡ slice_get self.now.events (number - 1) }
    {
        self.history.events().get((number.get() - 1) as usize)
    }

    /// Returns the status of the thing that the held event of a number opened, if it opened one.
    pub fn status(&self, number: EventNo) -> Option<Status>
        ensures { result ≡ status_in self.now.machines number }
    {
        self.history.status(number)
    }

    /// Returns the state of the workflow.
    pub fn state(&self) -> &W::State
        ensures { IsOkAnd (run_of W.program self.now.events) (λ replayed. result.now ≡ replayed.state) }
    {
        self.history.state()
    }

    /// Returns the commands of the last task, which are not sent yet.
    pub fn commands(&self) -> &[Command]
        ensures { result.now ≡ self.now.unsent }
    {
        self.history.commands()
    }

    /// Returns the settled version of a change, if there is one.
    pub fn version(&self, change_id: &str) -> Option<i32>
        ensures { result ≡ lookup_version change_id.now self.now.settled }
    {
        self.history.version(change_id)
    }

    /// Returns the answer to the last task: a copy of its commands. Fails with `OutOfMemory` if an
    /// allocation was refused.
    pub fn answer(&self, alloc: Global) -> Result<Answer, OutOfMemory>
        ensures { IfOk result (λ answer. answer ≡ Complete self.now.unsent) }
    {
        let copies = copy_commands(alloc, self.history.commands())?;
        Ok(Answer::Complete(Items::new(copies)))
    }
}
