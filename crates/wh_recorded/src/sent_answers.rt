//! The answers that a source was sent.
ghost use Rattle.std.specs.Prelude.{◌≡◌, ◌++◌, ◌∷◌, ◌||◌, [], OnOk, OnErr};
ghost use Rattle.std.specs.Option.{option_or};
ghost use Rattle.std.specs.BTreeMap.{get};
ghost use Rattle.std.specs.BTreeSet.{contains};
ghost use Rattle.std.specs.Ordering.{nat_cmp};
ghost use Rattle.wh_recorded.specs.Rounds.{completes, is_completed, fault_by, fault_under};
ghost use Rattle.wh_slots.specs.declared.TaskName.{TaskName};
ghost use Rattle.wh_tasks.specs.Source.{FailsOnly};
ghost use Rattle.wh_tasks.specs.declared.source.SourceFault.{SourceFault};

use std::alloc::Global;
use std::collections::{BTreeMap, BTreeSet};
use std::marker::Model;
use wh_events::OutOfMemory;
use wh_replay::{Answer, Fault};
use wh_slots::TaskName;
use wh_tasks::{Sent, SourceFault};

/// Adds the name to those of completed tasks, if the answer completes its task, or stores the fault
/// under the name, if the answer is a fault. If there was no memory, nothing is stored.
fn enter(
    completed: &mut BTreeSet<u128>,
    faults: &mut BTreeMap<u128, Fault>,
    name: TaskName,
    sent: &Sent,
) -> Result<(), OutOfMemory>
    ensures entered { OnOk result ((other : TaskName) → contains nat_cmp completed.new other.0
        ≡ (contains nat_cmp completed.old other.0 || completes other (name, sent.now))) }
    ensures faults { OnOk result ((other : TaskName) → get nat_cmp faults.new other.0
        ≡ option_or (fault_by other (name, sent.now)) (get nat_cmp faults.old other.0)) }
    ensures kept { OnErr result ((other : TaskName) →
        contains nat_cmp completed.new other.0 ≡ contains nat_cmp completed.old other.0) }
    ensures kept_faults { OnErr result ((other : TaskName) →
        get nat_cmp faults.new other.0 ≡ get nat_cmp faults.old other.0) }
{
    match sent {
        Sent::Workflow(Answer::Complete(_)) => {
            completed.insert(name.0)?;
        }
        Sent::Workflow(Answer::Fail(fault)) => {
            faults.insert(name.0, *fault)?;
        }
        Sent::Activity(_) => {}
    }
    Ok(())
}

/// The answers that a source was sent, in the order in which they came, with the names of the tasks
/// that they complete, and the last fault under each name that has one.
#[derive(Drop)]
pub(crate) struct SentAnswers {
    list: Vec<(TaskName, Sent)>,
    completed: BTreeSet<u128>,
    faults: BTreeMap<u128, Fault>,
}

impl Model for SentAnswers {
    ghost use Rattle.std.specs.Prelude.{◌≡◌, List};
    ghost use Rattle.std.specs.BTreeMap.{get};
    ghost use Rattle.std.specs.BTreeSet.{contains};
    ghost use Rattle.std.specs.Ordering.{nat_cmp};
    ghost use Rattle.wh_recorded.specs.Rounds.{is_completed, fault_under};
    ghost use Rattle.wh_slots.specs.declared.TaskName.{TaskName};
    ghost use Rattle.wh_tasks.specs.declared.source.Sent.{Sent};

    ghost Value = { List (TaskName × Sent) };

    ghost view = { λ s. s.list.items };

    ghost invariant = { λ s. ((name : TaskName) →
        contains nat_cmp s.completed name.0 ≡ is_completed s.list.items name)
        × ((name : TaskName) → get nat_cmp s.faults name.0 ≡ fault_under s.list.items name) };
}

impl SentAnswers {
    /// Returns a list of no answers. Allocates nothing.
    pub(crate) fn new(alloc: Global) -> SentAnswers
        ensures { result ≡ [] }
    {
        SentAnswers {
            list: Vec::new(alloc),
            completed: BTreeSet::new(alloc),
            faults: BTreeMap::new(alloc),
        }
    }

    /// Returns the answers, each with the name of its task.
    pub(crate) fn as_slice(&self) -> &[(TaskName, Sent)]
        ensures { result.now ≡ self.now }
    {
        self.list.as_slice()
    }

    /// Whether an answer completes the task of this name.
    pub(crate) fn is_completed(&self, name: TaskName) -> bool
        ensures { result ≡ is_completed self.now name }
    {
        self.completed.contains(&name.0)
    }

    /// Returns the fault of the task of this name: the last that was sent under the name.
    pub(crate) fn fault_under(&self, name: TaskName) -> Option<Fault>
        ensures { result ≡ fault_under self.now name }
    {
        self.faults.get(&name.0).copied()
    }

    /// Stores one more answer. If there was no memory, the answers stay as they were.
    pub(crate) fn store(&mut self, name: TaskName, sent: Sent) -> Result<(), SourceFault>
        ensures sent { OnOk result (self.new ≡ self.old ++ (name, sent) ∷ []) }
        ensures unsent { OnErr result (self.new ≡ self.old) }
        ensures failures { FailsOnly result 0 0 }
    {
        if self.list.reserve(1).is_err() {
            drop(sent);
            return Err(SourceFault::OutOfMemory);
        }
        if enter(&mut self.completed, &mut self.faults, name, &sent).is_err() {
            drop(sent);
            return Err(SourceFault::OutOfMemory);
        }
        self.list.push_reserved((name, sent));
        Ok(())
    }
}
