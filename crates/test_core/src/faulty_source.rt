//! A source whose call of a chosen number fails.
ghost use Rattle.std.specs.Prelude.{◌≡◌, ◌+◌, ◌-◌, ◌++◌, ◌∷◌, [], cond, eqb, IfOk, OnOk, OnErr};
ghost use Rattle.wh_tasks.specs.Source.{CachesAll, CachesNoMore, Delivery, FailsOnly, IfTask, KeepsSource};
ghost use Rattle.wh_tasks.specs.declared.source.RunUse.{RunUse};
ghost use Rattle.wh_tasks.specs.declared.source.Sent.{Sent};
ghost use Rattle.test_core.specs.Failing.{Counts, spent, failures_of};

use std::marker::Model;
use wh_events::{Event, RunKey};
use wh_replay::Answer;
use wh_slots::TaskName;
use wh_tasks::{
    Acceptance, ActivityAnswer, ActivityTask, Polled, RunUse, SourceFault, TaskSource, WorkflowTask,
};

/// Wraps another source and makes one call fail. That call does not reach the other source. Every
/// other call is passed on. Polls and `whole` may return what those of the other source may, and
/// the same tasks' runs may be cached.
///
/// The failing call returns `Source`, and the count of failures rises. An answer in that call is
/// not sent to the other source, whose `without_answer` then decides whether the run may be cached.
/// Contracts see the other source and which of the calls to come fails, counted from 1, or 0 if
/// none fails any more.
#[derive(Drop)]
pub struct FaultySource<S> {
    inner: S,
    left: u64,
}

impl<S> Model for FaultySource<S> {
    ghost use Rattle.std.specs.Prelude.{ℕ};

    ghost Value = { S × ℕ };

    ghost view = { λ source. (source.inner, source.left) };
}

impl<S> FaultySource<S> {
    /// Returns a source whose call number `fail_at` fails. Polls, fetched histories and answers are
    /// counted together, from 1. If `fail_at` is 0, no call fails. Allocates nothing.
    pub fn new(inner: S, fail_at: u64) -> FaultySource<S>
        ensures { result ≡ (inner, fail_at) }
    {
        FaultySource {
            inner,
            left: fail_at,
        }
    }
}

/// Counts a call, and returns whether it is the one that fails.
fn is_due(left: &mut u64) -> bool
    ensures due { result ≡ eqb left.old 1 }
    ensures left { left.new ≡ left.old - 1 }
    ensures failures { spent left.new ≡ spent left.old + cond result 1 0 }
{
    if *left == 0 {
        return false;
    }
    *left -= 1;
    *left == 0
}

impl<S: TaskSource> TaskSource for FaultySource<S> {
    ghost use Rattle.test_core.specs.Failing.{failures_of};

    ghost answers = { λ source. S.answers source.0 };

    ghost failures = { λ source. failures_of S.failures source };

    ghost delivers = { λ source. S.delivers source.0 };

    ghost fetches = { λ source. S.fetches source.0 };

    ghost comes_from = { λ later first. S.comes_from later.0 first.0 };

    ghost caches = { λ source. S.caches source.0 };

    fn poll_workflow(&mut self) -> Result<Polled<WorkflowTask>, SourceFault>
        ensures counted { Counts self.old result self.new }

        // What every source ensures, of this one.
        ensures task { IfOk result (IfTask (λ task. S.delivers self.old.0 (Delivery.Workflow task))) }
        ensures run { IfOk result (IfTask (λ task. S.caches self.new.0 task.name → CachesAll S.caches self.new.0)) }
        ensures answers { S.answers self.new.0 ≡ S.answers self.old.0 }
        ensures failures { FailsOnly result (failures_of S.failures self.old) (failures_of S.failures self.new) }
        ensures keeps { KeepsSource S.delivers S.fetches S.comes_from self.old.0 self.new.0 }
    {
        if is_due(&mut self.left) {
            return Err(SourceFault::Source);
        }
        self.inner.poll_workflow()
    }

    fn poll_activity(&mut self) -> Result<Polled<ActivityTask>, SourceFault>
        ensures counted { Counts self.old result self.new }

        // What every source ensures, of this one.
        ensures task { IfOk result (IfTask (λ task. S.delivers self.old.0 (Delivery.Activity task))) }
        ensures answers { S.answers self.new.0 ≡ S.answers self.old.0 }
        ensures failures { FailsOnly result (failures_of S.failures self.old) (failures_of S.failures self.new) }
        ensures keeps { KeepsSource S.delivers S.fetches S.comes_from self.old.0 self.new.0 }
    {
        if is_due(&mut self.left) {
            return Err(SourceFault::Source);
        }
        self.inner.poll_activity()
    }

    fn whole(&mut self, key: &RunKey, up_to: u64) -> Result<Vec<Event>, SourceFault>
        ensures counted { Counts self.old result self.new }

        // What every source ensures, of this one.
        ensures fetched { IfOk result (λ history. S.fetches self.old.0 key.now up_to history.items) }
        ensures runs { CachesNoMore S.caches self.old.0 self.new.0 }
        ensures answers { S.answers self.new.0 ≡ S.answers self.old.0 }
        ensures failures { FailsOnly result (failures_of S.failures self.old) (failures_of S.failures self.new) }
        ensures keeps { KeepsSource S.delivers S.fetches S.comes_from self.old.0 self.new.0 }
    {
        if is_due(&mut self.left) {
            return Err(SourceFault::Source);
        }
        self.inner.whole(key, up_to)
    }

    fn answer_workflow(&mut self, name: TaskName, answer: Answer) -> Result<(), SourceFault>
        ensures counted { Counts self.old result self.new }

        // What every source ensures, of this one.
        ensures sent { OnOk result
            (S.answers self.new.0 ≡ S.answers self.old.0 ++ (name, Sent.Workflow answer) ∷ []) }
        ensures unsent { OnErr result (S.answers self.new.0 ≡ S.answers self.old.0) }
        ensures failures { FailsOnly result (failures_of S.failures self.old) (failures_of S.failures self.new) }
        ensures keeps { KeepsSource S.delivers S.fetches S.comes_from self.old.0 self.new.0 }
    {
        if is_due(&mut self.left) {
            return Err(SourceFault::Source);
        }
        self.inner.answer_workflow(name, answer)
    }

    fn answer_replayed(
        &mut self,
        name: TaskName,
        answer: Answer,
        events: &[Event],
        steps: u64,
    ) -> Acceptance
        ensures counted { Counts self.old result.sent self.new }

        // What every source ensures, of this one.
        ensures sent { OnOk result.sent
            (S.answers self.new.0 ≡ S.answers self.old.0 ++ (name, Sent.Workflow answer) ∷ []) }
        ensures unsent { OnErr result.sent (S.answers self.new.0 ≡ S.answers self.old.0) }
        ensures run { result.run ≡ RunUse.Cache → S.caches self.new.0 name }
        ensures failures { FailsOnly result.sent (failures_of S.failures self.old) (failures_of S.failures self.new) }
        ensures keeps { KeepsSource S.delivers S.fetches S.comes_from self.old.0 self.new.0 }
    {
        if is_due(&mut self.left) {
            return Acceptance {
                sent: Err(SourceFault::Source),
                run: self.inner.without_answer(),
            };
        }
        self.inner.answer_replayed(name, answer, events, steps)
    }

    fn without_answer(&self) -> RunUse {
        self.inner.without_answer()
    }

    fn answer_activity(&mut self, name: TaskName, answer: ActivityAnswer) -> Result<(), SourceFault>
        ensures counted { Counts self.old result self.new }

        // What every source ensures, of this one.
        ensures sent { OnOk result
            (S.answers self.new.0 ≡ S.answers self.old.0 ++ (name, Sent.Activity answer) ∷ []) }
        ensures unsent { OnErr result (S.answers self.new.0 ≡ S.answers self.old.0) }
        ensures failures { FailsOnly result (failures_of S.failures self.old) (failures_of S.failures self.new) }
        ensures keeps { KeepsSource S.delivers S.fetches S.comes_from self.old.0 self.new.0 }
    {
        if is_due(&mut self.left) {
            return Err(SourceFault::Source);
        }
        self.inner.answer_activity(name, answer)
    }
}
