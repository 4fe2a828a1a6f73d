//! What tests of a host need: a source and a handler of activities, which note each call of a worker.

use std::alloc::Global;
use std::fmt::Debug;
use std::process::Abort;
use std::sync::ledger::Ledger;
use std::sync::{Mutex, Wait};
use std::{mem, thread};
use test_support::{Scripted, cut, events_after, key, push, row, shown};
use wh_events::{Event, Items, OutOfMemory, Payload, RunKey};
use wh_host::Host;
use wh_poll::{
    Acceptance, ActivityAnswer, ActivityHandler, ActivityTask, Polled, RunUse, SourceFault,
    TaskSource, WorkflowTask, last_number,
};
use wh_recorded::ScriptSource;
use wh_replay::Answer;
use wh_sample_workflows::All;
use wh_slots::TaskName;
use wh_workflow::{Pair, text_of};

/// A history of a script: the index of its file, its name and its events.
fn file_of(rt: &impl Abort, alloc: Global, line: &'static str) -> (u64, String, Vec<Event>) {
    let (file, history) = row(line).expect(rt, line);
    let (index, name) = file.split_once(' ').expect(rt, line);
    (
        index.parse::<u64>().expect(rt, index),
        String::from_str(alloc, name).expect(rt, "memory"),
        events_after(alloc, history, 0).expect(rt, history),
    )
}

/// A source of histories, separated by commas.
pub(crate) fn script(rt: &impl Abort, alloc: Global, table: &'static str) -> ScriptSource {
    let mut histories = Vec::new(alloc);
    for line in table.split(", ") {
        push(&mut histories, file_of(rt, alloc, line)).expect(rt, "memory");
    }
    ScriptSource::new(alloc, histories).expect(rt, "memory")
}

/// The workflows of a host: the samples, and the one that signals control.
pub(crate) type Workflows = Pair<All, Scripted>;

/// Notes calls. It takes the host's lock at each call, so that a call that is made under the lock
/// waits forever.
#[derive(Drop)]
pub(crate) struct Notebook<'r, 'h, R: Wait + Abort, T: Ledger, C: Ledger, F: Ledger> {
    pub(crate) rt: &'r R,
    pub(crate) alloc: Global,
    pub(crate) host: &'h Host<Workflows, T, C, F>,
    /// What follows answers, each after the answer: a call is awaited, a run is evicted, the host
    /// drains, or the run of the task is discarded.
    deeds: &'static str,
    calls: Mutex<String>,
}

impl<'r, 'h, R: Wait + Abort, T: Ledger, C: Ledger, F: Ledger> Notebook<'r, 'h, R, T, C, F> {
    /// Returns notes without a call.
    pub(crate) fn new(
        rt: &'r R,
        alloc: Global,
        host: &'h Host<Workflows, T, C, F>,
        deeds: &'static str,
    ) -> Self {
        Notebook {
            rt,
            alloc,
            host,
            deeds,
            calls: Mutex::new(String::new(alloc)),
        }
    }

    /// Notes a call.
    fn note(&self, call: &str) {
        drop(self.host.lock(self.rt));
        let noted = self.calls.lock(self.rt).push_str(call);
        noted.expect(self.rt, "memory");
    }

    /// Notes the answer to a task.
    fn note_answer<A: Debug>(&self, name: TaskName, answer: &A) {
        let answer = shown(self.alloc, answer).expect(self.rt, "memory");
        let call = format!(in self.alloc; "answer {} {answer}, ", name.0);
        self.note(call.expect(self.rt, "memory").as_str());
    }

    /// Returns the calls since this was last called.
    pub(crate) fn calls(&self) -> String {
        let mut calls = self.calls.lock(self.rt);
        mem::replace(&mut *calls, String::new(self.alloc))
    }

    /// Returns whether a call was noted.
    fn is_noted(&self, call: &str) -> bool {
        self.calls.lock(self.rt).as_str().contains(call)
    }

    /// Waits until the answer to a task is noted, and checks at most ten million times. Each check
    /// takes the lock of the notes.
    fn await_call(&self, call: &str) {
        let call = format!(in self.alloc; "{call} ").expect(self.rt, "memory");
        for _look in 0..10_000_000 {
            if self.is_noted(call.as_str()) {
                return;
            }
            thread::yield_now();
        }
        self.rt.panic(call.as_str())
    }

    /// Evicts the run of this name.
    fn evict(&self, run: &str) {
        let key = key(self.alloc, run).expect(self.rt, "memory");
        let answer = self.host.lock(self.rt).evict(&key);
        let call = format!(in self.alloc; "evict {run} {answer:?}, ").expect(self.rt, "memory");
        self.note(call.as_str());
    }

    /// Returns the use of a run: it is cached, unless there is this deed.
    fn run_use(&self, deed: &str) -> RunUse {
        if self.deeds.contains(deed) {
            RunUse::Discard
        } else {
            RunUse::Cache
        }
    }

    /// Returns the use of the run of a task. If it is discarded, that is noted, with the numbers of
    /// its events and of its steps.
    fn run_after(&self, name: TaskName, events: usize, steps: u64) -> RunUse {
        let deed = format!(in self.alloc; "answer {}, discard", name.0).expect(self.rt, "memory");
        let run = self.run_use(deed.as_str());
        if run == RunUse::Discard {
            let call = format!(in self.alloc; "discard {events} after {steps}, ");
            self.note(call.expect(self.rt, "memory").as_str());
        }
        run
    }

    /// Does a deed: waits for a call, evicts a run, or drains the host. To discard a run is none.
    fn act(&self, deed: &str) {
        match deed.split_once(' ') {
            Some(("await", call)) => self.await_call(call),
            Some(("evict", run)) => self.evict(run),
            _ => {
                if deed == "drain" {
                    self.host.lock(self.rt).drain();
                }
            }
        }
    }

    /// Does what follows the answer to a task.
    fn act_after(&self, name: TaskName) {
        let answer = format!(in self.alloc; "answer {}, ", name.0).expect(self.rt, "memory");
        for deed in self.deeds.split("; ") {
            if let Some(deed) = deed.strip_prefix(answer.as_str()) {
                self.act(deed);
            }
        }
    }
}

/// A source that notes its calls, and stores the answers that it is sent. Its polls return what
/// their words say: `nothing`, `closed`, a workflow task by the name of its run and the history of
/// its events, or an activity task by its name. Without a word, or for `next`, a poll returns what
/// that of the script returns, and so it does for `whole`.
#[derive(Drop)]
pub(crate) struct NotedSource<'b, 'r, 'h, R: Wait + Abort, T: Ledger, C: Ledger, F: Ledger> {
    pub(crate) book: &'b Notebook<'r, 'h, R, T, C, F>,
    pub(crate) script: ScriptSource,
    /// The words of the polls of workflow tasks.
    pub(crate) workflow_polls: &'static str,
    /// The words of the polls of activity tasks.
    pub(crate) activity_polls: &'static str,
}

/// The workflow task of a word. Its name is the number of its last event.
fn workflow_task(rt: &impl Abort, alloc: Global, word: &'static str) -> WorkflowTask {
    let (run, history) = word.split_once(' ').expect(rt, word);
    let events = events_after(alloc, history, 0).expect(rt, history);
    WorkflowTask {
        name: TaskName(u128::from(last_number(events.as_slice()))),
        run: key(alloc, run).expect(rt, "memory"),
        events: Items::new(events),
    }
}

/// A list of one payload.
fn one_payload(rt: &impl Abort, alloc: Global) -> Items<Payload> {
    let payload = Payload {
        encoding: Items::new(Vec::new(alloc)),
        content: Items::new(vec![in alloc; 112].expect(rt, "memory")),
    };
    Items::new(vec![in alloc; payload].expect(rt, "memory"))
}

/// The activity task of a word: to greet, with one payload.
pub(crate) fn activity_task(rt: &impl Abort, alloc: Global, word: &'static str) -> ActivityTask {
    ActivityTask {
        name: TaskName(u128::from(word.parse::<u64>().expect(rt, word))),
        run: key(alloc, "w").expect(rt, "memory"),
        id: text_of(alloc, "1").expect(rt, "memory"),
        activity: text_of(alloc, "greet").expect(rt, "memory"),
        input: one_payload(rt, alloc),
    }
}

impl<'b, 'r, 'h, R: Wait + Abort, T: Ledger, C: Ledger, F: Ledger> TaskSource
    for NotedSource<'b, 'r, 'h, R, T, C, F> {
    ghost answers = { λ source. source.script.answers };

    ghost failures = { λ source. 0 };

    ghost delivers = { λ source task. Unit {0} };

    ghost fetches = { λ source key up_to history. Unit {0} };

    ghost comes_from = { λ later first. Unit {0} };

    ghost caches = { λ source name. Unit {0} };

    fn poll_workflow(&mut self) -> Result<Polled<WorkflowTask>, SourceFault> {
        self.book.note("poll, ");
        match cut(&mut self.workflow_polls, "; ") {
            "" | "next" => self.script.poll_workflow(),
            "nothing" => Ok(Polled::Nothing),
            "closed" => Ok(Polled::Closed),
            word => Ok(Polled::Task(workflow_task(self.book.rt, self.book.alloc, word))),
        }
    }

    fn poll_activity(&mut self) -> Result<Polled<ActivityTask>, SourceFault> {
        self.book.note("poll activities, ");
        match cut(&mut self.activity_polls, "; ") {
            "" | "next" => self.script.poll_activity(),
            "nothing" => Ok(Polled::Nothing),
            "closed" => Ok(Polled::Closed),
            word => Ok(Polled::Task(activity_task(self.book.rt, self.book.alloc, word))),
        }
    }

    fn whole(&mut self, key: &RunKey, up_to: u64) -> Result<Vec<Event>, SourceFault> {
        let run = key.workflow_id.get();
        let call = format!(in self.book.alloc; "whole {run} {up_to}, ");
        self.book.note(call.expect(self.book.rt, "memory").as_str());
        self.script.whole(key, up_to)
    }

    fn answer_workflow(&mut self, name: TaskName, answer: Answer) -> Result<(), SourceFault> {
        self.book.note_answer(name, &answer);
        self.book.act_after(name);
        self.script.answer_workflow(name, answer)
    }

    fn answer_replayed(
        &mut self,
        name: TaskName,
        answer: Answer,
        events: &[Event],
        steps: u64,
    ) -> Acceptance {
        let sent = self.answer_workflow(name, answer);
        let run = self.book.run_after(name, events.len(), steps);
        Acceptance { sent, run }
    }

    fn without_answer(&self) -> RunUse {
        self.book.run_use("no answer, discard")
    }

    fn answer_activity(
        &mut self,
        name: TaskName,
        answer: ActivityAnswer,
    ) -> Result<(), SourceFault> {
        self.book.note_answer(name, &answer);
        self.script.answer_activity(name, answer)
    }
}

/// Completes each activity with its input, and notes that it ran.
#[derive(Drop)]
pub(crate) struct Echo<'b, 'r, 'h, R: Wait + Abort, T: Ledger, C: Ledger, F: Ledger> {
    pub(crate) book: &'b Notebook<'r, 'h, R, T, C, F>,
}

impl<'b, 'r, 'h, R: Wait + Abort, T: Ledger, C: Ledger, F: Ledger> ActivityHandler
    for Echo<'b, 'r, 'h, R, T, C, F> {
    ghost use Rattle.std.specs.Prelude.{◌≡◌};
    ghost use Rattle.wh_tasks.specs.declared.source.ActivityAnswer.TheVariants.{Completed};

    ghost may = { λ handler task answer. answer ≡ Completed task.input };

    fn run(&mut self, task: &ActivityTask) -> Result<ActivityAnswer, OutOfMemory> {
        self.book.note("run, ");
        Ok(ActivityAnswer::Completed(task.input.try_copy()?))
    }
}
