//! A source that delivers the tasks of recorded histories.
ghost use Rattle.std.specs.Prelude.{◌≡◌, ◌<◌, ◌≤◌, ◌+◌, ◌-◌, get_or, length, map, take, drop};
ghost use Rattle.std.specs.Prelude.{◌++◌, ◌∷◌, [], option_map, IfOk, IfErr, IfSome, OnOk, OnErr};
ghost use Rattle.wh_recorded.specs.Rounds.{scripted, opening_stage, with_answer, ends_of, tasks_in};
ghost use Rattle.wh_recorded.specs.Rounds.{begin_at, events_of, task_of, key_of, events_up_to, first_named};
ghost use Rattle.wh_recorded.specs.Rounds.{first_tasks, completed_of, tally_of, deliveries_of, first_with};
ghost use Rattle.wh_recorded.specs.Rounds.{polled_at, failed_of, failed_in, is_last_recorded, has_last_record};
ghost use Rattle.wh_recorded.specs.Rounds.{upcoming, told, Gives, Recounts, Polls};
ghost use Rattle.wh_recorded.specs.Calls.{ComesFrom};
ghost use Rattle.wh_tasks.specs.Numbers.{last_number};
ghost use Rattle.wh_tasks.specs.Source.{Delivery, FailsOnly, IfTask, KeepsOrigin, KeepsSource};
ghost use Rattle.wh_tasks.specs.declared.source.Polled.{Polled};
ghost use Rattle.wh_tasks.specs.declared.source.RunUse.{RunUse};
ghost use Rattle.wh_tasks.specs.declared.source.Sent.{Sent};
ghost use Rattle.wh_tasks.specs.declared.source.SourceFault.{SourceFault};

use crate::failed_task::FailedTask;
use crate::sent_answers::SentAnswers;
use std::alloc::Global;
use std::marker::Model;
use wh_events::{Event, EventKind, Items, OutOfMemory, RunKey, Text};
use wh_replay::Answer;
use wh_slots::TaskName;
use wh_tasks::{
    Acceptance, ActivityAnswer, ActivityTask, Polled, RunUse, Sent, SourceFault, TaskSource,
    WorkflowTask, last_number,
};

/// The run id of each history's key.
const RUN_ID: &str = "recorded";

/// How many names there are for the tasks of one file.
const TOKENS: u128 = 0x1_0000_0000_0000_0000;

/// A history and the ends of its tasks.
#[derive(Drop)]
struct ScriptedHistory {
    index: u64,
    name: String,
    events: Vec<Event>,
    ends: Vec<usize>,
}

impl Model for ScriptedHistory {
    ghost use Rattle.std.specs.Prelude.{◌≡◌, string_bytes};
    ghost use Rattle.wh_recorded.specs.Rounds.{Scripted, ends_of};

    ghost Value = { Scripted };

    ghost view = { λ h. record { index = h.index; name = string_bytes h.name; events = h.events.items } };

    ghost invariant = { λ h. h.ends.items ≡ ends_of h.events.items };
}

/// Returns, for each event that starts a workflow task, the number of events up to it.
fn find_ends(alloc: Global, events: &[Event]) -> Result<Vec<usize>, OutOfMemory>
    ensures { IfOk result (λ ends. ends.items ≡ ends_of events.now) }
{
    let mut ends = Vec::new(alloc);
    for (place, event) in events.iter().enumerate() {
        if matches!(event.body, EventKind::WorkflowTaskStarted) {
            ends.push(place + 1)?;
        }
    }
    Ok(ends)
}

/// Adds a copy of the event to the copies.
fn push_copy(copies: &mut Vec<Event>, event: &Event) -> Result<(), OutOfMemory>
    ensures { OnOk result (copies.new.items ≡ copies.old.items ++ event.now ∷ []) }
{
    copies.push(event.try_copy()?)?;
    Ok(())
}

/// Copies the events after the first `begin` of them, up to `end`.
fn copy_between(
    alloc: Global,
    events: &[Event],
    begin: usize,
    end: usize,
) -> Result<Vec<Event>, OutOfMemory>
    ensures { IfOk result (λ copies. copies.items ≡ take (end - begin) (drop begin events.now)) }
{
    let stop = end.min(events.len());
    let mut copies = Vec::new(alloc);
    for place in begin..stop {
        push_copy(&mut copies, &events[place])?;
    }
    Ok(copies)
}

/// Returns the number of the last of the events after the first `begin` of them, up to `end`.
fn last_between(events: &[Event], begin: usize, end: usize) -> u64
    requires begins { begin ≤ end }
    requires ends { end ≤ length events.now }
    ensures { result ≡ last_number (take (end - begin) (drop begin events.now)) }
{
    last_number(&events[begin..end])
}

/// Copies the events up to a number.
fn copy_up_to(alloc: Global, events: &[Event], up_to: u64) -> Result<Vec<Event>, OutOfMemory>
    ensures { IfOk result (λ copies. copies.items ≡ events_up_to up_to events.now) }
{
    let mut copies = Vec::new(alloc);
    for event in events {
        if up_to < event.number.get() {
            return Ok(copies);
        }
        push_copy(&mut copies, event)?;
    }
    Ok(copies)
}

/// Returns the key of a history of this name.
fn key_of(alloc: Global, name: &str) -> Result<RunKey, OutOfMemory>
    ensures { IfOk result (λ key. key ≡ key_of name.now) }
{
    Ok(RunKey {
        workflow_id: Text::new(String::from_str(alloc, name)?),
        run_id: Text::new(String::from_str(alloc, RUN_ID)?),
    })
}

impl ScriptedHistory {
    /// Returns the history, with the ends of its tasks.
    fn new(
        alloc: Global,
        index: u64,
        name: String,
        events: Vec<Event>,
    ) -> Result<ScriptedHistory, OutOfMemory>
        ensures { IfOk result (λ history. history ≡ scripted (index, name, events)) }
    {
        let ends = find_ends(alloc, events.as_slice())?;
        Ok(ScriptedHistory {
            index,
            name,
            events,
            ends,
        })
    }

    /// Counts its tasks.
    fn tasks(&self) -> usize
        ensures { result ≡ tasks_in self.now }
    {
        self.ends.len()
    }

    /// Counts the events before the events of task `n`, counted from 0.
    fn begin(&self, n: usize) -> usize
        requires { n < tasks_in self.now }
        ensures { result ≡ begin_at (ends_of self.now.events) n }
    {
        if n == 0 { 0 } else { self.ends[n - 1] }
    }

    /// Returns the number of the event that starts task `n`, counted from 0.
    fn number_of(&self, n: usize) -> u64
        requires { n < tasks_in self.now }
        ensures { result ≡ last_number (events_of self.now.events n) }
    {
        last_between(self.events.as_slice(), self.begin(n), self.ends[n])
    }

    /// Returns the name of task `n`, counted from 0.
    fn name_of(&self, n: usize) -> TaskName
        requires { n < tasks_in self.now }
        ensures { result ≡ (task_of self.now n).name }
    {
        TaskName(u128::from(self.index) * TOKENS + u128::from(self.number_of(n)))
    }

    /// Returns task `n`, counted from 0.
    fn task(&self, alloc: Global, n: usize) -> Result<WorkflowTask, OutOfMemory>
        requires { n < tasks_in self.now }
        ensures { IfOk result (λ task. task ≡ task_of self.now n) }
    {
        let events = copy_between(alloc, self.events.as_slice(), self.begin(n), self.ends[n])?;
        Ok(WorkflowTask {
            name: self.name_of(n),
            run: key_of(alloc, self.name.as_str())?,
            events: Items::new(events),
        })
    }

    /// Counts those of its first `n` tasks that an answer completes.
    fn count_completed(&self, n: usize, answers: &SentAnswers) -> u64
        requires { n ≤ tasks_in self.now }
        ensures { result ≡ completed_of answers.now (first_tasks self.now n) }
    {
        let mut completed = 0;
        for task in 0..n {
            if answers.is_completed(self.name_of(task)) {
                completed += 1;
            }
        }
        completed
    }

    /// Lists those of its first `n` tasks that no answer completes.
    fn failed_tasks(
        &self,
        alloc: Global,
        n: usize,
        answers: &SentAnswers,
    ) -> Result<Vec<FailedTask>, OutOfMemory>
        requires { n ≤ tasks_in self.now }
        ensures { IfOk result (λ failed. failed.items ≡ failed_of answers.now (first_tasks self.now n)) }
    {
        let mut failed = Vec::new(alloc);
        for task in 0..n {
            let name = self.name_of(task);
            if !answers.is_completed(name) {
                failed.push(FailedTask {
                    at: self.number_of(task),
                    fault: answers.fault_under(name),
                })?;
            }
        }
        Ok(failed)
    }

    /// Whether the history completes its last task.
    fn is_last_recorded(&self) -> bool
        ensures { result ≡ is_last_recorded self.now }
    {
        let tasks = self.tasks();
        if tasks == 0 {
            return false;
        }
        for place in self.ends[tasks - 1]..self.events.len() {
            if matches!(self.events[place].body, EventKind::WorkflowTaskCompleted) {
                return true;
            }
        }
        false
    }
}

/// Returns the first history of the name, and its place.
fn find_named<'a>(
    histories: &'a [ScriptedHistory],
    name: &str,
) -> Option<(usize, &'a ScriptedHistory)>
    ensures { option_map (λ found. (found.0, found.1.now)) result ≡ first_named 0 name.now histories.now }
{
    for (place, history) in histories.iter().enumerate() {
        if history.name.as_str() == name {
            return Some((place, history));
        }
    }
    None
}

/// Returns the place of the first history, from a place on, that has a task `n`, counted from 0.
fn find_task(histories: &[ScriptedHistory], from: usize, n: usize) -> Option<usize>
    ensures first { result ≡ first_with from n (drop from histories.now) }
    ensures within { IfSome result (λ place. place < length histories.now) }
    ensures has { IfSome result (λ place. (other : _) → n < tasks_in (get_or histories.now place other)) }
{
    for place in from..histories.len() {
        if n < histories[place].tasks() {
            return Some(place);
        }
    }
    None
}

/// Returns the round after round `n`, counted from 0, and the place of the first history that has a
/// task in it, if there is one.
fn find_later(histories: &[ScriptedHistory], n: usize) -> Option<(usize, usize)>
    ensures exact { result ≡ option_map (λ place. (n + 1, place)) (first_with 0 (n + 1) histories.now) }
    ensures within { IfSome result (λ found. found.1 < length histories.now) }
    ensures has { IfSome result (λ found. (other : _) →
        found.0 < tasks_in (get_or histories.now found.1 other)) }
{
    for place in 0..histories.len() {
        if n < histories[place].tasks().saturating_sub(1) {
            return Some((n + 1, place));
        }
    }
    None
}

/// A source over recorded histories, which delivers their workflow tasks round by round and stores
/// the answers that it is sent.
///
/// A history has a task for each of its `WorkflowTaskStarted` events, failed and timed-out tasks
/// too. The first round delivers the first task of each history in their order, the second round
/// the second task of each history that has one, and so on. After the last task the source is
/// closed. The first task of a history has the events from the first up to the started event, a
/// later one those since the task before. The key of a task is the history's name with the run id
/// `recorded`. Its name is the file's index times 2^64 plus the number of the started event. There
/// are no activity tasks.
///
/// `whole` returns the events of the first history of the key's name up to the number, and none if
/// no history has the name or the key has another run id. No call fails unless memory runs out.
#[derive(Drop)]
pub struct ScriptSource {
    alloc: Global,
    histories: Vec<ScriptedHistory>,
    round: usize,
    next: usize,
    answers: SentAnswers,
}

impl Model for ScriptSource {
    ghost use Rattle.wh_recorded.specs.Rounds.{Stage};

    ghost Value = { Stage };

    ghost view = { λ s. record {
      histories = s.histories.items;
      round = s.round;
      next = s.next;
      answers = s.answers;
    } };
}

impl ScriptSource {
    /// Returns a source over histories, each with the index of its file and its name. Returns
    /// `OutOfMemory` if there was no memory for the places of their tasks. The histories are
    /// dropped then.
    pub fn new(
        alloc: Global,
        histories: Vec<(u64, String, Vec<Event>)>,
    ) -> Result<ScriptSource, OutOfMemory>
        ensures { IfOk result (λ source. source ≡ opening_stage (map scripted histories.items)) }
    {
        let mut scripted = Vec::new(alloc);
        for history in histories {
            let (index, name, events) = history;
            scripted.push(ScriptedHistory::new(alloc, index, name, events)?)?;
        }
        Ok(ScriptSource::beginning(alloc, scripted))
    }

    /// Returns a source over histories before any task was polled.
    fn beginning(alloc: Global, histories: Vec<ScriptedHistory>) -> ScriptSource
        ensures { result ≡ opening_stage histories.items }
    {
        ScriptSource {
            alloc,
            histories,
            round: 0,
            next: 0,
            answers: SentAnswers::new(alloc),
        }
    }

    /// Counts the tasks of all histories together, polled or not. Stops at 2^64 - 1.
    pub fn deliveries(&self) -> u64
        ensures { result ≡ deliveries_of self.now.histories }
    {
        let mut deliveries: u64 = 0;
        for history in &self.histories {
            deliveries = deliveries.saturating_add(history.tasks() as u64);
        }
        deliveries
    }

    /// Counts the polled tasks of the history at a place.
    fn polled_count(&self, place: usize, history: &ScriptedHistory) -> usize
        ensures exact { result ≡ polled_at self.now place history.now }
        ensures within { result ≤ tasks_in history.now }
    {
        let rounds = if place < self.next {
            self.round.saturating_add(1)
        } else {
            self.round
        };
        rounds.min(history.tasks())
    }

    /// Returns, for the first history of the name, how many of its tasks were polled, how many of
    /// these an answer completes, and how many no answer completes. Returns `None` if no history
    /// has the name.
    pub fn tally(&self, name: &str) -> Option<(u64, u64, u64)>
        ensures { result ≡ tally_of self.now name.now }
    {
        let (place, history) = find_named(self.histories.as_slice(), name)?;
        let tasks = self.polled_count(place, history);
        let completed = history.count_completed(tasks, &self.answers);
        Some((
            tasks as u64,
            completed,
            (tasks as u64).saturating_sub(completed),
        ))
    }

    /// Lists those polled tasks of the first history of the name that no answer completes, in their
    /// order, as many as `tally` counts. The list is empty if no history has the name. Returns
    /// `OutOfMemory` if there was no memory for the list.
    pub fn failed_tasks(&self, name: &str) -> Result<Vec<FailedTask>, OutOfMemory>
        ensures { IfOk result (λ failed. failed.items ≡ failed_in self.now name.now) }
    {
        let Some((place, history)) = find_named(self.histories.as_slice(), name) else {
            return Ok(Vec::new(self.alloc));
        };
        let tasks = self.polled_count(place, history);
        history.failed_tasks(self.alloc, tasks, &self.answers)
    }

    /// Whether one of the histories completes its last task, so that this task has a record.
    pub fn has_last_record(&self) -> bool
        ensures { result ≡ has_last_record self.now }
    {
        self.histories
            .iter()
            .any(|history| history.is_last_recorded())
    }

    /// Returns the answers that the source was sent, each with the name of its task, in the order
    /// in which they came.
    pub fn answers(&self) -> &[(TaskName, Sent)]
        ensures { result.now ≡ self.now.answers }
    {
        self.answers.as_slice()
    }

    /// Returns the round of the next task and the place of its history, if a task is left.
    fn next_place(&self) -> Option<(usize, usize)>
        ensures exact { result ≡ upcoming self.now }
        ensures within { IfSome result (λ found. found.1 < length self.now.histories) }
        ensures has { IfSome result (λ found. (other : _) →
            found.0 < tasks_in (get_or self.now.histories found.1 other)) }
    {
        let histories = self.histories.as_slice();
        if let Some(place) = find_task(histories, self.next, self.round) {
            return Some((self.round, place));
        }
        find_later(histories, self.round)
    }
}

impl TaskSource for ScriptSource {
    ghost use Rattle.wh_recorded.specs.Rounds.{Gives, Recounts};
    ghost use Rattle.wh_recorded.specs.Calls.{ComesFrom};

    ghost answers = { λ source. source.answers };

    ghost failures = { λ source. 0 };

    ghost delivers = { λ source. Gives source.histories };

    ghost fetches = { λ source. Recounts source.histories };

    ghost comes_from = { ComesFrom };

    // Its histories are recorded: they go on as they are, whatever is answered.
    ghost caches = { λ source name. Unit {0} };

    fn poll_workflow(&mut self) -> Result<Polled<WorkflowTask>, SourceFault>
        ensures next { IfOk result (λ polled. Polls self.old polled self.new) }
        ensures memory { IfErr result (λ fault. fault ≡ SourceFault.OutOfMemory) }
        ensures kept { OnErr result (self.new ≡ self.old) }

        // What every source ensures, of this one.
        ensures task { IfOk result (IfTask (λ task. Gives self.old.histories (Delivery.Workflow task))) }
        ensures answers { self.new.answers ≡ self.old.answers }
        ensures failures { FailsOnly result 0 0 }
        ensures keeps { KeepsSource (λ source. Gives source.histories) (λ source. Recounts source.histories)
            ComesFrom self.old self.new }
    {
        let Some((round, place)) = self.next_place() else {
            return Ok(Polled::Closed);
        };
        let Ok(task) = self.histories[place].task(self.alloc, round) else {
            return Err(SourceFault::OutOfMemory);
        };
        self.round = round;
        self.next = place + 1;
        Ok(Polled::Task(task))
    }

    fn poll_activity(&mut self) -> Result<Polled<ActivityTask>, SourceFault>
        ensures closed { result ≡ Ok Polled.Closed }
        ensures same { self.new ≡ self.old }
    {
        Ok(Polled::Closed)
    }

    fn whole(&mut self, key: &RunKey, up_to: u64) -> Result<Vec<Event>, SourceFault>
        ensures fetched { IfOk result (λ history. history.items ≡ told self.old.histories key.now up_to) }
        ensures memory { IfErr result (λ fault. fault ≡ SourceFault.OutOfMemory) }
        ensures same { self.new ≡ self.old }
    {
        if key.run_id.get() != RUN_ID {
            return Ok(Vec::new(self.alloc));
        }
        let Some((_, history)) = find_named(self.histories.as_slice(), key.workflow_id.get()) else {
            return Ok(Vec::new(self.alloc));
        };
        match copy_up_to(self.alloc, history.events.as_slice(), up_to) {
            Ok(copies) => Ok(copies),
            Err(_) => Err(SourceFault::OutOfMemory),
        }
    }

    fn answer_workflow(&mut self, name: TaskName, answer: Answer) -> Result<(), SourceFault>
        ensures stored { OnOk result (self.new ≡ with_answer self.old name (Sent.Workflow answer)) }
        ensures memory { IfErr result (λ fault. fault ≡ SourceFault.OutOfMemory) }
        ensures kept { OnErr result (self.new ≡ self.old) }
        ensures origin { KeepsOrigin ComesFrom self.old self.new }
    {
        self.answers.store(name, Sent::Workflow(answer))
    }

    fn answer_replayed(
        &mut self,
        name: TaskName,
        answer: Answer,
        _events: &[Event],
        _steps: u64,
    ) -> Acceptance {
        Acceptance {
            sent: self.answer_workflow(name, answer),
            run: RunUse::Cache,
        }
    }

    fn without_answer(&self) -> RunUse
        ensures { result ≡ RunUse.Cache }
    {
        RunUse::Cache
    }

    fn answer_activity(&mut self, name: TaskName, answer: ActivityAnswer) -> Result<(), SourceFault>
        ensures stored { OnOk result (self.new ≡ with_answer self.old name (Sent.Activity answer)) }
        ensures memory { IfErr result (λ fault. fault ≡ SourceFault.OutOfMemory) }
        ensures kept { OnErr result (self.new ≡ self.old) }
        ensures origin { KeepsOrigin ComesFrom self.old self.new }
    {
        self.answers.store(name, Sent::Activity(answer))
    }
}
