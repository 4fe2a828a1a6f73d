//! Replay of one workflow task.
ghost use Rattle.std.specs.Prelude.{◌≡◌, ◌≤◌, false, true, Some, None, Err, IfOk, IfErr, IfSome};
ghost use Rattle.std.specs.Prelude.{OnErr};
ghost use Rattle.wh_replay.specs.Replays.{ends_in_task};
ghost use Rattle.wh_tasks.specs.Source.{KeepsSource};
ghost use Rattle.wh_replay.specs.Runs.{follows, steps};
ghost use Rattle.wh_tasks.specs.Numbers.{last_number};
ghost use Rattle.wh_tasks.specs.Tasks.{basis_of, later_basis, NeedsMemory, AsksSource, StepsFrom, Steps};
ghost use Rattle.wh_tasks.specs.Tasks.{Replays, ReplaysFetched, HasAnswer, FailsOnlySource};
ghost use Rattle.wh_tasks.specs.declared.source.SourceFault.{SourceFault};

use crate::source::{SourceFault, TaskSource};
use std::alloc::Global;
use wh_events::{Event, OutOfMemory, RunKey};
use wh_replay::{AdvanceFault, Fault, Run, RunFault, ends_in_task};
use wh_workflow::{Meter, Workflow};

/// The result of replaying a workflow task: a run or a fault. The answer is `Fail` of the fault,
/// else the run's commands.
#[derive(Drop)]
pub struct Stepped<W: Workflow> {
    /// The run that may be cached. Without a fault it holds the history that the task was replayed
    /// from. After `NotATask` it is the run that was passed in, if there was one, as it was. After
    /// any other fault there is none.
    pub run: Option<Run<W>>,
    /// Why the task is answered with `Fail`.
    pub fault: Option<Fault>,
    /// Whether the run that was passed in was used.
    pub hit: bool,
}

/// Why a task got no answer.
#[derive(Clone, Copy, PartialEq, Eq, Debug)]
pub enum StepFault {
    /// A call of the source failed.
    Source(SourceFault),
    /// There was no memory.
    OutOfMemory,
}

impl From<OutOfMemory> for StepFault {
    ghost use Rattle.std.specs.Prelude.{◌≡◌};
    ghost use Rattle.wh_tasks.specs.declared.task.StepFault.TheVariants.{OutOfMemory as NoMemory};

    ghost from_gives = { λ error fault. fault ≡ NoMemory };

    fn from(_error: OutOfMemory) -> StepFault {
        StepFault::OutOfMemory
    }
}

/// Replays a workflow task from its run, if one was cached, and its events, by the first case that
/// applies:
///
/// 1. If the events begin with the first of the history, they are replayed alone, and the run is
///    dropped.
/// 2. If there are no events, or if there is a run and the events do not end in a started task, the
///    fault is `NotATask`. The run comes back, and nothing is fetched.
/// 3. If there is a run and the events begin right after those that it holds, the run is advanced
///    by them. This is a hit.
/// 4. Else the whole history up to the last event is fetched from the source and replayed from the
///    first event. The run is dropped.
///
/// The meter rises by the steps of replay, in the third case only by those of the new tasks if the
/// events confirm the run. Returns `Source` if fetching failed, and `OutOfMemory` if there was no
/// memory. The run is dropped then, and there is nothing to send. Events that do not end in a
/// started task need no memory, unless a history is fetched. (Temporal documentation, "Sticky
/// Execution": a Worker without a cached run fetches the full history.)
pub fn replay_task<W: Workflow, S: TaskSource>(
    alloc: Global,
    run: Option<Run<W>>,
    key: &RunKey,
    events: Vec<Event>,
    source: &mut S,
    meter: &mut Meter,
) -> Result<Stepped<W>, StepFault>
    requires { IfSome run (λ run. run.key ≡ key.now) }
    ensures stepped { IfOk result (λ stepped. Steps W.program (S.fetches source.old) run key.now events.items
        stepped.run stepped.fault stepped.hit meter.old meter.new) }
    ensures key { IfOk result (λ stepped. IfSome stepped.run (λ run. run.key ≡ key.now)) }
    ensures one { IfOk result (λ stepped. HasAnswer stepped.run stepped.fault) }
    ensures never_lowered { meter.old ≤ meter.new }
    ensures answers { S.answers source.new ≡ S.answers source.old }
    ensures failures { FailsOnlySource result (S.failures source.old) (S.failures source.new) }
    ensures memory { result ≡ Err StepFault.OutOfMemory → NeedsMemory (basis_of run events.items) events.items }
    ensures asked { (fault : SourceFault) → result ≡ Err (StepFault.Source fault) →
        AsksSource (basis_of run events.items) }
    ensures keeps { KeepsSource S.delivers S.fetches S.comes_from source.old source.new }
{
    if is_whole(events.as_slice()) {
        drop(run);
        return replay_first(alloc, key, events, meter);
    }
    match run {
        Some(run) => replay_held(alloc, run, key, events, source, meter),
        None => replay_unheld(alloc, key, events.as_slice(), source, meter),
    }
}

/// Replays events that do not begin with the first of a history, with a cached run.
fn replay_held<W: Workflow, S: TaskSource>(
    alloc: Global,
    run: Run<W>,
    key: &RunKey,
    events: Vec<Event>,
    source: &mut S,
    meter: &mut Meter,
) -> Result<Stepped<W>, StepFault>
    requires { run.key ≡ key.now }
    ensures stepped { IfOk result (λ stepped.
        StepsFrom W.program (later_basis (Some run) events.items) (S.fetches source.old) (Some run) key.now events.items
        stepped.run stepped.fault stepped.hit meter.old meter.new) }
    ensures key { IfOk result (λ stepped. IfSome stepped.run (λ run. run.key ≡ key.now)) }
    ensures one { IfOk result (λ stepped. HasAnswer stepped.run stepped.fault) }
    ensures never_lowered { meter.old ≤ meter.new }
    ensures answers { S.answers source.new ≡ S.answers source.old }
    ensures failures { FailsOnlySource result (S.failures source.old) (S.failures source.new) }
    ensures keeps { KeepsSource S.delivers S.fetches S.comes_from source.old source.new }
    ensures memory { result ≡ Err StepFault.OutOfMemory →
        NeedsMemory (later_basis (Some run) events.items) events.items }
    ensures asked { (fault : SourceFault) → result ≡ Err (StepFault.Source fault) →
        AsksSource (later_basis (Some run) events.items) }
{
    let up_to = last_number(events.as_slice());
    match run.advance(alloc, events, meter) {
        Ok(run) => Ok(Stepped {
            run: Some(run),
            fault: None,
            hit: true,
        }),
        Err(AdvanceFault::NotATask(run)) => Ok(Stepped {
            run: Some(run),
            fault: Some(Fault::NotATask),
            hit: true,
        }),
        Err(AdvanceFault::Gap(_run)) => replay_fetched(alloc, key, up_to, source, meter),
        Err(AdvanceFault::Fault(fault)) => Ok(Stepped {
            run: None,
            fault: Some(fault),
            hit: true,
        }),
        Err(AdvanceFault::OutOfMemory) => Err(StepFault::OutOfMemory),
    }
}

/// Replays events that do not begin with the first of a history, without a cached run.
fn replay_unheld<W: Workflow, S: TaskSource>(
    alloc: Global,
    key: &RunKey,
    events: &[Event],
    source: &mut S,
    meter: &mut Meter,
) -> Result<Stepped<W>, StepFault>
    ensures stepped { IfOk result (λ stepped.
        StepsFrom W.program (later_basis None events.now) (S.fetches source.old) None key.now events.now
        stepped.run stepped.fault stepped.hit meter.old meter.new) }
    ensures key { IfOk result (λ stepped. IfSome stepped.run (λ run. run.key ≡ key.now)) }
    ensures one { IfOk result (λ stepped. HasAnswer stepped.run stepped.fault) }
    ensures never_lowered { meter.old ≤ meter.new }
    ensures answers { S.answers source.new ≡ S.answers source.old }
    ensures failures { FailsOnlySource result (S.failures source.old) (S.failures source.new) }
    ensures keeps { KeepsSource S.delivers S.fetches S.comes_from source.old source.new }
    ensures memory { result ≡ Err StepFault.OutOfMemory → NeedsMemory (later_basis None events.now) events.now }
    ensures asked { (fault : SourceFault) → result ≡ Err (StepFault.Source fault) →
        AsksSource (later_basis None events.now) }
{
    if events.is_empty() {
        return Ok(Stepped {
            run: None,
            fault: Some(Fault::NotATask),
            hit: false,
        });
    }
    replay_fetched(alloc, key, last_number(events), source, meter)
}

/// Replays a history from its first event.
fn replay_first<W: Workflow>(
    alloc: Global,
    key: &RunKey,
    events: Vec<Event>,
    meter: &mut Meter,
) -> Result<Stepped<W>, StepFault>
    ensures replays { IfOk result (λ stepped. Replays W.program key.now events.items (steps W.program events.items)
        stepped.run stepped.fault meter.old meter.new) }
    ensures miss { IfOk result (λ stepped. stepped.hit ≡ false) }
    ensures never_lowered { meter.old ≤ meter.new }
    ensures fault { IfErr result (λ fault. fault ≡ StepFault.OutOfMemory) }
    ensures memory { OnErr result (ends_in_task events.items ≡ true) }
{
    if !ends_in_task(events.as_slice()) {
        return Ok(Stepped {
            run: None,
            fault: Some(Fault::NotATask),
            hit: false,
        });
    }
    let key = key.try_copy()?;
    match Run::from_first(alloc, key, events, meter) {
        Ok(run) => Ok(Stepped {
            run: Some(run),
            fault: None,
            hit: false,
        }),
        Err(RunFault::Fault(fault)) => Ok(Stepped {
            run: None,
            fault: Some(fault),
            hit: false,
        }),
        Err(RunFault::OutOfMemory) => Err(StepFault::OutOfMemory),
    }
}

/// Fetches a history from the source, and replays it from its first event.
fn replay_fetched<W: Workflow, S: TaskSource>(
    alloc: Global,
    key: &RunKey,
    up_to: u64,
    source: &mut S,
    meter: &mut Meter,
) -> Result<Stepped<W>, StepFault>
    ensures replays { IfOk result (λ stepped. ReplaysFetched W.program (S.fetches source.old) key.now up_to
        stepped.run stepped.fault meter.old meter.new) }
    ensures miss { IfOk result (λ stepped. stepped.hit ≡ false) }
    ensures never_lowered { meter.old ≤ meter.new }
    ensures answers { S.answers source.new ≡ S.answers source.old }
    ensures failures { FailsOnlySource result (S.failures source.old) (S.failures source.new) }
    ensures keeps { KeepsSource S.delivers S.fetches S.comes_from source.old source.new }
{
    let history = match source.whole(key, up_to) {
        Ok(history) => history,
        Err(fault) => return Err(StepFault::Source(fault)),
    };
    replay_first(alloc, key, history, meter)
}

/// Whether the events begin with the first event of a history.
fn is_whole(events: &[Event]) -> bool
    ensures { result ≡ follows 0 events.now }
{
    match events.first() {
        Some(event) => event.number.get() == 1,
        None => false,
    }
}

/// Returns the number of the last event, or 0 if there is none.
pub fn last_number(events: &[Event]) -> u64
    ensures { result ≡ last_number events.now }
{
    match events.last() {
        Some(event) => event.number.get(),
        None => 0,
    }
}
