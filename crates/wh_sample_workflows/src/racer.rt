//! Racer: runs an activity against a timer.
ghost use Rattle.std.specs.Prelude.{◌≡◌, [], ◌∷◌, IfOk};
ghost use Rattle.wh_sample_workflows.specs.Racer.{racer, racer_after, racer_gives, racer_lawful, race, lateness, ending, phase_text};

use crate::endings::result_or_failure;
use std::alloc::Global;
use wh_events::{OutOfMemory, Payload};
use wh_workflow::{
    ActivityEnd, Command, Job, Meter, QueryResult, Queryable, Workflow, WorkflowDefinition,
    give_all, json_result, no_payloads, text_of, texts_of, unknown_query,
};

/// Runs an activity against a timer.
///
/// | Phase | Job | Gives | Then |
/// |---|---|---|---|
/// | racing | `Start` | `StartActivity{1, race}`, without an input, `StartTimer{t, 30}` | racing |
/// | racing | `TimerFired` of `t` | `CancelActivity{1}`, `StartTimer{u, 5}` | late |
/// | racing | `Activity` `1`, `Completed` | `CancelTimer{t}`, `Complete` with its result | done |
/// | racing | `Activity` `1`, another end | `CancelTimer{t}`, `Fail{race}` | done |
/// | late | `TimerFired` of `u` | `Complete`, without a result | done |
///
/// Other jobs change nothing and give nothing.
///
/// The query `phase` returns the phase as JSON: `"racing"`, `"late"` or `"done"`.
pub struct Racer;

/// The phase of the race.
#[derive(Clone, Copy, Debug, PartialEq, Eq)]
pub enum Phase {
    /// Neither the activity nor the timer has ended.
    Racing,
    /// The timer was faster; a second timer runs.
    Late,
    /// The run is closed.
    Done,
}

/// Returns both commands, in this order.
fn both(alloc: Global, first: Command, second: Command) -> Result<Vec<Command>, OutOfMemory>
    ensures { IfOk result (λ given. given.items ≡ first ∷ second ∷ []) }
{
    Ok(vec![in alloc; first, second]?)
}

/// Starts the activity and the timer.
fn start(alloc: Global) -> Result<Vec<Command>, OutOfMemory>
    ensures { IfOk result (λ given. given.items ≡ race) }
{
    let timer = text_of(alloc, "t")?;
    let (id, activity) = texts_of(alloc, "1", "race")?;
    let input = no_payloads(alloc);
    let start = Command::StartActivity {
        id,
        activity,
        input,
    };
    let timer = Command::StartTimer {
        id: timer,
        seconds: 30,
    };
    both(alloc, start, timer)
}

/// Cancels the activity, and starts the second timer.
fn come_late(alloc: Global) -> Result<Vec<Command>, OutOfMemory>
    ensures { IfOk result (λ given. given.items ≡ lateness) }
{
    let (activity, timer) = texts_of(alloc, "1", "u")?;
    let cancel = Command::CancelActivity { id: activity };
    let timer = Command::StartTimer {
        id: timer,
        seconds: 5,
    };
    both(alloc, cancel, timer)
}

/// Cancels the timer, and closes the run as the activity ended.
fn end_race(alloc: Global, end: &ActivityEnd) -> Result<Vec<Command>, OutOfMemory>
    ensures { IfOk result (λ given. given.items ≡ ending end.now) }
{
    let id = text_of(alloc, "t")?;
    let end = result_or_failure(alloc, end, "race")?;
    both(alloc, Command::CancelTimer { id }, end)
}

/// Returns the commands that it gives to a job.
fn given(alloc: Global, phase: Phase, job: &Job) -> Result<Vec<Command>, OutOfMemory>
    ensures { IfOk result (λ given. given.items ≡ racer_gives phase job.now) }
{
    match (phase, job) {
        (Phase::Racing, Job::Start { .. }) => start(alloc),
        (Phase::Racing, Job::TimerFired { id }) if id.get() == "t" => come_late(alloc),
        (Phase::Racing, Job::Activity { id, end }) if id.get() == "1" => end_race(alloc, end),
        (Phase::Late, Job::TimerFired { id }) if id.get() == "u" => {
            let result = no_payloads(alloc);
            Ok(vec![in alloc; Command::Complete { result }]?)
        }
        _ => Ok(Vec::new(alloc)),
    }
}

/// Returns the phase after a job.
fn after(phase: Phase, job: &Job) -> Phase
    ensures { result ≡ racer_after phase job.now }
{
    match (phase, job) {
        (Phase::Racing, Job::TimerFired { id }) if id.get() == "t" => Phase::Late,
        (Phase::Racing, Job::Activity { id, .. }) if id.get() == "1" => Phase::Done,
        (Phase::Late, Job::TimerFired { id }) if id.get() == "u" => Phase::Done,
        _ => phase,
    }
}

impl Workflow for Racer {
    type State = Phase;

    ghost program = { racer };

    ghost lawful = { racer_lawful };

    fn handles(kind: &str) -> bool {
        kind == "Racer"
    }

    fn begin(_alloc: Global, _kind: &str) -> Result<Phase, OutOfMemory> {
        Ok(Phase::Racing)
    }

    fn step(
        alloc: Global,
        state: &mut Phase,
        job: &Job,
        out: &mut Vec<Command>,
        meter: &mut Meter,
    ) -> Result<(), OutOfMemory> {
        meter.tick();
        let given = given(alloc, *state, job)?;
        *state = after(*state, job);
        give_all(out, given)
    }
}

/// Returns a phase, as a JSON text.
fn phase_text(phase: Phase) -> &'static str
    ensures { result.now ≡ phase_text phase }
{
    match phase {
        Phase::Racing => "\"racing\"",
        Phase::Late => "\"late\"",
        Phase::Done => "\"done\"",
    }
}

impl Queryable for Racer {
    ghost use Rattle.wh_sample_workflows.specs.Racer.{racer_definitions, racer_queries};

    ghost queries = { racer_queries };

    fn query(
        alloc: Global,
        state: &Phase,
        query_type: &str,
        _input: &[Payload],
    ) -> Result<QueryResult, OutOfMemory> {
        match query_type {
            "phase" => json_result(alloc, String::from_str(alloc, phase_text(*state))?),
            _ => unknown_query(alloc, query_type, "phase"),
        }
    }

    ghost definitions = { racer_definitions };

    fn definition(alloc: Global, _kind: &str) -> Result<WorkflowDefinition, OutOfMemory> {
        WorkflowDefinition::nothing(alloc).with_query(alloc, "phase")
    }
}
