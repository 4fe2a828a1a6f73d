//! A long run that advances by so many tasks, with one call of `Run::advance` for each.
ghost use Rattle.std.specs.Prelude.{◌≡◌, ◌++◌, IfSome};
ghost use Rattle.wh_replay.specs.Runs.{advance_steps};
ghost use Rattle.wh_workflow.specs.Counting.{risen};

use crate::long_run::LongRun;
use std::alloc::Global;
use std::io;
use std::io::{Eprint, Print};
use std::time::{Clock, Duration, Instant};
use wh_events::Event;
use wh_replay::Run;
use wh_sample_workflows::Flood;
use wh_workflow::{Meter, Workflow};

/// The run, each of whose tasks starts as many timers as a step may.
const LONG: LongRun = LongRun {
    workflow: "Flood",
    timers: 64,
};

/// The calls of a plan.
#[derive(Clone, Copy)]
pub(crate) struct Plan {
    /// How many tasks of the run are completed before the calls.
    pub(crate) tasks: u64,
    /// How many calls are made. Each advances the run by one task.
    pub(crate) calls: u64,
}

/// The steps and the time of the calls of a plan.
#[derive(Clone, Copy)]
struct Measured {
    /// By how many steps they raised the meter.
    steps: u64,
    /// How long they took together.
    took: Duration,
}

/// Advances the run by one task. `None` if it can't advance.
fn go_on_once<W: Workflow>(
    alloc: Global,
    run: Run<W>,
    more: Vec<Event>,
    meter: &mut Meter,
) -> Option<Run<W>>
    ensures run { IfSome result (λ next. next.events ≡ run.events ++ more.items) }

    // The meter has risen by the steps that `advance` takes for the new events.
    ensures meter { IfSome result (λ _. meter.new ≡ risen meter.old (advance_steps W.program run.events more.items)) }
{
    run.advance(alloc, more, meter).ok()
}

/// The time of the calls together with one that began at this instant. `None` if there was no clock
/// for one of them.
fn with_call<R: Clock>(
    rt: &R,
    took: Option<Duration>,
    begun: io::Result<Instant>,
) -> Option<Duration> {
    let call = begun.ok()?.elapsed(rt).ok()?;
    Some(took?.saturating_add(call))
}

/// The run, if it ends with a task's timers to be sent.
fn with_timers(run: Run<Flood>) -> Option<Run<Flood>> {
    if run.commands().len() as u64 == LONG.timers {
        Some(run)
    } else {
        drop(run);
        None
    }
}

/// Advances the run by the task after so many completed ones, and adds the time of the call, if
/// there is a clock. `None` if the run can't advance, or does not end with a task's timers to be
/// sent.
fn go_on<R: Clock>(
    rt: &R,
    alloc: Global,
    run: Run<Flood>,
    completed: u64,
    meter: &mut Meter,
    took: &mut Option<Duration>,
) -> Option<Run<Flood>> {
    let Ok(more) = LONG.next_task(alloc, completed) else {
        drop(run);
        return None;
    };
    let begun = Instant::now(rt);
    let next = go_on_once(alloc, run, more, meter);
    *took = with_call(rt, *took, begun);
    with_timers(next?)
}

/// Makes the calls of a plan. `None` if replay has a fault or no memory, or there is no clock.
fn measure<R: Clock>(rt: &R, alloc: Global, plan: Plan) -> Option<Measured> {
    let Plan { tasks, calls } = plan;
    let mut meter = Meter::new();
    let mut run = LONG.replayed::<Flood>(alloc, tasks, &mut meter);
    let before = meter.count();
    let mut took = Some(Duration::ZERO);
    for completed in tasks..tasks.saturating_add(calls) {
        run = go_on(rt, alloc, run?, completed, &mut meter, &mut took);
    }
    drop(run?);
    let steps = meter.count().saturating_sub(before);
    Some(Measured { steps, took: took? })
}

/// Prints the steps and the time of the calls of a plan. `None` if they can't be made.
pub(crate) fn tell<R: Clock + Print + Eprint>(rt: &R, alloc: Global, plan: Plan) -> Option<()> {
    let Plan { tasks, calls } = plan;
    let Measured { steps, took } = measure(rt, alloc, plan)?;
    let micros = took.as_micros();
    let _ = println!(rt; "{tasks} tasks, and {calls} more: {steps} steps of the calls");
    let _ = eprintln!(rt; "the calls took {micros} microseconds");
    Some(())
}
