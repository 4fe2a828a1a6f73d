//! Flood: starts as many timers in one step as are allowed.
ghost use Rattle.std.specs.Prelude.{◌≡◌, ◌++◌, length, take, drop, decimal, OnOk, OnErr, IfOk};
ghost use Rattle.wh_workflow.specs.Law.{IsAnswer};
ghost use Rattle.wh_sample_workflows.specs.Flood.{flood, timers, counted, next_number, flood_lawful};

use std::alloc::Global;
use wh_events::{OutOfMemory, Text};
use wh_workflow::{Command, Job, Meter, Workflow};

/// Starts 64 timers at a time, the most that are allowed in one step.
///
/// | Job | Gives |
/// |---|---|
/// | `Start`, `Signal` | 64 times `StartTimer{n, 1}`, n counted on from 0 in decimal |
///
/// Other jobs change nothing and give nothing.
pub struct Flood;

/// The number of the next timer. After the last number comes 0.
#[derive(Clone, Copy, Debug, PartialEq, Eq)]
pub struct FloodState {
    /// 0 to 2^64 - 1.
    pub next: u64,
}

/// How many timers one step starts.
const TIMERS: u64 = 64;

/// Returns the next number. 0 follows the last one.
fn next_number(number: u64) -> u64
    ensures { result ≡ next_number number }
{
    if number == u64::MAX { 0 } else { number + 1 }
}

/// Starts the timers of one step.
#[tactic(auto, unfolding(crate::specs::Flood::timers, crate::specs::Flood::counted))]
fn start_timers(
    alloc: Global,
    state: &mut FloodState,
    out: &mut Vec<Command>,
) -> Result<(), OutOfMemory>
    ensures state { OnOk result (state.new ≡ record { next = counted 64 state.old.next }) }
    ensures commands { OnOk result (out.new.items ≡ out.old.items ++ timers 64 state.old.next) }
    ensures kept { OnErr result (take (length out.old.items) out.new.items ≡ out.old.items) }
    ensures answer { IsAnswer (drop (length out.old.items) out.new.items) }
{
    for _ in 0..TIMERS {
        let number = state.next;
        out.push(Command::StartTimer {
            id: Text::new(format!(in alloc; "{number}")?),
            seconds: 1,
        })?;
        state.next = next_number(number);
    }
    Ok(())
}

impl Workflow for Flood {
    type State = FloodState;

    ghost program = { flood };

    ghost lawful = { flood_lawful };

    fn handles(kind: &str) -> bool {
        kind == "Flood"
    }

    fn begin(_alloc: Global, _kind: &str) -> Result<FloodState, OutOfMemory> {
        Ok(FloodState { next: 0 })
    }

    fn step(
        alloc: Global,
        state: &mut FloodState,
        job: &Job,
        out: &mut Vec<Command>,
        meter: &mut Meter,
    ) -> Result<(), OutOfMemory> {
        meter.tick();
        match job {
            Job::Start { .. } | Job::Signal { .. } => start_timers(alloc, state, out)?,
            _ => {}
        }
        Ok(())
    }
}
