//! Relay: passes its input from run to run, one payload less each time.
ghost use Rattle.std.specs.Prelude.{◌≡◌, drop, option_to_list, IfOk, OnOk};
ghost use Rattle.wh_sample_workflows.specs.Relay.{relay, relay_after, relay_gives, relay_lawful, relay_start};

use std::alloc::Global;
use wh_events::{Items, OutOfMemory, Payload};
use wh_workflow::{Command, Job, Meter, Workflow, give, no_payloads, text_of};

/// Waits five seconds for each payload of its input, in a new run for each.
///
/// | Job | Gives |
/// |---|---|
/// | `Start` without an input | `Complete`, without a result |
/// | `Start` with an input | `StartTimer{leg, 5}` |
/// | `TimerFired` of `leg` | `ContinueAsNew{Relay}` with the payloads after the first one |
///
/// Other jobs change nothing and give nothing. So a run with N payloads is continued by N runs, and
/// the last of them completes at once.
pub struct Relay;

/// The input of the next run.
#[derive(Debug, Drop)]
pub struct RelayState {
    /// The payloads of the input after the first one; none before the start.
    pub left: Items<Payload>,
}

/// Returns the command at the start of a run with this input.
fn start(alloc: Global, input: &[Payload]) -> Result<Command, OutOfMemory>
    ensures { IfOk result (λ command. command ≡ relay_start input.now) }
{
    match input {
        [] => Ok(Command::Complete {
            result: no_payloads(alloc),
        }),
        _ => Ok(Command::StartTimer {
            id: text_of(alloc, "leg")?,
            seconds: 5,
        }),
    }
}

/// Returns the command that it gives to a job.
fn given(alloc: Global, state: &RelayState, job: &Job) -> Result<Option<Command>, OutOfMemory>
    ensures { IfOk result (λ given. option_to_list given ≡ relay_gives state.now job.now) }
{
    Ok(match job {
        Job::Start { input, .. } => Some(start(alloc, input.get())?),
        Job::TimerFired { id } if id.get() == "leg" => {
            let input = state.left.try_copy()?;
            Some(Command::ContinueAsNew {
                workflow: text_of(alloc, "Relay")?,
                input,
            })
        }
        _ => None,
    })
}

/// Returns copies of the payloads after the first one.
fn after_first(alloc: Global, payloads: &[Payload]) -> Result<Items<Payload>, OutOfMemory>
    ensures { IfOk result (λ left. left ≡ drop 1 payloads.now) }
{
    match payloads {
        [_, left @ ..] => Ok(Items::new(left.to_vec(alloc)?)),
        [] => Ok(no_payloads(alloc)),
    }
}

/// Changes the state by a job. After `OutOfMemory` it is unchanged.
fn note(alloc: Global, state: &mut RelayState, job: &Job) -> Result<(), OutOfMemory>
    ensures { OnOk result (state.new ≡ relay_after state.old job.now) }
{
    if let Job::Start { input, .. } = job {
        state.left = after_first(alloc, input.get())?;
    }
    Ok(())
}

impl Workflow for Relay {
    type State = RelayState;

    ghost program = { relay };

    ghost lawful = { relay_lawful };

    fn handles(kind: &str) -> bool {
        kind == "Relay"
    }

    fn begin(alloc: Global, _kind: &str) -> Result<RelayState, OutOfMemory> {
        Ok(RelayState {
            left: no_payloads(alloc),
        })
    }

    fn step(
        alloc: Global,
        state: &mut RelayState,
        job: &Job,
        out: &mut Vec<Command>,
        meter: &mut Meter,
    ) -> Result<(), OutOfMemory> {
        meter.tick();
        let given = given(alloc, state, job)?;
        note(alloc, state, job)?;
        give(out, given)
    }
}
