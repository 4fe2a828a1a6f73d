//! Greet: runs one activity, and passes on a request to cancel it.
ghost use Rattle.std.specs.Prelude.{◌≡◌, option_to_list, IfOk};
ghost use Rattle.wh_sample_workflows.specs.Greet.{greet, greet_after, greet_end, greet_gives, greet_lawful};

use std::alloc::Global;
use wh_events::OutOfMemory;
use wh_workflow::{ActivityEnd, Command, Job, Meter, Workflow, give, text_of, texts_of};

/// Runs one activity, and passes on a request to cancel it.
///
/// | Job | Gives |
/// |---|---|
/// | `Start` with an input | `StartActivity{1, greet}` with that input |
/// | `CancelRequested`, the first while activity `1` has not ended | `CancelActivity{1}` |
/// | `Activity` `1`, `Completed` with a result | `Complete` with that result |
/// | `Activity` `1`, `Canceled` | `Cancel` |
/// | `Activity` `1`, `Failed` or `TimedOut` | `Fail{greet}` |
///
/// Other jobs change nothing and give nothing.
pub struct Greet;

/// Whether a request to cancel is passed on: the activity has not ended, and none was passed on
/// yet.
#[derive(Clone, Copy, Debug, PartialEq, Eq)]
pub struct GreetState {
    /// True from the start until the first request or the end of the activity.
    pub cancellable: bool,
}

/// Returns the command that closes the run when its activity ends.
fn end_of(alloc: Global, end: &ActivityEnd) -> Result<Command, OutOfMemory>
    ensures { IfOk result (λ command. command ≡ greet_end end.now) }
{
    match end {
        ActivityEnd::Completed(result) => Ok(Command::Complete {
            result: result.try_copy()?,
        }),
        ActivityEnd::Canceled => Ok(Command::Cancel),
        ActivityEnd::Failed | ActivityEnd::TimedOut => Ok(Command::Fail {
            message: text_of(alloc, "greet")?,
        }),
    }
}

/// Returns the command that it gives to a job.
fn given(alloc: Global, state: GreetState, job: &Job) -> Result<Option<Command>, OutOfMemory>
    ensures { IfOk result (λ given. option_to_list given ≡ greet_gives state job.now) }
{
    Ok(match job {
        Job::Start { input, .. } => {
            let input = input.try_copy()?;
            let (id, activity) = texts_of(alloc, "1", "greet")?;
            Some(Command::StartActivity {
                id,
                activity,
                input,
            })
        }
        Job::CancelRequested if state.cancellable => Some(Command::CancelActivity {
            id: text_of(alloc, "1")?,
        }),
        Job::Activity { id, end } if id.get() == "1" => Some(end_of(alloc, end)?),
        _ => None,
    })
}

/// Returns the state after a job.
fn after(state: GreetState, job: &Job) -> GreetState
    ensures { result ≡ greet_after state job.now }
{
    match job {
        Job::CancelRequested => GreetState { cancellable: false },
        Job::Activity { id, .. } if id.get() == "1" => GreetState { cancellable: false },
        _ => state,
    }
}

impl Workflow for Greet {
    type State = GreetState;

    ghost program = { greet };

    ghost lawful = { greet_lawful };

    fn handles(kind: &str) -> bool {
        kind == "Greet"
    }

    fn begin(_alloc: Global, _kind: &str) -> Result<GreetState, OutOfMemory> {
        Ok(GreetState { cancellable: true })
    }

    fn step(
        alloc: Global,
        state: &mut GreetState,
        job: &Job,
        out: &mut Vec<Command>,
        meter: &mut Meter,
    ) -> Result<(), OutOfMemory> {
        meter.tick();
        let given = given(alloc, *state, job)?;
        *state = after(*state, job);
        give(out, given)
    }
}
