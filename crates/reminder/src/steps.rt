//! A step function to copy: it reminds by mail, an hour after the run starts.

ghost use Rattle.std.specs.Prelude.{◌≡◌, option_to_list, IfOk};
ghost use Rattle.reminder.specs.Reminder.{reminder, reminder_after, reminder_gives, reminder_lawful};

#[cfg(test)]
mod tests;

use std::alloc::Global;
use wh_events::OutOfMemory;
use wh_workflow::{ActivityEnd, Command, Job, Meter, Workflow, give, no_payloads, text_of};

/// Reminds by mail, an hour after the run starts.
///
/// | State | Job | Gives | Then |
/// |---|---|---|---|
/// | waiting | `Start` | `StartTimer{hour, 3600}` | waiting |
/// | waiting | `TimerFired` of `hour` | `StartActivity{mail, SendMail}` without an input | sending |
/// | sending | `Activity` `mail`, `Completed` with a result | `Complete` with that result | sending |
/// | sending | `Activity` `mail`, another end | `Fail{mail}` | sending |
///
/// Other jobs change nothing and give nothing.
pub struct Reminder;

/// How far it has come.
#[derive(Clone, Copy, Debug, PartialEq, Eq)]
pub enum ReminderState {
    /// The hour is not over.
    Waiting,
    /// The mail is being sent, or was.
    Sending,
}

/// Returns the command that it gives to a job.
fn given(alloc: Global, state: ReminderState, job: &Job) -> Result<Option<Command>, OutOfMemory>
    ensures { IfOk result (λ given. option_to_list given ≡ reminder_gives state job.now) }
{
    Ok(match (state, job) {
        (ReminderState::Waiting, Job::Start { .. }) => Some(Command::StartTimer {
            id: text_of(alloc, "hour")?,
            seconds: 3_600,
        }),
        (ReminderState::Waiting, Job::TimerFired { id }) if id.get() == "hour" => {
            Some(Command::StartActivity {
                id: text_of(alloc, "mail")?,
                activity: text_of(alloc, "SendMail")?,
                input: no_payloads(alloc),
            })
        }
        (ReminderState::Sending, Job::Activity { id, end }) if id.get() == "mail" => {
            Some(match end {
                ActivityEnd::Completed(result) => Command::Complete {
                    result: result.try_copy()?,
                },
                _ => Command::Fail {
                    message: text_of(alloc, "mail")?,
                },
            })
        }
        _ => None,
    })
}

/// Returns the state that a job leaves.
fn after(state: ReminderState, job: &Job) -> ReminderState
    ensures { result ≡ reminder_after state job.now }
{
    match (state, job) {
        (ReminderState::Waiting, Job::TimerFired { id }) if id.get() == "hour" => {
            ReminderState::Sending
        }
        _ => state,
    }
}

impl Workflow for Reminder {
    type State = ReminderState;

    ghost program = { reminder };

    ghost lawful = { reminder_lawful };

    fn handles(kind: &str) -> bool {
        kind == "Reminder"
    }

    fn begin(_alloc: Global, _kind: &str) -> Result<ReminderState, OutOfMemory> {
        Ok(ReminderState::Waiting)
    }

    fn step(
        alloc: Global,
        state: &mut ReminderState,
        job: &Job,
        out: &mut Vec<Command>,
        meter: &mut Meter,
    ) -> Result<(), OutOfMemory> {
        meter.tick();
        let given = given(alloc, *state, job)?;
        *state = after(*state, job);
        give(out, given)
    }
}
