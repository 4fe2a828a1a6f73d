//! Closes a run when what it waits for ends.
ghost use Rattle.std.specs.Prelude.{◌≡◌, IfOk};
ghost use Rattle.wh_sample_workflows.specs.Endings.{result_or_failure};

use std::alloc::Global;
use wh_events::OutOfMemory;
use wh_workflow::{ActivityEnd, Command, text_of};

/// Returns `Complete` with the result of the activity, or `Fail` with the message if it has none.
pub(crate) fn result_or_failure(
    alloc: Global,
    end: &ActivityEnd,
    message: &str,
) -> Result<Command, OutOfMemory>
    ensures { IfOk result (λ command. command ≡ result_or_failure message.now end.now) }
{
    match end {
        ActivityEnd::Completed(result) => Ok(Command::Complete {
            result: result.try_copy()?,
        }),
        _ => Ok(Command::Fail {
            message: text_of(alloc, message)?,
        }),
    }
}
