//! Failures of activities.
ghost use Rattle.std.specs.Prelude.{◌≡◌, IfOk};
ghost use Rattle.wh_tasks.specs.Failures.{not_found, plain};

use std::alloc::Global;
use wh_events::{OutOfMemory, Text};

/// The type of the failure of an activity that its worker does not know, as in Temporal's SDKs for
/// Python and TypeScript.
const NOT_FOUND: &str = "NotFoundError";

/// Why an activity failed (Temporal documentation, "Application Failure").
#[derive(Drop, Debug)]
pub struct ActivityFailure {
    /// The message.
    pub message: Text,
    /// The failure's type, if it has one: the types in a retry policy that are not retried refer to
    /// it.
    pub failure_type: Option<Text>,
    /// Whether the activity may be retried, if its retry policy says so.
    pub retryable: bool,
}

/// Returns an equal text, if there is one.
fn copy_of(text: &Option<Text>) -> Result<Option<Text>, OutOfMemory>
    ensures { IfOk result (λ copy. copy ≡ text.now) }
{
    match text {
        Some(text) => Ok(Some(text.try_copy()?)),
        None => Ok(None),
    }
}

impl ActivityFailure {
    /// Returns a failure without a type, after which the activity may be retried.
    pub fn plain(message: Text) -> ActivityFailure
        ensures { result ≡ plain message }
    {
        ActivityFailure {
            message,
            failure_type: None,
            retryable: true,
        }
    }

    /// Returns the failure of an activity whose type its worker does not know. Its type is
    /// `NotFoundError`, and the activity is not retried. Returns `OutOfMemory` if there was no memory
    /// for the type.
    pub fn not_found(alloc: Global, message: Text) -> Result<ActivityFailure, OutOfMemory>
        ensures { IfOk result (λ failure. failure ≡ not_found message) }
    {
        let failure_type = Text::new(String::from_str(alloc, NOT_FOUND)?);
        Ok(ActivityFailure {
            message,
            failure_type: Some(failure_type),
            retryable: false,
        })
    }

    /// Returns an equal failure, or `OutOfMemory` if there was no memory for the copy.
    pub fn try_copy(&self) -> Result<ActivityFailure, OutOfMemory>
        ensures { IfOk result (λ copy. copy ≡ self.now) }
    {
        let failure_type = copy_of(&self.failure_type)?;
        let message = self.message.try_copy()?;
        Ok(ActivityFailure {
            message,
            failure_type,
            retryable: self.retryable,
        })
    }
}
