//! Sends heartbeats of activities, and writes answers for activities that failed or were canceled.

ghost use Rattle.std.specs.Prelude.{◌≡◌, true, IfErr, IfOk, codes};
ghost use Rattle.wh_client.specs.Heartbeats.{IsFailedActivity, IsHeartbeat, WasCanceled};
ghost use Rattle.wh_client.specs.Refusals.{HasItsStatus, IsFaultBy};
ghost use Rattle.wh_messages.specs.Heartbeats.{activity_heartbeat};

use crate::asking::{AskFault, ask};
use crate::client::Client;
use crate::connection::Connection;
use crate::requests::Request;
use wh_commands::WorkerNames;
use wh_events::{OutOfMemory, Payload, Text};
use wh_messages::{activity_canceled, activity_failed, activity_heartbeat, is_cancel_requested};
use wh_tasks::ActivityInfo;

/// Sends a heartbeat with details for the activity of a task, and returns whether the activity is
/// to be canceled (Temporal documentation, "Activity Heartbeat"). The error says why that is not
/// known: a refusal has the status of its code, and `NotFound` means that the server no longer has
/// such a task.
pub fn record_heartbeat<L: Connection>(
    connection: &L,
    names: &WorkerNames,
    token: &Text,
    details: &[Payload],
) -> Result<bool, AskFault>
    ensures heard { IfOk result (IsHeartbeat L.gives names.now token.now details.now) }
    ensures failed { IfErr result (IsFaultBy (L.fails (codes "RecordActivityTaskHeartbeat")
        (activity_heartbeat names.now token.now details.now))) }
    ensures refused { IfErr result HasItsStatus }
{
    let alloc = connection.allocator();
    let params = activity_heartbeat(alloc, names, token.get(), details)?;
    let (_id, value) = ask(connection, "RecordActivityTaskHeartbeat", params)?;
    Ok(is_cancel_requested(&value))
}

impl<L: Connection> Client<'_, L> {
    /// Notes that the activity task of the token now runs, with its info, if the worker's handler
    /// may send heartbeats.
    pub fn begin_activity(&self, token: &Text, info: ActivityInfo) {
        if let Some(cell) = self.cell {
            self.connection.begin_activity(cell, token, info);
        }
    }

    /// Returns whether the response to a heartbeat of the activity task of the token said that the
    /// activity is to be canceled.
    pub fn was_canceled(&self, token: &Text) -> bool
        ensures { result ≡ true → WasCanceled L.gives token.now }
    {
        match self.cell {
            Some(cell) => self.connection.was_canceled(cell, token),
            None => false,
        }
    }

    /// Writes the answer to an activity task whose activity failed, with the reason: as canceled if
    /// `was_canceled`, otherwise as failed, with the failure's type, if it has one, and whether the
    /// activity may be retried. `OutOfMemory` if there was no memory for the request.
    pub fn activity_failed(
        &self,
        token: &Text,
        reason: &str,
        failure_type: &Option<Text>,
        retryable: bool,
        was_canceled: bool,
    ) -> Result<Request, OutOfMemory>
        ensures { IfOk result (IsFailedActivity self.now.options.now.names
            token.now reason.now failure_type.now retryable was_canceled) }
    {
        let (alloc, names) = (self.allocator(), &self.options.names);
        if was_canceled {
            return Ok(Request {
                method: "RespondActivityTaskCanceled",
                params: activity_canceled(alloc, names, token.get(), reason)?,
            });
        }
        Ok(Request {
            method: "RespondActivityTaskFailed",
            params: activity_failed(alloc, names, token.get(), reason, failure_type, retryable)?,
        })
    }
}
