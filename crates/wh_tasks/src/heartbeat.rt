//! Heartbeats, and the responses to them.

ghost use Rattle.std.specs.Prelude.{IfOk};

use crate::activity_info::ActivityInfo;
use wh_events::{OutOfMemory, Payload};

/// The response to a heartbeat.
#[derive(Clone, Copy, PartialEq, Eq, Debug)]
pub enum HeartbeatResponse {
    /// The activity goes on.
    GoOn,
    /// The activity is to be canceled. If the handler then fails, the activity is answered as
    /// canceled. If the handler completes, the activity is answered as completed.
    CancelRequested,
    /// The task can't be answered any more: it timed out or its run has closed, so that the server
    /// has dropped it, or the connection has closed.
    Gone,
    /// There was no response: the server or the bridge refused the call or gave up. The activity
    /// goes on, and the details are held, to be sent again later.
    Unheard,
}

/// Sends heartbeats for the activity that a worker's handler runs (Temporal documentation,
/// "Activity Heartbeat"). A handler with a heartbeat can send heartbeats during `run`, for the task
/// that it runs.
pub trait Heartbeat {
    ghost use Rattle.std.specs.Prelude.{◌≡◌, List, false};
    ghost use Rattle.wh_events.specs.declared.event.Payload.{Payload};
    ghost use Rattle.wh_tasks.specs.declared.activity_info.ActivityInfo.{ActivityInfo};
    ghost use Rattle.wh_tasks.specs.declared.heartbeat.HeartbeatResponse.{HeartbeatResponse};

    /// Which responses a heartbeat with these details may get.
    ghost brings: { List Payload → HeartbeatResponse → Type 0 };

    /// Which info a handler may get of a task.
    ghost tells: { ActivityInfo → Type 0 };

    /// How the heartbeats are once what was held is sent. One that leaves it out says nothing of
    /// it.
    ghost is_flushed: { Self → Type 0 } = { λ heartbeat. Unit {0} };

    /// Sends a heartbeat and returns the response. The server may pass the details to a later
    /// attempt. A heartbeat that comes soon after another may be held, and its details are sent
    /// later, unless those of another take their place (Temporal documentation, "Activity
    /// Heartbeat", on throttling). Its response is by what former ones heard. Returns `OutOfMemory`
    /// if there was no memory for it, and the handler can send another heartbeat.
    fn send(&mut self, details: &[Payload]) -> Result<HeartbeatResponse, OutOfMemory>
        ensures { IfOk result (brings details.now) };

    /// Returns what the response to the poll said of the task that runs: which attempt it is, the
    /// details of the last heartbeat of an earlier attempt, with which a handler can go on where
    /// that one was, and the times. Returns `OutOfMemory` if there was no memory for a copy, or for
    /// the info when the task came. If the handler then returns `OutOfMemory` too, the task gets no
    /// answer: it times out, and a later attempt, if there is one, goes on.
    fn info(&self) -> Result<ActivityInfo, OutOfMemory>
        ensures { IfOk result tells };

    /// Ends the heartbeats of the task that runs, after its handler has returned. Unless the
    /// handler completed the activity, it first sends the details that are held, if any are, so
    /// that a later attempt gets the last ones. A handler does not call it.
    fn finish(&mut self, is_completed: bool)
        ensures { is_completed ≡ false → is_flushed self.new };
}

/// Sends no heartbeats and holds none, for tasks that came from no server: each response is `GoOn`,
/// and each task is a first attempt of which no times are told.
#[derive(Drop)]
pub struct NoHeartbeat;

impl Heartbeat for NoHeartbeat {
    ghost use Rattle.std.specs.Prelude.{◌≡◌};
    ghost use Rattle.wh_tasks.specs.Infos.{first_attempt};
    ghost use Rattle.wh_tasks.specs.declared.heartbeat.HeartbeatResponse.TheVariants.{GoOn};

    ghost brings = { λ details response. response ≡ GoOn };

    ghost tells = { λ info. info ≡ first_attempt };

    fn send(&mut self, _details: &[Payload]) -> Result<HeartbeatResponse, OutOfMemory> {
        Ok(HeartbeatResponse::GoOn)
    }

    fn info(&self) -> Result<ActivityInfo, OutOfMemory> {
        Ok(ActivityInfo::of_first_attempt())
    }

    fn finish(&mut self, _is_completed: bool) {}
}
