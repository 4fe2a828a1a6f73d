//! Sends heartbeats over the calls of a bridge.

ghost use Rattle.std.specs.Prelude.{◌≡◌, IfOk};
ghost use Rattle.wh_crew.specs.HeartbeatResponses.{IsResponseTo, Means, noted};

use crate::bridge_connection::BridgeConnection;
use crate::source_observer::NoSourceObserver;
use crate::timer::milliseconds;
use std::alloc::Global;
use std::sync::{Arc, Wait};
use std::time::Clock;
use wh_client::{AskFault, Connection, StatusCode, record_heartbeat};
use wh_commands::WorkerNames;
use wh_events::{Items, OutOfMemory, Payload, Text};
use wh_live_queries::QueryQueue;
use wh_rpc::Caller;
use wh_tasks::{ActivityCell, ActivityInfo, Heartbeat, HeartbeatResponse, HeartbeatStep};

/// Returns what the result of a heartbeat's call means for the activity.
fn response_of(heard: Result<bool, AskFault>) -> Result<HeartbeatResponse, OutOfMemory>
    ensures { Means heard result }
{
    match heard {
        Ok(true) => Ok(HeartbeatResponse::CancelRequested),
        Ok(false) => Ok(HeartbeatResponse::GoOn),
        Err(
            AskFault::Refused {
                status: StatusCode::NotFound,
                ..
            },
        ) => Ok(HeartbeatResponse::Gone),
        Err(AskFault::Closed) => Ok(HeartbeatResponse::Gone),
        Err(AskFault::OutOfMemory) => Err(OutOfMemory),
        Err(_) => Ok(HeartbeatResponse::Unheard),
    }
}

/// Returns what the cell notes of a heartbeat with this response: without memory for its call,
/// nothing was heard.
fn heard_response(response: &Result<HeartbeatResponse, OutOfMemory>) -> HeartbeatResponse
    ensures { result ≡ noted response.now }
{
    match response {
        Ok(response) => *response,
        Err(_) => HeartbeatResponse::Unheard,
    }
}

/// Returns a copy of details, or `OutOfMemory` if there was no memory for it.
fn copy_of(alloc: Global, details: &[Payload]) -> Result<Items<Payload>, OutOfMemory>
    ensures { IfOk result (λ copy. copy ≡ details.now) }
{
    Ok(Items::new(details.to_vec(alloc)?))
}

/// Sends a heartbeat with these details for the task of the token, notes the response in the cell,
/// and returns it.
pub(crate) fn beat<R: Wait, L: Connection>(
    rt: &R,
    connection: &L,
    names: &WorkerNames,
    cell: &ActivityCell,
    token: &Text,
    details: Items<Payload>,
) -> Result<HeartbeatResponse, OutOfMemory>
    ensures { IsResponseTo L.gives L.fails names.now token.now details result }
{
    let heard = record_heartbeat(connection, names, token, details.get());
    let response = response_of(heard);
    cell.hear(rt, token, details, heard_response(&response));
    response
}

/// Sends the heartbeats of a live worker's handler: each that is not held is a call of
/// `RecordActivityTaskHeartbeat` for the activity task that the worker runs, over the calls of its
/// host. The cell says which are held; the timer of `serve_live` sends those later. If no such task
/// is known, because there was no memory to note it, nothing is sent, the response is `Unheard`,
/// and the info is `OutOfMemory`.
#[derive(Drop)]
pub struct LiveHeartbeat<'a, R, C> {
    rt: &'a R,
    calls: &'a C,
    names: WorkerNames,
    cell: Arc<ActivityCell>,
}

impl<'a, R, C> LiveHeartbeat<'a, R, C> {
    /// Returns the heartbeats of the worker of a cell, over these calls and with these names.
    pub fn new(
        rt: &'a R,
        calls: &'a C,
        names: WorkerNames,
        cell: Arc<ActivityCell>,
    ) -> LiveHeartbeat<'a, R, C> {
        LiveHeartbeat {
            rt,
            calls,
            names,
            cell,
        }
    }
}

impl<R: Wait + Clock + Eprint, C: Caller> LiveHeartbeat<'_, R, C> {
    /// Sends a heartbeat with these details now.
    fn beat(
        &self,
        token: &Text,
        details: Items<Payload>,
    ) -> Result<HeartbeatResponse, OutOfMemory> {
        let connection = BridgeConnection {
            rt: self.rt,
            calls: self.calls,
            observer: &NoSourceObserver,
            name: "",
            queries: QueryQueue::new(self.calls.allocator()),
        };
        beat(
            self.rt,
            &connection,
            &self.names,
            &self.cell,
            token,
            details,
        )
    }
}

impl<R: Wait + Clock + Eprint, C: Caller> Heartbeat for LiveHeartbeat<'_, R, C> {
    ghost brings = { λ details response. Unit {0} };

    ghost tells = { λ info. Unit {0} };

    fn send(&mut self, details: &[Payload]) -> Result<HeartbeatResponse, OutOfMemory> {
        let Some(token) = self.cell.token(self.rt)? else {
            return Ok(HeartbeatResponse::Unheard);
        };
        let details = copy_of(self.calls.allocator(), details)?;
        let now = milliseconds(self.rt);
        let response = match self.cell.next_step(self.rt, &token, details, now) {
            HeartbeatStep::Send(details) => self.beat(&token, details)?,
            HeartbeatStep::Hold(response) => response,
        };
        if response == HeartbeatResponse::CancelRequested {
            self.cell.note_cancel(self.rt, &token);
        }
        Ok(response)
    }

    fn info(&self) -> Result<ActivityInfo, OutOfMemory> {
        match self.cell.info(self.rt)? {
            Some(info) => Ok(info),
            None => Err(OutOfMemory),
        }
    }

    fn finish(&mut self, is_completed: bool) {
        let Ok(Some(token)) = self.cell.token(self.rt) else {
            return;
        };
        if is_completed {
            self.cell.end(self.rt, &token);
        } else if let Some(details) = self.cell.take_last(self.rt, &token) {
            let _ = self.beat(&token, details);
        }
    }
}
