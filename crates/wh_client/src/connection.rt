//! The connection of a live source to its server.

use crate::notes::SourceNote;
use serde_json::Value;
use std::alloc::Global;
use wh_events::{GhostList, Text};
use wh_messages::QueryPoll;
use wh_rpc::{CallFault, CallResult};
use wh_tasks::{ActivityCell, ActivityInfo};

/// The connection of a live source: it makes calls to the server, reports, and hears of what is
/// counted. Many workers share it. Its calls wait for the server.
///
/// An implementation says what results its server may return for a request, why there may be none,
/// and what its clock shows; with a bridge in between it can say nothing.
pub trait Connection {
    ghost use Rattle.std.specs.Prelude.{◌≡◌, ◌++◌, ◌∷◌, [], ℕ, List, IfOk, true};
    ghost use Rattle.serde_json.specs.Data.{Data};
    ghost use Rattle.serde_json.specs.View.{view};
    ghost use Rattle.wh_client.specs.Calls.{NoResult, OnFailed, OnGiven};
    ghost use Rattle.wh_client.specs.Heartbeats.{WasCanceled};
    ghost use Rattle.wh_client.specs.Polls.{GivesQuery, IsPollingOver};

    /// Which results a request may get, by its method and its parameters.
    ghost gives: { List ℕ → Data → Data → Type 0 };

    /// Why a request may get no result, by its method and its parameters: with which code and
    /// message it may be refused, and with which fault it may get no response.
    ghost fails: { List ℕ → Data → NoResult → Type 0 };

    /// Which times its clock may show, in microseconds.
    ghost shows: { ℕ → Type 0 };

    /// Returns the allocator that calls use.
    fn allocator(&self) -> Global;

    /// Sends a request, waits for its response and returns its id and outcome. `Closed` if no
    /// response will come, `Output` if the request could not be written, `OutOfMemory` if there was
    /// no memory for it.
    fn call(&self, method: &str, params: Value) -> Result<(u64, CallResult), CallFault>
        ensures given { IfOk result (λ response. OnGiven (gives method.now (view params)) response.1) }
        ensures failed { OnFailed (fails method.now (view params)) result };

    /// As `call`, but also `Closed` once the bridge shuts down, or polls are stopped.
    fn poll(&self, method: &str, params: Value) -> Result<(u64, CallResult), CallFault>
        ensures given { IfOk result (λ response. OnGiven (gives method.now (view params)) response.1) }
        ensures failed { OnFailed (fails method.now (view params)) result };

    /// Lets each later poll of the process fail with `Closed`. Polls that are open get their
    /// responses. To be called only if a poll has shown that no later one can succeed.
    fn stop_polls(&self)
        requires { IsPollingOver fails };

    /// Passes a query that a poll returned to what answers queries beside the workers. Returns the
    /// query if nothing does.
    fn hand_on(&self, query: QueryPoll) -> Result<(), QueryPoll>
        requires { GivesQuery gives query };

    /// Writes a line that says what went wrong.
    fn report(&self, what: &str);

    /// Writes a line about a task, with the time.
    fn log(&self, what: &str);

    /// Returns the time in microseconds of a clock that does not go back, 0 if there is none.
    fn microseconds(&self) -> u64
        ensures { shows result };

    /// Notes a poll or an answer, for who counts those, and appends it to the list of what was
    /// noted.
    fn note(&self, note: SourceNote, notes: &mut GhostList<SourceNote>)
        ensures { notes.new.items ≡ notes.old.items ++ note ∷ [] };

    /// Notes in a worker's cell that the activity task of the token now runs, and its info.
    fn begin_activity(&self, cell: &ActivityCell, token: &Text, info: ActivityInfo);

    /// Returns whether, by the worker's cell, the response to a heartbeat of the activity task of
    /// the token said that the activity is to be canceled.
    fn was_canceled(&self, cell: &ActivityCell, token: &Text) -> bool
        ensures { result ≡ true → WasCanceled gives token.now };

    /// Waits this many milliseconds, and appends them to the list of pauses.
    fn pause(&self, milliseconds: u64, pauses: &mut GhostList<u64>)
        ensures { pauses.new.items ≡ pauses.old.items ++ milliseconds ∷ [] };
}
