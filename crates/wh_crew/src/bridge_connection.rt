//! A connection over the calls of a bridge.

use crate::source_observer::SourceObserver;
use serde_json::Value;
use std::alloc::Global;
use std::sync::Wait;
use std::thread;
use std::time::{Clock, Duration};
use wh_client::{Connection, SourceNote};
use wh_events::{GhostList, Text};
use wh_live_queries::QueryQueue;
use wh_messages::QueryPoll;
use wh_rpc::{CallFault, CallResult, Caller};
use wh_tasks::{ActivityCell, ActivityInfo};
use wh_tester::Shown;

/// A connection over the calls of a bridge, which reports and logs on standard error, and tells an
/// observer what is counted. It holds the runtime handle, since a poll is not passed one.
#[derive(Drop)]
pub(crate) struct BridgeConnection<'a, R, C, N> {
    pub(crate) rt: &'a R,
    pub(crate) calls: &'a C,
    pub(crate) observer: &'a N,
    /// The program's name, which begins each report.
    pub(crate) name: &'a str,
    /// The queue to which queries are passed.
    pub(crate) queries: QueryQueue,
}

/// Returns the time in whole seconds since 1970, 0 if there is no clock.
fn seconds<R: Clock>(rt: &R) -> u64 {
    match rt.since_1970() {
        Ok(time) => time.as_secs(),
        Err(_) => 0,
    }
}

/// Returns the time in whole microseconds of a clock that does not go back, 0 if there is no clock.
fn microseconds<R: Clock>(rt: &R) -> u64 {
    match rt.monotonic() {
        Ok(time) => u64::try_from(time.as_micros()).unwrap_or(u64::MAX),
        Err(_) => 0,
    }
}

impl<R: Wait + Clock + Eprint, C: Caller, N: SourceObserver> Connection
    for BridgeConnection<'_, R, C, N> {
    ghost gives = { λ method params value. Unit {0} };

    ghost fails = { λ method params why. Unit {0} };

    ghost shows = { λ time. Unit {0} };

    fn allocator(&self) -> Global {
        self.calls.allocator()
    }

    fn call(&self, method: &str, params: Value) -> Result<(u64, CallResult), CallFault> {
        self.calls.call(self.rt, method, params)
    }

    fn poll(&self, method: &str, params: Value) -> Result<(u64, CallResult), CallFault> {
        self.calls.poll(self.rt, method, params)
    }

    fn stop_polls(&self) {
        self.calls.shut_down(self.rt);
    }

    fn hand_on(&self, query: QueryPoll) -> Result<(), QueryPoll> {
        self.queries.hand_on(self.rt, query)
    }

    fn report(&self, what: &str) {
        let name = Shown(self.name);
        let _ = eprintln!(self.rt; "{name}: {what}");
    }

    fn log(&self, what: &str) {
        let seconds = seconds(self.rt);
        let _ = eprintln!(self.rt; "{seconds} {what}");
    }

    fn microseconds(&self) -> u64 {
        microseconds(self.rt)
    }

    fn note(&self, note: SourceNote, notes: &mut GhostList<SourceNote>) {
        self.observer.note(note);
        *notes = notes.with(&note);
    }

    fn begin_activity(&self, cell: &ActivityCell, token: &Text, info: ActivityInfo) {
        cell.begin(self.rt, token, info);
    }

    fn was_canceled(&self, cell: &ActivityCell, token: &Text) -> bool {
        cell.was_canceled(self.rt, token)
    }

    fn pause(&self, milliseconds: u64, pauses: &mut GhostList<u64>) {
        thread::sleep(self.rt, Duration::from_millis(milliseconds));
        *pauses = pauses.with(&milliseconds);
    }
}
