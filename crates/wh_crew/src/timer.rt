//! Sends what the heartbeats of workers hold, once its time has come.

use crate::heartbeats::beat;
use std::sync::{Arc, Wait};
use std::time::{Clock, Duration};
use wh_client::{Client, Connection};
use wh_host::EndSignal;
use wh_tasks::ActivityCell;

/// How long it is from one look of the timer at what is held to the next, in milliseconds.
const LOOK: u64 = 100;

/// Returns the time of a clock that does not go back, in milliseconds, if there is one.
pub(crate) fn milliseconds<R: Clock>(rt: &R) -> Option<u64> {
    match rt.monotonic() {
        Ok(time) => u64::try_from(time.as_millis()).ok(),
        Err(_) => None,
    }
}

/// Sends what is held in a cell, if it may be sent now.
fn send_due<R: Wait + Clock, L: Connection>(rt: &R, client: &Client<'_, L>, cell: &ActivityCell) {
    let now = milliseconds(rt);
    if !cell.has_due(rt, now) {
        return;
    }
    let Ok(Some(token)) = cell.token(rt) else {
        return;
    };
    if let Some(details) = cell.take_due(rt, &token, now) {
        let names = &client.options.names;
        let _ = beat(rt, client.connection, names, cell, &token, details);
    }
}

/// Sends what is held in the cells once its time has come, one after another, until the workers
/// have ended. It looks each tenth of a second (Temporal documentation, "Activity Heartbeat", on
/// throttling).
pub(crate) fn send_held<R: Wait + Clock, L: Connection>(
    rt: &R,
    client: &Client<'_, L>,
    cells: &[Arc<ActivityCell>],
    signal: &EndSignal,
) {
    for _round in rt.forever() {
        if !signal.wait(rt, Duration::from_millis(LOOK)) {
            break;
        }
        for cell in cells {
            send_due(rt, client, cell);
        }
    }
}
