//! The watch by which a promise is decided.
ghost use Rattle.std.specs.Prelude.{◌≡◌, ◌≤◌, ◌<◌, ◌+◌, ◌-◌, ◌^◌, IfOk, cond, map};
ghost use Rattle.wh_rows.specs.Watches.{took, new_standing};
ghost use Rattle.wh_rows.specs.Promises.{watch_of};
ghost use Rattle.wh_table_promises.specs.Promised.{happening_of, promise_of};
ghost use Rattle.wh_table_promises.specs.Private.Seen.{turn_seen, standing_seen};

use crate::promise::{Happening, TablePromise};
use std::alloc::Global;
use wh_events::OutOfMemory;

/// A turn of a watch.
#[derive(Clone, Copy)]
pub(crate) struct WatchTurn<'a> {
    /// In this state of the watch.
    pub from: u64,
    /// Where this happens.
    pub what: &'a Happening,
    /// It goes on in that state.
    pub to: u64,
    /// And spends one, or nothing.
    pub spends: bool,
}

/// Where a watch stands.
#[derive(Clone, Copy)]
pub(crate) struct WatchState {
    /// Its state.
    pub at: u64,
    /// What it has spent.
    pub spent: u64,
}

/// Where a watch begins.
pub(crate) fn new_standing() -> WatchState
    ensures { standing_seen result ≡ new_standing }
{
    WatchState { at: 1, spent: 0 }
}

/// Where a watch stands after a turn.
pub(crate) fn watch_after_turn(turn: &WatchTurn, now: WatchState) -> WatchState
    requires { now.spent < 2 ^ 64 - 1 }
    ensures took { standing_seen result ≡ took (turn_seen turn.now) (standing_seen now) }
    ensures least { now.spent ≤ result.spent }
    ensures most { result.spent ≤ now.spent + 1 }
{
    let cost = if turn.spends { 1 } else { 0 };
    WatchState {
        at: turn.to,
        spent: now.spent + cost,
    }
}

/// What the watch of a promise may spend.
pub(crate) fn budget_of(promise: &TablePromise) -> u64
    ensures { result ≡ (watch_of (promise_of promise.now)).budget }
{
    match promise {
        TablePromise::AtMost(most, _) => *most,
        _ => 0,
    }
}

/// A turn of a watch.
fn new_turn<'a>(from: u64, what: &'a Happening, to: u64, spends: bool) -> WatchTurn<'a>
    ensures { turn_seen result
        ≡ record { from = from; what = happening_of what.now; to = to; cost = cond spends 1 0 } }
{
    WatchTurn {
        from,
        what,
        to,
        spends,
    }
}

/// The turns of the watch of a promise.
pub(crate) fn turns_of<'a>(
    alloc: Global,
    promise: &'a TablePromise,
) -> Result<Vec<WatchTurn<'a>>, OutOfMemory>
    ensures { IfOk result (λ turns. map turn_seen turns.items ≡ (watch_of (promise_of promise.now)).turns) }
{
    let mut turns = Vec::new(alloc);
    match promise {
        TablePromise::AtMost(_, what) => turns.push(new_turn(1, what, 1, true))?,
        TablePromise::OnlyAfter(first, what) => {
            turns.push(new_turn(1, what, 1, true))?;
            turns.push(new_turn(1, first, 2, false))?;
        }
        TablePromise::NeverAfter(first, what) => {
            turns.push(new_turn(1, first, 2, false))?;
            turns.push(new_turn(2, what, 2, true))?;
        }
        TablePromise::Between(first, last, what) => {
            turns.push(new_turn(1, first, 2, false))?;
            turns.push(new_turn(2, last, 2, true))?;
            turns.push(new_turn(2, what, 3, false))?;
        }
    }
    Ok(turns)
}
