//! The weight of a cached run.

ghost use Rattle.std.specs.Prelude.{◌≡◌, ◌≤◌, min, sum_by};
ghost use Rattle.wh_replay.specs.Runs.{history_of};
ghost use Rattle.wh_host.specs.Weights.{input_of, payload_bytes, weight_of};

use std::marker::Model;
use wh_events::{Event, EventKind, Payload, RunKey};
use wh_replay::{ReplayedHistory, Run};
use wh_workflow::Workflow;

/// The most bytes of a run's input that count: 4 GiB.
const MOST_INPUT_BYTES: u64 = 4_294_967_296;

/// The largest weight of a run: 51,200 events, and 4 GiB of input.
pub const MOST_WEIGHT: u64 = 4_245_504;

/// Returns the weight of a run: one for each event that it holds, and one for each whole KiB of its
/// input. At most 4 GiB of the input count.
pub(crate) fn weight_of<W: Workflow>(run: &Run<W>) -> u64
    ensures weight { result ≡ weight_of run.now.events }
    ensures most { result ≤ MOST_WEIGHT }
{
    let bytes = bytes_of(input_of(run.events())).min(MOST_INPUT_BYTES);
    run.held_len() as u64 + bytes / 1024
}

/// Returns the input of a run, or nothing if the first event doesn't start the run.
fn input_of(events: &[Event]) -> &[Payload]
    ensures { result.now ≡ input_of events.now }
{
    if let Some(event) = events.first()
        && let EventKind::WorkflowExecutionStarted { input, .. } = &event.body
    {
        return input.get();
    }
    &[]
}

/// Counts the bytes of the payloads, with the names of their encodings. Stops at 2^64 - 1.
fn bytes_of(payloads: &[Payload]) -> u64
    ensures { result ≡ min (sum_by payload_bytes payloads.now) u64.MAX }
{
    let mut bytes: u64 = 0;
    for payload in payloads {
        bytes = bytes.saturating_add(payload.encoding.get().len() as u64);
        bytes = bytes.saturating_add(payload.content.get().len() as u64);
    }
    bytes
}

/// A cached history with its weight. Contracts see the history.
#[derive(Drop)]
pub(crate) struct Weighed<W: Workflow> {
    history: ReplayedHistory<W>,
    weight: u64,
}

impl<W: Workflow> Model for Weighed<W> {
    ghost use Rattle.std.specs.Prelude.{◌≡◌, ◌≤◌};
    ghost use Rattle.wh_replay.specs.Runs.{HistoryView};
    ghost use Rattle.wh_host.specs.Weights.{weight_of};

    ghost Value = { HistoryView };

    ghost view = { λ weighed. weighed.history };

    ghost invariant = { λ weighed.
        (weighed.weight ≡ weight_of weighed.history.events)
        × (weighed.weight ≤ 4_245_504) };
}

impl<W: Workflow> Weighed<W> {
    /// Splits a run into its key and its weighed history.
    pub(crate) fn of(run: Run<W>) -> (RunKey, Self)
        ensures key { result.0 ≡ run.key }
        ensures history { result.1 ≡ history_of run }
    {
        let weight = weight_of(&run);
        let (key, history) = run.into_parts();
        (key, Weighed { history, weight })
    }

    /// Returns the weight of the run.
    pub(crate) fn weight(&self) -> u64
        ensures weight { result ≡ weight_of self.now.events }
        ensures most { result ≤ MOST_WEIGHT }
    {
        self.weight
    }

    /// Returns the history.
    pub(crate) fn history(&self) -> &ReplayedHistory<W>
        ensures { result.now ≡ self.now }
    {
        &self.history
    }

    /// Returns the history without its weight.
    pub(crate) fn into_history(self) -> ReplayedHistory<W>
        ensures { result ≡ self }
    {
        self.history
    }
}
