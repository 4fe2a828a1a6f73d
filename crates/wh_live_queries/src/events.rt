//! The history from which a query is answered if its run is not cached.
ghost use Rattle.std.specs.Prelude.{◌≡◌, IfOk, map};
ghost use Rattle.serde_json.specs.View.{view};
ghost use Rattle.wh_live_queries.specs.DeskAnswers.{IsFetched, IsOwn, AreRunEvents};
ghost use Rattle.wh_replay.specs.Runs.{follows};

use serde_json::Value;
use wh_client::{AskFault, Client, Connection, read_history};
use wh_events::{Event, RunKey, Text};

/// Returns whether events begin with the first one of a history.
fn begins_with_first(events: &[Event]) -> bool
    ensures { result ≡ follows 0 events.now }
{
    match events.first() {
        Some(event) => event.number.get() == 1,
        None => false,
    }
}

/// Reads the events that a query comes with, and those of the pages after them.
fn own_events<L: Connection>(
    client: &Client<'_, L>,
    run: &RunKey,
    next_page: Text,
    members: Vec<Value>,
) -> Result<Vec<Event>, AskFault>
    ensures { IfOk result (λ events. IsOwn L.gives client.now.options.now.names run.now next_page
        (map view members.items) events.items) }
{
    let all = client.with_pages(run, next_page, members)?;
    read_history(client.allocator(), all.as_slice())
}

/// Fetches the events of a run from the first one.
fn fetched_events<L: Connection>(
    client: &Client<'_, L>,
    run: &RunKey,
) -> Result<Vec<Event>, AskFault>
    ensures { IfOk result (λ events. IsFetched L.gives client.now.options.now.names run.now events.items) }
{
    let all = client.fetch_history(run)?;
    read_history(client.allocator(), all.as_slice())
}

/// Returns the history of a query's run: the events that the query comes with if they begin with
/// the first one, and otherwise those that are fetched. The error says why it could not be read.
pub(crate) fn run_events<L: Connection>(
    client: &Client<'_, L>,
    run: &RunKey,
    next_page: Text,
    members: Vec<Value>,
) -> Result<Vec<Event>, AskFault>
    ensures { IfOk result (λ events. AreRunEvents L.gives client.now.options.now.names run.now next_page
        (map view members.items) events.items) }
{
    if members.is_empty() {
        return fetched_events(client, run);
    }
    let events = own_events(client, run, next_page, members)?;
    if begins_with_first(events.as_slice()) {
        return Ok(events);
    }
    fetched_events(client, run)
}
