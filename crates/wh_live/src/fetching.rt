//! Fetches histories from their first event.

ghost use Rattle.std.specs.Prelude.{◌≡◌, ◌++◌, ◌+◌, ◌==◌, None, Err, IfErr, IfOk, IsErr, OnOk, position};
ghost use Rattle.wh_tasks.specs.Numbers.{last_number};
ghost use Rattle.wh_tasks.specs.Source.{FailsOnly};
ghost use Rattle.wh_live.specs.Deliveries.{IsFetched, continued, going_on};
ghost use Rattle.wh_live.specs.Private.Noting.{CountsFetch, CountsUnread, IsUnfetched};
ghost use Rattle.wh_live.specs.Private.Opening.{later_of, KeepsLater};

use crate::answering::settle_unread;
use crate::tasks::OpenTask;
use wh_client::{AskFault, Client, Connection, read_history};
use wh_events::{Event, OutOfMemory, RunKey};
use wh_notes::{SourceNotes, Tally};
use wh_tasks::SourceFault;

/// Returns the number after that of the last event, 1 if there is none.
fn next_number(events: &[Event]) -> u64
    ensures { result ≡ last_number events.now + 1 }
{
    match events.last() {
        Some(event) => event.number.get() + 1,
        None => 1,
    }
}

/// Returns the index of the event of a number, if it is among these.
fn place_of(number: u64, events: &[Event]) -> Option<usize>
    ensures { result ≡ position (λ event. event.number == number) events.now }
{
    events.iter().position(|event| event.number.get() == number)
}

/// Returns those of the later events that continue the history: from the one with the next number
/// on.
fn going_on<'a>(history: &[Event], later: &'a [Event]) -> &'a [Event]
    ensures { result.now ≡ going_on history.now later.entry.now }
{
    match place_of(next_number(history), later) {
        Some(place) => &later[place..],
        None => &[],
    }
}

/// Appends copies of events. After an error some of them may have been appended.
pub(crate) fn append_copies(events: &mut Vec<Event>, more: &[Event]) -> Result<(), OutOfMemory>
    ensures { OnOk result (events.new.items ≡ events.old.items ++ more.now) }
{
    for event in more {
        events.push(event.try_copy()?)?;
    }
    Ok(())
}

/// Fetches the history of a run from its first event, continued by the later events that follow its
/// end, and cut after `up_to` events.
fn fetch<L: Connection>(
    client: &Client<'_, L>,
    later: &[Event],
    run: &RunKey,
    up_to: u64,
) -> Result<Vec<Event>, AskFault>
    ensures told { IfOk result (λ history.
        IsFetched L.gives client.now.options.now.names run.now later.now up_to history.items) }
    ensures failed { IfErr result (IsUnfetched L.gives L.fails client.now.options.now.names run.now) }
{
    let members = client.fetch_history(run)?;
    let mut history = read_history(client.allocator(), members.as_slice())?;
    let rest = going_on(history.as_slice(), later);
    append_copies(&mut history, rest)?;
    history.truncate(up_to as usize);
    Ok(history)
}

/// Returns the later events of the open task, if it is one of this run.
fn later_of<'a>(current: &'a Option<OpenTask>, run: &RunKey) -> &'a [Event]
    ensures { result.now ≡ later_of current.entry.now run.now }
{
    match current {
        Some(task) if task.run == *run => task.later.as_slice(),
        _ => &[],
    }
}

/// Notes the history from which the open task is replayed.
fn note_history(current: &mut Option<OpenTask>, history: &[Event])
    ensures { KeepsLater current.old current.new }
{
    if let Some(task) = current {
        task.note_events(history);
    }
}

/// Counts and reports that a history could not be fetched, and closes the open task. Returns the
/// error of the source.
fn fail_fetch<L: Connection>(
    client: &Client<'_, L>,
    tally: &mut Tally,
    notes: &mut SourceNotes,
    current: &mut Option<OpenTask>,
    fault: &AskFault,
) -> SourceFault
    ensures counts { CountsUnread L.gives L.fails L.shows client.now.options.now.names current.old fault.now
        tally.old tally.new notes.old notes.new }
    ensures current { current.new ≡ None }
    ensures failures { FailsOnly {A = Unit {0}} (Err result) tally.old.failures tally.new.failures }
{
    let is_fault = settle_unread(client, current, fault, notes);
    tally.count_failure(is_fault)
}

/// Fetches the history of a run, as a source does when asked for it. If the history is malformed
/// the open task is failed.
pub(crate) fn whole<L: Connection>(
    client: &Client<'_, L>,
    tally: &mut Tally,
    notes: &mut SourceNotes,
    current: &mut Option<OpenTask>,
    run: &RunKey,
    up_to: u64,
) -> Result<Vec<Event>, SourceFault>
    ensures told { IfOk result (λ history. IsFetched L.gives client.now.options.now.names run.now
        (later_of current.old run.now) up_to history.items) }
    ensures current { KeepsLater current.old current.new }
    ensures closed { IsErr result → current.new ≡ None }
    ensures counts { CountsFetch L.gives L.fails L.shows client.now.options.now.names run.now result
        current.old tally.old tally.new notes.old notes.new }
    ensures failures { FailsOnly result tally.old.failures tally.new.failures }
{
    match fetch(client, later_of(current, run), run, up_to) {
        Ok(history) => {
            note_history(current, history.as_slice());
            Ok(history)
        }
        Err(fault) => Err(fail_fetch(client, tally, notes, current, &fault)),
    }
}
