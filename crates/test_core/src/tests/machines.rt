//! Which events are in place, and the status of each thing.

use std::alloc::Global;
use std::process::Abort;
use test_support::{events, events_after, row, wants};
use wh_events::{Event, EventKind, EventNo, Items, OpenKind, Status, Text};
use wh_machines::{PushFault, Track};
use wh_workflow::text_of;

/// A history, the result of pushing further events, each with the next number, and how many events
/// the track then holds.
const PLACES: &str = "\
nap/5 then timer_fired:9 timer_fired:6 timer_fired:0 timer_fired:3 cancel_child:kid timer:nap completed S => ([Err(Place(NoSuchRef)), Err(Place(NoSuchRef)), Err(Place(NoSuchRef)), Err(Place(WrongKindRef)), Err(Place(NoSuchRef)), Err(Place(IdInUse)), Ok(()), Err(Place(AfterClose))], 6)
nap/5 then timer_fired:5 timer_fired:5 => ([Ok(()), Err(Place(AlreadyClosed))], 6)
 then ignored => ([Err(Place(FirstNotStart))], 0)
";

/// The track of a history whose events are in place.
pub(crate) fn track_of(rt: &impl Abort, alloc: Global, history: &'static str) -> Track {
    let mut track = Track::new(alloc);
    for event in events(alloc, history).expect(rt, history) {
        track.push(event).expect(rt, history);
    }
    track
}

/// Pushes an event of the kind, with the next number.
fn push(rt: &impl Abort, track: &mut Track, body: EventKind) -> Result<(), PushFault> {
    let number = EventNo::new((track.len() as u64).saturating_add(1)).expect(rt, "a number");
    track.push(Event {
        number,
        time: 0,
        body,
    })
}

/// The result of pushing further events to the track of a history, and how many events it then
/// holds.
fn pushes(
    rt: &impl Abort,
    alloc: Global,
    history: &'static str,
    further: &'static str,
) -> (Vec<Result<(), PushFault>>, usize) {
    let mut track = track_of(rt, alloc, history);
    let mut answers = Vec::new(alloc);
    for event in events_after(alloc, further, 0).expect(rt, further) {
        let answer = push(rt, &mut track, event.body);
        test_support::push(&mut answers, answer).expect(rt, "memory");
    }
    (answers, track.into_events().len())
}

#[test]
fn judges_places(rt: HostRuntime) {
    for line in PLACES.lines() {
        let (given, wanted) = row(line).expect(&rt, line);
        let (history, further) = given.split_once(" then ").expect(&rt, given);
        let pushed = pushes(&rt, rt.alloc(), history, further);
        wants(rt.alloc(), pushed, wanted).expect(&rt, given);
    }
}

/// Fires the timer that was started last.
fn fire(rt: &impl Abort, track: &mut Track) {
    let started = track.len() as u64;
    push(rt, track, EventKind::TimerFired { started }).expect(rt, "in place");
}

/// Starts a timer of the id, and fires it.
fn start_and_fire(rt: &impl Abort, alloc: Global, track: &mut Track, id: &str) {
    let id = text_of(alloc, id).expect(rt, "memory");
    push(rt, track, EventKind::TimerStarted { id }).expect(rt, "in place");
    fire(rt, track);
}

/// Whether a value may go to another thread.
fn sendable<T: Send>(_value: &T) {}

/// The timer `nap` that was opened last before a place, and its status then.
fn last_nap(rt: &impl Abort, track: &Track, place: u64, opened: u64, status: Status) {
    let last = track.last_at(OpenKind::Timer, "nap", place);
    let opened = EventNo::new(opened).expect(rt, "a number");
    assert!(rt; last == Some((opened, status)), "at {place}");
}

/// The thing that the event of this number opened has this status, as text.
fn stands(rt: &impl Abort, alloc: Global, track: &Track, opened: u64, status: &str) {
    let opened = EventNo::new(opened).expect(rt, "a number");
    wants(alloc, track.status(opened), status).expect(rt, "a status");
}

/// A copy of a track of six events takes a seventh, and the original still has six.
fn copies(rt: &impl Abort, track: &Track) {
    let mut copy = track.try_copy().expect(rt, "memory");
    push(rt, &mut copy, EventKind::WorkflowTaskScheduled).expect(rt, "in place");
    assert!(rt; copy.len() == 7 && track.len() == 6);
    drop(copy);
}

#[test]
fn follows_the_timer_of_a_nap(rt: HostRuntime) {
    let alloc = rt.alloc();
    let mut track = track_of(&rt, alloc, "nap/5");
    sendable(&track);
    let opened = track.open_named(OpenKind::Timer, "nap");
    wants(alloc, opened, "Some(5)").expect(&rt, "a timer");
    fire(&rt, &mut track);
    stands(&rt, alloc, &track, 5, "Some(Closed by: 6)");
    last_nap(&rt, &track, 5, 5, Status::Open);
    copies(&rt, &track);
    assert!(rt; track.between(0, 1).is_empty());
    assert!(rt; track.into_events().len() == 6);
}

/// No history in JSON has such a large number.
#[test]
fn refuses_a_number_that_no_event_has(rt: HostRuntime) {
    let mut track = track_of(&rt, rt.alloc(), "nap/5");
    let fired = EventKind::TimerFired { started: 1 << 63 };
    let pushed = push(&rt, &mut track, fired);
    wants(rt.alloc(), pushed, "Err(Place(NoSuchRef))").expect(&rt, "2^63");
}

/// Timers named `nap` are opened by event 3 and each second one after it, up to event 199; the
/// event after each fires it.
fn finds_each_nap(rt: &impl Abort, track: &Track) {
    for pair in 2..100u64 {
        let opened = 2 * pair + 1;
        let by = EventNo::new(2 * pair + 2).expect(rt, "a number");
        last_nap(rt, track, opened, opened, Status::Open);
        last_nap(rt, track, by.get(), opened, Status::Closed { by });
    }
}

#[test]
fn walks_back_over_timers_of_one_id(rt: HostRuntime) {
    let mut track = track_of(&rt, rt.alloc(), "nap/6");
    for _ in 3..100u64 {
        start_and_fire(&rt, rt.alloc(), &mut track, "nap");
    }
    finds_each_nap(&rt, &track);
    assert!(rt; track.last_at(OpenKind::Timer, "nap", 4).is_none());
}

/// The track of a start and as many timers as there is room for, each fired.
fn full_track(rt: &impl Abort, alloc: Global) -> Track {
    let mut track = track_of(rt, alloc, "start:Nap");
    for pair in 1..25_600u64 {
        let id = format!(in alloc; "{pair}").expect(rt, "memory");
        start_and_fire(rt, alloc, &mut track, id.as_str());
    }
    track
}

#[test]
fn holds_the_most_events(rt: HostRuntime) {
    let alloc = rt.alloc();
    let mut track = full_track(&rt, alloc);
    let opened = track.open_named(OpenKind::Timer, "25599");
    wants(alloc, opened, "None").expect(&rt, "an open timer");
    let last = track.last_named(OpenKind::Timer, "25599");
    wants(alloc, last, "Some(51198)").expect(&rt, "the last timer");
    stands(&rt, alloc, &track, 51_198, "Some(Closed by: 51199)");
    let pushed = push(&rt, &mut track, EventKind::WorkflowTaskScheduled);
    wants(alloc, pushed, "Ok(())").expect(&rt, "event 51200");
    let pushed = push(&rt, &mut track, EventKind::WorkflowTaskStarted);
    wants(alloc, pushed, "Err(Place(TooManyEvents))").expect(&rt, "event 51201");
}

/// A timer of a new id, made again if the first try found no memory.
fn new_timer(rt: &impl Abort, alloc: Global, number: u64) -> EventKind {
    let id = match format!(in alloc; "timer {number}") {
        Ok(id) => id,
        Err(_) => format!(in alloc; "timer {number}").expect(rt, "memory"),
    };
    EventKind::TimerStarted { id: Text::new(id) }
}

/// The start of a run, which allocates no text.
fn start(alloc: Global) -> EventKind {
    EventKind::WorkflowExecutionStarted {
        workflow: Text::new(String::new(alloc)),
        input: Items::new(Vec::new(alloc)),
    }
}

/// A track of one event. Its push is repeated if a growth is refused.
fn started(rt: &impl Abort, alloc: Global) -> Track {
    let mut track = Track::new(alloc);
    if push(rt, &mut track, start(alloc)).is_err() {
        push(rt, &mut track, start(alloc)).expect(rt, "in place");
    }
    track
}

/// If memory runs out, the track is as it was before this number, and the same push can be
/// repeated.
fn pushes_again(rt: &impl Abort, alloc: Global, track: &mut Track, number: u64, fault: PushFault) {
    assert!(rt; fault == PushFault::OutOfMemory);
    assert!(rt; (track.len() as u64).saturating_add(1) == number);
    stands(rt, alloc, track, number, "None");
    push(rt, track, new_timer(rt, alloc, number)).expect(rt, "in place");
}

/// Each timer is open after its push. A growth is refused only if the tests run with refusals, and
/// then once.
#[test]
fn a_push_can_be_made_again(rt: HostRuntime) {
    let alloc = rt.alloc();
    let mut track = started(&rt, alloc);
    let mut refusals = 0u32;
    for number in 2..60u64 {
        if let Err(fault) = push(&rt, &mut track, new_timer(&rt, alloc, number)) {
            refusals = refusals.saturating_add(1);
            pushes_again(&rt, alloc, &mut track, number, fault);
        }
        stands(&rt, alloc, &track, number, "Some(Open)");
    }
    assert!(rt; refusals < 2);
}
