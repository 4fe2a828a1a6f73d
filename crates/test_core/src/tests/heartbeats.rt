//! What a worker's cell holds: the task that runs, its attempt, whether it is to be canceled, and
//! its heartbeats.

use std::alloc::Global;
use std::process::Abort;
use std::sync::Wait;
use test_support::{cut, next_number, row, same, wants};
use wh_events::{Items, Payload, Text};
use wh_tasks::{ActivityCell, ActivityInfo, ActivityTimes, HeartbeatResponse, HeartbeatStep};
use wh_workflow::text_of;

/// The Heartbeat Timeout of a task, followed by what happens, and what then is sent or told: `beat`
/// is a heartbeat at a time with details, `look` one of the timer, `heard` the response to the
/// heartbeat that was sent last, `last` the end of a handler that failed, `end` of one that did
/// not. At the time `-` there is no clock.
const HEARTBEATS: &str = "\
1000
look 0 => nothing
beat 0 1 => sends 1
beat 900 2 => GoOn
look 900 => nothing
heard GoOn => noted
look 799 => nothing
look 800 => sends 2
beat 1599 3 => GoOn
beat 1601 4 => GoOn
heard Unheard => noted
beat 1602 5 => sends 5
heard GoOn => noted
last => nothing

1000
beat 50 1 => sends 1
heard CancelRequested => noted
beat 849 2 => CancelRequested
beat 60 3 => CancelRequested
last => sends 3
look 9000 => nothing
beat 9000 4 => Gone

1000
beat 50 1 => sends 1
heard Unheard => noted
look 849 => nothing
look 850 => sends 1
heard Unheard => noted
beat 851 2 => GoOn
last => sends 2

1000
beat 50 1 => sends 1
beat 60 2 => GoOn
heard Gone => noted
beat 9000 3 => Gone
last => nothing

1000
beat 50 1 => sends 1
heard GoOn => noted
beat 60 2 => GoOn
end => nothing
look 9000 => nothing

1000
beat 500 1 => sends 1
heard GoOn => noted
beat 499 2 => sends 2
heard GoOn => noted
beat - 3 => sends 3
heard GoOn => noted
beat - 4 => sends 4
heard GoOn => noted
beat 1 5 => sends 5

0
beat 0 1 => sends 1
heard GoOn => noted
beat 29999 2 => GoOn
look 29999 => nothing
look 30000 => sends 2

1
beat 0 1 => sends 1
heard GoOn => noted
beat 0 2 => GoOn
beat 1 3 => sends 3

3600000
beat 0 1 => sends 1
heard GoOn => noted
beat 59999 2 => GoOn
beat 60000 3 => sends 3";

/// A token of this text.
fn token(rt: &impl Abort, alloc: Global, text: &str) -> Text {
    text_of(alloc, text).expect(rt, "memory")
}

/// The info of an attempt of this number.
fn attempt(number: u64) -> ActivityInfo {
    ActivityInfo {
        attempt: number,
        ..ActivityInfo::of_first_attempt()
    }
}

/// The cell holds this token and an attempt of this number, 0 if it holds none, and says this of
/// whether the tasks `one` and `two` are to be canceled.
fn holds<R: Wait + Abort>(
    rt: &R,
    alloc: Global,
    cell: &ActivityCell,
    running: &str,
    attempt: u64,
    canceled: (bool, bool),
) {
    wants(alloc, cell.token(rt), running).expect(rt, "token");
    let info = cell.info(rt).expect(rt, "memory");
    let known = match &info {
        Some(info) => info.attempt,
        None => 0,
    };
    assert!(rt; known == attempt, "attempt {known} for {running}");
    let one = cell.was_canceled(rt, &token(rt, alloc, "one"));
    let two = cell.was_canceled(rt, &token(rt, alloc, "two"));
    assert!(rt;
        one == canceled.0 && two == canceled.1,
        "{one}, {two} for {running}"
    );
}

#[test]
fn a_cancel_is_of_its_task_alone(rt: HostRuntime) {
    let alloc = rt.alloc();
    let one = token(&rt, alloc, "one");
    let two = token(&rt, alloc, "two");
    let cell = ActivityCell::new();
    holds(&rt, alloc, &cell, "Ok(None)", 0, (false, false));
    cell.note_cancel(&rt, &one);
    holds(&rt, alloc, &cell, "Ok(None)", 0, (false, false));
    cell.begin(&rt, &one, attempt(2));
    cell.note_cancel(&rt, &two);
    holds(&rt, alloc, &cell, "Ok(Some(one))", 2, (false, false));
    cell.note_cancel(&rt, &one);
    holds(&rt, alloc, &cell, "Ok(Some(one))", 2, (true, false));
    cell.begin(&rt, &two, attempt(1));
    holds(&rt, alloc, &cell, "Ok(Some(two))", 1, (false, false));
    cell.note_cancel(&rt, &one);
    holds(&rt, alloc, &cell, "Ok(Some(two))", 1, (false, false));
}

/// The details that are a number.
fn details(rt: &impl Abort, alloc: Global, number: u64) -> Items<Payload> {
    let number = u8::try_from(number).expect(rt, "a byte");
    let payload = Payload {
        encoding: Items::new(Vec::new(alloc)),
        content: Items::new(vec![in alloc; number].expect(rt, "memory")),
    };
    Items::new(vec![in alloc; payload].expect(rt, "memory"))
}

/// Says that details are sent, and notes them.
fn sends(
    rt: &impl Abort,
    alloc: Global,
    details: Items<Payload>,
    sent: &mut Option<Items<Payload>>,
) -> String {
    let number = match details.get().first() {
        Some(payload) => payload.content.get().first().copied().unwrap_or(0),
        None => 0,
    };
    *sent = Some(details);
    format!(in alloc; "sends {number}").expect(rt, "memory")
}

/// Says that details are sent, if there are any, and notes them.
fn sends_what_is_held(
    rt: &impl Abort,
    alloc: Global,
    held: Option<Items<Payload>>,
    sent: &mut Option<Items<Payload>>,
) -> String {
    match held {
        Some(details) => sends(rt, alloc, details, sent),
        None => String::from_str(alloc, "nothing").expect(rt, "memory"),
    }
}

/// The response of a name.
fn response(name: &str) -> HeartbeatResponse {
    match name {
        "GoOn" => HeartbeatResponse::GoOn,
        "CancelRequested" => HeartbeatResponse::CancelRequested,
        "Gone" => HeartbeatResponse::Gone,
        _ => HeartbeatResponse::Unheard,
    }
}

/// What happens to the task `one` of a cell, and what then is sent or told.
fn happens<R: Wait + Abort>(
    rt: &R,
    alloc: Global,
    cell: &ActivityCell,
    sent: &mut Option<Items<Payload>>,
    what: &'static str,
) -> String {
    let one = token(rt, alloc, "one");
    let two = token(rt, alloc, "two");
    let mut words = what;
    let word = cut(&mut words, " ");
    let named = words;
    let now = next_number(&mut words);
    match word {
        "beat" => {
            let number = next_number(&mut words).expect(rt, what);
            match cell.next_step(rt, &one, details(rt, alloc, number), now) {
                HeartbeatStep::Send(details) => sends(rt, alloc, details, sent),
                HeartbeatStep::Hold(response) => {
                    format!(in alloc; "{response:?}").expect(rt, "memory")
                }
            }
        }
        "look" => {
            let is_due = cell.has_due(rt, now);
            assert!(rt; cell.take_due(rt, &two, now).is_none());
            let due = cell.take_due(rt, &one, now);
            assert!(rt; due.is_some() == is_due);
            sends_what_is_held(rt, alloc, due, sent)
        }
        "heard" => {
            let details = sent.take().expect(rt, what);
            cell.hear(rt, &one, details, response(named));
            String::from_str(alloc, "noted").expect(rt, "memory")
        }
        "last" => {
            assert!(rt; cell.take_last(rt, &two).is_none());
            let last = cell.take_last(rt, &one);
            sends_what_is_held(rt, alloc, last, sent)
        }
        _ => {
            cell.end(rt, &two);
            cell.end(rt, &one);
            String::from_str(alloc, "nothing").expect(rt, "memory")
        }
    }
}

/// Runs a task of this Heartbeat Timeout in a cell, and compares what is sent and told.
fn runs<R: Wait + Abort>(rt: &R, alloc: Global, given: &'static str) {
    let mut steps = given;
    let timeout = cut(&mut steps, "\n").parse::<u64>().expect(rt, "a number");
    let info = ActivityInfo {
        times: ActivityTimes {
            heartbeat_timeout: Some(timeout),
            ..ActivityTimes::unknown()
        },
        ..ActivityInfo::of_first_attempt()
    };
    let cell = ActivityCell::new();
    cell.begin(rt, &token(rt, alloc, "one"), info);
    let mut sent = None;
    for line in steps.lines() {
        let (step, wanted) = row(line).expect(rt, line);
        let text = happens(rt, alloc, &cell, &mut sent, step);
        same(alloc, text.as_str(), wanted).expect(rt, step);
    }
}

#[test]
fn heartbeats_are_held(rt: HostRuntime) {
    for given in HEARTBEATS.split("\n\n") {
        runs(&rt, rt.alloc(), given);
    }
}
