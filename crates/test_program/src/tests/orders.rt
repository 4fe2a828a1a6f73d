//! Orders, step by step.

use order::{Order, OrderState, parcel_id, receipt};
use std::alloc::Global;
use std::process::Abort;
use wh_events::{Items, Payload, Text};
use wh_workflow::{
    ActivityEnd, ChildEnd, Command, Job, Meter, QueryResult, Workflow, no_payloads, query_state,
    text_of,
};

fn text(rt: &impl Abort, alloc: Global, content: &str) -> Text {
    text_of(alloc, content).expect(rt, "memory")
}

/// A payload without an encoding.
fn payload(rt: &impl Abort, alloc: Global, content: &[u8]) -> Payload {
    let mut bytes = Vec::new(alloc);
    for byte in content {
        bytes.push(*byte).expect(rt, "memory");
    }
    Payload {
        encoding: Items::new(Vec::new(alloc)),
        content: Items::new(bytes),
    }
}

/// An input of a price and one more payload.
fn price_input(rt: &impl Abort, alloc: Global, content: &[u8]) -> Items<Payload> {
    let price = payload(rt, alloc, b"1999");
    let second = payload(rt, alloc, content);
    Items::new(vec![in alloc; price, second].expect(rt, "memory"))
}

/// The job that starts an order.
fn start(rt: &impl Abort, alloc: Global, input: Items<Payload>) -> Job {
    Job::Start {
        workflow: text(rt, alloc, "Order"),
        input,
    }
}

/// The job of the charge that completed.
fn charge_completed(rt: &impl Abort, alloc: Global) -> Job {
    Job::Activity {
        id: text(rt, alloc, "charge"),
        end: ActivityEnd::Completed(no_payloads(alloc)),
    }
}

/// The job of the timer that fired after the day.
fn timer_fired(rt: &impl Abort, alloc: Global) -> Job {
    Job::TimerFired {
        id: text(rt, alloc, "hold"),
    }
}

/// The job of the signal that cancels an order.
fn cancel(rt: &impl Abort, alloc: Global) -> Job {
    Job::Signal {
        name: text(rt, alloc, "cancel"),
        input: no_payloads(alloc),
    }
}

/// The job of the version with tracked parcels.
fn version_job(rt: &impl Abort, alloc: Global) -> Job {
    Job::Version {
        change_id: text(rt, alloc, "tracked"),
        version: 1,
    }
}

/// The job of the child with this id that completed.
fn child_completed(rt: &impl Abort, alloc: Global, parcel: &str) -> Job {
    Job::Child {
        workflow_id: text(rt, alloc, parcel),
        end: ChildEnd::Completed(no_payloads(alloc)),
    }
}

/// The commands that an order gives to the job.
fn step(rt: &impl Abort, alloc: Global, state: &mut OrderState, job: Job) -> Vec<Command> {
    let mut out = Vec::new(alloc);
    let stepped = Order::step(alloc, state, &job, &mut out, &mut Meter::new());
    drop(job);
    assert!(rt; stepped.is_ok());
    out
}

/// An order begins, and charges the card.
fn charges(rt: &impl Abort, alloc: Global, input: Items<Payload>) -> OrderState {
    let mut state = Order::begin(alloc, "Order").expect(rt, "memory");
    let given = step(rt, alloc, &mut state, start(rt, alloc, input));
    assert!(rt;
        matches!(given.as_slice(), [Command::StartActivity { id, .. }] if id.get() == "charge")
    );
    state
}

/// An order whose card was charged is held for a day.
fn holds(rt: &impl Abort, alloc: Global, input: Items<Payload>) -> OrderState {
    let mut state = charges(rt, alloc, input);
    let given = step(rt, alloc, &mut state, charge_completed(rt, alloc));
    assert!(rt;
        matches!(given.as_slice(), [Command::StartTimer { id, seconds: 86_400 }] if id.get() == "hold")
    );
    state
}

/// After the day it asks whether parcels are tracked.
fn asks(rt: &impl Abort, alloc: Global, input: Items<Payload>) -> OrderState {
    let mut state = holds(rt, alloc, input);
    let given = step(rt, alloc, &mut state, timer_fired(rt, alloc));
    assert!(rt;
        matches!(
            given.as_slice(),
            [Command::Ask {
                min: -1,
                max: 1,
                ..
            }]
        )
    );
    state
}

/// Then it is shipped by a child of the id.
fn ships(rt: &impl Abort, alloc: Global, input: Items<Payload>, parcel: &str) -> OrderState {
    let mut state = asks(rt, alloc, input);
    let given = step(rt, alloc, &mut state, version_job(rt, alloc));
    assert!(rt;
        matches!(given.as_slice(), [Command::StartChild { workflow_id, workflow, .. }]
            if workflow_id.get() == parcel && workflow.get() == "ShipTracked")
    );
    state
}

#[test]
fn an_order_is_shipped_after_a_day(rt: HostRuntime) {
    let alloc = rt.alloc();
    let mut state = ships(&rt, alloc, no_payloads(alloc), "parcel");
    let given = step(
        &rt,
        alloc,
        &mut state,
        child_completed(&rt, alloc, "parcel"),
    );
    assert!(&rt; matches!(given.as_slice(), [Command::Complete { .. }]));
    assert!(&rt; matches!(state, OrderState::Closed));
}

#[test]
fn an_order_with_a_name_waits_for_its_own_parcel(rt: HostRuntime) {
    let alloc = rt.alloc();
    let input = price_input(&rt, alloc, b"\"order-1\"");
    let mut state = ships(&rt, alloc, input, "parcel-order-1");
    let given = step(
        &rt,
        alloc,
        &mut state,
        child_completed(&rt, alloc, "parcel"),
    );
    assert!(&rt; given.is_empty());
    let given = step(
        &rt,
        alloc,
        &mut state,
        child_completed(&rt, alloc, "parcel-order-1"),
    );
    assert!(&rt; matches!(given.as_slice(), [Command::Complete { .. }]));
}

/// The child of an order whose second payload has this content has the expected id.
fn is_named(rt: &impl Abort, alloc: Global, content: &[u8], wanted: &str) {
    let input = price_input(rt, alloc, content);
    let id = parcel_id(alloc, &input).expect(rt, "memory");
    assert_eq!(rt; id.get(), wanted);
}

#[test]
fn the_name_of_an_order_is_a_plain_json_text(rt: HostRuntime) {
    let alloc = rt.alloc();
    is_named(&rt, alloc, b"\"7\"", "parcel-7");
    is_named(&rt, alloc, b"\"\xc3\xa4 ~\x7f\"", "parcel-\u{e4} ~\u{7f}");
    is_named(&rt, alloc, b"\"\"", "parcel");
    is_named(&rt, alloc, b"\"", "parcel");
    is_named(&rt, alloc, b"", "parcel");
    is_named(&rt, alloc, b"7", "parcel");
    is_named(&rt, alloc, b"7\"", "parcel");
    is_named(&rt, alloc, b"\"7", "parcel");
    is_named(&rt, alloc, b" \"7\"", "parcel");
    is_named(&rt, alloc, b"\"7\" ", "parcel");
    is_named(&rt, alloc, b"\"a\"b\"", "parcel");
    is_named(&rt, alloc, b"\"a\\nb\"", "parcel");
    is_named(&rt, alloc, b"\"a\nb\"", "parcel");
    is_named(&rt, alloc, b"\"\xff\"", "parcel");
}

/// An order that is canceled cancels the timer and completes.
fn calls_off(rt: &impl Abort, alloc: Global) -> OrderState {
    let mut state = holds(rt, alloc, no_payloads(alloc));
    let given = step(rt, alloc, &mut state, cancel(rt, alloc));
    assert!(rt;
        matches!(
            given.as_slice(),
            [Command::CancelTimer { .. }, Command::Complete { .. }]
        )
    );
    state
}

#[test]
fn an_order_is_called_off(rt: HostRuntime) {
    let mut state = calls_off(&rt, rt.alloc());
    let given = step(&rt, rt.alloc(), &mut state, timer_fired(&rt, rt.alloc()));
    assert!(&rt; given.is_empty());
}

/// The result of charging a card with a price.
fn price_back(rt: &impl Abort, alloc: Global, kind: &str) -> Option<Items<Payload>> {
    let price = payload(rt, alloc, b"9");
    let input = Items::new(vec![in alloc; price].expect(rt, "memory"));
    let given = receipt(kind, &input);
    drop(input);
    given.expect(rt, "memory")
}

#[test]
fn a_charged_card_gives_back_what_it_was_charged_with(rt: HostRuntime) {
    let charged = price_back(&rt, rt.alloc(), "ChargeCard").expect(&rt, "a receipt");
    assert!(&rt; matches!(charged.get(), [payload] if payload.content.get() == [b'9'].as_slice()));
    assert!(&rt; price_back(&rt, rt.alloc(), "RefundCard").is_none());
}

/// The answer of an order to a query, as a text: that of the only payload, or why there is none.
fn query_text(rt: &impl Abort, alloc: Global, state: &OrderState, query_type: &str) -> String {
    let given = query_state::<Order>(alloc, state, query_type, &[]).expect(rt, "memory");
    let text = match &given {
        QueryResult::Answered(payloads) => match payloads.get() {
            [only] => str::from_utf8(only.content.get()).expect(rt, "a text"),
            _ => "not one payload",
        },
        QueryResult::Failed(reason) => reason.get(),
    };
    String::from_str(alloc, text).expect(rt, "memory")
}

#[test]
fn an_order_says_how_far_it_has_come(rt: HostRuntime) {
    let alloc = rt.alloc();
    let charging = charges(&rt, alloc, no_payloads(alloc));
    assert_eq!(rt;
        query_text(&rt, alloc, &charging, "status").as_str(),
        "\"charging\""
    );
    let held = holds(&rt, alloc, no_payloads(alloc));
    assert_eq!(rt;
        query_text(&rt, alloc, &held, "status").as_str(),
        "\"held\""
    );
    let shipping = ships(&rt, alloc, no_payloads(alloc), "parcel");
    assert_eq!(rt;
        query_text(&rt, alloc, &shipping, "status").as_str(),
        "\"shipping\""
    );
    let closed = calls_off(&rt, alloc);
    assert_eq!(rt;
        query_text(&rt, alloc, &closed, "status").as_str(),
        "\"closed\""
    );
    let unknown = query_text(&rt, alloc, &closed, "price");
    assert_eq!(rt; unknown.as_str(), "unknown query type price; known: status");
}
