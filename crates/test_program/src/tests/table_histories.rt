//! Histories, replayed by tables and by code.

use std::alloc::Global;
use std::test::Fail;
use test_support::{bytes_of, same, shown};
use wh_tester::verdict;
use wh_workflow::Workflow;

/// The table and the code give this verdict on a history, as text.
fn both<T: Workflow, C: Workflow>(
    alloc: Global,
    history: &'static str,
    wanted: &str,
) -> Result<(), Fail> {
    let bytes = bytes_of(alloc, history)?;
    let by_table = shown(alloc, &verdict::<T>(alloc, bytes.as_slice()))?;
    let by_code = shown(alloc, &verdict::<C>(alloc, bytes.as_slice()))?;
    same(alloc, by_table.as_str(), wanted)?;
    same(alloc, by_code.as_str(), wanted)?;
    Ok(())
}

/// Histories of naps, and the verdicts on them.
const NAPS: [(&str, &str); 5] = [
    ("nap", "Good(ReplayedTasks tasks: 2, live: false)"),
    ("nap/8", "Good(ReplayedTasks tasks: 2, live: true)"),
    ("nap/3", "Good(ReplayedTasks tasks: 1, live: true)"),
    (
        "nap/8 C failed",
        "Faulty(Mismatch at: 8, mismatch: Different event: 10)",
    ),
    (
        "start:Nap S T C timer:nip timer_fired:5 S T C completed",
        "Faulty(Mismatch at: 3, mismatch: Different event: 5)",
    ),
];

#[test]
fn a_nap_replays_as_its_code(rt: HostRuntime) -> Result<(), Fail> {
    for (history, wanted) in NAPS {
        both::<row_samples::Nap, wh_sample_workflows::Nap>(rt.alloc(), history, wanted)?;
    }
    Ok(())
}

/// Histories of families, and the verdicts on them.
const FAMILIES: [(&str, &str); 5] = [
    ("family", "Good(ReplayedTasks tasks: 3, live: false)"),
    ("family/9", "Good(ReplayedTasks tasks: 2, live: false)"),
    (
        "start:Family S T C child:kid:Nap child_started:5 signal:stop S T C cancel_child:kid cancel_sent:11 child_canceled:5 S T C canceled",
        "Good(ReplayedTasks tasks: 3, live: false)",
    ),
    (
        "start:Family S T C child:kid:Nap child_refused:5 S T C failed",
        "Good(ReplayedTasks tasks: 2, live: false)",
    ),
    (
        "start:Family S T C child:kid:Nap child_started:5 S T C child_terminated:5 S T C completed",
        "Faulty(Mismatch at: 12, mismatch: Different event: 14)",
    ),
];

#[test]
fn a_family_replays_as_its_code(rt: HostRuntime) -> Result<(), Fail> {
    for (history, wanted) in FAMILIES {
        both::<row_samples::Family, wh_sample_workflows::Family>(rt.alloc(), history, wanted)?;
    }
    Ok(())
}

/// Histories of orders, and the verdicts on them: shipped without a version and with one, refused,
/// canceled, canceled without the timer's cancellation, canceled too early, and shipped as tracked
/// without a version.
const ORDERS: [(&str, &str); 7] = [
    (
        "start:Order S T C activity:charge:ChargeCard activity_started:5 activity_completed:5 S T C timer:hold timer_fired:11 S T C child:parcel:Ship child_started:16 S T C child_completed:16 S T C completed",
        "Good(ReplayedTasks tasks: 5, live: false)",
    ),
    (
        "start:Order S T C activity:charge:ChargeCard activity_started:5 activity_completed:5 S T C timer:hold timer_fired:11 S T C chg_marker:MQ== child:parcel:ShipTracked child_started:17 S T C child_completed:17 S T C completed | ImNoZyI= -> InRyYWNrZWQi",
        "Good(ReplayedTasks tasks: 5, live: false)",
    ),
    (
        "start:Order S T C activity:charge:ChargeCard activity_started:5 activity_failed:5 S T C failed",
        "Good(ReplayedTasks tasks: 2, live: false)",
    ),
    (
        "start:Order S T C activity:charge:ChargeCard activity_started:5 activity_completed:5 S T C timer:hold signal:cancel S T C timer_canceled:11 completed",
        "Good(ReplayedTasks tasks: 3, live: false)",
    ),
    (
        "start:Order S T C activity:charge:ChargeCard activity_started:5 activity_completed:5 S T C timer:hold signal:cancel S T C completed",
        "Faulty(Mismatch at: 14, mismatch: Different event: 16)",
    ),
    (
        "start:Order S T C activity:charge:ChargeCard signal:cancel S T C activity_canceled:5 S T C failed",
        "Good(ReplayedTasks tasks: 3, live: false)",
    ),
    (
        "start:Order S T C activity:charge:ChargeCard activity_started:5 activity_completed:5 S T C timer:hold timer_fired:11 S T C child:parcel:ShipTracked child_started:16 S T C child_completed:16 S T C completed",
        "Faulty(Mismatch at: 14, mismatch: Different event: 16)",
    ),
];

#[test]
fn an_order_replays_as_its_code(rt: HostRuntime) -> Result<(), Fail> {
    for (history, wanted) in ORDERS {
        both::<row_samples::Order, order::Order>(rt.alloc(), history, wanted)?;
    }
    Ok(())
}
