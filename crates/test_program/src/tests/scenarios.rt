//! Scenarios that a table and its code both follow.

use std::alloc::Global;
use std::test::Fail;
use wh_author_tools::{ScenarioFault, follows};
use wh_workflow::Workflow;

/// Both the table and the code follow the scenario.
fn both<T: Workflow, C: Workflow>(
    alloc: Global,
    kind: &str,
    scenario: &str,
) -> Result<(), ScenarioFault> {
    follows::<T>(alloc, kind, scenario)?;
    follows::<C>(alloc, kind, scenario)
}

/// Naps, and the jobs that come from outside.
const NAP: &str = "
start 1                       => StartTimer nap (60 s)
signal stop; cancel           =>
done nap 1; fired nip         =>
failed nap; child-started nap =>
fired nap                     => Complete
";

#[test]
fn a_nap_is_one_of_code(rt: HostRuntime) -> Result<(), Fail> {
    both::<row_samples::Nap, wh_sample_workflows::Nap>(rt.alloc(), "Nap", NAP)?;
    Ok(())
}

/// How the child of a family may end, and signals before that.
const FAMILIES: [&str; 5] = [
    "
start               => StartChild kid Nap
signal go           =>
child-started kid   =>
child-done kod 1    =>
child-done kid 1 2  => Complete 1 2
",
    "
start               => StartChild kid Nap
signal stop         => CancelChild kid
signal stop; cancel =>
child-canceled kid  => Cancel
",
    "
start                 => StartChild kid Nap
signal stop           => CancelChild kid
child-done kid \"late\" => Complete \"late\"
",
    "
start                 => StartChild kid Nap
child-not-started kid => Fail kid
",
    "
start              => StartChild kid Nap
child-timed-out kid => Fail kid
",
];

#[test]
fn a_family_is_one_of_code(rt: HostRuntime) -> Result<(), Fail> {
    for scenario in FAMILIES {
        both::<row_samples::Family, wh_sample_workflows::Family>(rt.alloc(), "Family", scenario)?;
    }
    Ok(())
}

/// Orders: shipped with a name and without, before and after the change, canceled, and refused.
const ORDERS: [&str; 6] = [
    r#"
start 1999 "order-1"                => StartActivity charge ChargeCard 1999 "order-1"
signal cancel                       =>
done charge "receipt"               => StartTimer hold (86400 s)
fired hold                          => Ask tracked (-1 to 1)
version tracked 1                   => StartChild parcel-order-1 ShipTracked
child-started parcel-order-1        =>
child-done parcel 1                 =>
child-done parcel-order-1 "arrived" => Complete "arrived"
"#,
    r#"
start                  => StartActivity charge ChargeCard
done charge            => StartTimer hold (86400 s)
fired hold             => Ask tracked (-1 to 1)
version other 1        =>
version tracked -1     => StartChild parcel Ship
child-failed parcel    => Fail parcel
"#,
    r#"
start 7 "a\\nb"         => StartActivity charge ChargeCard 7 "a\\nb"
done charge; fired hold => StartTimer hold (86400 s); Ask tracked (-1 to 1)
version tracked 0       => StartChild parcel ShipTracked
child-canceled parcel   => Fail parcel
"#,
    r#"
start 1 2          => StartActivity charge ChargeCard 1 2
done charge        => StartTimer hold (86400 s)
signal call 1      =>
signal cancel 1    => CancelTimer hold; Complete
fired hold; cancel =>
"#,
    r#"
start         => StartActivity charge ChargeCard
failed charge => Fail charge
"#,
    r#"
start           => StartActivity charge ChargeCard
canceled charge => Fail charge
"#,
];

#[test]
fn an_order_is_one_of_code(rt: HostRuntime) -> Result<(), Fail> {
    for scenario in ORDERS {
        both::<row_samples::Order, order::Order>(rt.alloc(), "Order", scenario)?;
    }
    Ok(())
}

/// The result of a scenario of a nap, as text.
fn fault_of(alloc: Global, kind: &str, scenario: &str) -> Result<String, Fail> {
    match follows::<row_samples::Nap>(alloc, kind, scenario) {
        Ok(()) => Ok(String::from_str(alloc, "as it says")?),
        Err(fault) => Ok(format!(in alloc; "{fault:?}")?),
    }
}

/// Scenarios of a nap, and their results.
const FAULTS: [(&str, &str); 11] = [
    ("", "as it says"),
    ("\n  start=>StartTimer nap (60 s)\n\n", "as it says"),
    (
        "start => StartTimer nap (61 s)",
        "line 1: given `StartTimer nap (60 s)`, wanted `StartTimer nap (61 s)`",
    ),
    (
        "start =>",
        "line 1: given `StartTimer nap (60 s)`, wanted ``",
    ),
    ("\nstart\n", "line 2: there is no arrow"),
    (
        "start; nap => StartTimer nap (60 s)",
        "line 1: no job is written `nap`",
    ),
    (
        "version tracked one =>",
        "line 1: no job is written `version tracked one`",
    ),
    (
        "version tracked 1 2 =>",
        "line 1: no job is written `version tracked 1 2`",
    ),
    ("done =>", "line 1: no job is written `done`"),
    ("cancel 1 =>", "line 1: no job is written `cancel 1`"),
    (
        "start; fired nap 1 => StartTimer nap (60 s)",
        "line 1: no job is written `fired nap 1`",
    ),
];

#[test]
fn a_scenario_names_the_line_that_is_not_so(rt: HostRuntime) -> Result<(), Fail> {
    for (scenario, wanted) in FAULTS {
        let fault = fault_of(rt.alloc(), "Nap", scenario)?;
        assert_eq!(&rt; fault.as_str(), wanted);
    }
    let fault = fault_of(rt.alloc(), "Nip", "start =>")?;
    assert_eq!(&rt; fault.as_str(), "no code for the workflow type");
    Ok(())
}
