//! Scenarios of tables that count.

use row_samples::{Booking, Plan, Subscription};
use std::alloc::{AllocError, Global};
use std::test::Fail;
use wh_author_tools::follows;

/// A subscription that charges in the second month, that is tried three times, or that is canceled.
const SUBSCRIPTIONS: [&str; 6] = [
    r#"
start "gold"  => StartActivity charge ChargeCard "gold"
done charge 1 => StartTimer month (2592000 s)
fired month   => StartActivity charge ChargeCard "gold"
done charge 2 => StartTimer month (2592000 s)
"#,
    r#"
start "gold"     => StartActivity charge ChargeCard "gold"
failed charge    => StartTimer again (86400 s)
fired again      => StartActivity charge ChargeCard "gold"
timed-out charge => StartTimer again (86400 s)
fired again      => StartActivity charge ChargeCard "gold"
failed charge    => StartActivity mail SendMail "gold"
done mail        => Fail charge
"#,
    r#"
start         => StartActivity charge ChargeCard
failed charge => StartTimer again (86400 s)
fired again   => StartActivity charge ChargeCard
done charge   => StartTimer month (2592000 s)
fired month   => StartActivity charge ChargeCard
failed charge => StartTimer again (86400 s)
fired again   => StartActivity charge ChargeCard
failed charge => StartTimer again (86400 s)
signal cancel => CancelTimer again; Complete
"#,
    r#"
start         => StartActivity charge ChargeCard
signal cancel =>
done charge 1 => Complete 1
done charge 1 =>
"#,
    r#"
start         => StartActivity charge ChargeCard
signal cancel; failed charge => Complete
"#,
    r#"
start                      => StartActivity charge ChargeCard
done charge; signal cancel => StartTimer month (2592000 s); CancelTimer month; Complete
"#,
];

#[test]
fn a_subscription_is_charged_for(rt: HostRuntime) -> Result<(), Fail> {
    for scenario in SUBSCRIPTIONS {
        follows::<Subscription>(rt.alloc(), "Subscription", scenario)?;
    }
    Ok(())
}

/// A scenario of so many months, each as the line says, and then the end.
fn months(alloc: Global, month: &str, count: usize, end: &str) -> Result<String, AllocError> {
    let mut scenario = String::from_str(alloc, "start => StartActivity charge ChargeCard\n")?;
    let middle = month.repeat(alloc, count)?;
    scenario.push_str(middle.as_str())?;
    scenario.push_str(end)?;
    Ok(scenario)
}

#[test]
fn a_subscription_is_over_after_twelve_months(rt: HostRuntime) -> Result<(), Fail> {
    let scenario = months(
        rt.alloc(),
        "done charge; fired month => StartTimer month (2592000 s); StartActivity charge ChargeCard\n",
        11,
        "done charge; fired month => StartTimer month (2592000 s); Complete\nfired month =>\n",
    )?;
    follows::<Subscription>(rt.alloc(), "Subscription", scenario.as_str())?;
    Ok(())
}

#[test]
fn a_plan_is_over_after_twelve_months(rt: HostRuntime) -> Result<(), Fail> {
    let scenario = months(
        rt.alloc(),
        "done charge 9; fired month => StartTimer month (2592000 s); StartActivity charge ChargeCard\n",
        11,
        "done charge 10; fired month => StartTimer month (2592000 s); Complete 10\n",
    )?;
    follows::<Plan>(rt.alloc(), "Plan", scenario.as_str())?;
    Ok(())
}

/// A plan that is canceled: between two charges, and during one.
const PLANS: [&str; 3] = [
    r#"
start "gold"  => StartActivity charge ChargeCard "gold"
done charge 1 => StartTimer month (2592000 s)
signal cancel => CancelTimer month; Complete 1
"#,
    r#"
start         => StartActivity charge ChargeCard
signal cancel =>
done charge 1 => Complete 1
"#,
    r#"
start                      => StartActivity charge ChargeCard
done charge 1; fired month => StartTimer month (2592000 s); StartActivity charge ChargeCard
signal cancel              =>
failed charge              => Complete 1
"#,
];

#[test]
fn a_plan_is_called_off(rt: HostRuntime) -> Result<(), Fail> {
    for scenario in PLANS {
        follows::<Plan>(rt.alloc(), "Plan", scenario)?;
    }
    Ok(())
}

/// Bookings: with a room, without one, and whose charge may not have been made.
const BOOKINGS: [&str; 3] = [
    r#"
start "single" => StartActivity charge ChargeCard "single"
done charge 1  => StartActivity room BookRoom "single"
done room 7    => Complete 7
"#,
    r#"
start 1            => StartActivity charge ChargeCard 1
done charge        => StartActivity room BookRoom 1
failed room        => StartActivity refund RefundCard 1
failed refund      => StartTimer again (3600 s)
fired again        => StartActivity refund RefundCard 1
done room; start 2 =>
done refund 1      => Fail room
"#,
    r#"
start            => StartActivity charge ChargeCard
timed-out charge => StartActivity refund RefundCard
done refund      => Fail room
"#,
];

#[test]
fn a_booking_refunds_before_it_fails(rt: HostRuntime) -> Result<(), Fail> {
    for scenario in BOOKINGS {
        follows::<Booking>(rt.alloc(), "Booking", scenario)?;
    }
    Ok(())
}
