//! Runs of tables.

use crate::tests::table_words::run_follows;
use std::test::Fail;
use wh_author_tools::follows;
use wh_table::TableWorkflow;

/// A table with counters, conditions and marks.
const RETRYING: &str = r#"{"version":1,"title":"a title","counters":["tries 2"],"rows":[
["charging","start","","activity charge ChargeCard input"],
["charging","failed charge","tries < 2",["timer again 60"],"waiting","up tries"],
["charging","failed charge","","fail no card"],
["charging","done charge","",["signal shop paid brought","timer hold 5"],"held",["keep","zero tries"]],
["waiting","fired again","","activity charge ChargeCard input","charging"],
["held","fired hold","","complete kept"],
["any","cancel","","cancel"]
]}"#;

#[test]
fn a_table_is_followed(rt: HostRuntime) -> Result<(), Fail> {
    let alloc = rt.alloc();
    run_follows(
        alloc,
        RETRYING,
        "
start TABLE 7       => StartActivity charge ChargeCard 7
failed charge       => StartTimer again (60 s)
fired again         => StartActivity charge ChargeCard 7
timed-out charge    => StartTimer again (60 s)
fired again         => StartActivity charge ChargeCard 7
done charge 1 2     => SignalExternal shop paid 1 2; StartTimer hold (5 s)
done charge 3       =>
fired hold          => Complete 1 2
cancel; fired hold  =>
start TABLE         => StartActivity charge ChargeCard
failed charge; cancel => StartTimer again (60 s); Cancel
",
    )?;
    run_follows(
        alloc,
        RETRYING,
        "
start TABLE 7     => StartActivity charge ChargeCard 7
failed charge     => StartTimer again (60 s)
fired again       => StartActivity charge ChargeCard 7
canceled charge   => StartTimer again (60 s)
fired again       => StartActivity charge ChargeCard 7
failed charge     => Fail no card
",
    )
}

/// A table that continues as new, with itself and with another table, and starts a child with
/// another table.
const GOING_ON: &str = r#"{"version":1,"name":"payload 1 order- none","rows":[
["a","start","",["child @ Table:kid brought","timer @ 1"]],
["a","fired order-7","","again input"],
["a","fired none","","again"],
["a","signal table","","continue Table:other brought"],
["a","child-failed @","","continue Nap"]
]}"#;

#[test]
fn the_table_goes_on(rt: HostRuntime) -> Result<(), Fail> {
    let alloc = rt.alloc();
    run_follows(
        alloc,
        GOING_ON,
        "
start TABLE 1 \"7\"    => StartChild order-7 Table:kid 1 \"7\"; StartTimer order-7 (1 s)
fired order-7          => ContinueAsNew Table TABLE 1 \"7\"
start TABLE            => StartChild none Table:kid; StartTimer none (1 s)
fired none             => ContinueAsNew Table TABLE
start TABLE            => StartChild none Table:kid; StartTimer none (1 s)
signal table 5 6       => ContinueAsNew Table:other 5 6
start TABLE            => StartChild none Table:kid; StartTimer none (1 s)
child-canceled none    => ContinueAsNew Nap
",
    )
}

#[test]
fn a_run_needs_a_table(rt: HostRuntime) -> Result<(), Fail> {
    let alloc = rt.alloc();
    let scenario = "
start          => Fail there is no table
signal go 1    =>
";
    follows::<TableWorkflow>(alloc, "Table:order", scenario)?;
    Ok(())
}

#[test]
fn the_type_goes_on(rt: HostRuntime) -> Result<(), Fail> {
    let alloc = rt.alloc();
    let scenario = r#"
start {"version":1,"rows":[["a","start","","again\u0020input"]]} 1 => ContinueAsNew Table:order {"version":1,"rows":[["a","start","","again\u0020input"]]} 1
"#;
    follows::<TableWorkflow>(alloc, "Table:order", scenario)?;
    Ok(())
}
