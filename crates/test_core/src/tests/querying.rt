//! Queries of runs and of histories.

use std::alloc::Global;
use std::process::Abort;
use test_support::{cut, events_after, key, row, same, shown};
use wh_events::{Items, Text};
use wh_query::{query_each, query_history, query_run};
use wh_replay::{Run, RunFault};
use wh_sample_workflows::All;
use wh_workflow::{Meter, Query, QueryResult, text_of};

/// Histories that end anywhere, the query type, and the answer.
const HISTORIES: &str = "\
racer/1 ? phase => \"racing\"
racer/3 ? phase => \"racing\"
racer/8 ? phase => \"racing\"
racer/9 ? phase => \"late\"
racer/17 ? phase => \"late\"
racer/19 ? phase => \"done\"
racer ? phase => \"done\"
late ? phase => \"late\"
racer/8 T task_failed ? phase => \"racing\"
racer/8 T task_failed signal:s S T ? phase => \"late\"
racer/3 terminated ? phase => \"racing\"
racer ? Phase => unknown query type Phase; known: phase
nap ? __stack_trace => \"There is no stack trace: this worker runs a workflow as steps of a state, without coroutines.\"
racer ? __open_sessions => built-in query types are not supported: __open_sessions
nap ? phase => unknown query type phase; known: none
racer/5 ? phase => Fault(Mismatch at: 3, mismatch: CommandExtra index: 2)
start:Nope ? phase => Fault(Workflow at: 1, fault: UnknownWorkflow)
S ? phase => Fault(Place at: 1, fault: FirstNotStart)
";

/// Runs, and their answers to the query `phase`.
const RUNS: &str = "\
racer/3 => \"racing\"
racer/9 => \"late\"
racer/15 => \"late\"
racer/19 => \"done\"
nap/8 => unknown query type phase; known: none
";

/// The answer to a query as text: that of the only payload, or why there is none.
fn given_text(rt: &impl Abort, alloc: Global, given: &Result<QueryResult, RunFault>) -> String {
    let text = match given {
        Ok(QueryResult::Answered(payloads)) => match payloads.get() {
            [only] => str::from_utf8(only.content.get()).expect(rt, "a text"),
            _ => "not one payload",
        },
        Ok(QueryResult::Failed(reason)) => reason.get(),
        Err(fault) => return shown(alloc, fault).expect(rt, "memory"),
    };
    String::from_str(alloc, text).expect(rt, "memory")
}

#[test]
fn histories_are_queried(rt: HostRuntime) {
    let alloc = rt.alloc();
    for line in HISTORIES.lines() {
        let (mut words, wanted) = row(line).expect(&rt, line);
        let history = cut(&mut words, " ? ");
        let events = events_after(alloc, history, 0).expect(&rt, line);
        let given = match query_history::<All>(alloc, events, words, &[]) {
            Ok((given, _)) => Ok(given),
            Err(fault) => Err(fault),
        };
        let text = given_text(&rt, alloc, &given);
        drop(given);
        same(alloc, text.as_str(), wanted).expect(&rt, line);
    }
}

/// The answers of a run to two queries.
fn each_text(rt: &impl Abort, alloc: Global, run: &Run<All>, wanted: &str) {
    let query = Query {
        query_type: text_of(alloc, "phase").expect(rt, "memory"),
        input: Items::new(Vec::new(alloc)),
    };
    let built_in = Query {
        query_type: Text::new(String::from_str(alloc, "__type").expect(rt, "memory")),
        input: Items::new(Vec::new(alloc)),
    };
    let queries = vec![in alloc; query, built_in].expect(rt, "memory");
    let results = query_each(alloc, run, queries.as_slice()).expect(rt, "memory");
    let mut texts = Vec::new(alloc);
    for given in results {
        let given = Ok(given);
        let text = given_text(rt, alloc, &given);
        drop(given);
        texts.push(text).expect(rt, "memory");
    }
    assert!(rt;
        matches!(texts.as_slice(), [first, second] if first.as_str() == wanted
        && second.as_str() == "built-in query types are not supported: __type")
    );
}

#[test]
fn runs_are_queried(rt: HostRuntime) {
    let alloc = rt.alloc();
    for line in RUNS.lines() {
        let (history, wanted) = row(line).expect(&rt, line);
        let events = events_after(alloc, history, 0).expect(&rt, line);
        let key = key(alloc, "w").expect(&rt, "memory");
        let run = Run::<All>::from_first(alloc, key, events, &mut Meter::new()).expect(&rt, line);
        let given = Ok(query_run(alloc, &run, "phase", &[]).expect(&rt, "memory"));
        let text = given_text(&rt, alloc, &given);
        drop(given);
        same(alloc, text.as_str(), wanted).expect(&rt, line);
        each_text(&rt, alloc, &run, wanted);
        drop(run);
    }
}
