//! The output of a query of a history file, and which words are its arguments.

use std::alloc::Global;
use std::process::Abort;
use test_support::{bytes_of, cut, row, same, with_status};
use wh_events::{Items, Payload, Text};
use wh_file_commands::{
    Format, Queried, query_command, query_file, query_of, status_of, write_queried,
};
use wh_sample_workflows::All;
use wh_workflow::{Query, QueryResult};

/// Histories, the query type, and the output, with `/` for each line feed.
const QUERIES: &str = "\
racer/9 ? phase => x.json: ok, 2 tasks, last live/\"late\"/status 0
racer ? phase => x.json: ok, 4 tasks/\"done\"/status 0
racer ? total => x.json: ok, 4 tasks/query failed, unknown query type total; known: phase/status 1
nap ? __open => x.json: ok, 2 tasks/query failed, built-in query types are not supported: __open/status 1
racer/5 ? phase => x.json: fault, command 2 of the task at 3 has no event/query failed, command 2 of the task at 3 has no event/status 1
start:Nope ? phase => x.json: fault, task at 1: UnknownWorkflow/query failed, task at 1: UnknownWorkflow/status 1
 ? phase => x.json: unreadable, not JSON/query failed, not JSON/status 1
";

/// The same as JSON.
const QUERIES_AS_JSON: &str = "\
racer ? phase => {\"file\":\"x.json\",\"verdict\":\"ok\",\"tasks\":4,\"live\":false}/{\"queryResult\":[\"done\"]}/status 0
racer ? a\"b => {\"file\":\"x.json\",\"verdict\":\"ok\",\"tasks\":4,\"live\":false}/{\"queryFailed\":\"unknown query type a\\\"b; known: phase\"}/status 1
";

/// A text that is owned.
fn text(rt: &impl Abort, alloc: Global, from: &str) -> Text {
    Text::new(String::from_str(alloc, from).expect(rt, "memory"))
}

/// A query without arguments.
fn query(rt: &impl Abort, alloc: Global, query_type: &str) -> Query {
    let query = query_of(alloc, text(rt, alloc, query_type), &[]).expect(rt, "memory");
    query.expect(rt, "no arguments")
}

/// The output, with `/` for each line feed, and the status.
fn written(rt: &impl Abort, alloc: Global, text: Vec<u8>, status: u8) -> String {
    let text = with_status(text, status).expect(rt, "a text");
    text.as_str().replace(alloc, "\n", "/").expect(rt, "memory")
}

/// Each query of these lines has this output.
fn are_written(rt: &impl Abort, alloc: Global, lines: &'static str, format: Format) {
    for line in lines.lines() {
        let (mut words, wanted) = row(line).expect(rt, line);
        let history = cut(&mut words, " ? ");
        let name = String::from_str(alloc, "x.json").expect(rt, "memory");
        let file = (name, bytes_of(alloc, history).expect(rt, history));
        let query = query(rt, alloc, words);
        let mut text = Vec::new(alloc);
        let queried = query_command::<All, _>(alloc, file, &query, format, &mut text);
        let queried = queried.expect(rt, "memory");
        let text = written(rt, alloc, text, status_of(&queried));
        same(alloc, text.as_str(), wanted).expect(rt, line);
    }
}

#[test]
fn files_are_queried(rt: HostRuntime) {
    are_written(&rt, rt.alloc(), QUERIES, Format::Text);
    are_written(&rt, rt.alloc(), QUERIES_AS_JSON, Format::Json);
}

/// A payload with an encoding.
fn payload(rt: &impl Abort, alloc: Global, encoding: &str, content: &[u8]) -> Payload {
    Payload {
        encoding: Items::new(Vec::from_slice(alloc, encoding.as_bytes()).expect(rt, "memory")),
        content: Items::new(Vec::from_slice(alloc, content).expect(rt, "memory")),
    }
}

/// The output of a query with these payloads as its answer.
fn given(rt: &impl Abort, alloc: Global, payloads: Vec<Payload>, format: Format) -> String {
    let name = String::from_str(alloc, "x").expect(rt, "memory");
    let file = (name, bytes_of(alloc, "nap").expect(rt, "nap"));
    let query = query(rt, alloc, "any");
    let Queried { own, .. } = query_file::<All>(alloc, file, &query).expect(rt, "memory");
    let given = QueryResult::Answered(Items::new(payloads));
    let queried = Queried { own, given };
    let mut text = Vec::new(alloc);
    write_queried(alloc, &queried, format, &mut text).expect(rt, "memory");
    written(rt, alloc, text, status_of(&queried))
}

#[test]
fn payloads_are_json(rt: HostRuntime) {
    let alloc = rt.alloc();
    let payloads = vec![in alloc;
        payload(&rt, alloc, "json/plain", "[1, 2]".as_bytes()),
        payload(&rt, alloc, "json/plain", "[\n]".as_bytes()),
        payload(&rt, alloc, "binary/plain", [255].as_slice()),
    ]
    .expect(&rt, "memory");
    let text = given(&rt, alloc, payloads, Format::Text);
    let wanted =
        "x: ok, 2 tasks/[1, 2]/{\"data\":\"Wwpd\",\"metadata\":{\"encoding\":\"anNvbi9wbGFpbg==\"}}\
        /{\"data\":\"/w==\",\"metadata\":{\"encoding\":\"YmluYXJ5L3BsYWlu\"}}/status 0";
    same(alloc, text.as_str(), wanted).expect(&rt, "text");
    let none = given(&rt, alloc, Vec::new(alloc), Format::Json);
    let wanted =
        "{\"file\":\"x\",\"verdict\":\"ok\",\"tasks\":2,\"live\":false}/{\"queryResult\":[]}/status 0";
    same(alloc, none.as_str(), wanted).expect(&rt, "no payloads");
}

#[test]
fn arguments_are_json(rt: HostRuntime) {
    let alloc = rt.alloc();
    for word in ["1", " [1, 2]", "{\"a\":null}", "\"\u{e4}\""] {
        let words = vec![in alloc; text(&rt, alloc, word)].expect(&rt, "memory");
        let query = query_of(alloc, text(&rt, alloc, "x"), words.as_slice()).expect(&rt, "memory");
        let query = query.expect(&rt, word);
        assert!(&rt;
            matches!(query.input.get(), [input] if input.content.get() == word.as_bytes()
            && input.encoding.get() == "json/plain".as_bytes())
        );
    }
    for word in ["", "a", "{", "1 2", "'a'"] {
        let words = vec![in alloc; text(&rt, alloc, "1"), text(&rt, alloc, word)].expect(
            &rt, "memory",
        );
        let query = query_of(alloc, text(&rt, alloc, "x"), words.as_slice()).expect(&rt, "memory");
        assert!(&rt; query.is_none());
    }
}
