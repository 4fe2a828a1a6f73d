//! Command lines.

use std::alloc::Global;
use std::process::Abort;
use test_support::{push, row, same, shown};
use wh_command_line::{Plan, Refusal, Selection, ServeOptions, WorkOptions, parse};
use wh_console::Format;
use wh_events::Text;

/// The plan of a line after the program's name.
const LINES: &str = "\
replay d => replay d
replay ./a/b.c => replay ./a/b.c
replay - => replay -
replay d e => replay d e
replay d e/f.json - d => replay d e/f.json - d
replay d --json => replay d as JSON
replay --json d e => replay d e as JSON
replay d -- --json => replay d --json
replay d --require-files => replay d, which needs a history
replay --require-files d e --json => replay d e as JSON, which needs a history
replay d --progress => replay d, with progress
replay --progress --progress d => bad line
serve d --progress --progress => bad line
replay d --strict-values => replay d, with strict values
replay --strict-values d --json --require-files => replay d as JSON, which needs a history, with strict values
explain d/x.json --strict-values => bad line
serve d --strict-values => bad line
explain d/x.json => explain d/x.json
explain - => explain -
explain --json d/x.json => explain d/x.json as JSON
explain --recorded d/x.json => view d/x.json
explain - --json --recorded => view - as JSON
explain x --recorded --last 1 => view Last(1) of x
explain --last 67108864 --recorded x => view Last(67108864) of x
explain --recorded --last 67108865 x => bad line
explain --recorded --last 0 x => bad line
explain --recorded --around 9223372036854775808 x => bad line
explain --recorded --around 0 x => bad line
explain --recorded --around two x => bad line
explain --recorded --around 2 --last 2 x => bad line
explain --last 2 x => explain Last(2) of x
explain --all x => explain All of x
explain --all --json - => explain All of - as JSON
explain --recorded --all x => view All of x
explain --recorded a.json d - => view a.json d -
explain a d --json --recorded => view a d as JSON
explain --recorded --all a b => bad line
explain --recorded a b --last 2 => bad line
explain --around 2 --recorded a b => bad line
explain --html --recorded a b => bad line
explain --html a b => bad line
explain --all --last 2 x => bad line
explain --all --around 2 x => bad line
explain --last 2 --around 2 --recorded x => bad line
explain --html x => page of x
explain --html --recorded - => page of -, recorded alone
explain --html --json x => bad line
explain --html --all x => bad line
explain --html --last 2 x => bad line
explain --html => bad line
explain --recorded => bad line
query x status => query x status
query - status 1 [2] => query - status 1 [2]
query x status --json {} => query x status {} as JSON
query x status -- -1 => query x status -1
query x status -1 => bad line
query x => bad line
query => bad line
query --json x => bad line
query x status --json --json => bad line
check a.json => check a.json
check a.json - b.json --json => check a.json - b.json as JSON
check --html a.json => picture of a.json
check --html a.json b.json => bad line
check --html --json a.json => bad line
check --html => bad line
check => bad line
check --json --json a.json => bad line
try a.json => try a.json
try a.json start => try a.json on start
try a.json --json start => try a.json on start as JSON
try a.json start; => try a.json on start;
try a.json start=>Complete => try a.json on start=>Complete
try start => try start
try start start => try start on start
try a.json start.json => try a.json start.json
try a.json ./start => try a.json ./start
try --json d b.json => try d b.json as JSON
try a.json b start => bad line
try a.json start b => bad line
try => bad line
try --json => bad line
try --json --json a.json => bad line
serve d => serve d, workers 1, cache 100, cache events 0, slots 100
serve d --workers 64 --cache 0 --cache-events 512000000 --slots 1000 => serve d, workers 64, cache 0, cache events 512000000, slots 1000
serve d --workers 1 --cache 10000 --slots 1 => serve d, workers 1, cache 10000, cache events 0, slots 1
serve d --workers 4 --slots 4 => serve d, workers 4, cache 100, cache events 0, slots 4
serve d --require-files => serve d, workers 1, cache 100, cache events 0, slots 100, which needs a history
serve --progress d => serve d, workers 1, cache 100, cache events 0, slots 100, with progress
serve d --workers 4 --slots 3 => too few slots
serve d --workers 65 => bad line
serve d --workers 0 => bad line
serve d --workers 65 --slots 3 => bad line
serve d --workers zz --slots 3 => bad line
serve d --cache 10001 => bad line
serve d --cache-events 512000001 => bad line
serve d --slots 0 => bad line
serve d --slots 1001 => bad line
serve d --workers -1 => bad line
serve d --workers => bad line
serve d --workers 2 --workers 2 => bad line
serve d --workers 4 --slots 3 --cache 10001 => bad line
serve gone --slots 3 --workers 4 => too few slots
 => bad line
serve => bad line
replay => bad line
replay --json => bad line
replay d --json --json => bad line
replay d --json=no => bad line
replay d --workers 2 => bad line
explain => bad line
explain a b => bad line
explain a --json --json => bad line
serve d --json => bad line
explain a --require-files => bad line
nope d => bad line
-- => bad line
--nope => bad line
--help => help
--version => help
-V => help
replay --help => help
work --help => help
";

/// The plan of a line after the program's name and `work`: its Task Queue, namespace and identity,
/// workers and activity workers, cache, its events and slots, the timeout and attempts of
/// activities, the file of policies, the sticky timeout, whether it is verbose, the time between
/// counts, their form, and the file for them.
const WORK_LINES: &str = "\
--task-queue q => work q, default, wfhost, 2, 0, 100, 0, 100, 60, 1, None, 10, false, None, Text, None
--task-queue q --namespace n --identity i => work q, n, i, 2, 0, 100, 0, 100, 60, 1, None, 10, false, None, Text, None
--task-queue=q --namespace= --identity= => work q, , , 2, 0, 100, 0, 100, 60, 1, None, 10, false, None, Text, None
--task-queue q --workers 1 --slots 1 => work q, default, wfhost, 1, 0, 100, 0, 1, 60, 1, None, 10, false, None, Text, None
--task-queue q --workers 64 => work q, default, wfhost, 64, 0, 100, 0, 100, 60, 1, None, 10, false, None, Text, None
--task-queue q --workers 1 --activity-workers 63 => work q, default, wfhost, 1, 63, 100, 0, 100, 60, 1, None, 10, false, None, Text, None
--task-queue q --activity-workers 62 => work q, default, wfhost, 2, 62, 100, 0, 100, 60, 1, None, 10, false, None, Text, None
--task-queue q --cache 0 --cache-events 7 --slots 9 => work q, default, wfhost, 2, 0, 0, 7, 9, 60, 1, None, 10, false, None, Text, None
--task-queue q --activity-timeout 1 --activity-attempts 0 --sticky-timeout 2 => work q, default, wfhost, 2, 0, 100, 0, 100, 1, 0, None, 2, false, None, Text, None
--activity-timeout 4294967295 --task-queue q => work q, default, wfhost, 2, 0, 100, 0, 100, 4294967295, 1, None, 10, false, None, Text, None
--task-queue q --activity-attempts 65535 => work q, default, wfhost, 2, 0, 100, 0, 100, 60, 65535, None, 10, false, None, Text, None
--task-queue q --verbose => work q, default, wfhost, 2, 0, 100, 0, 100, 60, 1, None, 10, true, None, Text, None
--stats 30 --verbose --task-queue q => work q, default, wfhost, 2, 0, 100, 0, 100, 60, 1, None, 10, true, Some(30), Text, None
--task-queue q --slots 1 => too few slots
--task-queue q --activity-workers 3 --slots 2 => too few slots
--task-queue= --slots 1 => bad line
--task-queue q --slots 1 --workers 64 --activity-workers 1 => bad line
 => bad line
d --task-queue q => bad line
--task-queue => bad line
--namespace n => bad line
--task-queue q --task-queue q => bad line
--task-queue q --verbose --verbose => bad line
--task-queue q --json => work q, default, wfhost, 2, 0, 100, 0, 100, 60, 1, None, 10, false, None, Json, None
--task-queue q --policies p --metrics m --stats 5 => work q, default, wfhost, 2, 0, 100, 0, 100, 60, 1, Some(p), 10, false, Some(5), Text, Some(m)
--task-queue q --json --json => bad line
--task-queue q --policies => bad line
--task-queue q --metrics => bad line
--task-queue q --stats => bad line
";

/// The answers of the program `shop` to a line without a command, and to one without a file.
const NO_COMMAND: &str = "\
error: a command is needed

Usage: shop [COMMAND]

For more information, try '--help'.
";

const NO_FILE: &str = "\
error: the following required arguments were not provided:
  <FILE>...

Usage: shop explain <FILE>...

For more information, try '--help'.
";

/// The text of a refused line after `error: `, for more files where one is taken.
const ONE_FILE: &str = "\
explain a b => explain takes one file, unless --recorded is given
explain --recorded --last 1 a b => --all, --around and --last take one file
explain --html a b => --html takes one file, and can't be given with --json, --all, --around or --last
try a b start => a scenario takes one file
try a start b => a scenario takes one file
";

/// The text of a refused line after `error: --`, for an option with a bad value.
const BAD_VALUES: &str = "\
serve d --workers 65 => workers must be 1 to 64
serve d --workers 0 => workers must be 1 to 64
serve d --workers zz => workers must be a number
serve d --cache 10001 => cache must be 0 to 10000
serve d --cache x => cache must be a number
serve d --cache-events 512000001 => cache-events must be 0 to 512000000
serve d --slots 0 => slots must be 1 to 1000
serve d --slots 1001 => slots must be 1 to 1000
work --task-queue q --workers 65 => workers must be 1 to 64
work --task-queue q --workers 0 => workers must be 1 to 64
work --task-queue q --activity-workers 64 => activity-workers must be 0 to 63
work --task-queue q --activity-workers 63 => workers and --activity-workers must be at most 64 together
work --task-queue q --cache 10001 => cache must be 0 to 10000
work --task-queue q --cache-events 512000001 => cache-events must be 0 to 512000000
work --task-queue q --slots 1001 => slots must be 1 to 1000
work --task-queue q --activity-timeout 0 => activity-timeout must be 1 to 4294967295
work --task-queue q --activity-timeout 4294967296 => activity-timeout must be 1 to 4294967295
work --task-queue q --activity-timeout 1s => activity-timeout must be a number
work --task-queue q --activity-attempts 65536 => activity-attempts must be 0 to 65535
work --task-queue q --sticky-timeout 0 => sticky-timeout must be 1 to 4294967295
work --task-queue q --stats 0 => stats must be 1 to 4294967295
work --task-queue q --stats x => stats must be a number
work --task-queue= => task-queue must not be empty
";

/// The text after a plan's words if a flag is set.
fn add_flags(rt: &impl Abort, text: &mut String, json: bool, require_files: bool) {
    text.push_str(if json { " as JSON" } else { "" })
        .expect(rt, "memory");
    let need = if require_files {
        ", which needs a history"
    } else {
        ""
    };
    text.push_str(need).expect(rt, "memory");
}

/// What follows a plan's words if progress is asked for.
fn add_progress(rt: &impl Abort, text: &mut String, progress: bool) {
    text.push_str(if progress { ", with progress" } else { "" })
        .expect(rt, "memory");
}

/// A text, and words after it.
fn listed(rt: &impl Abort, alloc: Global, text: &str, words: &[Text]) -> String {
    let mut text = String::from_str(alloc, text).expect(rt, "memory");
    for word in words {
        text.push_str(" ").expect(rt, "memory");
        text.push_str(word.get()).expect(rt, "memory");
    }
    text
}

/// A command with its words.
fn command_text(rt: &impl Abort, alloc: Global, name: &str, first: &Text, more: &[Text]) -> String {
    let text = joined(rt, alloc, name, first.get());
    listed(rt, alloc, text.as_str(), more)
}

/// A trial as text, with the scenario if it is given one.
fn scenario_text(rt: &impl Abort, alloc: Global, text: String, scenario: &Option<Text>) -> String {
    let Some(scenario) = scenario else {
        return text;
    };
    let text = joined(rt, alloc, text.as_str(), " on ");
    joined(rt, alloc, text.as_str(), scenario.get())
}

/// A plan to serve, as text.
fn serve_text(rt: &impl Abort, alloc: Global, dir: &Text, options: &ServeOptions) -> String {
    let dir = dir.get();
    let ServeOptions {
        workers,
        cache,
        cache_events,
        slots,
    } = *options;
    let text = format!(in alloc;
        "serve {dir}, workers {workers}, cache {cache}, cache events {cache_events}, slots {slots}"
    );
    text.expect(rt, "memory")
}

/// A word, and the text after it.
fn joined(rt: &impl Abort, alloc: Global, word: &str, rest: &str) -> String {
    let mut text = String::from_str(alloc, word).expect(rt, "memory");
    text.push_str(rest).expect(rt, "memory");
    text
}

/// The text before each of the options in their derived `Debug` text; none is the end of a later
/// one.
const NAMES: [&str; 17] = [
    "WorkOptions ",
    "task_queue: ",
    "namespace: ",
    "identity: ",
    "activity_workers: ",
    "workers: ",
    "cache: ",
    "cache_events: ",
    "slots: ",
    "activity_timeout: ",
    "activity_attempts: ",
    "policies: ",
    "sticky_timeout: ",
    "verbose: ",
    "stats: ",
    "format: ",
    "metrics: ",
];

/// A plan to work, as text: its options in their order.
fn work_text(rt: &impl Abort, alloc: Global, options: &WorkOptions) -> String {
    let mut text = shown(alloc, options).expect(rt, "memory");
    for name in NAMES {
        text = text.as_str().replace(alloc, name, "").expect(rt, "memory");
    }
    joined(rt, alloc, "work ", text.as_str())
}

/// A command on tasks of a file, as text.
fn selected_text(
    rt: &impl Abort,
    alloc: Global,
    name: &str,
    selection: Option<Selection>,
    file: &Text,
) -> String {
    let Some(selection) = selection else {
        return joined(rt, alloc, name, file.get());
    };
    let selection = shown(alloc, &selection).expect(rt, "memory");
    let view = joined(rt, alloc, name, selection.as_str());
    let view = joined(rt, alloc, view.as_str(), " of ");
    joined(rt, alloc, view.as_str(), file.get())
}

/// A plan, as text.
fn plan_text(rt: &impl Abort, alloc: Global, plan: &Plan) -> String {
    match plan {
        Plan::Replay { dir, more, options } => {
            let mut text = command_text(rt, alloc, "replay ", dir, more);
            add_flags(
                rt,
                &mut text,
                options.format == Format::Json,
                options.require_files,
            );
            let strict = if options.strict_values {
                ", with strict values"
            } else {
                ""
            };
            text.push_str(strict).expect(rt, "memory");
            add_progress(rt, &mut text, options.progress);
            text
        }
        Plan::Explain {
            file,
            selection,
            format,
        } => {
            let mut text = selected_text(rt, alloc, "explain ", *selection, file);
            add_flags(rt, &mut text, *format == Format::Json, false);
            text
        }
        Plan::View {
            file,
            more,
            selection,
            format,
        } => {
            let text = selected_text(rt, alloc, "view ", *selection, file);
            let mut text = listed(rt, alloc, text.as_str(), more);
            add_flags(rt, &mut text, *format == Format::Json, false);
            text
        }
        Plan::Page {
            file,
            only_recorded,
        } => {
            let text = joined(rt, alloc, "page of ", file.get());
            let how = if *only_recorded {
                ", recorded alone"
            } else {
                ""
            };
            joined(rt, alloc, text.as_str(), how)
        }
        Plan::Check { file, more, format } => {
            let mut text = command_text(rt, alloc, "check ", file, more);
            add_flags(rt, &mut text, *format == Format::Json, false);
            text
        }
        Plan::Picture { file } => joined(rt, alloc, "picture of ", file.get()),
        Plan::Try {
            file,
            more,
            scenario,
            format,
        } => {
            let text = command_text(rt, alloc, "try ", file, more);
            let mut text = scenario_text(rt, alloc, text, scenario);
            add_flags(rt, &mut text, *format == Format::Json, false);
            text
        }
        Plan::Query {
            file,
            query_type,
            input,
            format,
        } => {
            let name = joined(rt, alloc, "query ", file.get());
            let name = joined(rt, alloc, name.as_str(), " ");
            let mut text = command_text(rt, alloc, name.as_str(), query_type, input.as_slice());
            add_flags(rt, &mut text, *format == Format::Json, false);
            text
        }
        Plan::Serve {
            dir,
            options,
            require_files,
            progress,
        } => {
            let mut text = serve_text(rt, alloc, dir, options);
            add_flags(rt, &mut text, false, *require_files);
            add_progress(rt, &mut text, *progress);
            text
        }
        Plan::Work { options } => work_text(rt, alloc, options),
        Plan::Help { .. } => String::from_str(alloc, "help").expect(rt, "memory"),
    }
}

/// A refusal, as text, followed by the lines of the text of a bad line.
fn refusal_text(rt: &impl Abort, alloc: Global, refusal: &Refusal) -> String {
    match refusal {
        Refusal::BadLine { text } => joined(rt, alloc, "bad line\n", text.get()),
        Refusal::FewSlots => String::from_str(alloc, "too few slots").expect(rt, "memory"),
        Refusal::OutOfMemory => String::from_str(alloc, "out of memory").expect(rt, "memory"),
    }
}

/// The words of a line after the program's name, and that name before them.
fn words_of(rt: &impl Abort, alloc: Global, line: &str) -> Vec<String> {
    let mut words = Vec::new(alloc);
    push(
        &mut words,
        String::from_str(alloc, "wfhost").expect(rt, "memory"),
    )
    .expect(rt, "memory");
    for word in line.split_whitespace() {
        push(
            &mut words,
            String::from_str(alloc, word).expect(rt, "memory"),
        )
        .expect(rt, "memory");
    }
    words
}

/// The answer to words, as text.
fn answer_text(rt: &impl Abort, alloc: Global, words: &[String]) -> String {
    match parse(alloc, "wfhost", "", words) {
        Ok(plan) => plan_text(rt, alloc, &plan),
        Err(refusal) => refusal_text(rt, alloc, &refusal),
    }
}

/// The answer to the words of a line after the program's name is this.
fn answers(rt: &impl Abort, alloc: Global, line: &str, wanted: &str) {
    let words = words_of(rt, alloc, line);
    let answer = answer_text(rt, alloc, words.as_slice());
    let (first, _) = answer
        .as_str()
        .split_once('\n')
        .unwrap_or((answer.as_str(), ""));
    same(alloc, first, wanted).expect(rt, line);
}

/// The answer to a line of a program with this name is this text.
fn says(rt: &impl Abort, alloc: Global, name: &str, line: &str, wanted: &str) {
    let words = words_of(rt, alloc, line);
    match parse(alloc, name, "", words.as_slice()) {
        Ok(Plan::Help { text }) | Err(Refusal::BadLine { text }) => {
            same(alloc, text.get(), wanted).expect(rt, line);
        }
        _ => assert!(rt; false, "{line}"),
    }
}

#[test]
fn reads_command_lines(rt: HostRuntime) {
    for line in LINES.lines() {
        let (words, wanted) = row(line).expect(&rt, line);
        answers(&rt, rt.alloc(), words, wanted);
    }
}

#[test]
fn reads_lines_of_work(rt: HostRuntime) {
    for line in WORK_LINES.lines() {
        let (words, wanted) = row(line).expect(&rt, line);
        let words = joined(&rt, rt.alloc(), "work ", words);
        answers(&rt, rt.alloc(), words.as_str(), wanted);
    }
}

#[test]
fn names_bad_values(rt: HostRuntime) {
    for line in BAD_VALUES.lines() {
        let (words, wanted) = row(line).expect(&rt, line);
        let text = format!(in rt.alloc(); "error: --{wanted}\n");
        says(
            &rt,
            rt.alloc(),
            "wfhost",
            words,
            text.expect(&rt, "memory").as_str(),
        );
    }
}

#[test]
fn says_what_takes_one_file(rt: HostRuntime) {
    for line in ONE_FILE.lines() {
        let (words, wanted) = row(line).expect(&rt, line);
        let text = format!(in rt.alloc(); "error: {wanted}\n");
        says(
            &rt,
            rt.alloc(),
            "wfhost",
            words,
            text.expect(&rt, "memory").as_str(),
        );
    }
}

#[test]
fn calls_the_program_by_its_name(rt: HostRuntime) {
    says(&rt, rt.alloc(), "shop", "--version", "shop 0.2.0\n");
    says(&rt, rt.alloc(), "shop", "", NO_COMMAND);
    says(&rt, rt.alloc(), "shop", "explain", NO_FILE);
}
