//! Which commands a task may give, which versions it gets, and whether commands match their record.

use crate::tests::machines::track_of;
use std::alloc::Global;
use std::process::Abort;
use test_support::{cut, push, row, same, shown, wants};
use wh_events::{Event, EventNo, Items};
use wh_machines::Track;
use wh_match::{Script, ScriptFault, Versions, matches};
use wh_workflow::{Command, WorkflowFault, text_of};

/// A history, two numbers of tasks, and the commands and version requests of the second task, in
/// short words: the answer to each of these, with the version that is settled after a request, and
/// then the commands that are sent.
const ROWS: &str = "\
start:Racer S T from 0 to 3 gives timer:t cancel_timer:t timer:t cancel_timer:t => None None Some(IdReused) Some(NotOpen) sends []
start:Racer S T from 0 to 3 gives activity:9:race cancel_activity:9 cancel_activity:9 => None None Some(NotOpen) sends []
start:Racer S T C timer:t S T from 3 to 7 gives timer:t cancel_timer:t timer:t => Some(IdInUse) None None sends [CancelTimer id: t, StartTimer id: t, seconds: 30]
late from 3 to 11 gives cancel_activity:1 timer:u => None None sends [StartTimer id: u, seconds: 30]
start:Racer S T C timer:t timer_canceled:5 S T from 3 to 8 gives cancel_timer:t => Some(NotOpen) sends []
greet/5 S T C activity_failed:5 from 3 to 7 gives cancel_activity:1 cancel_activity:1 cancel_activity:9 complete timer:t => None Some(AlreadyCancelling) Some(NotOpen) None Some(AfterClosing) sends [CancelActivity id: 1, Complete result: []]
greet/5 activity_cancel:5 S T from 3 to 8 gives cancel_activity:1 => Some(AlreadyCancelling) sends []
start:Racer S T from 0 to 3 gives ask:-1:1 ask:-1:5 => Ok(1) Some(1) Ok(1) Some(1) sends [Marker change_id: chg, version: 1]
branch/5 from 0 to 3 gives recall:-1:1 => Ok(-1) Some(-1) sends []
start:Branch S T C chg_marker:NQ== from 0 to 3 gives ask:2:1 recall:-1:3 recall:-1:5 => Err(Workflow(BadRange)) None Err(Workflow(VersionOutOfRange)) None Ok(5) Some(5) sends [Marker change_id: chg, version: 5]
start:Racer S T task_timed_out S T from 0 to 6 gives ask:-1:1 activity:1:new => Ok(1) Some(1) None sends [Marker change_id: chg, version: 1, StartActivity id: 1, activity: new, input: []]
late from 11 to 8 gives cancel_timer:t cancel_activity:1 => Some(NotOpen) None sends [CancelActivity id: 1]
late from 3 to 20 gives cancel_activity:1 timer:t => None None sends [StartTimer id: t, seconds: 30]
";

/// The command of a short word, with the name that it has.
fn command(rt: &impl Abort, alloc: Global, word: &str) -> Command {
    let (deed, names) = word.split_once(':').unwrap_or((word, ""));
    let (name, second) = names.split_once(':').unwrap_or((names, ""));
    let id = text_of(alloc, name).expect(rt, "memory");
    match deed {
        "activity" => Command::StartActivity {
            id,
            activity: text_of(alloc, second).expect(rt, "memory"),
            input: Items::new(Vec::new(alloc)),
        },
        "cancel_activity" => Command::CancelActivity { id },
        "timer" => Command::StartTimer { id, seconds: 30 },
        "cancel_timer" => Command::CancelTimer { id },
        _ => Command::Complete {
            result: Items::new(Vec::new(alloc)),
        },
    }
}

/// The workflow fault of the command at its place in the script, if it has one.
fn give(
    rt: &impl Abort,
    script: &mut Script,
    track: &Track,
    command: Command,
) -> Option<WorkflowFault> {
    assert!(rt; !matches!(command, Command::Ask { .. } | Command::Marker { .. }));
    match script.issue(track, command) {
        Ok(()) => None,
        Err(ScriptFault::Workflow(fault)) => Some(fault),
        Err(ScriptFault::OutOfMemory) => panic!(rt; "memory"),
    }
}

/// The answer of a script to a request for a version in a range, and the version that is settled
/// then.
fn asked(
    rt: &impl Abort,
    alloc: Global,
    script: &mut Script,
    recorded: Option<&[Event]>,
    versions: &mut Versions,
    range: &str,
) -> String {
    let (min, max) = range.split_once(':').expect(rt, range);
    let min = min.parse::<i32>().expect(rt, range);
    let max = max.parse::<i32>().expect(rt, range);
    let answer = shown(alloc, &script.ask(recorded, versions, "chg", min, max)).expect(
        rt, "memory",
    );
    let settled = shown(alloc, &versions.get("chg")).expect(rt, "memory");
    format!(in alloc; "{answer} {settled}").expect(rt, "memory")
}

/// The answer of a script to a word. `ask` is a request in a live task, `recall` one in a recorded
/// task.
fn answered(
    rt: &impl Abort,
    alloc: Global,
    script: &mut Script,
    track: &Track,
    recorded: &[Event],
    versions: &mut Versions,
    word: &str,
) -> String {
    if let Some(range) = word.strip_prefix("ask:") {
        return asked(rt, alloc, script, None, versions, range);
    }
    if let Some(range) = word.strip_prefix("recall:") {
        return asked(rt, alloc, script, Some(recorded), versions, range);
    }
    let command = command(rt, alloc, word);
    shown(alloc, &give(rt, script, track, command)).expect(rt, "memory")
}

/// The commands of a script that are sent.
fn sent_text(rt: &impl Abort, alloc: Global, script: Script) -> String {
    shown(alloc, &script.reduce().expect(rt, "memory")).expect(rt, "memory")
}

/// The answers of a script to words, and then the commands that are sent. The record of a task
/// comes after its completion, which is the event after the task.
fn answers_text(
    rt: &impl Abort,
    alloc: Global,
    track: &Track,
    previous: u64,
    task: EventNo,
    words: &str,
) -> String {
    let after = task.get().saturating_add(1) as usize;
    let recorded = &track.events()[after.min(track.len())..];
    let mut versions = Versions::new(alloc);
    let mut script = Script::new(alloc, previous, task);
    let mut all = String::new(alloc);
    for word in words.split_whitespace() {
        let answer = answered(rt, alloc, &mut script, track, recorded, &mut versions, word);
        all.push_str(answer.as_str()).expect(rt, "memory");
        all.push_str(" ").expect(rt, "memory");
    }
    all.push_str("sends ").expect(rt, "memory");
    all.push_str(sent_text(rt, alloc, script).as_str())
        .expect(rt, "memory");
    all
}

/// The answers to a row are as expected.
fn answers(rt: &impl Abort, alloc: Global, given: &'static str, wanted: &str) {
    let mut words = given;
    let track = track_of(rt, alloc, cut(&mut words, " from "));
    let previous = cut(&mut words, " to ")
        .parse::<u64>()
        .expect(rt, "a number");
    let task = EventNo::new(
        cut(&mut words, " gives ")
            .parse::<u64>()
            .expect(rt, "a number"),
    )
    .expect(rt, "a number");
    let text = answers_text(rt, alloc, &track, previous, task, words);
    same(alloc, text.as_str(), wanted).expect(rt, given);
}

#[test]
fn answers_commands(rt: HostRuntime) {
    for line in ROWS.lines() {
        let (given, wanted) = row(line).expect(&rt, line);
        answers(&rt, rt.alloc(), given, wanted);
    }
}

#[test]
fn takes_as_many_asks_as_commands(rt: HostRuntime) {
    let alloc = rt.alloc();
    let mut versions = Versions::new(alloc);
    let mut script = Script::new(alloc, 0, EventNo::new(3).expect(&rt, "a number"));
    for _ in 0..4096u32 {
        let version = script.ask(None, &mut versions, "chg", -1, 1);
        assert!(rt; version.expect(&rt, "an ask") == 1);
    }
    let refused = script.ask(None, &mut versions, "chg", -1, 1);
    wants(alloc, refused, "Err(Workflow(TooManyCommands))").expect(&rt, "an ask");
}

/// The result of two commands, to race and to start a timer, with the record that comes after the
/// fourth event of a history.
const RECORDS: &str = "\
start:Racer S T C activity:1:race => Err(CommandExtra index: 2)
start:Racer S T C activity:1:race timer:t => Ok(())
start:Racer S T C activity:1:race timer:t timer:x => Err(CommandMissing event: 7)
start:Racer S T C activity:1:greets => Err(Different event: 5)
";

/// The commands of a race that begins.
fn race(rt: &impl Abort, alloc: Global) -> Vec<Command> {
    let mut commands = Vec::new(alloc);
    push(&mut commands, command(rt, alloc, "activity:1:race")).expect(rt, "memory");
    push(&mut commands, command(rt, alloc, "timer:t")).expect(rt, "memory");
    commands
}

#[test]
fn names_the_first_difference(rt: HostRuntime) {
    let alloc = rt.alloc();
    let commands = race(&rt, alloc);
    for line in RECORDS.lines() {
        let (history, wanted) = row(line).expect(&rt, line);
        let track = track_of(&rt, alloc, history);
        let to = (track.len() as u64).saturating_add(1);
        assert!(rt; 4 < to);
        wants(alloc, matches(&commands, &track, 4, to), wanted).expect(&rt, history);
    }
}
