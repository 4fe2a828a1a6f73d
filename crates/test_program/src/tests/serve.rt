//! Folders of recorded histories, served.

ghost use Rattle.std.specs.Prelude.{◌≡◌, IfOk, vec_len};
ghost use Rattle.wh_slots.specs.Sizes.{IsConfig};
ghost use Rattle.wh_service.specs.Services.{IsHosted};

use crate::tests::reports::named_files;
use std::alloc::Global;
use std::io::Write;
use std::process::Abort;
use std::sync::Wait;
use std::thread::Threads;
use test_support::{next_number, same, with_status};
use wh_console::InputFault;
use wh_events::OutOfMemory;
use wh_file_faults::CommandFault;
use wh_host::Config;
use wh_sample_workflows::All;
use wh_service::{
    ServiceEnd, ServiceHost, ServiceSetup, host_of, read_inputs, report_served, serve_read,
};
use wh_workflow::Workflow;

/// Files of all samples, each by its name and its history.
const SAMPLES: &str =
    "branch.json: branch; caller.json: caller; family.json: family; greet.json: greet; nap.json: nap; racer.json: racer";

/// The report of all samples.
const SAMPLES_SERVED: &str = "\
branch.json: 2 tasks, 2 completed, 0 failed
caller.json: 2 tasks, 2 completed, 0 failed
family.json: 3 tasks, 3 completed, 0 failed
greet.json: 2 tasks, 2 completed, 0 failed
nap.json: 2 tasks, 2 completed, 0 failed
racer.json: 4 tasks, 4 completed, 0 failed
taken 15, completed 15, failed 0, in hand 0
status 0";

/// How many workers serve all samples, and how many runs and events the cache holds.
const SIZES: &str = "\
1 0 0
1 0 3
1 1 0
1 1 3
1 2 0
1 2 3
1 100 0
1 100 3
4 0 0
4 0 3
4 1 0
4 1 3
4 2 0
4 2 3
4 100 0
4 100 3
";

/// How many workers serve files, followed by the report and what comes after it: the failed tasks,
/// whether a last record was not compared, and the status.
///
/// There are no files, five samples, histories that end after their last task in an event that is
/// skipped or not in place, a file that is not JSON, an activity that the workflow does not
/// schedule, a workflow type that is not registered, an invalid command in a task before the last,
/// and histories that end in their last task, alone and between others.
const SERVICES: &str = "\
4
taken 0, completed 0, failed 0, in hand 0
not compared: false
status 0

4 branch.json: branch; family.json: family; greet.json: greet; nap.json: nap; racer.json: racer
branch.json: 2 tasks, 2 completed, 0 failed
family.json: 3 tasks, 3 completed, 0 failed
greet.json: 2 tasks, 2 completed, 0 failed
nap.json: 2 tasks, 2 completed, 0 failed
racer.json: 4 tasks, 4 completed, 0 failed
taken 13, completed 13, failed 0, in hand 0
not compared: true
status 0

1 inert.json: nap/3 attributes_upserted; late.json: nap/8 C timer_fired:99
inert.json: 1 tasks, 1 completed, 0 failed
late.json: 2 tasks, 2 completed, 0 failed
taken 3, completed 3, failed 0, in hand 0
not compared: true
status 0

2 branch.json: branch; hole.json: ; nap.json: nap
branch.json: 2 tasks, 2 completed, 0 failed
hole.json: unreadable, not JSON
nap.json: 2 tasks, 2 completed, 0 failed
taken 4, completed 4, failed 0, in hand 0
not compared: true
status 1

1 gr\u{fc}\u{df}.json: greet | 'name':'greet' -> 'name':'greets'; nap.json: nap
gr??.json: 2 tasks, 1 completed, 1 failed
nap.json: 2 tasks, 2 completed, 0 failed
taken 4, completed 3, failed 1, in hand 0
gr??.json: task at 9: event 5 differs
not compared: true
status 1

1 nap.json: nap | 'name':'Nap' -> 'name':'Napp'
nap.json: 2 tasks, 0 completed, 2 failed
taken 2, completed 0, failed 2, in hand 0
nap.json: task at 3: UnknownWorkflow
nap.json: task at 8: UnknownWorkflow
not compared: true
status 1

1 nap.json: start:Nap timer:nap S T C S T
nap.json: 2 tasks, 0 completed, 2 failed
taken 2, completed 0, failed 2, in hand 0
nap.json: task at 4: IdInUse
nap.json: task at 7: IdInUse in the task at 4
not compared: false
status 1

1 nap.json: nap/3
nap.json: 1 tasks, 1 completed, 0 failed
taken 1, completed 1, failed 0, in hand 0
not compared: false
status 0

4 nap.json: nap/3
nap.json: 1 tasks, 1 completed, 0 failed
taken 1, completed 1, failed 0, in hand 0
not compared: false
status 0

1 a.json: nap; b.json: nap/8; c.json: nap/3; d.json: greet
a.json: 2 tasks, 2 completed, 0 failed
b.json: 2 tasks, 2 completed, 0 failed
c.json: 1 tasks, 1 completed, 0 failed
d.json: 2 tasks, 2 completed, 0 failed
taken 7, completed 7, failed 0, in hand 0
not compared: true
status 0

4 a.json: nap; b.json: nap/8; c.json: nap/3; d.json: greet
a.json: 2 tasks, 2 completed, 0 failed
b.json: 2 tasks, 2 completed, 0 failed
c.json: 1 tasks, 1 completed, 0 failed
d.json: 2 tasks, 2 completed, 0 failed
taken 7, completed 7, failed 0, in hand 0
not compared: true
status 0";

/// The sizes of a host with so many workers and slots, whose cache holds so many runs and events.
fn sizes(rt: &impl Abort, workers: u64, cache: u64, cache_events: u64) -> Config
    ensures { IsConfig result }
{
    assert!(rt; 1 <= workers && workers <= 4 && cache <= 100 && cache_events <= 100);
    Config {
        workflow_slots: workers as usize,
        activity_slots: workers as usize,
        cache: cache as usize,
        cache_events,
        seats: workers as usize,
    }
}

/// The sizes in a line.
fn sizes_of(rt: &impl Abort, line: &'static str) -> Config
    ensures { IsConfig result }
{
    let mut words = line;
    let workers = next_number(&mut words).expect(rt, "a number");
    let cache = next_number(&mut words).expect(rt, "a number");
    let cache_events = next_number(&mut words).expect(rt, "a number");
    sizes(rt, workers, cache, cache_events)
}

/// Serves the files, and writes the report.
fn serve<W: Workflow + Send, R: Threads + Wait + Abort + Sync, O: Write>(
    rt: &R,
    alloc: Global,
    files: Vec<(String, Vec<u8>)>,
    sizes: Config,
    writer: &mut O,
) -> Result<ServiceEnd, CommandFault>
    requires { IsConfig sizes }
{
    let read = read_inputs::<W, R, _, _>(
        rt,
        alloc,
        files,
        |file: (String, Vec<u8>)| -> Result<(String, Vec<u8>), InputFault> { Ok(file) },
    );
    let served = serve_read(
        alloc,
        read.expect(rt, "memory"),
        sizes,
        |config: Config, setups: Vec<ServiceSetup>| -> Result<ServiceHost, OutOfMemory>
            requires sizes { IsConfig config }
            requires seats { config.seats ≡ vec_len setups }
            ensures { IfOk result (IsHosted W.program config setups) }
        { host_of::<W, R>(rt, alloc, config, setups) },
    );
    report_served(served.expect(rt, "memory"), writer)
}

/// The report of all samples, followed by its status.
fn samples_served<R: Threads + Wait + Abort + Sync>(rt: &R, alloc: Global, sizes: Config) -> String
    requires { IsConfig sizes }
{
    let mut out = Vec::new(alloc);
    let files = named_files(rt, alloc, SAMPLES);
    let end = serve::<All, _, _>(rt, alloc, files, sizes, &mut out);
    with_status(out, end.expect(rt, "written").status).expect(rt, "a text")
}

#[test]
fn samples_are_served_whatever_the_sizes(rt: HostRuntime) {
    for line in SIZES.lines() {
        let report = samples_served(&rt, rt.alloc(), sizes_of(&rt, line));
        same(rt.alloc(), report.as_str(), SAMPLES_SERVED).expect(&rt, line);
    }
}

/// The report of a service and what comes after it.
fn told(rt: &impl Abort, end: &ServiceEnd, mut out: Vec<u8>) -> String {
    for failure in &end.failures {
        write!(out, "{failure}\n").expect(rt, "written");
    }
    let uncompared = end.uncompared;
    write!(out, "not compared: {uncompared}\n").expect(rt, "written");
    with_status(out, end.status).expect(rt, "a text")
}

/// The report of a service is the text after its first line.
fn is_served<R: Threads + Wait + Abort + Sync>(rt: &R, alloc: Global, block: &'static str) {
    let (mut files, wanted) = block.split_once("\n").expect(rt, block);
    let workers = next_number(&mut files).expect(rt, "a number");
    let mut out = Vec::new(alloc);
    let histories = named_files(rt, alloc, files);
    let end = serve::<All, _, _>(rt, alloc, histories, sizes(rt, workers, 1, 0), &mut out);
    let told = told(rt, &end.expect(rt, "written"), out);
    same(alloc, told.as_str(), wanted).expect(rt, files);
}

#[test]
fn services_are_reported(rt: HostRuntime) {
    for block in SERVICES.split("\n\n") {
        is_served(&rt, rt.alloc(), block);
    }
}

#[test]
fn a_writer_that_fails_is_told(rt: HostRuntime) {
    let mut room = [0; 50];
    let mut writer = room.as_mut_slice();
    let files = named_files(&rt, rt.alloc(), "nap.json: nap; greet.json: greet");
    let sizes = sizes(&rt, 1, 100, 0);
    let answer = serve::<All, _, _>(&rt, rt.alloc(), files, sizes, &mut writer);
    assert!(rt; matches!(answer, Err(CommandFault::Output)));
}
