//! Which commands a task may give, and whether they match the record.

use crate::tests::cuts::CUTS;
use crate::tests::lines::replays;
use crate::tests::places::PLACES;
use crate::tests::reading::{READ, REFUSED, REFUSED_FIRST};
use wh_sample_workflows::{All, Asker, Flood};

/// Commands that match their record or do not, versions of a change, and invalid commands.
const ACTIVATIONS: &str = "\
greet => x.json: ok, 2 tasks
branch => x.json: ok, 2 tasks
family => x.json: ok, 3 tasks
racer => x.json: ok, 4 tasks
caller => x.json: ok, 2 tasks
start:Relay S T C completed => x.json: ok, 1 tasks
start:Relay S T C continued => x.json: fault, event 5 differs
start:Relay S T C timer:leg timer_fired:5 S T C continued | {'workflowType' -> {'input':{'payloads':[{'data':'AQ=='},{'data':'Ag=='}]},'workflowType' => x.json: ok, 2 tasks
start:Relay S T C timer:leg timer_fired:5 S T C completed | {'workflowType' -> {'input':{'payloads':[{'data':'AQ=='},{'data':'Ag=='}]},'workflowType' => x.json: fault, event 10 differs
start:Relay S T C completed | {'workflowType' -> {'input':{'payloads':[{'data':'AQ=='},{'data':'Ag=='}]},'workflowType' => x.json: fault, event 5 differs
nap | 'timerId':'nap' -> 'timerId':'x' => x.json: fault, event 5 differs
greet | 'name':'greet' -> 'name':'greets' => x.json: fault, event 5 differs
caller | 'signalName':'go' -> 'signalName':'stop' => x.json: fault, event 5 differs
caller/5 external_failed:5 S T C completed => x.json: fault, event 10 differs
caller/5 external_failed:5 S T C failed => x.json: ok, 2 tasks
nap/9 failed => x.json: fault, event 10 differs
racer/5 => x.json: fault, command 2 of the task at 3 has no event
nap/4 => x.json: fault, command 1 of the task at 3 has no event
nap/5 timer:x => x.json: fault, event 6 has no command
greet/7 S T C failed => x.json: fault, event 11 differs
greet/5 activity_failed:5 S T C failed => x.json: ok, 2 tasks
greet/5 activity_timed_out:5 S T C failed => x.json: ok, 2 tasks
greet/5 activity_canceled:5 S T C canceled => x.json: ok, 2 tasks
family/6 S T C child_failed:5 S T C failed => x.json: ok, 3 tasks
family/6 signal:stop S T C cancel_child:kid child_canceled:5 cancel_sent:11 S T C canceled => x.json: ok, 3 tasks
greet/5 cancel_requested S T C activity_cancel:5 activity_canceled:5 S T C canceled => x.json: ok, 3 tasks
start:Branch S T C chg_marker:MQ== activity:1:new => x.json: ok, 1 tasks
start:Branch S T C chg_marker:MA== activity:1:new => x.json: ok, 1 tasks
start:Branch S T C chg_marker:LTE= activity:1:old => x.json: ok, 1 tasks
start:Branch S T C activity:1:new => x.json: fault, event 5 differs
start:Branch S T C chg_marker:MQ== activity:1:old => x.json: fault, event 6 differs
start:Branch S T C activity:1:new chg_marker:MQ== => x.json: fault, event 5 differs
start:Branch chg_marker:MQ== S T C activity:1:old => x.json: ok, 1 tasks
start:Branch S T C chg_marker:Mg== activity:1:new => x.json: fault, task at 3: VersionOutOfRange
start:Branch S T C activity:2:x chg_marker:Mg== => x.json: fault, task at 3: VersionOutOfRange
start:Nope => x.json: fault, task at 1: UnknownWorkflow
start:Flood S T => x.json: fault, task at 1: UnknownWorkflow
nap | 'name':'Nap' -> 'name':'Nope' => x.json: fault, task at 1: UnknownWorkflow
start:Nope S timer_fired:2 => x.json: fault, event 3 is not in place: WrongKindRef
start:Nap timer:nap S T => x.json: fault, task at 4: IdInUse
start:Greet activity:1:greet S T => x.json: fault, task at 4: IdInUse
start:Family child:kid:Nap cancel_child:kid cancel_child:kid S T => x.json: fault, task at 6: IdInUse
start:Greet activity:1:greet activity_completed:2 activity:1:greet activity_completed:4 S T => x.json: fault, task at 7: AfterClosing
greet/5 C activity_cancel:5 cancel_requested S T => x.json: fault, task at 10: AlreadyCancelling
family/6 C cancel_child:kid cancel_failed:8 signal:stop S T => x.json: fault, task at 12: AlreadyCancelling
start:Racer S T C activity:1:race timer:t C timer_canceled:6 activity_completed:5 S T => x.json: fault, task at 11: NotOpen
start:Racer activity:1:race activity_completed:2 S T => x.json: ok, 1 tasks, last live
racer/13 => x.json: ok, 2 tasks
racer/12 => x.json: fault, command 2 of the task at 9 has no event
racer/12 timer:v => x.json: fault, event 13 differs
racer/13 timer:v => x.json: fault, event 14 has no command
racer/10 activity_cancel:5 timer:u activity_canceled:5 => x.json: ok, 2 tasks
racer/10 timer:u activity_cancel:5 => x.json: fault, event 11 differs
late C timer:u => x.json: ok, 2 tasks
late C activity_started:5 timer:u => x.json: fault, event 13 is not in place: AlreadyClosed
late C timer:u timer:v => x.json: fault, event 14 has no command
nap | 'timerId':'nap' -> 'timerId':' ' => x.json: fault, event 5 differs
family/5 child_completed:5 S T C completed => x.json: ok, 2 tasks
family/5 child_canceled:5 S T C canceled => x.json: ok, 2 tasks
family/5 child_timed_out:5 S T C failed => x.json: ok, 2 tasks
family/5 child_terminated:5 S T C failed => x.json: ok, 2 tasks
family/5 child_refused:5 S T C failed => x.json: ok, 2 tasks
family/6 signal:go S T C child_completed:5 S T C completed => x.json: ok, 3 tasks
family/6 signal:stop signal:stop S T C cancel_child:kid => x.json: ok, 2 tasks
racer/6 activity_completed:5 S T C timer_canceled:6 completed => x.json: ok, 2 tasks
racer/6 activity_timed_out:5 S T C timer_canceled:6 failed => x.json: ok, 2 tasks
racer/6 activity_completed:5 S T C completed timer_canceled:6 => x.json: fault, event 12 is not in place: AfterClose
caller/5 external_sent:5 signal:s S T C completed => x.json: ok, 2 tasks
branch/5 activity_canceled:5 S T C failed => x.json: ok, 2 tasks
greet/6 activity_completed:5 cancel_requested S T C completed => x.json: ok, 2 tasks
greet/6 cancel_requested activity_completed:5 S T C completed => x.json: ok, 2 tasks
greet/6 cancel_requested activity_completed:5 S T C activity_cancel:5 => x.json: fault, event 12 is not in place: AlreadyClosed
";

/// Commands in one task up to their bound.
const MANY: &str = "\
start:Flood signal:s*63 S T => x.json: ok, 1 tasks, last live
start:Flood signal:s*64 S T => x.json: fault, task at 67: TooManyCommands
";

/// Requests for versions without an end.
const ASKS: &str = "\
start:Asker S T => x.json: fault, task at 3: TooManyCommands
";

#[test]
fn judges_histories(rt: HostRuntime) {
    replays::<All>(&rt, rt.alloc(), READ);
    replays::<All>(&rt, rt.alloc(), REFUSED);
    replays::<All>(&rt, rt.alloc(), REFUSED_FIRST);
    replays::<All>(&rt, rt.alloc(), PLACES);
    replays::<All>(&rt, rt.alloc(), CUTS);
    replays::<All>(&rt, rt.alloc(), ACTIVATIONS);
}

#[test]
fn bounds_commands(rt: HostRuntime) {
    replays::<Flood>(&rt, rt.alloc(), MANY);
    replays::<Asker>(&rt, rt.alloc(), ASKS);
}
