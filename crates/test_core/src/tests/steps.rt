//! How many jobs a task has, and which part of a pair gets them.

use crate::tests::runs::begins;
use test_support::Scripted;
use wh_sample_workflows::Nap;
use wh_workflow::Pair;

/// How many jobs a workflow that gives nothing gets up to the last task.
const STEPS: &str = "\
nap/3 => 2 steps, holds 3, []
start:Any signal:b signal:a S T => 4 steps, holds 5, []
start:Any timer:t timer_fired:2 signal:s cancel_requested signal:r S T => 6 steps, holds 8, []
start:Any activity:1:a activity_started:2 activity_completed:2 activity:2:a activity_failed:5 activity:3:a activity_timed_out:7 activity:4:a activity_canceled:9 S T => 6 steps, holds 12, []
start:Any child:a:Nap child_started:2 child_completed:2 child:b:Nap child_failed:5 child:c:Nap child_canceled:7 S T => 6 steps, holds 10, []
start:Any child:d:Nap child_timed_out:2 child:e:Nap child_terminated:4 child:f:Nap child_refused:6 S T => 5 steps, holds 9, []
start:Any child:kid:Nap cancel_child:kid cancel_sent:3 cancel_child:kid cancel_failed:5 S T => 4 steps, holds 8, []
start:Any external:other:go external_sent:2 external:another:stop external_failed:4 S T => 4 steps, holds 7, []
start:Any attributes_upserted ignored timer:t timer_canceled:4 chg_marker:MQ== S T => 2 steps, holds 8, []
start:Any S T signal:a task_failed signal:b S T => 4 steps, holds 8, []
start:Any S T task_timed_out S T => 2 steps, holds 6, []
start:Any S T signal:a C signal:b S T => 4 steps, holds 8, []
start:Any S T signal:a signal:b S T => 4 steps, holds 7, []
start:Greet activity:1:greet activity_started:2 S T C activity_completed:2 signal:s S T => 5 steps, holds 10, []
start:Caller external:other:go S T C external_sent:2 S T => 4 steps, holds 8, []
start:Any S T signal:a task_failed S T C signal:b S T => 5 steps, holds 11, []
start:Any signal:a S T attributes_upserted C S T => 4 steps, holds 8, []
start:Any timer:t S T C signal:a timer_fired:2 S T signal:b task_timed_out S T => 6 steps, holds 13, []
";

/// The commands of the first part of a pair for a history whose type both parts register, and those
/// of the second one for a history whose type only it registers.
const PARTS: &str = "\
nap/3 => 2 steps, holds 3, [StartTimer id: nap, seconds: 60]
nap/8 => 4 steps, holds 8, [Complete result: []]
greet/3 => 2 steps, holds 3, []
start:nap S T => 2 steps, holds 3, []
";

#[test]
fn counts_jobs(rt: HostRuntime) {
    begins::<Scripted>(&rt, rt.alloc(), STEPS);
    begins::<Pair<Nap, Scripted>>(&rt, rt.alloc(), PARTS);
    begins::<Pair<Scripted, Nap>>(&rt, rt.alloc(), STEPS);
}
