//! Which jobs a task has, and in which order.

use crate::tests::explanations::explains;
use test_support::Scripted;
use wh_sample_workflows::Nap;
use wh_workflow::Pair;

/// The jobs of the task of a history, after tasks without a record, and those of a second task
/// after a recorded one.
const JOBS: &str = "\
nap/3
task at 3
  told Time 2024-05-01T10:00:03Z (event 3)
  told Start Nap (event 1)
  not recorded yet
x.json: ok, 1 tasks, last live
status 0

start:Any signal:b signal:a S T
task at 5
  told Time 2024-05-01T10:00:05Z (event 5)
  told Start Any (event 1)
  told Signal b (event 2)
  told Signal a (event 3)
  not recorded yet
x.json: ok, 1 tasks, last live
status 0

start:Any timer:t timer_fired:2 signal:s cancel_requested signal:r S T
task at 8
  told Time 2024-05-01T10:00:08Z (event 8)
  told Start Any (event 1)
  told Signal s (event 4)
  told Signal r (event 6)
  told TimerFired t (event 3)
  told CancelRequested (event 5)
  not recorded yet
x.json: ok, 1 tasks, last live
status 0

start:Any activity:1:a activity_started:2 activity_completed:2 activity:2:a activity_failed:5 activity:3:a activity_timed_out:7 activity:4:a activity_canceled:9 S T
task at 12
  told Time 2024-05-01T10:00:12Z (event 12)
  told Start Any (event 1)
  told Activity 1 Completed (event 4)
  told Activity 2 Failed (event 6)
  told Activity 3 TimedOut (event 8)
  told Activity 4 Canceled (event 10)
  not recorded yet
x.json: ok, 1 tasks, last live
status 0

start:Any child:a:Nap child_started:2 child_completed:2 child:b:Nap child_failed:5 child:c:Nap child_canceled:7 S T
task at 10
  told Time 2024-05-01T10:00:10Z (event 10)
  told Start Any (event 1)
  told ChildStarted a (event 3)
  told Child a Completed (event 4)
  told Child b Failed (event 6)
  told Child c Canceled (event 8)
  not recorded yet
x.json: ok, 1 tasks, last live
status 0

start:Any child:d:Nap child_timed_out:2 child:e:Nap child_terminated:4 child:f:Nap child_refused:6 S T
task at 9
  told Time 2024-05-01T10:00:09Z (event 9)
  told Start Any (event 1)
  told Child d TimedOut (event 3)
  told Child e Terminated (event 5)
  told Child f StartFailed (event 7)
  not recorded yet
x.json: ok, 1 tasks, last live
status 0

start:Any child:kid:Nap cancel_child:kid cancel_sent:3 cancel_child:kid cancel_failed:5 S T
task at 8
  told Time 2024-05-01T10:00:08Z (event 8)
  told Start Any (event 1)
  told CancelSent kid (event 4)
  told CancelFailed kid (event 6)
  not recorded yet
x.json: ok, 1 tasks, last live
status 0

start:Any external:other:go external_sent:2 external:another:stop external_failed:4 S T
task at 7
  told Time 2024-05-01T10:00:07Z (event 7)
  told Start Any (event 1)
  told SignalSent other go (event 3)
  told SignalFailed another stop (event 5)
  not recorded yet
x.json: ok, 1 tasks, last live
status 0

start:Any attributes_upserted ignored timer:t timer_canceled:4 chg_marker:MQ== S T
task at 8
  told Time 2024-05-01T10:00:08Z (event 8)
  told Start Any (event 1)
  not recorded yet
x.json: ok, 1 tasks, last live
status 0

start:Any S T signal:a task_failed signal:b S T
task at 8
  told Time 2024-05-01T10:00:08Z (event 8)
  told Start Any (event 1)
  told Signal a (event 4)
  told Signal b (event 6)
  not recorded yet
x.json: ok, 1 tasks, last live
status 0

start:Any S T task_timed_out S T
task at 6
  told Time 2024-05-01T10:00:06Z (event 6)
  told Start Any (event 1)
  not recorded yet
x.json: ok, 1 tasks, last live
status 0

start:Any S T signal:a C signal:b S T
task at 8
  told Time 2024-05-01T10:00:08Z (event 8)
  told Start Any (event 1)
  told Signal a (event 4)
  told Signal b (event 6)
  not recorded yet
x.json: ok, 1 tasks, last live
status 0

start:Any S T signal:a signal:b S T
task at 7
  told Time 2024-05-01T10:00:07Z (event 7)
  told Start Any (event 1)
  told Signal a (event 4)
  told Signal b (event 5)
  not recorded yet
x.json: ok, 1 tasks, last live
status 0

start:Greet activity:1:greet activity_started:2 S T C activity_completed:2 signal:s S T
task at 5
  told Time 2024-05-01T10:00:05Z (event 5)
  told Start Greet (event 1)
task at 10
  told Time 2024-05-01T10:00:10Z (event 10)
  told Signal s (event 8)
  told Activity 1 Completed (event 7)
  not recorded yet
x.json: ok, 2 tasks, last live
status 0

start:Caller external:other:go S T C external_sent:2 S T
task at 4
  told Time 2024-05-01T10:00:04Z (event 4)
  told Start Caller (event 1)
task at 8
  told Time 2024-05-01T10:00:08Z (event 8)
  told SignalSent other go (event 6)
  not recorded yet
x.json: ok, 2 tasks, last live
status 0

start:Any S T signal:a task_failed S T C signal:b S T
task at 7
  told Time 2024-05-01T10:00:07Z (event 7)
  told Start Any (event 1)
  told Signal a (event 4)
task at 11
  told Time 2024-05-01T10:00:11Z (event 11)
  told Signal b (event 9)
  not recorded yet
x.json: ok, 2 tasks, last live
status 0

start:Any signal:a S T attributes_upserted C S T
task at 4
  told Time 2024-05-01T10:00:04Z (event 4)
  told Start Any (event 1)
  told Signal a (event 2)
task at 8
  told Time 2024-05-01T10:00:08Z (event 8)
  not recorded yet
x.json: ok, 2 tasks, last live
status 0

start:Any timer:t S T C signal:a timer_fired:2 S T signal:b task_timed_out S T
task at 4
  told Time 2024-05-01T10:00:04Z (event 4)
  told Start Any (event 1)
task at 13
  told Time 2024-05-01T10:00:13Z (event 13)
  told Signal a (event 6)
  told Signal b (event 10)
  told TimerFired t (event 7)
  not recorded yet
x.json: ok, 2 tasks, last live
status 0";

/// The jobs of the second part for a history whose type the first part does not register.
const SECOND_PART: &str = "\
greet/3
task at 3
  told Time 2024-05-01T10:00:03Z (event 3)
  told Start Greet (event 1)
  not recorded yet
x.json: ok, 1 tasks, last live
status 0

start:nap S T
task at 3
  told Time 2024-05-01T10:00:03Z (event 3)
  told Start nap (event 1)
  not recorded yet
x.json: ok, 1 tasks, last live
status 0";

#[test]
fn tells_jobs_in_order(rt: HostRuntime) {
    explains::<Scripted>(&rt, rt.alloc(), JOBS);
    explains::<Pair<Nap, Scripted>>(&rt, rt.alloc(), SECOND_PART);
    explains::<Pair<Scripted, Nap>>(&rt, rt.alloc(), JOBS);
}
