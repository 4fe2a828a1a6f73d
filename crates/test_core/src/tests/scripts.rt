//! Which commands one task may give, and which of them are sent.

use crate::tests::runs::begins;
use test_support::Scripted;

/// What one task opens and cancels, with nothing open before it.
const WITHDRAWN: &str = "\
start:Scripted S T => 2 steps, holds 3, []
start:Scripted signal:start_timer signal:cancel_timer S T => 4 steps, holds 5, []
start:Scripted signal:start_activity signal:cancel_activity S T => 4 steps, holds 5, []
start:Scripted signal:start_child signal:cancel_child S T => 4 steps, holds 5, []
start:Scripted signal:start_timer signal:start_activity signal:cancel_timer S T => 5 steps, holds 6, [StartActivity id: 1, activity: work, input: []]
start:Scripted signal:start_timer signal:cancel_timer signal:start_timer S T => Fault(Workflow at: 6, fault: IdReused)
start:Scripted signal:start_activity signal:cancel_activity signal:start_activity S T => Fault(Workflow at: 6, fault: IdReused)
start:Scripted signal:start_child signal:cancel_child signal:start_child S T => Fault(Workflow at: 6, fault: IdReused)
start:Scripted signal:start_timer signal:cancel_timer signal:cancel_timer S T => Fault(Workflow at: 6, fault: NotOpen)
start:Scripted signal:start_activity signal:cancel_activity signal:cancel_activity S T => Fault(Workflow at: 6, fault: NotOpen)
start:Scripted signal:start_child signal:cancel_child signal:cancel_child S T => Fault(Workflow at: 6, fault: NotOpen)
start:Scripted signal:start_timer signal:start_timer S T => Fault(Workflow at: 5, fault: IdInUse)
start:Scripted signal:start_activity signal:start_activity S T => Fault(Workflow at: 5, fault: IdInUse)
start:Scripted signal:start_child signal:start_child S T => Fault(Workflow at: 5, fault: IdInUse)
start:Scripted signal:cancel_timer S T => Fault(Workflow at: 4, fault: NotOpen)
start:Scripted signal:cancel_activity S T => Fault(Workflow at: 4, fault: NotOpen)
start:Scripted signal:cancel_child S T => Fault(Workflow at: 4, fault: NotOpen)
";

/// The same with things that are open before the task.
const OPEN: &str = "\
start:Scripted timer:t signal:cancel_timer signal:start_timer S T => 4 steps, holds 6, [CancelTimer id: t, StartTimer id: t, seconds: 1]
start:Scripted timer:t signal:cancel_timer signal:start_timer signal:cancel_timer S T => 5 steps, holds 7, [CancelTimer id: t]
start:Scripted timer:t signal:cancel_timer signal:start_timer signal:cancel_timer signal:start_timer S T => Fault(Workflow at: 8, fault: IdReused)
start:Scripted timer:t signal:cancel_timer signal:cancel_timer S T => Fault(Workflow at: 6, fault: NotOpen)
start:Scripted timer:t signal:start_timer S T => Fault(Workflow at: 5, fault: IdInUse)
start:Scripted timer:u activity:t:work child:t:Nap signal:start_timer S T => 3 steps, holds 7, [StartTimer id: t, seconds: 1]
start:Scripted timer:u activity:t:work child:t:Nap signal:cancel_timer S T => Fault(Workflow at: 7, fault: NotOpen)
start:Scripted activity:1:work signal:cancel_activity S T => 3 steps, holds 5, [CancelActivity id: 1]
start:Scripted activity:1:work signal:cancel_activity signal:cancel_activity S T => Fault(Workflow at: 6, fault: AlreadyCancelling)
start:Scripted activity:1:work activity_cancel:2 signal:cancel_activity S T => Fault(Workflow at: 6, fault: AlreadyCancelling)
start:Scripted activity:1:work activity_cancel:2 activity_started:2 signal:cancel_activity S T => Fault(Workflow at: 7, fault: AlreadyCancelling)
start:Scripted activity:1:work signal:cancel_activity signal:start_activity S T => Fault(Workflow at: 6, fault: IdInUse)
start:Scripted activity:1:work signal:start_activity S T => Fault(Workflow at: 5, fault: IdInUse)
start:Scripted activity:9:work signal:cancel_activity S T => Fault(Workflow at: 5, fault: NotOpen)
start:Scripted child:kid:Nap signal:cancel_child S T => 3 steps, holds 5, [CancelChild workflow_id: kid]
start:Scripted child:kid:Nap signal:cancel_child signal:cancel_child S T => Fault(Workflow at: 6, fault: AlreadyCancelling)
start:Scripted child:kid:Nap cancel_child:kid signal:cancel_child S T => Fault(Workflow at: 6, fault: AlreadyCancelling)
start:Scripted child:kid:Nap signal:cancel_child signal:start_child S T => Fault(Workflow at: 6, fault: IdInUse)
";

/// Cancels of what ended just before the task.
const LATE: &str = "\
start:Scripted timer:t timer_fired:2 signal:cancel_timer S T => 4 steps, holds 6, []
start:Scripted activity:1:work activity_completed:2 signal:cancel_activity S T => 4 steps, holds 6, []
start:Scripted child:kid:Nap child_failed:2 signal:cancel_child S T => 4 steps, holds 6, []
start:Scripted timer:t timer_fired:2 signal:cancel_timer signal:cancel_timer S T => 5 steps, holds 7, []
start:Scripted timer:t timer_fired:2 signal:start_timer signal:cancel_timer S T => 5 steps, holds 7, []
start:Scripted timer:t timer_fired:2 signal:start_timer signal:cancel_timer signal:cancel_timer S T => Fault(Workflow at: 8, fault: NotOpen)
start:Scripted timer:t timer_fired:2 signal:cancel_timer signal:start_timer S T => 5 steps, holds 7, [StartTimer id: t, seconds: 1]
start:Scripted timer:t timer_fired:2 signal:cancel_timer signal:start_timer signal:cancel_timer S T => 6 steps, holds 8, []
start:Scripted timer:t timer_fired:2 timer:t signal:cancel_timer S T => 4 steps, holds 7, [CancelTimer id: t]
start:Scripted timer:t timer_fired:2 timer:t timer_canceled:4 signal:cancel_timer S T => Fault(Workflow at: 8, fault: NotOpen)
start:Scripted timer:t timer_canceled:2 signal:cancel_timer S T => Fault(Workflow at: 6, fault: NotOpen)
start:Scripted timer:t S T C timer_fired:2 S T C signal:cancel_timer S T => Fault(Workflow at: 12, fault: NotOpen)
start:Scripted timer:t S T C timer_fired:2 S T task_failed signal:cancel_timer S T => 5 steps, holds 12, []
";

/// Commands that close the run.
const CLOSING: &str = "\
start:Scripted signal:complete S T => 3 steps, holds 4, [Complete result: []]
start:Scripted signal:fail S T => 3 steps, holds 4, [Fail message: failure]
start:Scripted signal:cancel S T => 3 steps, holds 4, [Cancel]
start:Scripted signal:continue S T => 3 steps, holds 4, [ContinueAsNew workflow: Nap, input: []]
start:Scripted signal:complete signal:other S T => 4 steps, holds 5, [Complete result: []]
start:Scripted signal:complete signal:start_timer S T => Fault(Workflow at: 5, fault: AfterClosing)
start:Scripted signal:fail signal:fail S T => Fault(Workflow at: 5, fault: AfterClosing)
start:Scripted signal:cancel signal:signal_other S T => Fault(Workflow at: 5, fault: AfterClosing)
start:Scripted signal:continue signal:ask S T => Fault(Workflow at: 5, fault: AfterClosing)
start:Scripted signal:complete signal:cancel_timer S T => Fault(Workflow at: 5, fault: AfterClosing)
start:Scripted signal:complete signal:ask_crossed S T => Fault(Workflow at: 5, fault: AfterClosing)
start:Scripted signal:cancel_timer signal:complete signal:complete S T => Fault(Workflow at: 6, fault: NotOpen)
start:Scripted signal:signal_other signal:signal_other S T => 4 steps, holds 5, [SignalExternal workflow_id: other, signal: go, input: [], SignalExternal workflow_id: other, signal: go, input: []]
";

/// Versions of a change, by what is settled, what is recorded, and the range.
const VERSIONS: &str = "\
start:Scripted signal:ask S T => 4 steps, holds 4, [Marker change_id: chg, version: 1], chg is 1
start:Scripted signal:ask signal:ask_known signal:ask_new S T => 8 steps, holds 6, [Marker change_id: chg, version: 1], chg is 1
start:Scripted signal:start_timer signal:ask signal:start_activity S T => 6 steps, holds 6, [StartTimer id: t, seconds: 1, Marker change_id: chg, version: 1, StartActivity id: 1, activity: work, input: []], chg is 1
start:Scripted signal:ask_later S T => 4 steps, holds 4, [Marker change_id: chg, version: 3], chg is 3
start:Scripted signal:ask signal:ask_later S T => Fault(Workflow at: 5, fault: VersionOutOfRange)
start:Scripted signal:ask_crossed S T => Fault(Workflow at: 4, fault: BadRange)
start:Scripted signal:ask_below S T => Fault(Workflow at: 4, fault: BadRange)
start:Scripted signal:ask_none S T => Fault(Workflow at: 4, fault: BadRange)
start:Scripted signal:ask signal:ask_crossed S T => Fault(Workflow at: 5, fault: BadRange)
start:Scripted signal:ask_crossed S T C chg_marker:NQ== S T => Fault(Workflow at: 4, fault: BadRange)
start:Scripted signal:ask_new S T C chg_marker:NQ== S T => Fault(Workflow at: 4, fault: VersionOutOfRange)
start:Scripted signal:ask_new S T C chg_marker:Mg== S T => 5 steps, holds 8, [], chg is 2
start:Scripted signal:ask_new S T C S T => Fault(Workflow at: 4, fault: VersionOutOfRange)
start:Scripted signal:ask_known S T C S T => Fault(Workflow at: 4, fault: VersionOutOfRange)
start:Scripted signal:ask S T C S T => 5 steps, holds 7, [], chg is -1
start:Scripted signal:ask S T C chg_marker:LTE= S T => 5 steps, holds 8, [], chg is -1
start:Scripted signal:ask S T C signal:ask S T => 7 steps, holds 8, [], chg is -1
start:Scripted signal:ask S T C signal:ask_known S T => Fault(Workflow at: 8, fault: VersionOutOfRange)
start:Scripted signal:ask S T C chg_marker:MA== signal:ask S T => 7 steps, holds 9, [], chg is 0
start:Scripted signal:ask S T C chg_marker:MA== chg_marker:MQ== S T => Fault(Mismatch at: 4, mismatch: CommandMissing event: 7)
start:Scripted signal:ask S T C oth_marker:MA== chg_marker:MQ== S T => Fault(Mismatch at: 4, mismatch: Different event: 6)
start:Scripted signal:ask S T C oth_marker:MA== S T => Fault(Mismatch at: 4, mismatch: CommandMissing event: 6)
start:Scripted signal:ask S T C S T C chg_marker:MQ== S T => Fault(Mismatch at: 7, mismatch: CommandMissing event: 9)
start:Scripted signal:ask S T C S T task_failed chg_marker:MA== S T => 5 steps, holds 11, [], chg is 0
start:Scripted chg_marker:MA== signal:ask S T => 4 steps, holds 5, [Marker change_id: chg, version: 1], chg is 1
start:Scripted signal:ask signal:ask S T C chg_marker:MA== S T => 7 steps, holds 9, [], chg is 0
";

#[test]
fn judges_scripts(rt: HostRuntime) {
    begins::<Scripted>(&rt, rt.alloc(), WITHDRAWN);
    begins::<Scripted>(&rt, rt.alloc(), OPEN);
    begins::<Scripted>(&rt, rt.alloc(), LATE);
    begins::<Scripted>(&rt, rt.alloc(), CLOSING);
    begins::<Scripted>(&rt, rt.alloc(), VERSIONS);
}
