//! How many commands one task may give, and how they compare with what is recorded.

use crate::tests::lines::replays;
use test_support::Scripted;

/// As many commands as one task may give, and more. Those that are not sent count as well.
const COUNTED: &str = "\
start:Scripted signal:signal_other*4096 S T => x.json: ok, 1 tasks, last live
start:Scripted signal:signal_other*4097 S T => x.json: fault, task at 4100: TooManyCommands
start:Scripted signal:signal_other*4095 signal:complete S T => x.json: ok, 1 tasks, last live
start:Scripted signal:signal_other*4095 signal:complete*2 S T => x.json: fault, task at 4100: AfterClosing
start:Scripted signal:start_timer signal:cancel_timer signal:signal_other*4094 S T => x.json: ok, 1 tasks, last live
start:Scripted signal:start_timer signal:cancel_timer signal:signal_other*4095 S T => x.json: fault, task at 4100: TooManyCommands
start:Scripted timer:t timer_fired:2 signal:cancel_timer*4096 S T => x.json: ok, 1 tasks, last live
start:Scripted timer:t timer_fired:2 signal:cancel_timer*4097 S T => x.json: fault, task at 4102: TooManyCommands
start:Scripted signal:ask*4096 S T => x.json: ok, 1 tasks, last live
start:Scripted signal:ask*4097 S T => x.json: fault, task at 4100: TooManyCommands
";

/// Commands and what is recorded of them.
const RECORDED: &str = "\
start:Scripted signal:start_activity S T C activity:1:work => x.json: ok, 1 tasks
start:Scripted signal:start_activity S T C activity:2:work => x.json: fault, event 6 differs
start:Scripted signal:start_activity S T C activity:1:play => x.json: fault, event 6 differs
start:Scripted signal:start_activity S T C timer:1 => x.json: fault, event 6 differs
start:Scripted signal:start_timer S T C timer:t => x.json: ok, 1 tasks
start:Scripted signal:start_timer S T C timer:u => x.json: fault, event 6 differs
start:Scripted signal:start_child S T C child:kid:Nap => x.json: ok, 1 tasks
start:Scripted signal:start_child S T C child:other:Nap => x.json: fault, event 6 differs
start:Scripted signal:start_child S T C child:kid:Nope => x.json: fault, event 6 differs
start:Scripted signal:signal_other S T C external:other:go => x.json: ok, 1 tasks
start:Scripted signal:signal_other S T C external:kid:go => x.json: fault, event 6 differs
start:Scripted signal:signal_other S T C external:other:stop => x.json: fault, event 6 differs
start:Scripted activity:1:work signal:cancel_activity S T C activity_cancel:2 => x.json: ok, 1 tasks
start:Scripted activity:1:work activity:2:work signal:cancel_activity S T C activity_cancel:3 => x.json: fault, event 8 differs
start:Scripted activity:1:work activity_completed:2 activity:1:work signal:cancel_activity S T C activity_cancel:4 => x.json: ok, 1 tasks
start:Scripted timer:t signal:cancel_timer S T C timer_canceled:2 => x.json: ok, 1 tasks
start:Scripted timer:t timer:u signal:cancel_timer S T C timer_canceled:3 => x.json: fault, event 8 differs
start:Scripted timer:t signal:cancel_timer signal:start_timer S T C timer_canceled:2 timer:t => x.json: ok, 1 tasks
start:Scripted child:kid:Nap signal:cancel_child S T C cancel_child:kid => x.json: ok, 1 tasks
start:Scripted child:kid:Nap child:x:Nap signal:cancel_child S T C cancel_child:x => x.json: fault, event 8 differs
start:Scripted signal:complete S T C completed => x.json: ok, 1 tasks
start:Scripted signal:complete S T C failed => x.json: fault, event 6 differs
start:Scripted signal:complete S T C terminated => x.json: fault, command 1 of the task at 4 has no event
start:Scripted signal:fail S T C failed => x.json: ok, 1 tasks
start:Scripted signal:fail S T C canceled => x.json: fault, event 6 differs
start:Scripted signal:cancel S T C canceled => x.json: ok, 1 tasks
start:Scripted signal:cancel S T C continued => x.json: fault, event 6 differs
start:Scripted signal:continue S T C continued => x.json: ok, 1 tasks
start:Scripted signal:continue S T C completed => x.json: fault, event 6 differs
start:Scripted signal:start_timer signal:start_activity S T C timer:t activity:1:work => x.json: ok, 1 tasks
start:Scripted signal:start_timer signal:start_activity S T C activity:1:work timer:t => x.json: fault, event 7 differs
start:Scripted signal:start_timer signal:start_activity S T C timer:t => x.json: fault, command 2 of the task at 5 has no event
start:Scripted signal:start_timer S T C timer:t activity:1:work => x.json: fault, event 7 has no command
start:Scripted signal:start_timer signal:cancel_timer S T C => x.json: ok, 1 tasks
start:Scripted signal:start_timer signal:cancel_timer S T C timer:t => x.json: fault, event 7 has no command
start:Scripted timer:t timer_fired:2 signal:cancel_timer S T C => x.json: ok, 1 tasks
";

#[test]
fn counts_and_compares_commands(rt: HostRuntime) {
    replays::<Scripted>(&rt, rt.alloc(), COUNTED);
    replays::<Scripted>(&rt, rt.alloc(), RECORDED);
}
