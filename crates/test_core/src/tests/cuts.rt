//! Which tasks are cuts, what their records are, and which jobs they have.

/// Tasks that ended in different ways; records, which end at the next completion of either kind;
/// and events of failed tasks, which have no record, and give jobs all the same.
pub(crate) const CUTS: &str = "\
start:Nap => x.json: ok, 0 tasks
start:Nap S => x.json: ok, 0 tasks
nap/3 => x.json: ok, 1 tasks, last live
nap/3 task_failed S T => x.json: ok, 1 tasks, last live
nap/3 task_timed_out S T => x.json: ok, 1 tasks, last live
nap/3 task_failed => x.json: ok, 0 tasks
nap/3 attributes_upserted => x.json: ok, 1 tasks, last live
nap/3 attributes_upserted C timer:nap => x.json: ok, 1 tasks
nap/3 attributes_upserted task_failed => x.json: ok, 0 tasks
start:Nap S T signal:s C timer:x => x.json: ok, 0 tasks
start:Nap S T S C timer:x => x.json: ok, 0 tasks
nap/4 attributes_upserted signal:s timer:nap timer_fired:7 S T C completed => x.json: ok, 2 tasks
nap/4 timer:nap C timer:x => x.json: ok, 1 tasks
nap/4 timer:nap S T signal:s C timer:x => x.json: ok, 1 tasks
nap/4 S T task_failed timer:nap S T C => x.json: ok, 2 tasks
nap/5 S T task_failed timer:x S T C => x.json: fault, event 9 has no command
start:Nap timer:nap timer_fired:2 S T => x.json: ok, 1 tasks, last live
start:Nap timer:nap timer_fired:2 S T C timer:nap completed => x.json: ok, 1 tasks
nap/6 S T task_failed S T C completed => x.json: ok, 2 tasks
nap/6 S T task_timed_out signal:s S T C completed => x.json: ok, 2 tasks
nap/5 S T timer_fired:5 task_failed S T C completed => x.json: ok, 2 tasks
nap/5 timer_fired:5 => x.json: ok, 1 tasks
greet/6 signal:s activity_completed:5 S T C completed => x.json: ok, 2 tasks
greet/5 cancel_requested S T C activity_cancel:5 cancel_requested S T C activity_canceled:5 S T C canceled => x.json: ok, 4 tasks
start:Nap S T timer:x C timer:y => x.json: ok, 0 tasks
start:Nap S T terminated => x.json: ok, 0 tasks
nap/4 timer:nap terminated => x.json: ok, 1 tasks
nap/4 timer:nap timed_out => x.json: ok, 1 tasks
nap/4 timer:nap C timer:nap => x.json: fault, event 7 is not in place: IdInUse
nap/4 timer:nap S T properties_modified task_timed_out attributes_upserted S T ignored C => x.json: ok, 2 tasks
nap/4 C timer:nap => x.json: fault, command 1 of the task at 3 has no event
start:Nap C S T C timer:nap => x.json: ok, 1 tasks
start:Nap S S T T C => x.json: fault, command 1 of the task at 5 has no event
nap/8 task_failed completed S T => x.json: fault, event 11 is not in place: AfterClose
";
