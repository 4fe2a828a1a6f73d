//! Which events are in place.

use crate::tests::lines::replays;
use wh_sample_workflows::All;

/// Events that are not in place, and then events that are, with the result of the task.
pub(crate) const PLACES: &str = "\
S => x.json: fault, event 1 is not in place: FirstNotStart
ignored start:Nap => x.json: fault, event 1 is not in place: FirstNotStart
nap start:Nap => x.json: fault, event 11 is not in place: FirstNotStart
S | 'eventId':'1' -> 'eventId':'5' => x.json: fault, event 1 is not in place: FirstNotStart
start:Nap | 'eventId':'1' -> 'eventId':'5' => x.json: fault, event 1 is not in place: WrongNumber
nap S => x.json: fault, event 11 is not in place: AfterClose
nap ignored => x.json: fault, event 11 is not in place: AfterClose
nap/3 timed_out S => x.json: fault, event 5 is not in place: AfterClose
nap/3 terminated signal:s => x.json: fault, event 5 is not in place: AfterClose
nap | 'startedEventId':'5' -> 'startedEventId':'9' => x.json: fault, event 6 is not in place: NoSuchRef
nap | 'startedEventId':'5' -> 'startedEventId':'6' => x.json: fault, event 6 is not in place: NoSuchRef
nap | 'startedEventId':'5' -> 'startedEventId':null => x.json: fault, event 6 is not in place: NoSuchRef
nap | {'startedEventId':'5'} -> 7 => x.json: fault, event 6 is not in place: NoSuchRef
nap | 'timerFiredEventAttributes' -> 'attributes' => x.json: fault, event 6 is not in place: NoSuchRef
nap/4 timer:x timer_fired:9 => x.json: fault, event 6 is not in place: NoSuchRef
nap/4 cancel_child:kid => x.json: fault, event 5 is not in place: NoSuchRef
start:Family child:kid:Nap child_completed:2 cancel_child:kid => x.json: fault, event 4 is not in place: NoSuchRef
nap | 'startedEventId':'5' -> 'startedEventId':'3' => x.json: fault, event 6 is not in place: WrongKindRef
nap/5 activity_completed:5 => x.json: fault, event 6 is not in place: WrongKindRef
caller/5 external_sent:3 => x.json: fault, event 6 is not in place: WrongKindRef
start:Family child:kid:Nap cancel_child:kid child_completed:3 => x.json: fault, event 4 is not in place: WrongKindRef
nap/6 timer_fired:5 => x.json: fault, event 7 is not in place: AlreadyClosed
greet/7 activity_started:5 => x.json: fault, event 8 is not in place: AlreadyClosed
greet/7 activity_cancel:5 => x.json: fault, event 8 is not in place: AlreadyClosed
caller/6 external_sent:5 => x.json: fault, event 7 is not in place: AlreadyClosed
nap/5 timer:nap => x.json: fault, event 6 is not in place: IdInUse
greet/5 activity:1:greet => x.json: fault, event 6 is not in place: IdInUse
family/5 child:kid:Nap => x.json: fault, event 6 is not in place: IdInUse
greet/6 activity_started:5 => x.json: ok, 1 tasks
greet/5 activity_completed:5 S T => x.json: ok, 2 tasks, last live
family/6 C cancel_child:kid activity:kid:x timer:kid S T => x.json: ok, 2 tasks, last live
family/6 C cancel_child:kid child_completed:5 cancel_sent:8 S T => x.json: ok, 2 tasks, last live
family/6 C cancel_child:kid cancel_child:kid cancel_failed:8 S T => x.json: ok, 2 tasks, last live
family/6 child_refused:5 S T => x.json: ok, 2 tasks, last live
caller/5 C external:other:go external:other:go S T => x.json: ok, 2 tasks, last live
nap/6 C timer:nap S T => x.json: ok, 2 tasks, last live
nap | 'startedEventId' -> 'started' => x.json: fault, event 6 is not in place: NoSuchRef
nap | 'startedEventId':'5' -> 'startedEventId':'0' => x.json: fault, event 6 is not in place: NoSuchRef
nap/6 timer_canceled:5 => x.json: fault, event 7 is not in place: AlreadyClosed
nap/5 timer_canceled:5 timer_fired:5 => x.json: fault, event 7 is not in place: AlreadyClosed
family/10 child_started:5 => x.json: fault, event 11 is not in place: AlreadyClosed
greet/7 activity_failed:5 => x.json: fault, event 8 is not in place: AlreadyClosed
family/6 C cancel_child:kid cancel_sent:8 cancel_failed:8 => x.json: fault, event 10 is not in place: AlreadyClosed
caller/5 external_failed:5 external_sent:5 => x.json: fault, event 7 is not in place: AlreadyClosed
caller/5 cancel_sent:5 => x.json: fault, event 6 is not in place: WrongKindRef
family/6 C cancel_child:kid external_sent:8 => x.json: fault, event 9 is not in place: WrongKindRef
greet/5 timer_fired:5 => x.json: fault, event 6 is not in place: WrongKindRef
greet/5 child_started:5 => x.json: fault, event 6 is not in place: WrongKindRef
nap/5 activity_cancel:5 => x.json: fault, event 6 is not in place: WrongKindRef
greet/5 timer_canceled:5 => x.json: fault, event 6 is not in place: WrongKindRef
greet/5 C activity_cancel:5 activity_cancel:5 activity_started:5 activity_started:5 S T => x.json: ok, 2 tasks, last live
family/5 C cancel_child:kid child_started:5 S T => x.json: ok, 2 tasks, last live
start:Nap completed S => x.json: fault, event 3 is not in place: AfterClose
start:Nap failed S => x.json: fault, event 3 is not in place: AfterClose
start:Nap canceled S => x.json: fault, event 3 is not in place: AfterClose
start:Nap continued S => x.json: fault, event 3 is not in place: AfterClose
nap/5 timer:nap timer_fired:9 => x.json: fault, event 6 is not in place: IdInUse
nap/5 activity:nap:x child:nap:x external:nap:x external:nap:x => x.json: fault, event 6 has no command
";

/// Histories that are longer than one run may be.
const LONG: &str = "\
start:Nap signal:s*51200 => x.json: fault, event 51201 is not in place: TooManyEvents
start:Nap ignored*51200 => x.json: fault, event 51201 is not in place: TooManyEvents
";

/// A history that is as long as one run may be, and then an event with another fault.
const LONGEST: &str = "\
start:Nap signal:s*51199 timer_fired:9 => x.json: fault, event 51201 is not in place: WrongKindRef
";

#[test]
fn bounds_histories(rt: HostRuntime) {
    replays::<All>(&rt, rt.alloc(), LONG);
    replays::<All>(&rt, rt.alloc(), LONGEST);
}
