//! How the heartbeats of a task are throttled, as the contract of a function that does nothing.
ghost use Rattle.wh_tasks.specs.Throttling.{CancelIsTold, EndSendsLast, FirstIsSent, LastDetailsAreHeld, NoneAfterEnd, NothingIsLost, SendsApart};

/// Whatever the handler, the timer and the server do while a task runs: the first heartbeat is sent
/// at once; from one that is sent to the next at least the interval goes by, by the clock, but for
/// the one at the end, before the answer; the last details that were not sent are those that are
/// sent next, by the timer or at the end; after the end none is sent; nothing that is held is lost,
/// unless the server has no such task; no cancel that was heard is kept from the handler (Temporal
/// documentation, "Activity Heartbeat").
pub fn heartbeats_are_throttled()
    ensures first { FirstIsSent }
    ensures apart { SendsApart }
    ensures last { LastDetailsAreHeld }
    ensures end { EndSendsLast }
    ensures over { NoneAfterEnd }
    ensures lost { NothingIsLost }
    ensures canceled { CancelIsTold }
{}
