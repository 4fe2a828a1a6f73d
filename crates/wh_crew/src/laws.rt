//! What the workers of a host poll, as the contract of a function that does nothing.
ghost use Rattle.wh_crew.specs.Crews.{CrewsPollAll};

/// Each queue is polled by a worker of the crew, if the crew has enough workers: the queue of all
/// workers needs one workflow worker, the sticky queue a cache and two, activity tasks one more
/// worker than those.
pub fn every_queue_is_polled()
    ensures { CrewsPollAll }
{}
