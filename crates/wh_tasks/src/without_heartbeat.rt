//! Activity handlers that send no heartbeats.

use crate::with_heartbeat::HeartbeatHandler;
use crate::{ActivityAnswer, ActivityHandler, ActivityTask, Heartbeat};
use wh_events::OutOfMemory;

/// A handler that sends no heartbeats, as a `HeartbeatHandler`: it runs once for each task, and its
/// answer is the task's.
#[derive(Drop)]
pub struct WithoutHeartbeat<A> {
    /// Runs the activities.
    pub handler: A,
}

impl<A: ActivityHandler> HeartbeatHandler for WithoutHeartbeat<A> {
    ghost may = { λ silent brings tells. A.may silent.handler };

    ghost runs = { λ old brings tells task result new. A.runs old.handler task result new.handler };

    fn run<H: Heartbeat>(
        &mut self,
        task: &ActivityTask,
        _heartbeat: &mut H,
    ) -> Result<ActivityAnswer, OutOfMemory> {
        self.handler.run(task)
    }
}
