//! Activity handlers that send heartbeats, and a handler with its heartbeat.
ghost use Rattle.std.specs.Prelude.{◌≡◌, IfOk};
ghost use Rattle.wh_tasks.specs.WithHeartbeat.{completes};

use crate::{ActivityAnswer, ActivityHandler, ActivityTask, Heartbeat};
use wh_events::OutOfMemory;

/// Runs activities, one handler for each worker, and can send heartbeats meanwhile. A heartbeat
/// reports to the server that an activity goes on, and its response says whether the activity is to
/// be canceled (Temporal documentation, "Activity Heartbeat"). Contracts see which answers an
/// activity may give, and that a handler which passes tasks on to another one runs each of them
/// once.
pub trait HeartbeatHandler {
    ghost use Rattle.std.specs.Prelude.{Result};
    ghost use Rattle.wh_tasks.specs.WithHeartbeat.{Brings, Tells};
    ghost use Rattle.wh_events.specs.declared.memory.OutOfMemory.{OutOfMemory};
    ghost use Rattle.wh_tasks.specs.Source.{SameMay};
    ghost use Rattle.wh_tasks.specs.declared.source.ActivityTask.{ActivityTask};
    ghost use Rattle.wh_tasks.specs.declared.source.ActivityAnswer.{ActivityAnswer};

    /// Which answers a task may get, by the responses that heartbeats may get, and by the info that
    /// a handler may get of a task. No call changes it.
    ghost may: { Self → Brings → Tells → ActivityTask → ActivityAnswer → Type 0 };

    /// How one run of a task may change the handler, by these and its result. A handler that leaves
    /// it out says nothing of it.
    ghost runs: { Self → Brings → Tells → ActivityTask → Result ActivityAnswer OutOfMemory → Self → Type 0 } = { λ old brings tells task result new. Unit {0} };

    /// Runs the task and returns its answer. With the heartbeat's `info` it can go on where an
    /// earlier attempt was. If a response was that the activity is to be canceled, the source
    /// answers a failure as canceled. Returns `OutOfMemory` if there was no memory. The task then
    /// gets no answer.
    fn run<H: Heartbeat>(
        &mut self,
        task: &ActivityTask,
        heartbeat: &mut H,
    ) -> Result<ActivityAnswer, OutOfMemory>
        ensures once { runs self.old H.brings H.tells task.now result self.new }
        ensures answer { IfOk result (λ answer. may self.old H.brings H.tells task.now answer) }
        ensures may { SameMay (may self.old H.brings H.tells) (may self.new H.brings H.tells) };
}

/// Returns whether the outcome of a run completes its activity.
fn completes(outcome: &Result<ActivityAnswer, OutOfMemory>) -> bool
    ensures { result ≡ completes outcome.now }
{
    matches!(outcome, Ok(ActivityAnswer::Completed(_)))
}

/// A handler with its heartbeat, as an `ActivityHandler` for a worker: the handler runs once for
/// each task, and its answer is the task's. Unless it completes the activity, the details that its
/// heartbeat holds are sent before the answer, so that a later attempt gets the last ones.
#[derive(Drop)]
pub struct WithHeartbeat<B, H> {
    /// Runs the activities.
    pub handler: B,
    /// Sends its heartbeats.
    pub heartbeat: H,
}

impl<B: HeartbeatHandler, H: Heartbeat> ActivityHandler for WithHeartbeat<B, H> {
    ghost use Rattle.std.specs.Prelude.{false};

    ghost may = { λ with_heartbeat. B.may with_heartbeat.handler H.brings H.tells };

    ghost runs = { λ old task result new. B.runs old.handler H.brings H.tells task result new.handler
        × (completes result ≡ false → H.is_flushed new.heartbeat) };

    fn run(&mut self, task: &ActivityTask) -> Result<ActivityAnswer, OutOfMemory> {
        let outcome = self.handler.run(task, &mut self.heartbeat);
        self.heartbeat.finish(completes(&outcome));
        outcome
    }
}
