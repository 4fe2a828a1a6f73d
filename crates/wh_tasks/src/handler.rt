//! Activity handlers.
ghost use Rattle.std.specs.Prelude.{IfOk};

use crate::failure::ActivityFailure;
use crate::source::{ActivityAnswer, ActivityTask};
use std::alloc::Global;
use wh_events::{OutOfMemory, Text};

/// Runs activities, one handler for each worker. Contracts see which answers an activity may give,
/// and that a handler which passes tasks on to another one runs each of them once.
pub trait ActivityHandler {
    ghost use Rattle.std.specs.Prelude.{Result};
    ghost use Rattle.wh_events.specs.declared.memory.OutOfMemory.{OutOfMemory};
    ghost use Rattle.wh_tasks.specs.Source.{SameMay};
    ghost use Rattle.wh_tasks.specs.declared.source.ActivityTask.{ActivityTask};
    ghost use Rattle.wh_tasks.specs.declared.source.ActivityAnswer.{ActivityAnswer};

    /// Which answers a task may get. No call changes it.
    ghost may: { Self → ActivityTask → ActivityAnswer → Type 0 };

    /// How one run of a task may change the handler, by its result. A handler that leaves it out says
    /// nothing of it.
    ghost runs: { Self → ActivityTask → Result ActivityAnswer OutOfMemory → Self → Type 0 } = { λ old task result new. Unit {0} };

    /// Runs the task and returns its answer. Returns `OutOfMemory` if there was no memory. The task
    /// then gets no answer.
    fn run(&mut self, task: &ActivityTask) -> Result<ActivityAnswer, OutOfMemory>
        ensures once { runs self.old task.now result self.new }
        ensures answer { IfOk result (λ answer. may self.old task.now answer) }
        ensures may { SameMay (may self.old) (may self.new) };
}

/// The handler of a worker that has no activities: it fails each task with the message "no
/// activities", as one of a type that it does not know.
#[derive(Drop)]
pub struct NoActivities {
    /// The allocator for the failures.
    pub alloc: Global,
}

impl ActivityHandler for NoActivities {
    ghost use Rattle.std.specs.Prelude.{◌≡◌, codes};
    ghost use Rattle.wh_tasks.specs.Failures.{not_found};
    ghost use Rattle.wh_tasks.specs.declared.source.ActivityAnswer.TheVariants.{Failed};

    ghost may = { λ handler task answer. answer ≡ Failed (not_found (codes "no activities")) };

    fn run(&mut self, _task: &ActivityTask) -> Result<ActivityAnswer, OutOfMemory> {
        let reason = String::from_str(self.alloc, "no activities")?;
        let failure = ActivityFailure::not_found(self.alloc, Text::new(reason))?;
        Ok(ActivityAnswer::Failed(failure))
    }
}
