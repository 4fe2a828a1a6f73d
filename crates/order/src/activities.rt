//! The activities of a program that serves orders, and more.

use crate::steps::run_steps;
use crate::till::Till;
use std::sync::Wait;
use std::time::Clock;
use wh_events::OutOfMemory;
use wh_tasks::{ActivityAnswer, ActivityTask, Heartbeat, HeartbeatHandler};

/// Runs the activities of orders, and `Steps`, whose input is what it does. Each payload of that is
/// a step: `"wait"` waits for half a second, `"fail"` fails the activity, and any other is sent as
/// the details of a heartbeat. If a response says that the activity is needed no more, it fails as
/// called off.
#[derive(Drop)]
pub struct Activities<'a, R> {
    /// What steps wait on.
    pub rt: &'a R,
    /// Runs the activities of orders.
    pub till: Till,
}

impl<R: Wait + Clock> HeartbeatHandler for Activities<'_, R> {
    ghost use Rattle.order.specs.Steps.{MayAnswer};

    ghost may = { λ activities. MayAnswer };

    fn run<H: Heartbeat>(
        &mut self,
        task: &ActivityTask,
        heartbeat: &mut H,
    ) -> Result<ActivityAnswer, OutOfMemory> {
        if task.activity.get() == "Steps" {
            run_steps(self.rt, self.till.alloc, task.input.get(), heartbeat)
        } else {
            self.till.run(task, heartbeat)
        }
    }
}
