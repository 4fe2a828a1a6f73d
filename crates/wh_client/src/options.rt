//! The options and the role of a worker.

ghost use Rattle.std.specs.Prelude.{◌≡◌};
ghost use Rattle.wh_client.specs.Roles.{polls_sticky};

use wh_commands::WorkerNames;
use wh_policies::Policies;

/// The options that all workers of a process share.
#[derive(Debug, Drop)]
pub struct LiveOptions {
    /// Their names.
    pub names: WorkerNames,
    /// The options of the commands of workflows, by the names in the commands.
    pub policies: Policies,
    /// How many seconds a task waits in the sticky queue; `None` without a cache, and if only one
    /// worker serves workflows, since that one does not poll the sticky queue.
    pub sticky: Option<u32>,
    /// Whether a line is logged for each answered task.
    pub verbose: bool,
}

/// Which tasks a worker polls for.
#[derive(Clone, Copy, PartialEq, Eq, Debug)]
pub enum TaskQueueKind {
    /// Workflow tasks of the queue that all workers of the application poll.
    Normal,
    /// Workflow tasks of the sticky queue, whose runs this process has cached.
    Sticky,
    /// Activity tasks.
    Activities,
}

impl TaskQueueKind {
    /// Returns whether it polls the sticky queue for workflow tasks, or `None` if it polls for
    /// none.
    pub fn polls_sticky(self) -> Option<bool>
        ensures { result ≡ polls_sticky self }
    {
        match self {
            TaskQueueKind::Normal => Some(false),
            TaskQueueKind::Sticky => Some(true),
            TaskQueueKind::Activities => None,
        }
    }
}
