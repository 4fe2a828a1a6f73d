//! The names of a worker.

ghost use Rattle.std.specs.Prelude.{◌≡◌, IfOk, string_bytes};
ghost use Rattle.wh_commands.specs.Names.{sticky_queue_of};

use std::alloc::Global;
use wh_events::{OutOfMemory, Text};

/// The names of a worker (Temporal documentation, "Namespaces", "Task Queues" and "Sticky
/// Execution").
#[derive(Debug, Drop)]
pub struct WorkerNames {
    /// Its namespace.
    pub namespace: Text,
    /// The Task Queue that all workers of the application poll.
    pub task_queue: Text,
    /// Its identity, as the server shows it. No two processes may have the same.
    pub identity: Text,
    /// Its sticky queue, which no other process polls.
    pub sticky_queue: Text,
}

impl WorkerNames {
    /// Returns the names of a worker. The sticky queue's name is the identity and the Task Queue
    /// with a colon between them. `OutOfMemory` if there was no memory for it.
    pub fn new(
        alloc: Global,
        namespace: String,
        task_queue: String,
        identity: String,
    ) -> Result<Self, OutOfMemory>
        ensures namespace { IfOk result (λ names. names.namespace ≡ string_bytes namespace) }
        ensures task_queue { IfOk result (λ names. names.task_queue ≡ string_bytes task_queue) }
        ensures identity { IfOk result (λ names. names.identity ≡ string_bytes identity) }
        ensures sticky_queue { IfOk result (λ names.
            names.sticky_queue ≡ sticky_queue_of names.identity names.task_queue) }
    {
        let sticky_queue = format!(in alloc; "{identity}:{task_queue}")?;
        Ok(WorkerNames {
            namespace: Text::new(namespace),
            task_queue: Text::new(task_queue),
            identity: Text::new(identity),
            sticky_queue: Text::new(sticky_queue),
        })
    }

    /// Copies the names. `OutOfMemory` if there was no memory for the copies.
    pub fn try_copy(&self) -> Result<WorkerNames, OutOfMemory>
        ensures { IfOk result (λ copy. copy ≡ self.now) }
    {
        Ok(WorkerNames {
            namespace: self.namespace.try_copy()?,
            task_queue: self.task_queue.try_copy()?,
            identity: self.identity.try_copy()?,
            sticky_queue: self.sticky_queue.try_copy()?,
        })
    }
}
