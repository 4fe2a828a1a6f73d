//! Which workflow tasks of a history are shown.

use wh_events::EventNo;

/// Which workflow tasks of a history are shown.
#[derive(Clone, Copy, Debug)]
pub enum Selection {
    /// All tasks.
    All,
    /// The last so many completed tasks, and what follows them.
    Last(usize),
    /// The task of the event with the number, with the two tasks before and the two after it.
    Around(EventNo),
}
