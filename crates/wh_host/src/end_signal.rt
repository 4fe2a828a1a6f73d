//! A signal that the workers of a host have ended.

use std::sync::{Condvar, Mutex, Wait};
use std::time::{Clock, Duration};

/// Shows whether the workers of a host have ended, and wakes other threads that wait for that.
#[derive(Drop)]
pub struct EndSignal {
    has_ended: Mutex<bool>,
    changed: Condvar,
}

impl EndSignal {
    /// Returns a signal that the workers have not ended.
    pub fn new() -> EndSignal {
        EndSignal {
            has_ended: Mutex::new(false),
            changed: Condvar::new(),
        }
    }

    /// Signals that the workers have ended, and wakes all threads that wait for that.
    pub fn end<R: Wait>(&self, rt: &R) {
        *self.has_ended.lock(rt) = true;
        self.changed.notify_all();
    }

    /// Waits until the workers have ended, but no longer than `most`. Returns whether they have not
    /// ended then.
    pub fn wait<R: Wait + Clock>(&self, rt: &R, most: Duration) -> bool {
        let has_ended = self.has_ended.lock(rt);
        let (has_ended, _waited) = self
            .changed
            .wait_timeout_while(rt, has_ended, most, |has_ended| !*has_ended);
        !*has_ended
    }
}
