//! Polls that fail in a row.

ghost use Rattle.std.specs.Prelude.{◌≡◌, ℕ, ◌≤◌, ◌*◌, ◌+◌, min};
ghost use Rattle.wh_notes.specs.Troubles.{HasFailed};

use std::alloc::AllocError;
use wh_client::Connection;
use wh_events::GhostList;

/// How long a worker waits after the first failed poll, in milliseconds.
const FIRST_WAIT: u64 = 100;

/// How long it waits at most, in milliseconds.
const LONGEST_WAIT: u64 = 10_000;

/// Returns how long it waits the next time: twice as long, and at most ten seconds.
fn next_wait(wait: u64) -> u64
    ensures { result ≡ min (2 * wait) 10000 }
{
    if LONGEST_WAIT / 2 < wait {
        LONGEST_WAIT
    } else {
        wait * 2
    }
}

/// The polls that have failed in a row. Of equal failures the first is reported, and then how many
/// more there were. After each the worker waits, longer each time.
#[derive(Drop)]
pub struct Trouble {
    last: Option<String>,
    more: u64,
    /// How long the worker waits after the next failed poll, in milliseconds.
    pub wait: u64,
    /// How long it waited after each poll that has failed in a row.
    pub pauses: GhostList<u64>,
}

impl Trouble {
    /// Returns the state in which no poll has failed.
    pub(crate) fn new() -> Trouble
        ensures { HasFailed 0 result }
    {
        Trouble {
            last: None,
            more: 0,
            wait: FIRST_WAIT,
            pauses: GhostList::new(),
        }
    }

    /// Reports a failed poll, unless it failed as the one before or there was no memory for its
    /// text, and waits.
    pub(crate) fn meet<L: Connection>(&mut self, connection: &L, what: Result<String, AllocError>)
        ensures { (count : ℕ) → HasFailed count self.old → HasFailed (count + 1) self.new }
    {
        if let Ok(what) = what {
            self.report(connection, what);
        }
        connection.pause(self.wait, &mut self.pauses);
        self.wait = next_wait(self.wait);
    }

    /// Ends the row of failed polls.
    pub(crate) fn end<L: Connection>(&mut self, connection: &L)
        ensures { HasFailed 0 self.new }
    {
        self.report_rest(connection);
        self.last = None;
        self.wait = FIRST_WAIT;
        self.pauses = GhostList::new();
    }

    /// Reports why a poll failed, unless it failed as the one before.
    fn report<L: Connection>(&mut self, connection: &L, what: String)
        ensures wait { self.new.wait ≡ self.old.wait }
        ensures pauses { self.new.pauses ≡ self.old.pauses }
    {
        if self.is_last(what.as_str()) {
            self.more = self.more.saturating_add(1);
        } else {
            self.report_rest(connection);
            connection.report(what.as_str());
            self.last = Some(what);
        }
    }

    /// Returns whether the poll before failed in the same way.
    fn is_last(&self, what: &str) -> bool {
        match &self.last {
            Some(last) => last.as_str() == what,
            None => false,
        }
    }

    /// Reports how many more polls have failed in the way last reported.
    fn report_rest<L: Connection>(&mut self, connection: &L)
        ensures wait { self.new.wait ≡ self.old.wait }
        ensures pauses { self.new.pauses ≡ self.old.pauses }
    {
        let more = self.more;
        if 0 < more {
            if let Ok(text) = format!(in connection.allocator(); "the same {more} times more") {
                connection.report(text.as_str());
            }
        }
        self.more = 0;
    }
}
