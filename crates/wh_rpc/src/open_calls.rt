//! The table of the open calls.

ghost use Rattle.std.specs.Prelude.{◌≡◌, ◌↔◌, true, IfOk, OnErr};
ghost use Rattle.wh_rpc.specs.Tables.{IsFirst, Opens, Takes, Drains, Closes, refuses};
ghost use Rattle.wh_rpc.specs.Private.OpenTables.{table_of};

use crate::call_fault::CallFault;
use std::alloc::Global;
use std::collections::BTreeMap;

/// The open calls: what waits for each response, by the id of the call.
#[derive(Drop)]
pub(crate) struct OpenCalls<T> {
    next: u64,
    closed: bool,
    draining: bool,
    waiting: BTreeMap<u64, T>,
}

impl<T: Drop> OpenCalls<T> {
    /// Returns a table without calls, whose first id is 1.
    pub(crate) fn new(alloc: Global) -> OpenCalls<T>
        ensures { IsFirst (table_of result) }
    {
        OpenCalls {
            next: 1,
            closed: false,
            draining: false,
            waiting: BTreeMap::new(alloc),
        }
    }

    /// Opens a call under the next id, which no call had, and returns the id. `Closed` if the table
    /// is closed, if it is draining and the call is a poll, and after 2^64 - 2 calls; `OutOfMemory`
    /// if there was no memory. After an error the table is unchanged.
    pub(crate) fn open(&mut self, is_poll: bool, waiter: T) -> Result<u64, CallFault>
        ensures opens { IfOk result (Opens (table_of self.old) (table_of self.new) is_poll waiter) }
        ensures refuses { (refuses is_poll (table_of self.old) ≡ true) ↔ (result ≡ Err CallFault.Closed) }
        ensures unchanged { OnErr result (table_of self.new ≡ table_of self.old) }
    {
        if self.closed || (is_poll && self.draining) || self.next == u64::MAX {
            return Err(CallFault::Closed);
        }
        let id = self.next;
        if self.waiting.insert(id, waiter).is_err() {
            return Err(CallFault::OutOfMemory);
        }
        self.next = id + 1;
        Ok(id)
    }

    /// Removes the call of an id and returns what waits for its response, if it is open.
    pub(crate) fn take(&mut self, id: u64) -> Option<T>
        ensures { Takes (table_of self.old) (table_of self.new) id result }
    {
        self.waiting.remove(&id)
    }

    /// Lets no poll be opened from now on.
    pub(crate) fn drain(&mut self)
        ensures { Drains (table_of self.old) (table_of self.new) }
    {
        self.draining = true;
    }

    /// Removes all calls and lets none be opened from now on.
    pub(crate) fn close(&mut self)
        ensures { Closes (table_of self.old) (table_of self.new) }
    {
        self.waiting.clear();
        self.closed = true;
    }
}
