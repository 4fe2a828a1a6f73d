//! Laws of lists of accepted calls. Each law is the contract of a function that does nothing.
ghost use Rattle.wh_slots.specs.Calls.{CallsKeepTables, CallsKeepPlaces, NumbersRunUpwards};

/// After every list of accepted calls numbers of different places differ, names of different places
/// differ, each number was given out before, and there are as many places as before.
pub fn calls_keep_tables()
    ensures tables { CallsKeepTables }
    ensures places { CallsKeepPlaces }
{}

/// Every list of accepted calls gives out numbers one after the other, and none of them twice.
pub fn numbers_run_upwards()
    ensures { NumbersRunUpwards }
{}
