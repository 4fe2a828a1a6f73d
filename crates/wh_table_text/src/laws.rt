//! How the list of faults relates to reading, as the contract of a function without a body.
ghost use Rattle.wh_table_text.specs.Faults.{FirstStopsReading};

/// The first fault in the list is the one at which reading the text as a table stops. The list is
/// empty exactly if the text is a table.
pub fn first_stops_reading()
    ensures { FirstStopsReading }
{}
