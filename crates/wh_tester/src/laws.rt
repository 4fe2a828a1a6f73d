//! How the lines of the report as JSON read back.
ghost use Rattle.wh_tester.specs.JsonReading.{LinesReadBack, TotalsReadBack};

/// The line of a file, without its line feed, is a text of JSON (RFC 8259), and it reads as the
/// object of the file: its name as it is shown, and the members of its verdict, in their order.
/// This is the line of `write_json_line`. The law does not speak of members that a caller writes
/// after those of `write_open_json_line`.
#[tactic(auto, using(crate::proofs::JsonReading::lines_read_back))]
pub fn lines_read_back()
    ensures { LinesReadBack }
{}

/// The line of the totals, without its line feed, is a text of JSON, and it reads as the object of
/// the totals.
#[tactic(auto, using(crate::proofs::JsonReading::totals_read_back))]
pub fn totals_read_back()
    ensures { TotalsReadBack }
{}
