//! The record of a file whose replay has no fault.

ghost use Rattle.std.specs.Prelude.{◌≡◌, string_bytes};
ghost use Rattle.wh_file_commands.specs.GoodFiles.{good_record};

use std::alloc::Global;
use wh_events::{Items, Text};
use wh_replay::ReplayedTasks;
use wh_report::Record;
use wh_tester::{Line, Verdict};

/// The record of a file of this name, of which replay finds this.
pub(crate) fn good_record(alloc: Global, name: String, found: ReplayedTasks) -> Record
    ensures { result ≡ good_record (string_bytes name) found }
{
    Record {
        line: Line {
            name: Text::new(name),
            verdict: Verdict::Good(found),
        },
        detail: None,
        difference: None,
        warnings: Items::new(Vec::new(alloc)),
    }
}
