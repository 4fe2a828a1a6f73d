//! Why no page is written.

use wh_events::OutOfMemory;
use wh_json::ReadFault;

/// Why the page of a file is not written.
#[derive(Debug, Drop)]
pub enum PageFault {
    /// The bytes have no list of events, and why not: `TooLong`, `BadJson` or `NoEvents`. Nothing is
    /// written.
    Unviewed(ReadFault),
    /// The writer failed. Part of the page may be written.
    Output,
    /// An allocation was refused. Nothing is written.
    OutOfMemory,
}

impl From<OutOfMemory> for PageFault {
    ghost use Rattle.std.specs.Prelude.{◌≡◌};
    ghost use Rattle.wh_file_page.specs.declared.fault.PageFault.{PageFault};

    ghost from_gives = { λ _ fault. fault ≡ PageFault.OutOfMemory };

    fn from(_: OutOfMemory) -> PageFault {
        PageFault::OutOfMemory
    }
}
