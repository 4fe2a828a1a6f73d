//! What is found of whether a table gets stuck.
ghost use Rattle.std.specs.Prelude.{◌≡◌, ◌++◌, IfOk, OnOk};
ghost use Rattle.wh_table_check.specs.Stuck.{stuck_faults, doubt_warning, stuck_doubts};

use crate::finding::{TableFinding, finding_about};
use std::alloc::Global;
use wh_events::{OutOfMemory, Text};

/// Whether a table gets stuck: whether a server can make a run of it in which a command is at fault
/// that opens or cancels an activity, a timer or a child.
#[derive(Drop)]
pub enum StuckFinding {
    /// It never does, or there is no table.
    Never,
    /// It does, as these words say.
    Stuck(Text),
    /// It is not decided, for this reason.
    NotDecided(Text),
}

/// Adds the fault of a table that gets stuck.
pub(crate) fn add_stuck(
    alloc: Global,
    found: &mut Vec<TableFinding>,
    stuck: &StuckFinding,
) -> Result<(), OutOfMemory>
    ensures { OnOk result (found.new.items ≡ found.old.items ++ stuck_faults stuck.now) }
{
    match stuck {
        StuckFinding::Stuck(words) => {
            found.push(finding_about(alloc, "a run ", words.get())?)?;
            Ok(())
        }
        _ => Ok(()),
    }
}

/// Returns the warning for a table of which it is not decided whether it gets stuck, for this reason.
fn doubt_warning(alloc: Global, reason: &Text) -> Result<TableFinding, OutOfMemory>
    ensures { IfOk result (λ found. found ≡ doubt_warning reason.now) }
{
    finding_about(
        alloc,
        "it is not decided whether a run gets stuck: ",
        reason.get(),
    )
}

/// Adds the warning for a table of which it is not decided whether it gets stuck.
pub(crate) fn add_doubt(
    alloc: Global,
    found: &mut Vec<TableFinding>,
    stuck: &StuckFinding,
) -> Result<(), OutOfMemory>
    ensures { OnOk result (found.new.items ≡ found.old.items ++ stuck_doubts stuck.now) }
{
    match stuck {
        StuckFinding::NotDecided(reason) => {
            found.push(doubt_warning(alloc, reason)?)?;
            Ok(())
        }
        _ => Ok(()),
    }
}
