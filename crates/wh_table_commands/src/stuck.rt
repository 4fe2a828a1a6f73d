//! Decides whether a table gets stuck.

ghost use Rattle.std.specs.Prelude.{IfOk};
ghost use Rattle.wh_row_rules.specs.Broken.{definition};
ghost use Rattle.wh_table_commands.specs.Stuck.{IsFound, IsFoundOf};

use std::alloc::Global;
use wh_events::{OutOfMemory, Text};
use wh_row_rules::OwnedTable;
use wh_stuck_check::{StuckVerdict, decide, doubt_words, stuck_words};
use wh_table_check::StuckFinding;

/// Decides whether a table gets stuck, and says it in words.
fn table_finding(alloc: Global, table: &OwnedTable) -> Result<StuckFinding, OutOfMemory>
    ensures { IfOk result (IsFound (definition table.now)) }
{
    match decide(alloc, table)? {
        StuckVerdict::NeverStuck => Ok(StuckFinding::Never),
        StuckVerdict::GetsStuck(run) => Ok(StuckFinding::Stuck(Text::new(stuck_words(
            alloc, &run,
        )?))),
        StuckVerdict::NotDecided(doubt) => {
            let words = String::from_str(alloc, doubt_words(doubt))?;
            Ok(StuckFinding::NotDecided(Text::new(words)))
        }
    }
}

/// Decides whether the table that was read of a file gets stuck, if there is one. `OutOfMemory` if an
/// allocation was refused; nothing is left then.
pub fn stuck_finding(alloc: Global, table: &Option<OwnedTable>) -> Result<StuckFinding, OutOfMemory>
    ensures { IfOk result (IsFoundOf table.now) }
{
    match table {
        Some(table) => table_finding(alloc, table),
        None => Ok(StuckFinding::Never),
    }
}
