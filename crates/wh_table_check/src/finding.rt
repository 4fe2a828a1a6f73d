//! Faults and warnings of a table.
ghost use Rattle.std.specs.Prelude.{◌≡◌, IfOk};
ghost use Rattle.wh_table_check.specs.Findings.{row_of, fault_finding, finding_at, finding_about};

use std::alloc::Global;
use wh_events::{OutOfMemory, Text};
use wh_table_text::{TableFault, fault_text};

/// A fault of a table, or a warning.
#[derive(Drop)]
pub struct TableFinding {
    /// The row that it is about, counted from 1. `None` if it is about the whole table.
    pub row: Option<u64>,
    /// Its text, which begins with `row N: ` if it is about a row.
    pub text: Text,
}

/// Returns the row that a fault is about.
fn row_of(fault: TableFault) -> Option<u64>
    ensures { result ≡ row_of fault }
{
    match fault {
        TableFault::InRow { row, fault: _ } => Some(row),
        _ => None,
    }
}

/// Returns a fault of a table, as a finding.
pub(crate) fn fault_finding(alloc: Global, fault: TableFault) -> Result<TableFinding, OutOfMemory>
    ensures { IfOk result (λ finding. finding ≡ fault_finding fault) }
{
    Ok(TableFinding {
        row: row_of(fault),
        text: fault_text(alloc, fault)?,
    })
}

/// Returns the finding about the row of this number: these words, and a name in that row.
pub(crate) fn finding_at(
    alloc: Global,
    row: u64,
    words: &str,
    name: &str,
) -> Result<TableFinding, OutOfMemory>
    ensures { IfOk result (λ finding. finding ≡ finding_at row words.now name.now) }
{
    Ok(TableFinding {
        row: Some(row),
        text: Text::new(format!(in alloc; "row {row}: {words}{name}")?),
    })
}

/// Returns the finding about the whole table: these words, and a name.
pub(crate) fn finding_about(
    alloc: Global,
    words: &str,
    name: &str,
) -> Result<TableFinding, OutOfMemory>
    ensures { IfOk result (λ finding. finding ≡ finding_about words.now name.now) }
{
    Ok(TableFinding {
        row: None,
        text: Text::new(format!(in alloc; "{words}{name}")?),
    })
}
