//! Leaves out faults that only follow from others.
ghost use Rattle.std.specs.Prelude.{◌≡◌, ◌≤◌, ◌<◌, ◌++◌, ◌&&◌, ◌||◌, length, take, bytes_eq, map, option_map, IfOk, OnOk};
ghost use Rattle.std.specs.List.{list_any};
ghost use Rattle.serde_json.specs.View.{view};
ghost use Rattle.wh_table_text.specs.Numbered.{numbered};
ghost use Rattle.wh_table_check.specs.Causes.{unreached_row, leads_nowhere, row_state, is_unreached, explains, is_explained, follows, finding_at_place, fault_findings};

use crate::finding::{TableFinding, fault_finding};
use serde_json::Value;
use std::alloc::Global;
use wh_events::OutOfMemory;
use wh_json::field;
use wh_row_rules::BrokenRule;
use wh_table_text::{RowFault, TableFault};

/// Returns the row of which the fault says that no row leads to its state, if it says that.
fn unreached_row(fault: TableFault) -> Option<u64>
    ensures { result ≡ unreached_row fault }
{
    match fault {
        TableFault::InRow {
            row,
            fault: RowFault::Breaks(BrokenRule::NeverReached),
        } => Some(row),
        _ => None,
    }
}

/// Returns whether the fault says that no row is for the state that a row leads to.
fn leads_nowhere(fault: TableFault) -> bool
    ensures { result ≡ leads_nowhere fault }
{
    matches!(
        fault,
        TableFault::InRow {
            row: _,
            fault: RowFault::Breaks(BrokenRule::LeadsNowhere),
        }
    )
}

/// Returns the state of the row of this number of a table with this value; an empty text if there is
/// none.
fn row_state(value: Option<&Value>, row: u64) -> &str
    ensures { result.now ≡ row_state (option_map (λ v. view v.now) value.entry) row }
{
    let Some(rows) = field(value, "rows") else {
        return "";
    };
    let Some(cells) = rows.get(row.saturating_sub(1) as usize) else {
        return "";
    };
    let Some(state) = cells.get(0usize) else {
        return "";
    };
    state.as_str().unwrap_or("")
}

/// Returns whether the fault says that no row leads to this state.
fn is_unreached(value: Option<&Value>, state: &str, fault: TableFault) -> bool
    ensures { result ≡ is_unreached (option_map (λ v. view v.now) value.entry) state.now fault }
{
    match unreached_row(fault) {
        Some(row) => row_state(value, row) == state,
        None => false,
    }
}

/// Returns whether an earlier fault may be why no row leads to this state.
fn explains(value: Option<&Value>, state: &str, fault: TableFault) -> bool
    ensures { result ≡ explains (option_map (λ v. view v.now) value.entry) state.now fault }
{
    leads_nowhere(fault) || is_unreached(value, state, fault)
}

/// Returns whether one of the earlier faults may be why no row leads to this state.
fn is_explained(value: Option<&Value>, state: &str, earlier: &[TableFault]) -> bool
    ensures { result ≡ is_explained (option_map (λ v. view v.now) value.entry) state.now earlier.now }
{
    for fault in earlier {
        if explains(value, state, *fault) {
            return true;
        }
    }
    false
}

/// Returns whether the fault may follow from one of the earlier ones.
fn follows(value: Option<&Value>, earlier: &[TableFault], fault: TableFault) -> bool
    ensures { result ≡ follows (option_map (λ v. view v.now) value.entry) earlier.now fault }
{
    match unreached_row(fault) {
        Some(row) => is_explained(value, row_state(value, row), earlier),
        None => false,
    }
}

/// Adds a fault as a finding, unless it may follow from one before it; `place` faults are before it.
fn add_fault(
    alloc: Global,
    found: &mut Vec<TableFinding>,
    value: Option<&Value>,
    faults: &[TableFault],
    place: usize,
    fault: &TableFault,
) -> Result<(), OutOfMemory>
    requires { place ≤ length faults.now }
    ensures { OnOk result (found.new.items ≡ found.old.items
        ++ finding_at_place (option_map (λ v. view v.now) value.entry) faults.now place fault.now) }
{
    if !follows(value, &faults[..place], *fault) {
        let one = fault_finding(alloc, *fault)?;
        found.push(one)?;
    }
    Ok(())
}

/// Returns the faults of a table with this value, as findings, without those that may follow from an
/// earlier one: that no row leads to a state is said once, and not after a row that leads nowhere.
/// `OutOfMemory` if an allocation was refused; nothing is left then.
pub(crate) fn fault_findings(
    alloc: Global,
    value: Option<&Value>,
    faults: &[TableFault],
) -> Result<Vec<TableFinding>, OutOfMemory>
    ensures { IfOk result (λ found.
        found.items ≡ fault_findings (option_map (λ v. view v.now) value.entry) faults.now) }
{
    let mut found = Vec::new(alloc);
    for (place, fault) in faults.iter().enumerate() {
        add_fault(alloc, &mut found, value, faults, place, fault)?;
    }
    Ok(found)
}
