//! Checks the rules of a table.
ghost use Rattle.std.specs.Prelude.{◌≡◌, option_map};
ghost use Rattle.wh_rows.specs.Rules.{row_rule, rows_fault, table_fault};
ghost use Rattle.wh_row_rules.specs.Broken.{broken_rule, broken, definition};

use crate::bounds::{conditions_bounded, effects_bounded};
use crate::commands::{are_ranges, ends_well, opens_once};
use crate::fault::{BrokenRule, RowsFault};
use crate::hiding::hidden_by;
use crate::owned::{OwnedRow, OwnedTable};
use crate::states::{has_state, is_reached, leads_on, state_after};
use crate::versions::are_heard;

/// Returns the first rule that a row of a table breaks, if `before` rows come before it, or `None`
/// if it breaks none. `row_rule` in the specs of `wh_rows` defines the rules.
pub fn row_rule(table: &OwnedTable, before: usize, row: &OwnedRow) -> Option<BrokenRule>
    ensures { result ≡ option_map broken_rule (row_rule (definition table.now) before row.now) }
{
    let rows = table.rows.get();
    let gives = row.gives.get();
    if 64 < gives.len() {
        Some(BrokenRule::TooManyCommands)
    } else if !ends_well(gives) {
        Some(BrokenRule::CommandAfterLast)
    } else if !opens_once(gives) {
        Some(BrokenRule::OpensTwice)
    } else if !are_ranges(gives) {
        Some(BrokenRule::BadRange)
    } else if row.state.get() == "same" {
        Some(BrokenRule::NoState)
    } else if !leads_on(rows, row) {
        Some(BrokenRule::LeadsNowhere)
    } else if !is_reached(&table.first, &row.state, rows) {
        Some(BrokenRule::NeverReached)
    } else if !are_heard(state_after(row), rows, gives) {
        Some(BrokenRule::AsksInVain)
    } else if !(conditions_bounded(table.bounds, row.conditions.get())
        && effects_bounded(table.bounds, row.effects.get()))
    {
        Some(BrokenRule::Unbounded)
    } else {
        hidden_by(before, rows, row)
    }
}

/// Returns the first fault of these rows of a table, or `None` if they break no rule.
fn first_fault(table: &OwnedTable, rows: &[OwnedRow]) -> Option<RowsFault>
    ensures { result ≡ option_map broken (rows_fault (definition table.now) 0 rows.now) }
{
    for (index, row) in rows.iter().enumerate() {
        if let Some(rule) = row_rule(table, index, row) {
            return Some(RowsFault::InRow {
                row: index as u64 + 1,
                rule,
            });
        }
    }
    None
}

/// Returns the first fault of a table, or `None` if it breaks no rule. `table_fault` in the specs
/// of `wh_rows` defines it.
pub fn table_fault(table: &OwnedTable) -> Option<RowsFault>
    ensures { result ≡ option_map broken (table_fault (definition table.now)) }
{
    if has_state(&table.first, table.rows.get()) {
        first_fault(table, table.rows.get())
    } else {
        Some(RowsFault::BeginsNowhere)
    }
}
