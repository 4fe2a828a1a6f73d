//! The states that rows are for and lead to.
ghost use Rattle.std.specs.Prelude.{◌≡◌};
ghost use Rattle.wh_rows.specs.Rules.{has_state, leads_on, is_led_to, is_reached, state_after};
ghost use Rattle.wh_row_rules.specs.Ends.{leads_to};

use crate::commands::{some_closes, text_eq};
use crate::owned::OwnedRow;
use wh_events::Text;

/// Returns whether a row is for the state.
pub fn has_state(name: &Text, rows: &[OwnedRow]) -> bool
    ensures { result ≡ has_state name.now rows.now }
{
    for row in rows {
        if text_eq(&row.state, name) {
            return true;
        }
    }
    false
}

/// Returns whether the row closes the run, stays, or leads to a state that rows are for.
pub(crate) fn leads_on(rows: &[OwnedRow], row: &OwnedRow) -> bool
    ensures { result ≡ leads_on rows.now row.now }
{
    some_closes(row.gives.get())
        || (row.next.get() == "same" || (row.next.get() != "any" && has_state(&row.next, rows)))
}

/// Returns whether the row is of another state, does not close the run, and leads to the state.
fn leads_to(name: &Text, row: &OwnedRow) -> bool
    ensures { result ≡ leads_to name.now row.now }
{
    text_eq(&row.next, name) && (!text_eq(&row.state, name) && !some_closes(row.gives.get()))
}

/// Returns whether a row of another state leads to the state.
fn is_led_to(name: &Text, rows: &[OwnedRow]) -> bool
    ensures { result ≡ is_led_to name.now rows.now }
{
    for row in rows {
        if leads_to(name, row) {
            return true;
        }
    }
    false
}

/// Returns whether the state is `any`, or that in which a run begins, or a row of another one leads
/// to it.
pub(crate) fn is_reached(first: &Text, name: &Text, rows: &[OwnedRow]) -> bool
    ensures { result ≡ is_reached first.now name.now rows.now }
{
    name.get() == "any" || (text_eq(name, first) || is_led_to(name, rows))
}

/// Returns the state after the row.
pub fn state_after(row: &OwnedRow) -> &Text
    ensures { result.now ≡ state_after row.now }
{
    if row.next.get() == "same" {
        &row.state
    } else {
        &row.next
    }
}
