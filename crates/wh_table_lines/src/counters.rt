//! Counters that are cut at the greatest number that a row asks for.
ghost use Rattle.std.specs.Prelude.{◌≡◌, map};
ghost use Rattle.wh_rows.specs.Deciding.{cut_one, cut_all, asks_within, all_within, are_cuts, same_counts, asked, asked_one};
ghost use Rattle.wh_table_lines.specs.Lines.{line_seen};
ghost use Rattle.wh_table_lines.specs.Private.Asking.{is_within, is_line_within, asked_by};

use crate::lines::IndexedRow;
use wh_rows::{Condition, Counters, RowEffect, UNCOUNTED, count_of, increment, with_count};

/// What one thing that a row does besides leaves of cut counters.
fn cut_one(tops: Counters, effect: RowEffect, counts: Counters) -> Counters
    ensures { result ≡ cut_one tops effect counts }
{
    match effect {
        RowEffect::Up(counter) => {
            let count = increment(count_of(counter, counts), count_of(counter, tops));
            with_count(counter, counts, count)
        }
        RowEffect::Zero(counter) => with_count(counter, counts, 0),
        RowEffect::Keep => counts,
    }
}

/// Returns what the effects of a row leave of counters that are cut at `tops`.
pub fn cut_all(tops: Counters, effects: &[RowEffect], counts: Counters) -> Counters
    ensures { result ≡ cut_all tops effects.now counts }
{
    let mut counts = counts;
    for effect in effects {
        counts = cut_one(tops, *effect, counts);
    }
    counts
}

/// Whether the number that is asked for is not past the cut.
fn is_within(tops: Counters, condition: Condition) -> bool
    ensures { result ≡ is_within tops condition }
{
    match condition {
        Condition::Below(counter, bound) => bound <= count_of(counter, tops),
        Condition::AtLeast(counter, bound) => bound <= count_of(counter, tops),
    }
}

/// Whether no number that is asked for is past the cut.
fn asks_within(tops: Counters, conditions: &[Condition]) -> bool
    ensures { result ≡ asks_within tops conditions.now }
{
    for condition in conditions {
        if !is_within(tops, *condition) {
            return false;
        }
    }
    true
}

/// Returns whether no counter is cut past its bound.
pub fn are_cuts(bounds: Counters, tops: Counters) -> bool
    ensures { result ≡ are_cuts bounds tops }
{
    (tops.a <= bounds.a && tops.b <= bounds.b) && (tops.c <= bounds.c && tops.d <= bounds.d)
}

/// The counters with the number that a condition asks for, if that is greater.
fn asked_by(condition: Condition, tops: Counters) -> Counters
    ensures { result ≡ asked_by condition tops }
{
    match condition {
        Condition::Below(counter, bound) => {
            with_count(counter, tops, count_of(counter, tops).max(bound))
        }
        Condition::AtLeast(counter, bound) => {
            with_count(counter, tops, count_of(counter, tops).max(bound))
        }
    }
}

/// The counters with the greatest numbers that conditions ask for.
fn asked_one(conditions: &[Condition], tops: Counters) -> Counters
    ensures { result ≡ asked_one conditions.now tops }
{
    let mut tops = tops;
    for condition in conditions {
        tops = asked_by(*condition, tops);
    }
    tops
}

/// Returns where counters are cut: at the greatest number that a row asks for, at 0 if none does.
pub fn cuts_of(lines: &[IndexedRow]) -> Counters
    ensures { result ≡ asked (map line_seen lines.now) (record { a = 0; b = 0; c = 0; d = 0 }) }
{
    let mut tops = UNCOUNTED;
    for line in lines {
        tops = asked_one(line.row.conditions.get(), tops);
    }
    tops
}

/// Returns whether both are the same numbers.
pub fn same_counts(one: Counters, other: Counters) -> bool
    ensures { result ≡ same_counts one other }
{
    (one.a == other.a && one.b == other.b) && (one.c == other.c && one.d == other.d)
}

/// Whether the state of the row is one of so many, and cut counters tell whether it fits.
fn is_line_within(many: usize, tops: Counters, line: &IndexedRow) -> bool
    ensures { result ≡ is_line_within many tops (line_seen line.now) }
{
    line.state < many && asks_within(tops, line.row.conditions.get())
}

/// Returns whether the state of each row is one of so many, and counters that are cut at `tops` tell
/// whether it fits.
pub fn all_within(many: usize, tops: Counters, lines: &[IndexedRow]) -> bool
    ensures { result ≡ all_within many tops (map line_seen lines.now) }
{
    for line in lines {
        if !is_line_within(many, tops, line) {
            return false;
        }
    }
    true
}
