//! Selects which tasks of a run its page shows.

ghost use Rattle.std.specs.Prelude.{◌≡◌, ◌≤◌, length, nat_lt, count_by, take};
ghost use Rattle.wh_html.specs.Views.{left_out, shown, tasks_before, first_shown};

use crate::page::Moment;

/// The most tasks that a page shows.
const MOST: usize = 300;

/// How many of them precede the event of the fault, if there are as many.
const BEFORE: usize = 200;

/// Returns how many items are left out before the first that is shown, if `at` of them precede the
/// fault.
fn left_out(total: usize, at: usize) -> usize
    ensures { result ≡ left_out total at }
{
    at.saturating_sub(BEFORE).min(total.saturating_sub(MOST))
}

/// Returns the first `most` items, or all if there are fewer.
pub fn first_items<T>(items: &[T], most: usize) -> &[T]
    ensures { result.now ≡ take most items.now }
{
    if items.len() <= most {
        items
    } else {
        &items[..most]
    }
}

/// Returns the items that are shown if the first `left` are left out: 300 at most.
pub fn shown_items<T>(items: &[T], left: usize) -> &[T]
    requires { left ≤ length items.now }
    ensures { result.now ≡ shown left items.now }
{
    first_items(&items[left..], MOST)
}

/// Returns how many of the tasks that start at these moments were started before an event.
fn started_before(starts: &[Moment], event: u64) -> usize
    ensures { result ≡ count_by (λ start. nat_lt start.event event) starts.now }
{
    starts.iter().filter(|start| start.event < event).count()
}

/// Returns how many tasks precede the place around which a page shows tasks: that of the event of
/// the fault, or else the end of an open run, or the beginning of a closed one.
fn tasks_before(starts: &[Moment], fault: Option<Moment>, running: bool) -> usize
    ensures { result ≡ tasks_before starts.now fault running }
{
    match fault {
        Some(moment) => started_before(starts, moment.event),
        None => if running { starts.len() } else { 0 },
    }
}

/// Returns how many tasks are left out before those that the page of a run shows, by the moments at
/// which all its tasks start. It shows the 300 around the event of the fault, of which 200 start
/// before it if there are as many; if there is no fault, the last 300 of an open run, and the first
/// 300 of a closed one.
#[tactic(auto, unfolding(crate::specs::Views::first_shown))]
pub fn first_shown(starts: &[Moment], fault: Option<Moment>, running: bool) -> usize
    ensures index { result ≡ first_shown starts.now fault running }
    ensures within { result ≤ length starts.now }
{
    left_out(starts.len(), tasks_before(starts, fault, running))
}
