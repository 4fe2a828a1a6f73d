//! Finds the row that applies to a job.
ghost use Rattle.std.specs.Prelude.{◌≡◌, bytes_eq, option_map};
ghost use Rattle.wh_rows.specs.Tables.{pattern_by, row_by, rows_by};
ghost use Rattle.wh_rows.specs.Rows.{named, is_for_job, count_of, holds, all_hold, is_for_state, fits, row_for};

use crate::parts::{RowList, RowText};
use crate::row::{
    CommandTemplate, Condition, Counter, Counters, JobPattern, RowEffect, RowOf, RowsState,
};
use wh_events::Text;
use wh_workflow::{ActivityEnd, ChildEnd, Job};

/// Returns a text of a row, or the name of the run if the text is `@`.
#[tactic(auto, unfolding(crate::specs::Rows::named))]
pub(crate) fn text_or_name<'a>(text: &'a str, state: &'a RowsState) -> &'a str
    ensures { result.now ≡ named text.now state.now }
{
    if text == "@" { state.name.get() } else { text }
}

/// Returns whether the text equals this text of a row, where `@` is the name of the run.
fn is_text<T: RowText>(text: &Text, wanted: &T, state: &RowsState) -> bool
    ensures { result ≡ bytes_eq text.now (named (T.bytes wanted.now) state.now) }
{
    text.get() == text_or_name(wanted.text(), state)
}

/// Returns whether the pattern of a row matches the job, in a run with this state.
pub fn is_for_job<T: RowText>(pattern: &JobPattern<T>, state: &RowsState, job: &Job) -> bool
    ensures { result ≡ is_for_job (pattern_by T.bytes pattern.now) state.now job.now }
{
    match pattern {
        JobPattern::Start => matches!(job, Job::Start { .. }),
        JobPattern::Signal(wanted) => match job {
            Job::Signal { name, .. } => is_text(name, wanted, state),
            _ => false,
        },
        JobPattern::CancelRequested => matches!(job, Job::CancelRequested),
        JobPattern::Done(wanted) => match job {
            Job::Activity {
                id,
                end: ActivityEnd::Completed(_),
            } => is_text(id, wanted, state),
            _ => false,
        },
        JobPattern::NotDone(wanted) => match job {
            Job::Activity {
                end: ActivityEnd::Completed(_),
                ..
            } => false,
            Job::Activity { id, .. } => is_text(id, wanted, state),
            _ => false,
        },
        JobPattern::Fired(wanted) => match job {
            Job::TimerFired { id } => is_text(id, wanted, state),
            _ => false,
        },
        JobPattern::ChildStarted(wanted) => match job {
            Job::ChildStarted { workflow_id } => is_text(workflow_id, wanted, state),
            _ => false,
        },
        JobPattern::ChildDone(wanted) => match job {
            Job::Child {
                workflow_id,
                end: ChildEnd::Completed(_),
            } => is_text(workflow_id, wanted, state),
            _ => false,
        },
        JobPattern::ChildCanceled(wanted) => match job {
            Job::Child {
                workflow_id,
                end: ChildEnd::Canceled,
            } => is_text(workflow_id, wanted, state),
            _ => false,
        },
        JobPattern::ChildNotDone(wanted) => match job {
            Job::Child {
                end: ChildEnd::Completed(_),
                ..
            } => false,
            Job::Child { workflow_id, .. } => is_text(workflow_id, wanted, state),
            _ => false,
        },
        JobPattern::Version(wanted, number) => match job {
            Job::Version { change_id, version } => {
                is_text(change_id, wanted, state) && *version == *number
            }
            _ => false,
        },
        JobPattern::AnyVersion(wanted) => match job {
            Job::Version { change_id, .. } => is_text(change_id, wanted, state),
            _ => false,
        },
    }
}

/// Returns the value of a counter.
pub fn count_of(counter: Counter, counts: Counters) -> u64
    ensures { result ≡ count_of counter counts }
{
    match counter {
        Counter::A => counts.a,
        Counter::B => counts.b,
        Counter::C => counts.c,
        Counter::D => counts.d,
    }
}

/// Returns whether the condition holds for these counters.
fn holds(condition: Condition, counts: Counters) -> bool
    ensures { result ≡ holds condition counts }
{
    match condition {
        Condition::Below(counter, bound) => count_of(counter, counts) < bound,
        Condition::AtLeast(counter, bound) => bound <= count_of(counter, counts),
    }
}

/// Returns whether all conditions hold for these counters.
pub fn all_hold(conditions: &[Condition], counts: Counters) -> bool
    ensures { result ≡ all_hold conditions.now counts }
{
    for condition in conditions {
        if !holds(*condition, counts) {
            return false;
        }
    }
    true
}

/// Returns whether a row for this state name is for the state that the run is in.
fn is_for_state(name: &str, state: &RowsState) -> bool
    ensures { result ≡ is_for_state name.now state.now }
{
    !state.closed && (name == "any" || name == state.at.get())
}

/// Returns whether the row fits: its state, its job and its conditions.
fn fits<T: RowText, C: RowList<Condition>, G: RowList<CommandTemplate<T>>, E: RowList<RowEffect>>(
    row: &RowOf<T, C, G, E>,
    state: &RowsState,
    job: &Job,
) -> bool
    ensures { result ≡ fits (row_by T.bytes C.list G.list E.list row.now) state.now job.now }
{
    is_for_state(row.state.text(), state)
        && is_for_job(&row.job, state, job)
        && all_hold(row.conditions.list(), state.counts)
}

/// Returns the first row that fits.
#[tactic(auto, unfolding(crate::specs::Rows::row_for))]
pub(crate) fn row_for<
    't,
    T: RowText,
    C: RowList<Condition>,
    G: RowList<CommandTemplate<T>>,
    E: RowList<RowEffect>,
>(rows: &'t [RowOf<T, C, G, E>], state: &RowsState, job: &Job) -> Option<&'t RowOf<T, C, G, E>>
    ensures { option_map (λ row. row_by T.bytes C.list G.list E.list row.now) result
        ≡ row_for (rows_by T.bytes C.list G.list E.list rows.now) state.now job.now }
{
    for row in rows {
        if fits(row, state, job) {
            return Some(row);
        }
    }
    None
}
