//! A path that breaks a promise, followed job by job.
ghost use Rattle.std.specs.Prelude.{◌≡◌, ◌≤◌, ◌<◌, ◌+◌, ◌-◌, ◌^◌, true, IfOk, IfSome, OnOk, length, map};
ghost use Rattle.wh_rows.specs.Rows.{fits, after, initial};
ghost use Rattle.wh_row_rules.specs.Broken.{definition};
ghost use Rattle.wh_rows.specs.Courses.{begins, goes_on, comes, is_given, gave};
ghost use Rattle.wh_rows.specs.Watches.{watched};
ghost use Rattle.wh_author_tools.specs.CommandTexts.{commands_text};
ghost use Rattle.wh_table_promises.specs.Promised.{happening_of};
ghost use Rattle.wh_table_promises.specs.Ways.{text_given, texts_given, row_from, row_taken, rows_taken};
ghost use Rattle.wh_table_promises.specs.Private.Seen.{turn_seen, standing_seen};
ghost use Rattle.wh_table_promises.specs.Private.Told.{told_by, given_by, through, spends};

use crate::promise::Happening;
use crate::watch::{WatchState, WatchTurn, new_standing, watch_after_turn};
use std::alloc::{AllocError, Global};
use wh_author_tools::commands_text;
use wh_events::{Items, OutOfMemory, Text};
use wh_row_rules::{OwnedRow, OwnedTable, WayStep};
use wh_rows::{RowsState, all_hold, is_for_job};
use wh_table_lines::{answer_job, initial_run, see_job};
use wh_workflow::{Command, Job};

/// Whether this happens by the job that comes.
fn comes(what: &Happening, state: &RowsState, job: &Job) -> bool
    ensures { result ≡ comes (happening_of what.now) state.now job.now }
{
    match what {
        Happening::Comes(pattern) => is_for_job(pattern, state, job),
        _ => false,
    }
}

/// Where a watch stands once a job has come.
fn watch_after_job(turns: &[WatchTurn], state: &RowsState, job: &Job, now: WatchState) -> WatchState
    requires { now.spent < 2 ^ 62 }
    ensures told { standing_seen result ≡ told_by (map turn_seen turns.now) state.now job.now (standing_seen now) }
    ensures most { result.spent ≤ 2 ^ 62 }
{
    for turn in turns {
        if turn.from == now.at && comes(turn.what, state, job) {
            return watch_after_turn(turn, now);
        }
    }
    now
}

/// Whether this happens by the command that is given.
fn is_given(what: &Happening, command: &Command) -> bool
    ensures { result ≡ is_given (happening_of what.now) command.now }
{
    match what {
        Happening::Comes(_) => false,
        Happening::StartsActivity(kind) => match command {
            Command::StartActivity { activity, .. } => kind.get() == activity.get(),
            _ => false,
        },
        Happening::StartsChild(kind) => match command {
            Command::StartChild { workflow, .. } => kind.get() == workflow.get(),
            _ => false,
        },
        Happening::SendsSignal(name) => match command {
            Command::SignalExternal { signal, .. } => name.get() == signal.get(),
            _ => false,
        },
        Happening::Completes => matches!(command, Command::Complete { .. }),
        Happening::Fails => matches!(command, Command::Fail { .. }),
        Happening::Cancels => matches!(command, Command::Cancel),
        Happening::ContinuesAsNew => matches!(command, Command::ContinueAsNew { .. }),
        Happening::Closes => matches!(
            command,
            Command::Complete { .. }
                | Command::Fail { .. }
                | Command::Cancel
                | Command::ContinueAsNew { .. }
        ),
    }
}

/// Where a watch stands after a command.
fn given_by(turns: &[WatchTurn], command: &Command, now: WatchState) -> WatchState
    requires { now.spent < 2 ^ 64 - 1 }
    ensures given { standing_seen result ≡ given_by (map turn_seen turns.now) command.now (standing_seen now) }
    ensures most { result.spent ≤ now.spent + 1 }
{
    for turn in turns {
        if turn.from == now.at && is_given(turn.what, command) {
            return watch_after_turn(turn, now);
        }
    }
    now
}

/// Where a watch stands after commands.
fn all_given(turns: &[WatchTurn], commands: &[Command], now: WatchState) -> WatchState
    requires { now.spent ≤ 2 ^ 62 }
    ensures { standing_seen result ≡ watched (map turn_seen turns.now) (standing_seen now) (gave commands.now) }
{
    let mut now = now;
    for command in commands {
        now = given_by(turns, command, now);
    }
    now
}

/// Whether none of the jobs starts the run.
fn goes_on(jobs: &[Job]) -> bool
    ensures { result ≡ goes_on jobs.now }
{
    for job in jobs {
        if matches!(job, Job::Start { .. }) {
            return false;
        }
    }
    true
}

/// Whether the jobs begin with the start, and then none of them is one.
fn begins(jobs: &[Job]) -> bool
    ensures { result ≡ true → begins jobs.now ≡ true }
{
    match jobs {
        [Job::Start { .. }, later @ ..] => goes_on(later),
        _ => false,
    }
}

/// What a job is given.
#[derive(Drop)]
pub(crate) struct JobReply {
    /// The commands, as scenarios write them.
    pub text: Text,
    /// The number of the row that counts, if one fits.
    pub row: Option<usize>,
}

/// What a run has come to.
#[derive(Drop)]
struct Followed {
    /// The run.
    run: RowsState,
    /// The watch.
    watch: WatchState,
}

/// Whether a row fits.
fn fits(row: &OwnedRow, run: &RowsState, job: &Job) -> bool
    ensures { result ≡ fits row.now run.now job.now }
{
    let state = row.state.get();
    (!run.closed && (state == "any" || state == run.at.get()))
        && is_for_job(&row.job, run, job)
        && all_hold(row.conditions.get(), run.counts)
}

/// The number of the first row that fits, counted from 1, if one does.
fn row_of(rows: &[OwnedRow], run: &RowsState, job: &Job) -> Option<usize>
    ensures { result ≡ row_from 1 rows.now run.now job.now }
{
    for (place, row) in rows.iter().enumerate() {
        if fits(row, run, job) {
            return Some(place + 1);
        }
    }
    None
}

/// The text of commands.
fn text_of_all(alloc: Global, commands: &[Command]) -> Result<Text, OutOfMemory>
    ensures { IfOk result (λ text. text ≡ commands_text commands.now) }
{
    Ok(Text::new(commands_text(alloc, commands)?))
}

/// Gives a job to a run, and says what it is given.
fn follow_job(
    alloc: Global,
    table: &OwnedTable,
    turns: &[WatchTurn],
    now: &mut Followed,
    job: &Job,
) -> Result<JobReply, OutOfMemory>
    requires { now.old.watch.spent < 2 ^ 62 }
    ensures text { IfOk result (λ given. given.text ≡ text_given (definition table.now) now.old.run job.now) }
    ensures row { IfOk result (λ given. given.row ≡ row_taken (definition table.now) now.old.run job.now) }
    ensures run { OnOk result (now.new.run ≡ after (definition table.now) now.old.run job.now) }
    ensures watch { OnOk result (standing_seen now.new.watch
        ≡ through (definition table.now) (map turn_seen turns.now) now.old.run job.now (standing_seen now.old.watch)) }
{
    see_job(alloc, table, &mut now.run, job)?;
    let row = row_of(table.rows.get(), &now.run, job);
    let watch = watch_after_job(turns, &now.run, job, now.watch);
    let commands = answer_job(alloc, table, &mut now.run, job)?;
    now.watch = all_given(turns, commands.as_slice(), watch);
    let text = text_of_all(alloc, commands.as_slice())?;
    Ok(JobReply { text, row })
}

/// Follows jobs, and says what each is given. `None` if the watch keeps to the budget, or has
/// spent more before the last job.
pub(crate) fn follow_jobs(
    alloc: Global,
    table: &OwnedTable,
    turns: &[WatchTurn],
    budget: u64,
    jobs: &[Job],
) -> Result<Option<Vec<JobReply>>, OutOfMemory>
    requires { budget < 2 ^ 62 }
    ensures texts { IfOk result (λ found. IfSome found (λ all. map (λ given. given.text) all.items
        ≡ texts_given (definition table.now) (initial (definition table.now)) jobs.now)) }
    ensures rows { IfOk result (λ found. IfSome found (λ all. map (λ given. given.row) all.items
        ≡ rows_taken (definition table.now) (initial (definition table.now)) jobs.now)) }
    ensures begins { IfOk result (λ found. IfSome found (λ all. begins jobs.now ≡ true)) }
    ensures spends { IfOk result (λ found. IfSome found (λ all.
        budget < spends (definition table.now) (map turn_seen turns.now) jobs.now)) }
{
    if !begins(jobs) {
        return Ok(None);
    }
    let mut now = Followed {
        run: initial_run(alloc, table)?,
        watch: new_standing(),
    };
    let mut all = Vec::new(alloc);
    for job in jobs {
        if budget < now.watch.spent {
            return Ok(None);
        }
        let given = follow_job(alloc, table, turns, &mut now, job)?;
        all.push(given)?;
    }
    if budget < now.watch.spent {
        Ok(Some(all))
    } else {
        Ok(None)
    }
}

/// The lines of a scenario: jobs, each with the commands that it is given.
pub(crate) fn steps_of(
    alloc: Global,
    words: &[Text],
    all: &[JobReply],
) -> Result<Vec<WayStep>, OutOfMemory>
    requires { length words.now ≡ length all.now }
    ensures jobs { IfOk result (λ way. map (λ step. step.job) way.items ≡ words.now) }
    ensures given { IfOk result (λ way. map (λ step. step.gives) way.items ≡ map (λ given. given.text) all.now) }
    ensures rows { IfOk result (λ way. map (λ step. step.row) way.items ≡ map (λ given. given.row) all.now) }
{
    let mut way = Vec::new(alloc);
    for (index, job) in words.iter().enumerate() {
        let job = job.try_copy()?;
        let gives = all[index].text.try_copy()?;
        let row = all[index].row;
        way.push(WayStep { job, gives, row })?;
    }
    Ok(way)
}
