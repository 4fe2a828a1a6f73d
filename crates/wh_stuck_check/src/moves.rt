//! What a server does in a run, and what the run knows in the end.
ghost use Rattle.std.specs.Prelude.{◌≡◌, true, Some, IfOk, IfSome, OnOk, map, option_map};
ghost use Rattle.wh_rows.specs.Rows.{gives, after};
ghost use Rattle.wh_row_rules.specs.Broken.{definition};
ghost use Rattle.wh_possible_runs.specs.Situations.{after_job, next_things, next_task};
ghost use Rattle.wh_possible_runs.specs.PossibleRuns.{GivesJob, NextTask, moves_on, moves_begin, follow_run};
ghost use Rattle.wh_stuck_check.specs.Verdicts.{move_of, last_fault, IsStuckBy};
ghost use Rattle.wh_stuck_check.specs.Private.Seen.{name_seen, situation_seen};
ghost use Rattle.wh_stuck_check.specs.Private.Followed.{FollowsOn, FaultsOn};

use crate::fault::{StuckCommand, fault_in};
use crate::names::ThingName;
use crate::situation::{Situation, after_job, copy_of, give_commands, new_situation};
use crate::tasks::all_told;
use crate::things::next_thing;
use std::alloc::Global;
use wh_events::OutOfMemory;
use wh_possible_runs::ThingState;
use wh_row_rules::OwnedTable;
use wh_rows::RowsState;
use wh_table_lines::{answer_job, initial_run, see_job};
use wh_workflow::{Command, Job};

/// What a server does.
#[derive(Drop)]
pub enum ServerMove {
    /// It gives the run a job.
    GivesJob(Job),
    /// The next task begins. For each thing, in the order of their names, whether it has ended since
    /// the task before.
    NextTask(Vec<bool>),
}

/// What a run has come to.
#[derive(Drop)]
struct Followed {
    /// The run.
    run: RowsState,
    /// What it knows.
    situation: Situation,
    /// The first command at fault of those that the last move led to, if one is.
    fault: Option<StuckCommand>,
}

/// Whether none of these moves starts the run.
fn moves_on(moves: &[ServerMove]) -> bool
    ensures { result ≡ moves_on (map move_of moves.now) }
{
    for one in moves {
        if matches!(one, ServerMove::GivesJob(Job::Start { .. })) {
            return false;
        }
    }
    true
}

/// Whether the moves begin with a start, and none of the later ones is one.
fn moves_begin(moves: &[ServerMove]) -> bool
    ensures { result ≡ true → moves_begin (map move_of moves.now) ≡ true }
{
    match moves {
        [ServerMove::GivesJob(Job::Start { .. }), later @ ..] => moves_on(later),
        _ => false,
    }
}

/// The things when the next task begins, with a flag for each that has ended. `None` if they can't be
/// so.
fn next_things(
    alloc: Global,
    names: &[ThingName],
    ended: &[bool],
    things: &[ThingState],
) -> Result<Option<Vec<ThingState>>, OutOfMemory>
    ensures { IfOk result (λ found. IfSome found (λ next.
        next_things (map name_seen names.now) ended.now things.now ≡ Some next.items)) }
{
    let mut next = Vec::new(alloc);
    for (place, one) in things.iter().enumerate() {
        if names.len() <= place || ended.len() <= place {
            return Ok(None);
        }
        match next_thing(ended[place], names[place].thing, *one) {
            Some(state) => next.push(state)?,
            None => return Ok(None),
        }
    }
    Ok(Some(next))
}

/// What a run knows when the next task begins, in which these have ended. `None` if no server begins
/// it.
pub(crate) fn next_task(
    alloc: Global,
    names: &[ThingName],
    ended: &[bool],
    now: Situation,
) -> Result<Option<Situation>, OutOfMemory>
    ensures { IfOk result (λ found. IfSome found (λ next.
        next_task (map name_seen names.now) ended.now (situation_seen now) ≡ Some (situation_seen next))) }
{
    if !all_told(now.things.as_slice()) || now.awaits_version {
        return Ok(None);
    }
    match next_things(alloc, names, ended, now.things.as_slice())? {
        Some(things) => Ok(Some(Situation {
            things,
            awaits_version: now.awaits_version,
            takes_signals: true,
            faulty: now.faulty,
        })),
        None => Ok(None),
    }
}

/// The commands that a run of the table gives to a job, and what it leaves of the run.
fn commands_for(
    alloc: Global,
    table: &OwnedTable,
    run: &mut RowsState,
    job: &Job,
) -> Result<Vec<Command>, OutOfMemory>
    ensures commands { IfOk result (λ given. given.items ≡ gives (definition table.now) run.old job.now) }
    ensures state { OnOk result (run.new ≡ after (definition table.now) run.old job.now) }
{
    see_job(alloc, table, run, job)?;
    answer_job(alloc, table, run, job)
}

/// Gives a run a job. `None` if no server gives it.
fn follow_job(
    alloc: Global,
    table: &OwnedTable,
    names: &[ThingName],
    now: Followed,
    job: &Job,
) -> Result<Option<Followed>, OutOfMemory>
    ensures follows { IfOk result (λ found. IfSome found (λ next. FollowsOn (definition table.now) (map name_seen names.now)
        now.run (situation_seen now.situation) (GivesJob job.now) next.run (situation_seen next.situation))) }
    ensures fault { IfOk result (λ found. IfSome found (λ next. FaultsOn (definition table.now) (map name_seen names.now)
        now.run (situation_seen now.situation) now.fault (GivesJob job.now)
        next.run (situation_seen next.situation) next.fault)) }
{
    let mut run = now.run;
    match after_job(names, job, now.situation) {
        Some(situation) => {
            let mut situation = situation;
            let commands = commands_for(alloc, table, &mut run, job)?;
            let fault = fault_in(names, commands.as_slice(), copy_of(&situation)?);
            give_commands(names, commands.as_slice(), &mut situation);
            Ok(Some(Followed {
                run,
                situation,
                fault,
            }))
        }
        None => Ok(None),
    }
}

/// Begins the next task. `None` if no server begins it.
fn follow_task(
    alloc: Global,
    table: &OwnedTable,
    names: &[ThingName],
    now: Followed,
    ended: &[bool],
) -> Result<Option<Followed>, OutOfMemory>
    ensures follows { IfOk result (λ found. IfSome found (λ next. FollowsOn (definition table.now) (map name_seen names.now)
        now.run (situation_seen now.situation) (NextTask ended.now) next.run (situation_seen next.situation))) }
    ensures fault { IfOk result (λ found. IfSome found (λ next. FaultsOn (definition table.now) (map name_seen names.now)
        now.run (situation_seen now.situation) now.fault (NextTask ended.now)
        next.run (situation_seen next.situation) next.fault)) }
{
    let run = now.run;
    match next_task(alloc, names, ended, now.situation)? {
        Some(situation) => Ok(Some(Followed {
            run,
            situation,
            fault: None,
        })),
        None => Ok(None),
    }
}

/// Lets a server do this. `None` if no server does.
fn follow_move(
    alloc: Global,
    table: &OwnedTable,
    names: &[ThingName],
    now: Followed,
    one: &ServerMove,
) -> Result<Option<Followed>, OutOfMemory>
    ensures follows { IfOk result (λ found. IfSome found (λ next. FollowsOn (definition table.now) (map name_seen names.now)
        now.run (situation_seen now.situation) (move_of one.now) next.run (situation_seen next.situation))) }
    ensures fault { IfOk result (λ found. IfSome found (λ next. FaultsOn (definition table.now) (map name_seen names.now)
        now.run (situation_seen now.situation) now.fault (move_of one.now)
        next.run (situation_seen next.situation) next.fault)) }
{
    match one {
        ServerMove::GivesJob(job) => follow_job(alloc, table, names, now, job),
        ServerMove::NextTask(ended) => follow_task(alloc, table, names, now, ended.as_slice()),
    }
}

/// What a run comes to by these moves. `None` if no server makes them.
fn follow_moves(
    alloc: Global,
    table: &OwnedTable,
    names: &[ThingName],
    moves: &[ServerMove],
) -> Result<Option<Followed>, OutOfMemory>
    ensures follows { IfOk result (λ found. IfSome found (λ now. follow_run (definition table.now) (map name_seen names.now)
        (map move_of moves.now) ≡ Some (situation_seen now.situation))) }
    ensures fault { IfOk result (λ found. IfSome found (λ now.
        last_fault (definition table.now) (map name_seen names.now) (map move_of moves.now) ≡ now.fault)) }
{
    let mut now = Followed {
        run: initial_run(alloc, table)?,
        situation: new_situation(alloc, names)?,
        fault: None,
    };
    for one in moves {
        match follow_move(alloc, table, names, now, one)? {
            Some(next) => now = next,
            None => return Ok(None),
        }
    }
    Ok(Some(now))
}

/// The command that is at fault after these moves. `None` if no server makes them, or none is.
pub(crate) fn stuck_command(
    alloc: Global,
    table: &OwnedTable,
    names: &[ThingName],
    moves: &[ServerMove],
) -> Result<Option<StuckCommand>, OutOfMemory>
    ensures { IfOk result (λ found. IfSome found (λ command.
        IsStuckBy (definition table.now) (map name_seen names.now) (map move_of moves.now) command)) }
{
    if !moves_begin(moves) {
        return Ok(None);
    }
    match follow_moves(alloc, table, names, moves)? {
        Some(now) => Ok(if now.situation.faulty {
            now.fault
        } else {
            None
        }),
        None => Ok(None),
    }
}
