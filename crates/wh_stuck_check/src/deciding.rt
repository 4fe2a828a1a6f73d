//! Whether a table that was read gets stuck.
ghost use Rattle.std.specs.Prelude.{◌≡◌, true, IfOk, map};
ghost use Rattle.wh_row_rules.specs.Broken.{definition};
ghost use Rattle.wh_rows.specs.Deciding.{lines};
ghost use Rattle.wh_table_lines.specs.Lines.{line_seen};
ghost use Rattle.wh_possible_runs.specs.PossibleRuns.{IsStuckFree};
ghost use Rattle.wh_possible_runs.specs.Configurations.{all_patterns, begun, starts};
ghost use Rattle.wh_possible_runs.specs.Shown.{has, each, shows, names_of};
ghost use Rattle.wh_stuck_check.specs.Verdicts.{IsRight};
ghost use Rattle.wh_stuck_check.specs.Private.Seen.{name_seen};
ghost use Rattle.wh_stuck_check.specs.Private.Configs.{config_seen};

use crate::config::{Rules, after_start, all_patterns, initial_configuration};
use crate::found::{Found, are_closed, is_known};
use crate::moves::{ServerMove, stuck_command};
use crate::names::names_of;
use crate::plain::{are_plain, plain_names};
use crate::search::{Search, SearchEnd, begin_search, search_fault};
use crate::sure::are_sure;
use crate::verdict::{StuckDoubt, StuckRun, StuckVerdict};
use crate::ways::moves_to;
use std::alloc::Global;
use wh_events::OutOfMemory;
use wh_row_rules::OwnedTable;
use wh_table_lines::{all_within, are_cuts, cuts_of, lines_of, place};

/// The most things that the rows may open or cancel.
const MOST_THINGS: usize = 64;

/// Whether the configuration after the start is found.
fn knows_start(
    alloc: Global,
    rules: &Rules,
    found: &Found,
    first: usize,
) -> Result<bool, OutOfMemory>
    ensures { IfOk result (λ known. known ≡ true → each (has (map config_seen found.now.configs.items))
        (starts (map name_seen rules.now.names.now) rules.now.tops (map line_seen rules.now.lines.now)
        (begun (map name_seen rules.now.names.now) first)) ≡ true) }
{
    let one = initial_configuration(alloc, rules.names, first)?;
    let next = after_start(rules, &one)?;
    Ok(is_known(found.configs.as_slice(), found.slots.as_slice(), &next))
}

/// Whether the configurations that were found show that no run gets stuck.
fn shows(
    alloc: Global,
    table: &OwnedTable,
    rules: &Rules,
    found: &Found,
) -> Result<bool, OutOfMemory>
    requires lines { map line_seen rules.now.lines.now ≡ lines table.now.rows table.now.rows }
    requires patterns { rules.now.patterns.now ≡ all_patterns (map name_seen rules.now.names.now) }
    ensures { IfOk result (λ shown. shown ≡ true → shows (definition table.now) (map name_seen rules.now.names.now)
        rules.now.tops (map config_seen found.now.configs.items) ≡ true) }
{
    let rows = table.rows.get();
    if !are_cuts(table.bounds, rules.tops) || !all_within(rows.len(), rules.tops, rules.lines) {
        return Ok(false);
    }
    if !are_plain(rows) || !plain_names(rules.names) {
        return Ok(false);
    }
    if !knows_start(alloc, rules, found, place(&table.first, rows))? {
        return Ok(false);
    }
    are_closed(alloc, rules, found)
}

/// Whether it is shown that no run gets stuck.
fn never_gets_stuck(
    alloc: Global,
    table: &OwnedTable,
    rules: &Rules,
    found: &Found,
) -> Result<bool, OutOfMemory>
    requires lines { map line_seen rules.now.lines.now ≡ lines table.now.rows table.now.rows }
    requires names { map name_seen rules.now.names.now ≡ names_of (definition table.now) }
    requires patterns { rules.now.patterns.now ≡ all_patterns (map name_seen rules.now.names.now) }
    ensures { IfOk result (λ shown. shown ≡ true → IsStuckFree (definition table.now) (names_of (definition table.now))) }
{
    if shows(alloc, table, rules, found)? {
        return Ok(true);
    }
    Ok(false)
}

/// The verdict if a search ends with no configuration at fault.
fn by_found(
    alloc: Global,
    table: &OwnedTable,
    rules: &Rules,
    found: &Found,
) -> Result<StuckVerdict, OutOfMemory>
    requires lines { map line_seen rules.now.lines.now ≡ lines table.now.rows table.now.rows }
    requires names { map name_seen rules.now.names.now ≡ names_of (definition table.now) }
    requires patterns { rules.now.patterns.now ≡ all_patterns (map name_seen rules.now.names.now) }
    ensures { IfOk result (λ verdict. IsRight (definition table.now) verdict) }
{
    if never_gets_stuck(alloc, table, rules, found)? {
        return Ok(StuckVerdict::NeverStuck);
    }
    Ok(StuckVerdict::NotDecided(StuckDoubt::Unconfirmed))
}

/// The verdict by moves that lead to a command at fault, if they do.
fn by_moves(
    alloc: Global,
    table: &OwnedTable,
    rules: &Rules,
    moves: Option<Vec<ServerMove>>,
) -> Result<StuckVerdict, OutOfMemory>
    requires names { map name_seen rules.now.names.now ≡ names_of (definition table.now) }
    ensures { IfOk result (λ verdict. IsRight (definition table.now) verdict) }
{
    let Some(moves) = moves else {
        return Ok(StuckVerdict::NotDecided(StuckDoubt::Unconfirmed));
    };
    if !are_sure(moves.as_slice()) {
        return Ok(StuckVerdict::NotDecided(StuckDoubt::UnsureJobs));
    }
    match stuck_command(alloc, table, rules.names, moves.as_slice())? {
        Some(command) => Ok(StuckVerdict::GetsStuck(StuckRun { moves, command })),
        None => Ok(StuckVerdict::NotDecided(StuckDoubt::Unconfirmed)),
    }
}

/// The verdict by what a search finds.
fn by_search(alloc: Global, table: &OwnedTable, rules: &Rules) -> Result<StuckVerdict, OutOfMemory>
    requires lines { map line_seen rules.now.lines.now ≡ lines table.now.rows table.now.rows }
    requires names { map name_seen rules.now.names.now ≡ names_of (definition table.now) }
    requires patterns { rules.now.patterns.now ≡ all_patterns (map name_seen rules.now.names.now) }
    ensures { IfOk result (λ verdict. IsRight (definition table.now) verdict) }
{
    let mut search = begin_search(alloc, rules, place(&table.first, table.rows.get()))?;
    match search_fault(alloc, &mut search, rules)? {
        SearchEnd::TooMany => Ok(StuckVerdict::NotDecided(StuckDoubt::TooMany)),
        SearchEnd::Complete => by_found(alloc, table, rules, &search.found),
        SearchEnd::Faulty(index) => {
            let moves = moves_to(alloc, rules, &search, index)?;
            by_moves(alloc, table, rules, moves)
        }
    }
}

/// Decides whether a table gets stuck: whether in a run that a server can make a command is at fault
/// that opens or cancels a thing. `NeverStuck` says that none is. `GetsStuck` has moves of a server
/// after which one is; a test says that they are as few as can be. If neither is found, the verdict
/// says why.
/// `OutOfMemory` if an allocation was refused; nothing is left then.
pub fn decide(alloc: Global, table: &OwnedTable) -> Result<StuckVerdict, OutOfMemory>
    ensures { IfOk result (λ verdict. IsRight (definition table.now) verdict) }
{
    let rows = table.rows.get();
    let names = names_of(alloc, rows)?;
    if !are_plain(rows) || !plain_names(names.as_slice()) {
        return Ok(StuckVerdict::NotDecided(StuckDoubt::ByName));
    }
    if MOST_THINGS < names.len() {
        return Ok(StuckVerdict::NotDecided(StuckDoubt::TooMany));
    }
    let lines = lines_of(alloc, rows)?;
    let patterns = all_patterns(alloc, names.as_slice())?;
    let rules = Rules {
        lines: lines.as_slice(),
        tops: cuts_of(lines.as_slice()),
        names: names.as_slice(),
        patterns: patterns.as_slice(),
    };
    by_search(alloc, table, &rules)
}
