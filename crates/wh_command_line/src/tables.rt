//! The subcommands `check` and `try`, of tables in files: their arguments, and their plans.

ghost use Rattle.std.specs.Prelude.{◌≡◌, ◌≢◌, ◌⊎◌, [], false, true, codes, Err, IfOk, IfErr};
ghost use Rattle.clap.specs.Words.{found_of, rows_of};
ghost use Rattle.std.specs.List.{list_any};
ghost use Rattle.wh_command_line.specs.Lines.{StandsFor, check, trial};
ghost use Rattle.wh_command_line.specs.Options.{IsWithinLimits};
ghost use Rattle.wh_command_line.specs.Refusals.{IfBad};
ghost use Rattle.wh_command_line.specs.Tables.{AreFilesOrScenario, GivesCheck, GivesTrial, LacksCheck};
ghost use Rattle.wh_command_line.specs.Tables.{LacksTrial, MixesScenario, begins_with_start, is_scenario};

use crate::command_line::{
    Plan, Refusal, bad_line, flag_argument, flag_given, format_given, paths_given,
    paths_subcommand, with_argument,
};
use clap::{ArgMatches, Command};
use std::alloc::{AllocError, Global};
use wh_console::Format;
use wh_events::Text;

/// Returns the subcommand `check`.
pub(crate) fn check<'a>(alloc: Global) -> Result<Command<'a>, AllocError>
    ensures { IfOk result (StandsFor check) }
{
    let command = paths_subcommand(
        alloc,
        "check",
        "Checks workflows that are tables in files, and prints each fault",
        "A table (JSON), or - for the standard input",
        "FILE",
    );
    let json = flag_argument(alloc, "json", "Prints the faults as JSON");
    let command = with_argument(command, json);
    let html = flag_argument(alloc, "html", "Prints a page with a picture of the states");
    with_argument(command, html)
}

/// The help of the files of tables that are tried, and of the scenario behind one of them.
const TRIED: &str = "\
A table (JSON) or a folder of tables; behind one table also a scenario: 'start ..', jobs, and after \
=> their commands. Without it the file beside each table, whose name ends in .txt";

/// Returns the subcommand `try`.
pub(crate) fn trial<'a>(alloc: Global) -> Result<Command<'a>, AllocError>
    ensures { IfOk result (StandsFor trial) }
{
    let command = paths_subcommand(
        alloc,
        "try",
        "Gives workflows that are tables in files the jobs of scenarios, and prints their commands",
        TRIED,
        "FILE",
    );
    with_argument(
        command,
        flag_argument(alloc, "json", "Prints the runs as JSON"),
    )
}

/// Returns the plan to write a page of a table, which allows neither another format nor more files.
fn picture_plan(alloc: Global, file: Text, more: &[Text], format: Format) -> Result<Plan, Refusal>
    ensures picture { IfOk result (λ plan. plan ≡ Plan.Picture file) }
    ensures text { IfOk result (λ _. format ≡ Format.Text) }
    ensures alone { IfOk result (λ _. more.now ≡ []) }
    ensures slots { result ≢ Err Refusal.FewSlots }
    ensures bad { IfErr result (IfBad ((format ≡ Format.Json) ⊎ (more.now ≢ []))) }
{
    match (format, more) {
        (Format::Text, []) => Ok(Plan::Picture { file }),
        _ => Err(bad_line(String::from_str(
            alloc,
            "error: --html takes one file, and can't be given with --json\n",
        ))),
    }
}

/// Returns the plan of the subcommand `check`.
pub(crate) fn check_given(alloc: Global, given: &ArgMatches<'_>) -> Result<Plan, Refusal>
    ensures limits { IfOk result IsWithinLimits }
    ensures given { IfOk result (GivesCheck (rows_of (found_of given.now))) }
    ensures slots { result ≢ Err Refusal.FewSlots }
    ensures bad { IfErr result (IfBad (LacksCheck (rows_of (found_of given.now)))) }
{
    let (file, more) = paths_given(alloc, given)?;
    let format = format_given(given);
    if flag_given(given, "html") {
        return picture_plan(alloc, file, more.as_slice(), format);
    }
    Ok(Plan::Check { file, more, format })
}

/// Whether words begin with the word `start`, which a blank, the end of a line, a semicolon or an
/// arrow ends.
fn begins_with_start(words: &str) -> bool
    ensures { result ≡ begins_with_start words.now }
{
    words == "start"
        || words.starts_with("start ")
        || words.starts_with("start\n")
        || words.starts_with("start;")
        || words.starts_with("start=>")
}

/// Whether an argument is a scenario, and no path: its first job is a start.
fn is_scenario(argument: &Text) -> bool
    ensures { result ≡ is_scenario argument.now }
{
    begins_with_start(argument.get().trim())
}

/// Whether one of the arguments is a scenario.
fn have_scenario(arguments: &[Text]) -> bool
    ensures { result ≡ list_any is_scenario arguments.now }
{
    arguments.iter().any(|argument| is_scenario(argument))
}

/// Returns what the arguments after the first file are: further files, or the scenario of that
/// file, which takes no other.
fn files_or_scenario(
    alloc: Global,
    mut others: Vec<Text>,
) -> Result<(Vec<Text>, Option<Text>), Refusal>
    ensures apart { IfOk result (λ both. AreFilesOrScenario others.items both.0.items both.1) }
    ensures slots { result ≢ Err Refusal.FewSlots }
    ensures bad { IfErr result (IfBad (MixesScenario others.items)) }
{
    if !have_scenario(others.as_slice()) {
        return Ok((others, None));
    }
    if others.len() > 1 {
        return Err(bad_line(String::from_str(alloc, "error: a scenario takes one file\n")));
    }
    let scenario = others.pop();
    Ok((others, scenario))
}

/// Returns the plan of the subcommand `try`.
pub(crate) fn trial_given(alloc: Global, given: &ArgMatches<'_>) -> Result<Plan, Refusal>
    ensures limits { IfOk result IsWithinLimits }
    ensures given { IfOk result (GivesTrial (rows_of (found_of given.now))) }
    ensures slots { result ≢ Err Refusal.FewSlots }
    ensures bad { IfErr result (IfBad (LacksTrial (rows_of (found_of given.now)))) }
{
    let (file, others) = paths_given(alloc, given)?;
    let (more, scenario) = files_or_scenario(alloc, others)?;
    Ok(Plan::Try {
        file,
        more,
        scenario,
        format: format_given(given),
    })
}
