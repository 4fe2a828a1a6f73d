//! The subcommand `query`: its arguments, and its plan.

ghost use Rattle.std.specs.Prelude.{◌≡◌, ◌≢◌, false, map, option_map, codes, Err, IfOk, IfErr};
ghost use Rattle.clap.specs.Words.{found_of, rows_of, rule_of};
ghost use Rattle.wh_command_line.specs.Lines.{StandsFor, input, query};
ghost use Rattle.wh_command_line.specs.Options.{IsWithinLimits};
ghost use Rattle.wh_command_line.specs.Queries.{GivesInput, GivesQuery, LacksQuery};
ghost use Rattle.wh_command_line.specs.Refusals.{IfBad};

use crate::command_line::{
    Plan, Refusal, file_subcommand, flag_argument, format_given, needed_argument, text_copies,
    text_given, with_argument,
};
use clap::{Arg, ArgAction, ArgMatches, Command};
use std::alloc::{AllocError, Global};
use wh_events::Text;

/// The help of the argument that names the file of a history.
const HISTORY: &str = "The history file that is read, or - for the standard input";

/// Returns the positional argument for the arguments of a query, of which there may be any number.
fn input_argument<'a>(alloc: Global) -> Arg<'a>
    ensures rule { rule_of result ≡ input }
    ensures local { result.global ≡ false }
{
    Arg::new(alloc, "JSON").action(ArgAction::Append).help(
        "The arguments of the query, each a JSON text; -- before one that begins with -",
    )
}

/// Returns the subcommand `query`.
pub(crate) fn query<'a>(alloc: Global) -> Result<Command<'a>, AllocError>
    ensures { IfOk result (StandsFor query) }
{
    let command = file_subcommand(
        alloc,
        "query",
        "Replays a history, and prints what the workflow answers to a query after its last task",
        HISTORY,
    );
    let query_type = needed_argument(alloc, "TYPE", "The query type");
    let command = with_argument(command, query_type);
    let command = with_argument(command, input_argument(alloc));
    let json = flag_argument(alloc, "json", "Prints the verdict and the result as JSON");
    with_argument(command, json)
}

/// Returns the arguments of a query that the line gives, in their order.
fn input_given(alloc: Global, given: &ArgMatches<'_>) -> Result<Vec<Text>, Refusal>
    ensures given { IfOk result (λ input. GivesInput (rows_of (found_of given.now)) input.items) }
    ensures err { IfErr result (λ e. e ≡ Refusal.OutOfMemory) }
{
    match given.get_strs("JSON") {
        Some(words) => text_copies(alloc, words),
        None => Ok(Vec::new(alloc)),
    }
}

/// Returns the plan of the subcommand `query`.
pub(crate) fn query_given(alloc: Global, given: &ArgMatches<'_>) -> Result<Plan, Refusal>
    ensures limits { IfOk result IsWithinLimits }
    ensures given { IfOk result (GivesQuery (rows_of (found_of given.now))) }
    ensures slots { result ≢ Err Refusal.FewSlots }
    ensures bad { IfErr result (IfBad (LacksQuery (rows_of (found_of given.now)))) }
{
    let file = text_given(alloc, given, "FILE")?;
    let query_type = text_given(alloc, given, "TYPE")?;
    let input = input_given(alloc, given)?;
    Ok(Plan::Query {
        file,
        query_type,
        input,
        format: format_given(given),
    })
}
