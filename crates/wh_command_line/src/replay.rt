//! The subcommand `replay`: its arguments, and its options.

ghost use Rattle.std.specs.Prelude.{IfOk};
ghost use Rattle.clap.specs.Words.{found_of, rows_of};
ghost use Rattle.wh_command_line.specs.Lines.{StandsFor};
ghost use Rattle.wh_command_line.specs.Replays.{GivesReplay, replay};

use crate::command_line::{
    flag_argument, flag_given, format_given, paths_subcommand, progress_argument,
    require_files_argument, with_argument,
};
use clap::{ArgMatches, Command};
use std::alloc::{AllocError, Global};
use wh_console::ReplayOptions;

/// Returns the subcommand `replay`.
pub(crate) fn replay<'a>(alloc: Global) -> Result<Command<'a>, AllocError>
    ensures { IfOk result (StandsFor replay) }
{
    let command = paths_subcommand(
        alloc,
        "replay",
        "Replays each history of folders and files, and prints a line for each",
        "A folder whose .json files are read, a file, or - for the standard input",
        "PATH",
    );
    let json = flag_argument(alloc, "json", "Prints the report as JSON");
    let command = with_argument(command, json);
    let command = with_argument(command, require_files_argument(alloc));
    let strict_values = flag_argument(
        alloc,
        "strict-values",
        "Warns of inputs, results and durations that differ",
    );
    let command = with_argument(command, strict_values);
    with_argument(command, progress_argument(alloc))
}

/// Returns the options that the subcommand is given.
pub(crate) fn options_given(given: &ArgMatches<'_>) -> ReplayOptions
    ensures { GivesReplay (rows_of (found_of given.now)) result }
{
    ReplayOptions {
        format: format_given(given),
        require_files: flag_given(given, "require-files"),
        strict_values: flag_given(given, "strict-values"),
        progress: flag_given(given, "progress"),
    }
}
