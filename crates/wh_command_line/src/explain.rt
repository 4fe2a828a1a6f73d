//! The subcommand `explain`: its arguments, and its plan.

ghost use Rattle.std.specs.Prelude.{◌≡◌, ◌≢◌, ◌⊎◌, ◌≤◌, ◌<◌, ◌^◌, [], false, None, true, codes, Err, IfOk, IfErr, IfSome};
ghost use Rattle.clap.specs.Words.{App, found_of, rows_of, rule_of};
ghost use Rattle.wh_command_line.specs.Explanations.{GivesExplanation, GivesSelection, LacksExplanation};
ghost use Rattle.wh_command_line.specs.Explanations.{LacksSelection, MaySelect, Selects, selected};
ghost use Rattle.wh_command_line.specs.Lines.{StandsFor, explain, with_selections};
ghost use Rattle.wh_command_line.specs.Options.{IsWithinLimits, option};
ghost use Rattle.wh_command_line.specs.Refusals.{IfBad};

use crate::command_line::{
    Plan, Refusal, bad_line, flag_argument, flag_given, format_given, option_argument, paths_given,
    paths_subcommand, with_argument,
};
use crate::options::NumberOption;
use clap::{Arg, ArgMatches, Command};
use std::alloc::{AllocError, Global};
use wh_console::{Format, Selection};
use wh_events::{EventNo, Text};

/// The event whose task is shown.
const AROUND: NumberOption = NumberOption {
    name: "around",
    otherwise: "",
    value_name: "EVENT",
    about: "Only the task of this event, two before and two after it",
    least: 1,
    most: EventNo::LAST,
};

/// How many tasks are shown.
const LAST: NumberOption = NumberOption {
    name: "last",
    otherwise: "",
    value_name: "N",
    about: "Only the last N tasks",
    least: 1,
    most: 67_108_864,
};

/// Returns an option that takes a number and has no default, with its help.
fn selection_argument<'a>(alloc: Global, number: &NumberOption) -> Arg<'a>
    ensures rule { rule_of result ≡ option number.now.name.now }
    ensures local { result.global ≡ false }
{
    option_argument(alloc, number.name, number.value_name, number.about)
}

/// Adds to a subcommand the options that select tasks. An error of the subcommand is returned.
fn with_selections<'a>(
    alloc: Global,
    command: Result<Command<'a>, AllocError>,
) -> Result<Command<'a>, AllocError>
    ensures { (app : App) → IfOk command.entry (StandsFor app)
        → IfOk result (StandsFor (with_selections app)) }
{
    let all = flag_argument(
        alloc,
        "all",
        "All tasks, also those that are alike or have nothing to do with a fault",
    );
    let command = with_argument(command, all);
    let command = with_argument(command, selection_argument(alloc, &AROUND));
    with_argument(command, selection_argument(alloc, &LAST))
}

/// The help of the files that are explained.
const HISTORIES: &str = "\
The history file that is read, or - for the standard input; with --recorded also more files, and \
folders";

/// Returns the subcommand `explain`.
pub(crate) fn explain<'a>(alloc: Global) -> Result<Command<'a>, AllocError>
    ensures { IfOk result (StandsFor explain) }
{
    let command = paths_subcommand(
        alloc,
        "explain",
        "Replays a history, and prints what the workflow was told and gave, task by task",
        HISTORIES,
        "FILE",
    );
    let json = flag_argument(alloc, "json", "Prints the explanation as JSON");
    let command = with_argument(command, json);
    let recorded = flag_argument(
        alloc,
        "recorded",
        "Prints what is recorded, of any workflow type, and replays nothing",
    );
    let command = with_argument(command, recorded);
    let html = flag_argument(alloc, "html", "Prints a page of the run as one HTML file");
    with_selections(alloc, with_argument(command, html))
}

/// Which tasks the options select.
#[derive(Clone, Copy)]
enum Choice {
    /// None of the options is given.
    Nothing,
    /// These tasks.
    Tasks(Selection),
    /// More than one of the options is given.
    Twice,
}

/// Returns which tasks the flag for all tasks and the numbers of the options select.
fn choice_of(all: bool, around: Option<u64>, last: Option<u64>) -> Choice
    requires around { IfSome around (λ n. (1 ≤ n) × (n < 2 ^ 63)) }
    requires last { IfSome last (λ n. n ≤ 67108864) }
    ensures { result ≡ selected all around last }
{
    match (all, around, last) {
        (false, None, None) => Choice::Nothing,
        (true, None, None) => Choice::Tasks(Selection::All),
        (false, None, Some(tasks)) => Choice::Tasks(Selection::Last(tasks as usize)),
        (false, Some(event), None) => match EventNo::new(event) {
            Some(event) => Choice::Tasks(Selection::Around(event)),
            None => Choice::Twice,
        },
        _ => Choice::Twice,
    }
}

/// Returns which tasks a subcommand selects, if it selects any.
fn selection_given(alloc: Global, given: &ArgMatches<'_>) -> Result<Option<Selection>, Refusal>
    ensures given { IfOk result (GivesSelection (rows_of (found_of given.now))) }
    ensures slots { result ≢ Err Refusal.FewSlots }
    ensures bad { IfErr result (IfBad (LacksSelection (rows_of (found_of given.now)))) }
{
    let around = AROUND.number_if_given(alloc, given)?;
    let last = LAST.number_if_given(alloc, given)?;
    let all = flag_given(given, "all");
    match choice_of(all, around, last) {
        Choice::Nothing => Ok(None),
        Choice::Tasks(selection) => Ok(Some(selection)),
        Choice::Twice => Err(bad_line(String::from_str(
            alloc,
            "error: --all, --around and --last can't be given together\n",
        ))),
    }
}

/// Returns the plan to write a page, which takes one file, and allows neither another format nor a
/// selection of tasks.
fn page_plan(
    alloc: Global,
    file: Text,
    more: &[Text],
    only_recorded: bool,
    format: Format,
    selection: Option<Selection>,
) -> Result<Plan, Refusal>
    ensures page { IfOk result (λ plan. plan ≡ Plan.Page file only_recorded) }
    ensures alone { IfOk result (λ _. more.now ≡ []) }
    ensures text { IfOk result (λ _. format ≡ Format.Text) }
    ensures all { IfOk result (λ _. selection ≡ None) }
    ensures slots { result ≢ Err Refusal.FewSlots }
    ensures bad { IfErr result (IfBad ((format ≡ Format.Json) ⊎ ((selection ≢ None) ⊎ (more.now ≢ [])))) }
{
    match (format, selection, more) {
        (Format::Text, None, []) => Ok(Plan::Page {
            file,
            only_recorded,
        }),
        _ => Err(bad_line(String::from_str(
            alloc,
            "error: --html takes one file, and can't be given with --json, --all, --around or --last\n",
        ))),
    }
}

/// Returns the plan to show what histories record. A selection of tasks takes one file.
fn view_plan(
    alloc: Global,
    file: Text,
    more: Vec<Text>,
    selection: Option<Selection>,
    format: Format,
) -> Result<Plan, Refusal>
    ensures view { IfOk result (λ plan. plan ≡ Plan.View file more selection format) }
    ensures alone { IfOk result (λ _. MaySelect more.items selection) }
    ensures slots { result ≢ Err Refusal.FewSlots }
    ensures bad { IfErr result (IfBad ((more.items ≢ []) × (selection ≢ None))) }
{
    if !more.is_empty() && selection.is_some() {
        return Err(bad_line(String::from_str(
            alloc,
            "error: --all, --around and --last take one file\n",
        )));
    }
    Ok(Plan::View {
        file,
        more,
        selection,
        format,
    })
}

/// Returns the plan to explain the replay of a history, which takes one file.
fn replay_plan(
    alloc: Global,
    file: Text,
    more: &[Text],
    selection: Option<Selection>,
    format: Format,
) -> Result<Plan, Refusal>
    ensures explain { IfOk result (λ plan. plan ≡ Plan.Explain file selection format) }
    ensures alone { IfOk result (λ _. more.now ≡ []) }
    ensures slots { result ≢ Err Refusal.FewSlots }
    ensures bad { IfErr result (IfBad (more.now ≢ [])) }
{
    match more {
        [] => Ok(Plan::Explain {
            file,
            selection,
            format,
        }),
        _ => Err(bad_line(String::from_str(
            alloc,
            "error: explain takes one file, unless --recorded is given\n",
        ))),
    }
}

/// Returns the plan of the subcommand `explain`.
pub(crate) fn explanation_given(alloc: Global, given: &ArgMatches<'_>) -> Result<Plan, Refusal>
    ensures limits { IfOk result IsWithinLimits }
    ensures given { IfOk result (GivesExplanation (rows_of (found_of given.now))) }
    ensures slots { result ≢ Err Refusal.FewSlots }
    ensures bad { IfErr result (IfBad (LacksExplanation (rows_of (found_of given.now)))) }
{
    let (file, more) = paths_given(alloc, given)?;
    let selection = selection_given(alloc, given)?;
    let format = format_given(given);
    let recorded = flag_given(given, "recorded");
    if flag_given(given, "html") {
        return page_plan(alloc, file, more.as_slice(), recorded, format, selection);
    }
    if recorded {
        return view_plan(alloc, file, more, selection, format);
    }
    replay_plan(alloc, file, more.as_slice(), selection, format)
}
