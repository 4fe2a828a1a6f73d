//! The command line.

ghost use Rattle.std.specs.Prelude.{◌≡◌, ◌≢◌, ◌↔◌, ◌<◌, false, codes, Err, IfOk, IfErr, IfSome, map};
ghost use Rattle.std.specs.Prelude.{string_bytes};
ghost use Rattle.clap.specs.Words.{App, Rule, app_of, new_app, found_of, rows_of, rule_of, kind_of};
ghost use Rattle.clap.specs.Words.{first_of, with_rule, with_subcommand};
ghost use Rattle.clap.specs.declared.builder.Command.TheViews.{out-Command as fields_of};
ghost use Rattle.wh_command_line.specs.Given.{GivesFlag, GivesFormat, GivesPaths, GivesText, LacksText};
ghost use Rattle.wh_command_line.specs.Lines.{program, serve, needed, file, folder};
ghost use Rattle.wh_command_line.specs.Lines.{StandsFor, with_version};
ghost use Rattle.wh_command_line.specs.Options.{as_needed, flag, option, option_or, paths, with_default};
ghost use Rattle.wh_command_line.specs.Options.{with_sizes, with_value_name};
ghost use Rattle.wh_command_line.specs.Options.{GivesFewSlots, IsWithinLimits, IsWithinWorkLimits};
ghost use Rattle.wh_command_line.specs.Options.{LacksSlots};
ghost use Rattle.wh_command_line.specs.Plans.{AsksFewSlots, HasFewSlots, IsAskedBy, IsGiven, IsHelp};
ghost use Rattle.wh_command_line.specs.Plans.{IsBadGiven, IsBadLine, IsMistake, IsRequest};
ghost use Rattle.wh_command_line.specs.Plans.{LacksService};
ghost use Rattle.wh_command_line.specs.Refusals.{IfBad};
ghost use Rattle.wh_command_line.specs.Work.{GivesFewWorkSlots, LacksWork};

use crate::explain::{explain, explanation_given};
use crate::options::{CACHE, CACHE_EVENTS, Helps, NumberOption, SLOTS, WORKERS};
use crate::query::{query, query_given};
use crate::replay::{options_given, replay};
use crate::serve_options::ServeOptions;
use crate::tables::{check, check_given, trial, trial_given};
use crate::work::{WorkOptions, work};
use clap::error::ErrorKind;
use clap::{Arg, ArgAction, ArgMatches, Command, Error};
use std::alloc::{AllocError, Global};
use wh_console::{Format, ReplayOptions, Selection};
use wh_events::Text;

/// What `--version` prints after the program's name.
const VERSION: &str = "0.2.0";

/// What the command line asks the program to do.
#[derive(Debug, Drop)]
pub enum Plan {
    /// Replay the histories at a list of paths: that of a file, those of a folder, or the one on
    /// the standard input.
    Replay {
        /// The first path.
        dir: Text,
        /// The other paths, in their order.
        more: Vec<Text>,
        /// The options.
        options: ReplayOptions,
    },
    /// Explain the replay of the history in a file.
    Explain {
        /// The path of the file.
        file: Text,
        /// Which of its tasks are shown; `None` if none are selected, and the report chooses them.
        selection: Option<Selection>,
        /// The format of the explanation.
        format: Format,
    },
    /// Show what histories record, without replay.
    View {
        /// The first path.
        file: Text,
        /// The other paths, in their order.
        more: Vec<Text>,
        /// Which tasks are shown; `None` if none are selected, as where there are other paths.
        selection: Option<Selection>,
        /// The format of the report.
        format: Format,
    },
    /// Write a page of the run whose history is in a file.
    Page {
        /// The path of the file.
        file: Text,
        /// Whether the page shows only what is recorded, without replay.
        only_recorded: bool,
    },
    /// Query the workflow after the last task of the history in a file.
    Query {
        /// The path of the file.
        file: Text,
        /// The query type.
        query_type: Text,
        /// The arguments of the query, in their order. Each has to be a JSON text.
        input: Vec<Text>,
        /// The format of the result.
        format: Format,
    },
    /// Check workflows that are tables in files.
    Check {
        /// The first file.
        file: Text,
        /// The other files, in their order.
        more: Vec<Text>,
        /// The format of the report.
        format: Format,
    },
    /// Write a page of the table in a file.
    Picture {
        /// The path of the file.
        file: Text,
    },
    /// Try tables in files on scenarios.
    Try {
        /// The first path.
        file: Text,
        /// The other paths, in their order; none if there is a scenario.
        more: Vec<Text>,
        /// The scenario. `None` for the one in the file beside that of each table.
        scenario: Option<Text>,
        /// The format of the report.
        format: Format,
    },
    /// Serve the tasks of each history in a folder. There are at least as many slots as workers.
    Serve {
        /// The path of the folder.
        dir: Text,
        /// The options, which say how large the host is.
        options: ServeOptions,
        /// Whether it is a failure if there is no history.
        require_files: bool,
        /// Whether progress is reported also if the standard error is no terminal.
        progress: bool,
    },
    /// Serve the tasks of a Task Queue. Each option is within its limits, and there are at least as
    /// many slots of each kind as workers of that kind.
    Work {
        /// The options.
        options: WorkOptions,
    },
    /// Print a text that the command line asks for: the help or the version.
    Help {
        /// The text.
        text: Text,
    },
}

/// Why a command line is refused.
#[derive(Debug, Drop)]
pub enum Refusal {
    /// The line is invalid.
    BadLine {
        /// What is wrong with it. The text ends its own line.
        text: Text,
    },
    /// There are fewer slots of a kind than workers of that kind.
    FewSlots,
    /// An allocation was refused. This can be returned in place of any other refusal.
    OutOfMemory,
}

impl From<AllocError> for Refusal {
    ghost use Rattle.std.specs.Prelude.{◌≡◌};
    ghost use Rattle.wh_command_line.specs.declared.command_line.Refusal.TheVariants.{OutOfMemory};

    ghost from_gives = { λ _ e. e ≡ OutOfMemory };

    fn from(_refused: AllocError) -> Refusal {
        Refusal::OutOfMemory
    }
}

/// Copies a text.
fn text_copy(alloc: Global, text: &str) -> Result<Text, Refusal>
    ensures ok { IfOk result (λ copy. copy ≡ text.now) }
    ensures err { IfErr result (λ e. e ≡ Refusal.OutOfMemory) }
{
    Ok(Text::new(String::from_str(alloc, text)?))
}

/// Returns the refusal of an invalid line with this text, or `OutOfMemory` if there was no memory
/// for the text.
pub(crate) fn bad_line(text: Result<String, AllocError>) -> Refusal
    ensures { result ≢ Refusal.FewSlots }
{
    match text {
        Ok(text) => Refusal::BadLine {
            text: Text::new(text),
        },
        Err(refused) => Refusal::from(refused),
    }
}

/// Returns the plan or the refusal for an error of clap: the help or the version that was asked
/// for, or what clap refused.
fn plan_or_refusal(alloc: Global, error: &Error) -> Result<Plan, Refusal>
    ensures help { IfOk result IsHelp }
    ensures asked { IfOk result (λ _. IsRequest (kind_of error.now)) }
    ensures slots { result ≢ Err Refusal.FewSlots }
    ensures bad { IfErr result (IfBad (IsMistake (kind_of error.now))) }
{
    let text = Text::new(error.to_string(alloc)?);
    match error.kind() {
        ErrorKind::OutOfMemory => Err(Refusal::OutOfMemory),
        ErrorKind::DisplayHelp | ErrorKind::DisplayVersion => Ok(Plan::Help { text }),
        _ => Err(Refusal::BadLine { text }),
    }
}

/// Returns a required argument, with its help.
pub(crate) fn needed_argument<'a>(alloc: Global, name: &'a str, help: &'a str) -> Arg<'a>
    ensures rule { rule_of result ≡ needed name.entry.now }
    ensures local { result.global ≡ false }
{
    Arg::new(alloc, name)
        .required(true)
        .action(ArgAction::Set)
        .help(help)
}

/// Returns the argument, with a name for its value in the help.
fn with_value_name<'a>(argument: Arg<'a>, name: &'a str) -> Arg<'a>
    ensures rule { rule_of result ≡ with_value_name (rule_of argument.entry) }
    ensures local { result.global ≡ argument.entry.global }
{
    argument.value_name(name)
}

/// Returns the argument that names one or more paths, with its help and the name that the help has
/// for a path.
fn paths_argument<'a>(alloc: Global, help: &'a str, value_name: &'a str) -> Arg<'a>
    ensures rule { rule_of result ≡ paths }
    ensures local { result.global ≡ false }
{
    let argument = Arg::new(alloc, "DIR")
        .required(true)
        .action(ArgAction::Append)
        .help(help);
    with_value_name(argument, value_name)
}

/// Returns a flag, with its help.
pub(crate) fn flag_argument<'a>(alloc: Global, name: &'a str, help: &'a str) -> Arg<'a>
    ensures rule { rule_of result ≡ flag name.entry.now }
    ensures local { result.global ≡ false }
{
    Arg::new(alloc, name)
        .long(name)
        .action(ArgAction::SetTrue)
        .help(help)
}

/// Returns the argument that names a folder.
fn folder_argument<'a>(alloc: Global) -> Arg<'a>
    ensures rule { rule_of result ≡ folder }
    ensures local { result.global ≡ false }
{
    needed_argument(alloc, "DIR", "The folder whose .json files are read")
}

/// Returns an option that takes a value, with the name that the help has for the value, and its
/// help.
pub(crate) fn option_argument<'a>(
    alloc: Global,
    name: &'a str,
    value_name: &'a str,
    help: &'a str,
) -> Arg<'a>
    ensures rule { rule_of result ≡ option name.entry.now }
    ensures local { result.global ≡ false }
{
    let argument = Arg::new(alloc, name)
        .long(name)
        .action(ArgAction::Set)
        .help(help);
    with_value_name(argument, value_name)
}

/// Returns the option, with a default value.
pub(crate) fn with_default<'a>(argument: Arg<'a>, otherwise: &'a str) -> Arg<'a>
    ensures rule { rule_of result ≡ with_default otherwise.entry.now (rule_of argument.entry) }
    ensures local { result.global ≡ argument.entry.global }
{
    argument.default_value(otherwise)
}

/// Returns the option, as a required one.
pub(crate) fn as_needed<'a>(argument: Arg<'a>) -> Arg<'a>
    ensures rule { rule_of result ≡ as_needed (rule_of argument.entry) }
    ensures local { result.global ≡ argument.entry.global }
{
    argument.required(true)
}

/// Returns an option that takes a number, with its help.
pub(crate) fn number_argument<'a>(alloc: Global, option: &NumberOption, help: &'a str) -> Arg<'a>
    ensures rule { rule_of result ≡ option_or option.now.name.now option.now.otherwise.now }
    ensures local { result.global ≡ false }
{
    let argument = option_argument(alloc, option.name, option.value_name, help);
    with_default(argument, option.otherwise)
}

/// Returns a subcommand that has only its help.
pub(crate) fn subcommand<'a>(alloc: Global, name: &'a str, about: &'a str) -> Command<'a>
    ensures app { app_of result ≡ new_app name.entry.now }
    ensures local { (fields_of result).has_globals ≡ false }
{
    Command::new(alloc, name).about(about)
}

/// Returns a subcommand with its help and a required file, whose help is the last one.
pub(crate) fn file_subcommand<'a>(
    alloc: Global,
    name: &'a str,
    about: &'a str,
    help: &'a str,
) -> Result<Command<'a>, AllocError>
    ensures { IfOk result (StandsFor (with_rule (new_app name.entry.now) file)) }
{
    let file = needed_argument(alloc, "FILE", help);
    with_argument(Ok(subcommand(alloc, name, about)), file)
}

/// Returns a subcommand with its help and one or more required paths, with their help and the name
/// that it has for a path.
pub(crate) fn paths_subcommand<'a>(
    alloc: Global,
    name: &'a str,
    about: &'a str,
    help: &'a str,
    value_name: &'a str,
) -> Result<Command<'a>, AllocError>
    ensures { IfOk result (StandsFor (with_rule (new_app name.entry.now) paths)) }
{
    let paths = paths_argument(alloc, help, value_name);
    with_argument(Ok(subcommand(alloc, name, about)), paths)
}

/// Adds an argument to a subcommand. An error of either is returned.
pub(crate) fn with_argument<'a>(
    command: Result<Command<'a>, AllocError>,
    argument: Arg<'a>,
) -> Result<Command<'a>, AllocError>
    ensures { (app : App) (rule : Rule) → rule_of argument.entry ≡ rule → argument.entry.global ≡ false
        → IfOk command.entry (StandsFor app) → IfOk result (StandsFor (with_rule app rule)) }
{
    command?.arg(argument)
}

/// Adds an option that takes a number to a subcommand. An error of the subcommand is returned.
pub(crate) fn with_number<'a>(
    alloc: Global,
    command: Result<Command<'a>, AllocError>,
    option: &NumberOption,
    help: &'a str,
) -> Result<Command<'a>, AllocError>
    ensures { (app : App) → IfOk command.entry (StandsFor app)
        → IfOk result (StandsFor (with_rule app (option_or option.now.name.now option.now.otherwise.now))) }
{
    with_argument(command, number_argument(alloc, option, help))
}

/// Returns the flag with which it is a failure if there is no history.
pub(crate) fn require_files_argument<'a>(alloc: Global) -> Arg<'a>
    ensures rule { rule_of result ≡ flag (codes "require-files") }
    ensures local { result.global ≡ false }
{
    flag_argument(alloc, "require-files", "Fails where there is no history")
}

/// Returns the flag with which progress is reported also if the standard error is no terminal.
pub(crate) fn progress_argument<'a>(alloc: Global) -> Arg<'a>
    ensures rule { rule_of result ≡ flag (codes "progress") }
    ensures local { result.global ≡ false }
{
    flag_argument(
        alloc,
        "progress",
        "Prints on the standard error how many files are done, also where that is no terminal",
    )
}

/// Adds to a subcommand the options for the size of a host. An error of the subcommand is returned.
pub(crate) fn with_sizes<'a>(
    alloc: Global,
    command: Result<Command<'a>, AllocError>,
    helps: &'a Helps,
) -> Result<Command<'a>, AllocError>
    ensures { (app : App) → IfOk command.entry (StandsFor app)
        → IfOk result (StandsFor (with_sizes app)) }
{
    let command = with_number(alloc, command, &CACHE, helps.cache.as_str());
    let command = with_number(alloc, command, &CACHE_EVENTS, helps.cache_events.as_str());
    with_number(alloc, command, &SLOTS, helps.slots.as_str())
}

/// Returns the subcommand `serve`.
fn serve<'a>(alloc: Global, helps: &'a Helps) -> Result<Command<'a>, AllocError>
    ensures { IfOk result (StandsFor serve) }
{
    let command = subcommand(
        alloc,
        "serve",
        "Serves each history of a folder as workflow tasks, and prints how they ended",
    );
    let command = with_argument(Ok(command), folder_argument(alloc));
    let command = with_number(alloc, command, &WORKERS, helps.workers.as_str());
    let command = with_sizes(alloc, command, helps);
    let command = with_argument(command, require_files_argument(alloc));
    with_argument(command, progress_argument(alloc))
}

/// Returns the program without its subcommands, under the name by which it was called, with its
/// version and the end of its help.
fn program_alone<'a>(alloc: Global, name: &str, helps: &'a Helps) -> Result<Command<'a>, AllocError>
    ensures { IfOk result (λ c. app_of c ≡ with_version (new_app (codes "wfhost"))) }
{
    Command::new(alloc, "wfhost")
        .version(VERSION)
        .after_help(helps.ending.as_str())
        .bin_name(name)?
        .display_name(name)
}

/// Adds a subcommand to the program. An error of either is returned.
fn with_subcommand<'a>(
    program: Result<Command<'a>, AllocError>,
    subcommand: Result<Command<'a>, AllocError>,
) -> Result<Command<'a>, AllocError>
    ensures { (above app : App) → IfOk program.entry (λ c. app_of c ≡ above) → IfOk subcommand.entry (StandsFor app)
        → IfOk result (λ c. app_of c ≡ with_subcommand above app.top) }
{
    program?.subcommand(subcommand?)
}

/// Returns the program under a name, with its subcommands.
fn command<'a>(alloc: Global, name: &str, helps: &'a Helps) -> Result<Command<'a>, AllocError>
    ensures { IfOk result (λ c. app_of c ≡ program) }
{
    let program = with_subcommand(program_alone(alloc, name, helps), replay(alloc));
    let program = with_subcommand(program, explain(alloc));
    let program = with_subcommand(program, query(alloc));
    let program = with_subcommand(program, check(alloc));
    let program = with_subcommand(program, trial(alloc));
    let program = with_subcommand(program, serve(alloc, helps));
    with_subcommand(program, work(alloc, helps))
}

/// Returns the plan to serve with these options, or `FewSlots`.
fn serve_plan(
    dir: Text,
    options: ServeOptions,
    require_files: bool,
    progress: bool,
) -> Result<Plan, Refusal>
    ensures limits { IfOk result IsWithinLimits }
    ensures kept { IfOk result (λ plan. plan ≡ Plan.Serve dir options require_files progress) }
    ensures few { (result ≡ Err Refusal.FewSlots) ↔ (options.slots < options.workers) }
    ensures err { IfErr result (λ e. e ≡ Refusal.FewSlots) }
{
    if options.slots < options.workers {
        return Err(Refusal::FewSlots);
    }
    Ok(Plan::Serve {
        dir,
        options,
        require_files,
        progress,
    })
}

/// Returns the plan to work with these options, or `FewSlots`.
fn work_plan(options: WorkOptions) -> Result<Plan, Refusal>
    requires { IsWithinWorkLimits options }
    ensures limits { IfOk result IsWithinLimits }
    ensures kept { IfOk result (λ plan. plan ≡ Plan.Work options) }
    ensures few { (result ≡ Err Refusal.FewSlots) ↔ LacksSlots options }
    ensures err { IfErr result (λ e. e ≡ Refusal.FewSlots) }
{
    if options.lacks_slots() {
        drop(options);
        return Err(Refusal::FewSlots);
    }
    Ok(Plan::Work { options })
}

/// Returns the text that a subcommand is given under a name.
pub(crate) fn text_given(alloc: Global, given: &ArgMatches<'_>, name: &str) -> Result<Text, Refusal>
    ensures given { IfOk result (λ text. GivesText name.now (rows_of (found_of given.now)) text) }
    ensures slots { result ≢ Err Refusal.FewSlots }
    ensures bad { IfErr result (IfBad (LacksText name.now (rows_of (found_of given.now)))) }
{
    let Some(text) = given.get_str(name) else {
        return Err(bad_line(format!(in alloc; "error: {name} is needed\n")));
    };
    text_copy(alloc, text)
}

/// Returns the text that a subcommand is given under a name, if it is given one.
pub(crate) fn text_if_given(
    alloc: Global,
    given: &ArgMatches<'_>,
    name: &str,
) -> Result<Option<Text>, Refusal>
    ensures given { IfOk result (λ text. first_of name.now (rows_of (found_of given.now)) ≡ text) }
    ensures err { IfErr result (λ e. e ≡ Refusal.OutOfMemory) }
{
    let Some(text) = given.get_str(name) else {
        return Ok(None);
    };
    Ok(Some(text_copy(alloc, text)?))
}

/// Copies texts, in their order.
pub(crate) fn text_copies(alloc: Global, texts: &[&str]) -> Result<Vec<Text>, Refusal>
    ensures ok { IfOk result (λ copies. copies.items ≡ map (λ text. text.now) texts.now) }
    ensures err { IfErr result (λ e. e ≡ Refusal.OutOfMemory) }
{
    let mut copies = Vec::new(alloc);
    for text in texts {
        let Ok(()) = copies.push(text_copy(alloc, text)?) else {
            return Err(Refusal::OutOfMemory);
        };
    }
    Ok(copies)
}

/// Returns the refusal of a line that lacks its path.
fn no_path(alloc: Global) -> Refusal
    ensures { result ≢ Refusal.FewSlots }
{
    bad_line(String::from_str(alloc, "error: a path is needed\n"))
}

/// Returns the paths that a subcommand is given: the first, and the others in their order.
pub(crate) fn paths_given(
    alloc: Global,
    given: &ArgMatches<'_>,
) -> Result<(Text, Vec<Text>), Refusal>
    ensures given { IfOk result (λ paths. GivesPaths (rows_of (found_of given.now)) paths.0 paths.1.items) }
    ensures slots { result ≢ Err Refusal.FewSlots }
    ensures bad { IfErr result (IfBad (LacksText (codes "DIR") (rows_of (found_of given.now)))) }
{
    let Some(paths) = given.get_strs("DIR") else {
        return Err(no_path(alloc));
    };
    let [first, others @ ..] = paths else {
        return Err(no_path(alloc));
    };
    let more = text_copies(alloc, others)?;
    Ok((text_copy(alloc, first)?, more))
}

/// Returns whether a subcommand is given a flag.
pub(crate) fn flag_given(given: &ArgMatches<'_>, name: &str) -> bool
    ensures { GivesFlag name.now (rows_of (found_of given.now)) result }
{
    given.get_flag(name)
}

/// Returns the format in which a subcommand is to write.
pub(crate) fn format_given(given: &ArgMatches<'_>) -> Format
    ensures { GivesFormat (rows_of (found_of given.now)) result }
{
    if flag_given(given, "json") {
        Format::Json
    } else {
        Format::Text
    }
}

/// Returns the refusal of a line without a subcommand.
fn no_command(alloc: Global, name: &str) -> Refusal
    ensures { result ≢ Refusal.FewSlots }
{
    bad_line(format!(in alloc;
        "error: a command is needed\n\nUsage: {name} [COMMAND]\n\nFor more information, try '--help'.\n"
    ))
}

/// Returns the plan of the subcommand `replay`.
fn replay_given(alloc: Global, given: &ArgMatches<'_>) -> Result<Plan, Refusal>
    ensures limits { IfOk result IsWithinLimits }
    ensures given { IfOk result (IsGiven (codes "replay") (rows_of (found_of given.now))) }
    ensures slots { result ≢ Err Refusal.FewSlots }
    ensures bad { IfErr result (IfBad (LacksText (codes "DIR") (rows_of (found_of given.now)))) }
{
    let (dir, more) = paths_given(alloc, given)?;
    Ok(Plan::Replay {
        dir,
        more,
        options: options_given(given),
    })
}

/// Returns the plan of the subcommand `serve`.
fn service_given(alloc: Global, given: &ArgMatches<'_>) -> Result<Plan, Refusal>
    ensures limits { IfOk result IsWithinLimits }
    ensures given { IfOk result (IsGiven (codes "serve") (rows_of (found_of given.now))) }
    ensures few { result ≡ Err Refusal.FewSlots → GivesFewSlots (rows_of (found_of given.now)) }
    ensures bad { IfErr result (IfBad (LacksService (rows_of (found_of given.now)))) }
{
    let dir = text_given(alloc, given, "DIR")?;
    let options = ServeOptions::from_matches(alloc, given)?;
    let require_files = flag_given(given, "require-files");
    serve_plan(dir, options, require_files, flag_given(given, "progress"))
}

/// Returns the plan of the subcommand `work`.
fn work_given(alloc: Global, given: &ArgMatches<'_>) -> Result<Plan, Refusal>
    ensures limits { IfOk result IsWithinLimits }
    ensures given { IfOk result (IsGiven (codes "work") (rows_of (found_of given.now))) }
    ensures few { result ≡ Err Refusal.FewSlots → GivesFewWorkSlots (rows_of (found_of given.now)) }
    ensures bad { IfErr result (IfBad (LacksWork (rows_of (found_of given.now)))) }
{
    work_plan(WorkOptions::from_matches(alloc, given)?)
}

/// Returns the plan of a subcommand.
fn plan_of(alloc: Global, name: &str, given: &ArgMatches<'_>) -> Result<Plan, Refusal>
    ensures limits { IfOk result IsWithinLimits }
    ensures given { IfOk result (IsGiven name.now (rows_of (found_of given.now))) }
    ensures few { result ≡ Err Refusal.FewSlots → AsksFewSlots name.now (rows_of (found_of given.now)) }
    ensures bad { IfErr result (IfBad (IsBadGiven name.now (rows_of (found_of given.now)))) }
{
    match name {
        "replay" => replay_given(alloc, given),
        "explain" => explanation_given(alloc, given),
        "query" => query_given(alloc, given),
        "check" => check_given(alloc, given),
        "try" => trial_given(alloc, given),
        "serve" => service_given(alloc, given),
        "work" => work_given(alloc, given),
        _ => Err(bad_line(format!(in alloc; "error: {name} is no command\n"))),
    }
}

/// Returns the plan of a command line, whose first word is skipped. `Help` is returned only if the
/// line asks for the help or the version, every other plan only if `clap` accepts the line. Texts
/// call the program by `name`, and the help lists `types`, the registered workflow types, unless it
/// is empty.
///
/// Returns these refusals:
/// - `BadLine`, with what is wrong with the line, as it is shown. It is returned only if `clap`
///   finds a mistake, if the line names no subcommand, if it lacks a path or a name, if a number is
///   malformed or not within its limits, if there are too many workers together, if the name of a
///   Task Queue is empty, if tasks are selected twice, if a page is asked for together with another
///   format, selected tasks or more files, or if tasks are selected, a replay explained or a
///   scenario given with more files than one.
/// - `FewSlots`, only if the line gives numbers within their limits, with fewer slots than workers.
/// - `OutOfMemory`, if there is no memory to read the line.
pub fn parse<'a>(
    alloc: Global,
    name: &str,
    types: &str,
    words: &'a [String],
) -> Result<Plan, Refusal>
    ensures limits { IfOk result IsWithinLimits }
    ensures asked { IfOk result (IsAskedBy (map string_bytes words.entry.now)) }
    ensures few { result ≡ Err Refusal.FewSlots → HasFewSlots (map string_bytes words.entry.now) }
    ensures bad { IfErr result (IfBad (IsBadLine (map string_bytes words.entry.now))) }
{
    let helps = Helps::new(alloc, types)?;
    let command = command(alloc, name, &helps)?;
    let matches = match command.try_get_matches_from(words) {
        Ok(matches) => matches,
        Err(error) => return plan_or_refusal(alloc, &error),
    };
    let Some((subcommand, given)) = matches.subcommand() else {
        return Err(no_command(alloc, name));
    };
    plan_of(alloc, subcommand, given)
}
