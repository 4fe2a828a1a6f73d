//! The program `wfhost` with the commands of tables alone.
#![tactic(auto)]

ghost use Rattle.std.specs.Prelude.{◌≡◌, IfErr, IfOk, map, string_bytes};
ghost use Rattle.wfhost_tables.specs.Commands.{IsUndone, Obeys};
ghost use Rattle.wh_diagnostics.specs.Answers.{Answers, AskForNothing};

use std::io::Write;
use std::process::ExitCode;
use std::rt::Runtime;
use wh_command_line::Plan;
use wh_console::{Console, ErrorPrinter};
use wh_diagnostics::{
    Failure, UNCALLED, fail, fail_under, lack, output, plan, print, program_name, words,
};
use wh_sample_workflows::types;
use wh_table_commands::{check_paths, picture_path, try_paths};

/// What the commands are called.
const COMMANDS: &str = "the commands check and try";

/// Does what a plan asks for, and returns the status, or why there is no full report. If the
/// program lacks the command, it reports which it has.
fn obey<R: Runtime + AllocGlobal, O: Write, E: Write>(
    rt: &R,
    plan: Plan,
    console: &mut Console<'_, O, E>,
) -> Result<u8, Failure>
    ensures obeys { IfOk result (Obeys plan console.old console.new) }
    ensures stopped { IfErr result (IsUndone plan console.old console.new) }
{
    match plan {
        Plan::Check { file, more, format } => {
            check_paths::<R, O, E>(rt, file, more, format, console)
        }
        Plan::Picture { file } => picture_path::<R, O, E>(rt, file, console),
        Plan::Try {
            file,
            more,
            scenario,
            format,
        } => try_paths::<R, O, E>(rt, file, more, scenario, format, console),
        Plan::Help { text } => print(text.get(), console),
        other => {
            drop(other);
            Ok(lack(COMMANDS, console))
        }
    }
}

/// Does what the words of the command line ask for, or reports why there is no full report, and
/// returns the status.
fn answer<R: Runtime + AllocGlobal, O: Write, E: Write>(
    rt: &R,
    types: &str,
    words: &[String],
    console: &mut Console<'_, O, E>,
) -> u8
    ensures { Answers Obeys IsUndone (map string_bytes words.now)
        console.old console.new result }
{
    match plan(rt.alloc(), types, words) {
        Ok(plan) => match obey::<R, O, E>(rt, plan, console) {
            Ok(status) => status,
            Err(failure) => fail(failure, console),
        },
        Err(failure) => fail(failure, console),
    }
}

/// Does what the words of the command line ask for, with the standard streams, and returns the
/// status.
fn run_words<R: Runtime + AllocGlobal>(rt: &R, words: &[String]) -> u8
    ensures { AskForNothing (map string_bytes words.now) → result ≡ 2 }
{
    let name = program_name(words);
    match output(rt) {
        Ok(output) => {
            let mut console = Console::new(name, output, ErrorPrinter::new(rt));
            answer::<R, _, _>(rt, types(), words, &mut console)
        }
        Err(failure) => fail_under(rt, name, failure),
    }
}

fn main(rt: HostRuntime) -> ExitCode {
    let status = match words(&rt) {
        Ok(words) => run_words::<HostRuntime>(&rt, words.as_slice()),
        Err(failure) => fail_under(&rt, UNCALLED, failure),
    };
    ExitCode::from(status)
}
