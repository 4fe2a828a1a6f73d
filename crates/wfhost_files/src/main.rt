//! The program `wfhost` with the commands of histories `explain` and `query` alone.
#![tactic(auto)]

ghost use Rattle.std.specs.Prelude.{◌≡◌, IfErr, IfOk, map, string_bytes};
ghost use Rattle.wfhost_files.specs.Commands.{IsUndone, Obeys};
ghost use Rattle.wh_diagnostics.specs.Answers.{Answers, AskForNothing};

use std::io::Write;
use std::process::ExitCode;
use std::rt::Runtime;
use wh_command_line::Plan;
use wh_console::{Console, ErrorPrinter};
use wh_diagnostics::{
    Failure, UNCALLED, fail, fail_under, lack, output, plan, print, program_name, words,
};
use wh_file_commands::{explain_path, page_path, query_path, view_paths};
use wh_sample_workflows::{Registered, types};
use wh_workflow::Queryable;

/// What the commands are called.
const COMMANDS: &str = "the commands explain and query";

/// Does what a plan asks for, and returns the status, or why there is no full report. If the
/// program lacks the command, it reports which it has.
fn obey<W: Queryable, R: Runtime + AllocGlobal, O: Write, E: Write>(
    rt: &R,
    types: &str,
    plan: Plan,
    console: &mut Console<'_, O, E>,
) -> Result<u8, Failure>
    ensures obeys { IfOk result (Obeys W.program W.queries types.now plan console.old console.new) }
    ensures stopped { IfErr result (IsUndone plan console.old console.new) }
{
    match plan {
        Plan::Explain {
            file,
            selection,
            format,
        } => explain_path::<W, R, O, E>(rt, file, selection, format, console),
        Plan::Page {
            file,
            only_recorded,
        } => page_path::<W, R, O, E>(rt, file, only_recorded, console),
        Plan::View {
            file,
            more,
            selection,
            format,
        } => view_paths::<R, O, E>(rt, file, more, selection, format, console),
        Plan::Query {
            file,
            query_type,
            input,
            format,
        } => query_path::<W, R, O, E>(rt, file, query_type, input, format, types, console),
        Plan::Help { text } => print(text.get(), console),
        other => {
            drop(other);
            Ok(lack(COMMANDS, console))
        }
    }
}

/// Does what the words of the command line ask for, or reports why there is no full report, and
/// returns the status.
fn answer<W: Queryable, R: Runtime + AllocGlobal, O: Write, E: Write>(
    rt: &R,
    types: &str,
    words: &[String],
    console: &mut Console<'_, O, E>,
) -> u8
    ensures { Answers (Obeys W.program W.queries types.now) IsUndone (map string_bytes words.now)
        console.old console.new result }
{
    match plan(rt.alloc(), types, words) {
        Ok(plan) => match obey::<W, R, O, E>(rt, types, plan, console) {
            Ok(status) => status,
            Err(failure) => fail(failure, console),
        },
        Err(failure) => fail(failure, console),
    }
}

/// Does what the words of the command line ask for, with the standard streams, and returns the
/// status.
fn run_words<W: Queryable, R: Runtime + AllocGlobal>(rt: &R, words: &[String]) -> u8
    ensures { AskForNothing (map string_bytes words.now) → result ≡ 2 }
{
    let name = program_name(words);
    match output(rt) {
        Ok(output) => {
            let mut console = Console::new(name, output, ErrorPrinter::new(rt));
            answer::<W, R, _, _>(rt, types(), words, &mut console)
        }
        Err(failure) => fail_under(rt, name, failure),
    }
}

fn main(rt: HostRuntime) -> ExitCode {
    let status = match words(&rt) {
        Ok(words) => run_words::<Registered, HostRuntime>(&rt, words.as_slice()),
        Err(failure) => fail_under(&rt, UNCALLED, failure),
    };
    ExitCode::from(status)
}
