//! The program: it does what its command line asks for, and ends with a status.

ghost use Rattle.std.specs.Prelude.{◌≡◌, ◌≤◌, map, string_bytes};
ghost use Rattle.std.specs.Process.{exit_status};
ghost use Rattle.wh_cli.specs.Private.Commands.{IsUndone, Obeys};
ghost use Rattle.wh_work.specs.Plans.{MayServe, lives};
ghost use Rattle.wh_slots.specs.Sizes.{IsConfig};
ghost use Rattle.wh_diagnostics.specs.Answers.{Answers, AskForNothing};

use crate::commands::obey;
use std::io::Write;
use std::process::ExitCode;
use std::rt::Runtime;
use std::sync::Wait;
use std::thread::Threads;
use wh_console::{Console, ErrorPrinter};
use wh_crew::LiveEnd;
use wh_diagnostics::{UNCALLED, fail, fail_under, output, plan, program_name, words};
use wh_events::OutOfMemory;
use wh_rpc::Caller;
use wh_tasks::HeartbeatHandler;
use wh_work::{FileReplacer, LivePlan, serve_calls};
use wh_workflow::Queryable;

/// Does what the words of the command line ask for, or reports why there is no full report, and
/// returns the status.
fn answer<
    W: Queryable + Send,
    R: Runtime + AllocGlobal + Threads + Wait + Sync,
    O: Write,
    E: Write,
    F: FnOnce(LivePlan) -> Result<LiveEnd, OutOfMemory>,
>(rt: &R, types: &str, words: &[String], live: F, console: &mut Console<'_, O, E>) -> u8
where
    R::File: Send,
    R::Dir: Send,
    F: Drop,
    requires { MayServe (F.pre live) }
    ensures { Answers (Obeys W.program W.queries (lives (F.post live)) types.now) (IsUndone W.program)
        (map string_bytes words.now) console.old console.new result }
{
    match plan(rt.alloc(), types, words) {
        Ok(plan) => match obey::<W, R, O, E, F>(rt, types, plan, live, console) {
            Ok(status) => status,
            Err(failure) => fail(failure, console),
        },
        Err(failure) => fail(failure, console),
    }
}

/// Does what the words of the command line ask for, with the standard streams, and returns the
/// status.
fn run_words<
    W: Queryable + Send,
    R: Runtime + AllocGlobal + Threads + Wait + Sync,
    F: FnOnce(LivePlan) -> Result<LiveEnd, OutOfMemory>,
>(rt: &R, types: &str, words: &[String], live: F) -> u8
where
    R::File: Send,
    R::Dir: Send,
    F: Drop,
    requires { MayServe (F.pre live) }
    ensures documented { result ≤ 3 }
    ensures refused { AskForNothing (map string_bytes words.now) → result ≡ 2 }
{
    let name = program_name(words);
    match output(rt) {
        Ok(output) => {
            let mut console = Console::new(name, output, ErrorPrinter::new(rt));
            answer::<W, R, _, _, F>(rt, types, words, live, &mut console)
        }
        Err(failure) => fail_under(rt, name, failure),
    }
}

/// Runs the program under its arguments, and returns the status.
fn run_over<
    W: Queryable + Send,
    R: Runtime + AllocGlobal + FileReplacer + Threads + Wait + Sync,
    C: Caller + Sync,
    L: FnOnce() -> bool,
    B: HeartbeatHandler + Send + Drop,
    M: Fn() -> B,
>(rt: &R, types: &str, words: &[String], calls: &C, listen: L, make: M) -> u8
where
    R::File: Send,
    R::Dir: Send,
    L: Drop,
    M: Drop,
    requires listens { L.IsAlwaysCallable listen }
    requires makes { M.IsAlwaysCallable make }
    ensures documented { result ≤ 3 }
    ensures refused { AskForNothing (map string_bytes words.now) → result ≡ 2 }
{
    let name = program_name(words);
    let live = |plan: LivePlan| -> Result<LiveEnd, OutOfMemory>
        requires sizes { IsConfig plan.config }
        requires listens { L.IsAlwaysCallable listen }
        requires makes { M.IsAlwaysCallable make }
    { serve_calls::<W, R, C, L, B, M>(rt, name, calls, listen, &make, plan) };
    run_words::<W, R, _>(rt, types, words, live)
}

/// Runs the program for the workflows of a type: it does what the arguments ask for, writes the
/// report to the standard output and, if there is no full report, why to the standard error, and
/// returns the status. It does not report that the standard output is a closed pipe.
///
/// The help lists `types`, the registered workflow types, as `Nap, Greet`, and so does what is
/// reported of a file that has another one. If they are empty they are not listed.
///
/// Lines on the standard error begin with the name by which the program was called: the last part
/// of its first word, or `wfhost` if there is none.
///
/// Live tasks are asked for and answered over the calls. Before the first of them `listen` is
/// called, which has to start a thread that reads the other end by `read_input`, and says whether
/// it could; that thread is not waited for. `make` makes the handler of each worker, which runs
/// activities and may send heartbeats while it does: a `WithoutHeartbeat`, if it sends none.
///
/// The status is one of the documented ones, 0 to 3.
pub fn run_with_types<
    W: Queryable + Send,
    R: Runtime + AllocGlobal + Threads + Wait + Sync,
    C: Caller + Sync,
    L: FnOnce() -> bool,
    B: HeartbeatHandler + Send + Drop,
    M: Fn() -> B,
>(rt: &R, types: &str, calls: &C, listen: L, make: M) -> ExitCode
where
    R::File: Send,
    R::Dir: Send,
    L: Drop,
    M: Drop,
    requires listens { L.IsAlwaysCallable listen }
    requires makes { M.IsAlwaysCallable make }
    ensures { exit_status result ≤ 3 }
{
    let words = match words(rt) {
        Ok(words) => words,
        Err(failure) => return ExitCode::from(fail_under(rt, UNCALLED, failure)),
    };
    ExitCode::from(run_over::<W, R, C, L, B, M>(rt, types, words.as_slice(), calls, listen, make))
}
