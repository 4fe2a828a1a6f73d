//! Each plan, and the command that carries it out.

ghost use Rattle.std.specs.Prelude.{◌≡◌, IfErr, IfOk};
ghost use Rattle.wh_cli.specs.Private.Commands.{HasWorked, IsPlanFailure, IsUndone, IsWorkFailure, Obeys};
ghost use Rattle.wh_command_line.specs.Options.{IsWithinLimits, IsWithinWorkLimits};
ghost use Rattle.wh_work.specs.Plans.{MayServe, lives};

use std::alloc::Global;
use std::io::Write;
use std::rt::{Files, Runtime};
use std::sync::Wait;
use std::thread::Threads;
use wh_command_line::{Plan, WorkOptions};
use wh_console::Console;
use wh_crew::LiveEnd;
use wh_diagnostics::{Failure, print};
use wh_events::{OutOfMemory, Text};
use wh_file_commands::{explain_path, page_path, query_path, view_paths};
use wh_replay_command::replay_paths;
use wh_service_command::serve_folder;
use wh_table_commands::{check_paths, picture_path, try_paths};
use wh_work::{
    BadPolicies, LivePlan, LiveReport, PlanFault, PolicyFaultText, live_plan, live_status,
};
use wh_workflow::Queryable;

/// Returns that a file gives no policies, and why not, in words. `OutOfMemory` if there is no
/// memory for these.
fn refuse_policies(alloc: Global, bad: BadPolicies) -> Failure
    ensures { IsPlanFailure (PlanFault.BadPolicies bad) result }
{
    let BadPolicies { path, fault } = bad;
    let words = PolicyFaultText(&fault);
    match format!(in alloc; "{words}") {
        Ok(words) => Failure::BadPolicies {
            file: path,
            why: Text::new(words),
        },
        Err(_refused) => Failure::OutOfMemory,
    }
}

/// Returns why there is no full report, from why there is no plan to serve live tasks.
fn failure_of(alloc: Global, fault: PlanFault) -> Failure
    ensures { IsPlanFailure fault result }
{
    match fault {
        PlanFault::Unread { fault } => Failure::from(fault),
        PlanFault::BadPolicies { bad } => refuse_policies(alloc, bad),
        PlanFault::BadMetrics { text } => Failure::BadLine { text },
        PlanFault::OutOfMemory => Failure::OutOfMemory,
    }
}

/// Serves live tasks as options ask for, reports how they ended, and gives the status.
#[tactic(auto, using(crate::proofs::Failing::work_failed, crate::proofs::Failing::work_full))]
fn work<
    R: Files + AllocGlobal,
    F: FnOnce(LivePlan) -> Result<LiveEnd, OutOfMemory>,
    O: Write,
    E: Write,
>(rt: &R, options: WorkOptions, live: F, console: &mut Console<'_, O, E>) -> Result<u8, Failure>
where
    F: Drop,
    requires limits { IsWithinWorkLimits options }
    requires serves { MayServe (F.pre live) }
    ensures worked { IfOk result (HasWorked (lives (F.post live)) options console.old console.new) }
    ensures stopped { IfErr result (λ _. console.new ≡ console.old) }
    ensures why { IfErr result (IsWorkFailure options) }
{
    let plan = match live_plan(rt, options) {
        Ok(plan) => plan,
        Err(fault) => {
            drop(live);
            return Err(failure_of(rt.alloc(), fault));
        }
    };
    let format = plan.format;
    let Ok(end) = live(plan) else {
        return Err(Failure::OutOfMemory);
    };
    let status = live_status(&end);
    console.report(LiveReport { end, format });
    Ok(status)
}

/// Does what is asked for, and returns the status, or why there is none. `types` are the registered
/// workflow types.
pub(crate) fn obey<
    W: Queryable + Send,
    R: Runtime + AllocGlobal + Threads + Wait + Sync,
    O: Write,
    E: Write,
    F: FnOnce(LivePlan) -> Result<LiveEnd, OutOfMemory>,
>(rt: &R, types: &str, plan: Plan, live: F, console: &mut Console<'_, O, E>) -> Result<u8, Failure>
where
    R::File: Send,
    R::Dir: Send,
    F: Drop,
    requires limits { IsWithinLimits plan }
    requires serves { MayServe (F.pre live) }
    ensures obeys { IfOk result
        (Obeys W.program W.queries (lives (F.post live)) types.now plan console.old console.new) }
    ensures stopped { IfErr result (IsUndone W.program plan console.old console.new) }
{
    match plan {
        Plan::Replay { dir, more, options } => {
            replay_paths::<W, R, O, E>(rt, dir, more, options, types, console)
        }
        Plan::Explain {
            file,
            selection,
            format,
        } => explain_path::<W, R, O, E>(rt, file, selection, format, console),
        Plan::Page {
            file,
            only_recorded,
        } => page_path::<W, R, O, E>(rt, file, only_recorded, console),
        Plan::View {
            file,
            more,
            selection,
            format,
        } => view_paths::<R, O, E>(rt, file, more, selection, format, console),
        Plan::Query {
            file,
            query_type,
            input,
            format,
        } => query_path::<W, R, O, E>(rt, file, query_type, input, format, types, console),
        Plan::Check { file, more, format } => {
            check_paths::<R, O, E>(rt, file, more, format, console)
        }
        Plan::Picture { file } => picture_path::<R, O, E>(rt, file, console),
        Plan::Try {
            file,
            more,
            scenario,
            format,
        } => try_paths::<R, O, E>(rt, file, more, scenario, format, console),
        Plan::Serve {
            dir,
            options,
            require_files,
            progress,
        } => serve_folder::<W, R, O, E>(rt, dir, options, require_files, progress, types, console),
        Plan::Work { options } => work::<R, F, O, E>(rt, options, live, console),
        Plan::Help { text } => print(text.get(), console),
    }
}
