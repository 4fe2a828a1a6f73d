//! How options ask to serve live tasks.

ghost use Rattle.std.specs.Prelude.{◌≡◌, IfErr, IfOk};
ghost use Rattle.wh_command_line.specs.Options.{IsWithinWorkLimits};
ghost use Rattle.wh_slots.specs.Sizes.{IsConfig};
ghost use Rattle.wh_work.specs.Plans.{IsLivePlan, keeps_runs, live_config, sticky_of};
ghost use Rattle.wh_work.specs.Policies.{ArePolicies, IsPlanFault};

use crate::metrics_path::metrics_fault;
use crate::policies::{PlanFault, policies_of};
use std::alloc::Global;
use std::rt::Files;
use wh_client::LiveOptions;
use wh_command_line::WorkOptions;
use wh_commands::WorkerNames;
use wh_console::Format;
use wh_events::{OutOfMemory, Text};
use wh_host::Config;
use wh_policies::Policies;

/// How live tasks are served.
#[derive(Drop)]
pub struct LivePlan {
    /// The sizes of the host.
    pub config: Config,
    /// What the workers poll, and what they say of themselves and of their tasks.
    pub options: LiveOptions,
    /// How many of the workers poll for workflow tasks.
    pub workers: u64,
    /// After how many seconds each the counts are reported, if they are.
    pub stats: Option<u64>,
    /// In which form the counts are reported.
    pub format: Format,
    /// The file in which the counts are kept, if they are.
    pub metrics: Option<Text>,
}

/// Whether runs are kept between their tasks. The tasks of such runs are polled by workers of their
/// own, so one worker keeps none.
fn keeps_runs(options: &WorkOptions) -> bool
    ensures { result ≡ keeps_runs options.now }
{
    1 <= options.cache && 2 <= options.workers
}

/// The sizes of the host.
fn live_config(options: &WorkOptions) -> Config
    requires { IsWithinWorkLimits options.now }
    ensures config { IsConfig result }
    ensures asked { result ≡ live_config options.now }
{
    let config = options.config();
    if keeps_runs(options) {
        config
    } else {
        Config { cache: 0, ..config }
    }
}

/// How many seconds a task waits in the sticky queue, if there is one.
fn sticky_of(options: &WorkOptions) -> Option<u32>
    requires { IsWithinWorkLimits options.now }
    ensures { result ≡ sticky_of options.now }
{
    if keeps_runs(options) {
        Some(options.sticky_timeout as u32)
    } else {
        None
    }
}

/// The plan of options with these policies.
fn plan_with(
    alloc: Global,
    options: WorkOptions,
    policies: Policies,
) -> Result<LivePlan, OutOfMemory>
    requires limits { IsWithinWorkLimits options }
    requires policies { ArePolicies options policies }
    ensures config { IfOk result (λ plan. IsConfig plan.config) }
    ensures asked { IfOk result (IsLivePlan options) }
{
    let config = live_config(&options);
    let sticky = sticky_of(&options);
    let WorkOptions {
        task_queue,
        namespace,
        identity,
        workers,
        verbose,
        stats,
        format,
        metrics,
        ..
    } = options;
    let names = WorkerNames::new(
        alloc,
        namespace.into_inner(),
        task_queue.into_inner(),
        identity.into_inner(),
    )?;
    let options = LiveOptions {
        names,
        policies,
        sticky,
        verbose,
    };
    Ok(LivePlan {
        config,
        options,
        workers,
        stats,
        format,
        metrics,
    })
}

/// How options ask to serve live tasks, if counts can be kept where they say.
fn plan_of<R: Files + AllocGlobal>(rt: &R, options: WorkOptions) -> Result<LivePlan, PlanFault>
    requires { IsWithinWorkLimits options }
    ensures config { IfOk result (λ plan. IsConfig plan.config) }
    ensures asked { IfOk result (IsLivePlan options) }
    ensures fault { IfErr result (IsPlanFault options.metrics) }
{
    let policies = match policies_of(rt, &options) {
        Ok(policies) => policies,
        Err(fault) => {
            drop(options);
            return Err(fault);
        }
    };
    match plan_with(rt.alloc(), options, policies) {
        Ok(plan) => Ok(plan),
        Err(OutOfMemory) => Err(PlanFault::OutOfMemory),
    }
}

/// How options ask to serve live tasks: by a host with a seat for each worker, and with a cache if
/// tasks of cached runs come by a sticky queue. Nothing is read but what is at the path of the
/// counts and beside it, and the file of the policies, if the options name them.
///
/// `BadMetrics` if a link, a folder or something else that is no regular file is at the path of the
/// counts, or at that with `.tmp` behind it, at which they are written first. Otherwise `Unread` if
/// the file of the policies can't be read, `BadPolicies` if it is too long, no UTF-8, no TOML, or
/// has a key that is not known or a bad value. `OutOfMemory` if there was no memory.
pub fn live_plan<R: Files + AllocGlobal>(
    rt: &R,
    options: WorkOptions,
) -> Result<LivePlan, PlanFault>
    requires { IsWithinWorkLimits options }
    ensures config { IfOk result (λ plan. IsConfig plan.config) }
    ensures asked { IfOk result (IsLivePlan options) }
    ensures fault { IfErr result (IsPlanFault options.metrics) }
{
    match metrics_fault(rt, &options) {
        Some(fault) => {
            drop(options);
            Err(fault)
        }
        None => plan_of(rt, options),
    }
}
