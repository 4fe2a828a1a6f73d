//! Laws of the host as a machine, over its definitions alone.
ghost use Rattle.wh_host.specs.Machine.{StepsKeepHosts, StepsAreCounted};

use wh_workflow::Workflow;

/// Every list of steps from an opening state in which only replayed runs are given back leads to a
/// state for which `IsHost` holds. The books of every list of steps count its accepted uses, and
/// its accepted finishes by outcome.
pub fn runs_of_steps<W: Workflow>()
    ensures keeps { StepsKeepHosts W.program }
    ensures counts { StepsAreCounted }
{}
