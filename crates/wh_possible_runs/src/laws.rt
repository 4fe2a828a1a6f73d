//! What holds for the runs of tables that a server can make. Each law is the contract of a function
//! without a body.
ghost use Rattle.wh_possible_runs.specs.PossibleRuns.{IsStuckFree};
ghost use Rattle.wh_possible_runs.specs.Rules.{FollowsRules, ActsAsRules, FaultsAreSeen};
ghost use Rattle.wh_possible_runs.specs.Shown.{ShownIsStuckFree, names_of};

use crate::stuck_free::StuckFree;

/// No run of it that a server can make has a command at fault.
pub fn never_gets_stuck<T: StuckFree>()
    ensures { IsStuckFree T.table (names_of T.table) }
{}

/// If a list of configurations has the first ones and each that a job or the next task leads to,
/// and none of them is at fault, no run that a server can make has a command at fault.
pub fn shown_tables_never_get_stuck()
    ensures { ShownIsStuckFree }
{}

/// The state machine of each thing says what the rules of `wh_workflow` say: which command is at
/// fault, and what a command without a fault makes of the thing.
pub fn machines_follow_rules()
    ensures { FollowsRules }
{}

/// The commands of an activation have a fault by the rules of `wh_workflow` exactly if they have one
/// as a run sees them; if they have none, its things stay what the rules say.
pub fn activations_act_as_rules()
    ensures acts { ActsAsRules }
    ensures sees { FaultsAreSeen }
{}
