//! Live work: what options ask for, the workers that serve tasks over the calls of a server, and
//! what is reported of them.
#![tactic(auto)]

mod calls;
mod counting;
pub mod laws;
mod metrics_file;
mod metrics_path;
mod plan;
mod policies;
mod policy_faults;
mod progress;
mod report;
mod sources;
mod turns;
mod untaken;
mod watch;
mod workers;

pub use calls::calls_over;
pub use metrics_file::{FileReplacer, ReplaceFault};
pub use metrics_path::Obstacle;
pub use plan::{LivePlan, live_plan};
pub use policies::{BadPolicies, PlanFault};
pub use policy_faults::PolicyFaultText;
pub use report::{LiveReport, live_status};
pub use workers::serve_calls;
