//! Tasks: the sources that deliver them and take their answers, activity handlers, and the replay
//! of a workflow task.
//!
//! Handlers of activities send heartbeats while their activity runs, and get a response to each. One
//! that comes soon after another is held, and sent later. Through them a handler also learns which
//! attempt it is, and what an earlier one told last.
#![tactic(auto)]

mod activity_info;
mod cell;
mod failure;
mod handler;
mod heartbeat;
pub mod laws;
mod pace;
mod source;
mod task;
mod with_heartbeat;
mod without_heartbeat;

pub use activity_info::{ActivityInfo, ActivityTimes};
pub use cell::{ActivityCell, HeartbeatStep};
pub use failure::ActivityFailure;
pub use handler::{ActivityHandler, NoActivities};
pub use heartbeat::{Heartbeat, HeartbeatResponse, NoHeartbeat};
pub use source::{
    Acceptance, ActivityAnswer, ActivityTask, Polled, RunUse, Sent, SourceFault, TaskSource,
    WorkflowTask,
};
pub use task::{StepFault, Stepped, last_number, replay_task};
pub use with_heartbeat::{HeartbeatHandler, WithHeartbeat};
pub use without_heartbeat::WithoutHeartbeat;
