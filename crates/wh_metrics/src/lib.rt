//! What the workers of a host count, as texts: a line in words, a line of JSON, and the text that
//! Prometheus reads (Prometheus documentation, "Exposition formats", "Text-based format").
#![tactic(auto)]

mod exposition;
mod labels;
mod lines;
mod metrics;
mod times;

pub use exposition::Exposition;
pub use labels::WorkerLabels;
pub use lines::{CountsLine, JsonLine};
pub use metrics::{Gauges, Metrics, TaskSlots, TaskTimes};
