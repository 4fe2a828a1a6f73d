//! Tests of the libraries that replay histories, from the events to the runs, and of those that serve
//! tasks, from the slots to the workers, by their public calls: what no contract says. And the source
//! that fails in a chosen call, to test what hosts do then.
#![tactic(auto)]

mod faulty_source;
#[cfg(test)]
mod tests;

pub use faulty_source::FaultySource;
