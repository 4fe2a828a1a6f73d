//! Explanations of histories.

use std::alloc::Global;
use wh_events::Items;
use wh_explained_tasks::{ExplainedTask, Pairing};
use wh_tester::Verdict;

/// How much of a replay is kept.
#[derive(Clone, Copy)]
pub(crate) enum DetailLevel {
    /// The verdict, and the difference that the replay stops at.
    Verdict,
    /// Each task with the steps of its activation.
    Steps,
}

/// What the replay of a history file finds.
#[derive(Drop)]
pub struct Explanation {
    /// The verdict on the file. Its fault, if there is one, has the place.
    pub verdict: Verdict,
    /// The command and the event that differ, if the replay stops at a difference.
    pub difference: Option<Pairing>,
    /// The tasks in their order, up to the first that has a fault.
    pub tasks: Items<ExplainedTask>,
}

impl Explanation {
    ghost use Rattle.std.specs.Prelude.{◌≡◌, [], None};

    /// Returns an explanation with nothing but a verdict.
    pub fn of_verdict(alloc: Global, verdict: Verdict) -> Explanation
        ensures { result ≡ record { verdict = verdict; difference = None; tasks = [] } }
    {
        Explanation {
            verdict,
            difference: None,
            tasks: Items::new(Vec::new(alloc)),
        }
    }
}
