//! Counts histories whose two replays are compared.
use crate::lookups::same_lookups;
use crate::replay::{check, copy_of};
use std::alloc::Global;
use wh_events::{Event, OutOfMemory};
use wh_replay::{Fault, ReplayedTasks, RunFault};
use wh_workflow::Workflow;

/// How many histories were compared, and the results of both replays.
#[derive(Clone, Copy)]
pub(crate) struct Counts {
    /// All histories.
    pub(crate) histories: u64,
    /// Those with the same result of both replays and, if they are in place, the same look-ups.
    pub(crate) alike: u64,
    /// Those that replay.
    pub(crate) good: u64,
    /// Those with a fault of place.
    pub(crate) misplaced: u64,
    /// Those with an invalid command, or whose workflow type is not registered.
    pub(crate) faulty: u64,
    /// Those whose commands differ from a record.
    pub(crate) different: u64,
}

impl Counts {
    /// Nothing was compared.
    pub(crate) fn new() -> Self {
        Counts {
            histories: 0,
            alike: 0,
            good: 0,
            misplaced: 0,
            faulty: 0,
            different: 0,
        }
    }

    /// The count that the answer belongs to.
    fn count_of(&mut self, answer: Result<ReplayedTasks, RunFault>) -> &mut u64 {
        match answer {
            Ok(_) => &mut self.good,
            Err(RunFault::Fault(Fault::Place { .. })) => &mut self.misplaced,
            Err(RunFault::Fault(Fault::Workflow { .. })) => &mut self.faulty,
            Err(RunFault::Fault(Fault::Mismatch { .. })) => &mut self.different,
            Err(_) => &mut self.histories,
        }
    }
}

/// Compares the results of both replays of a history, and counts it.
pub(crate) fn compare<W: Workflow>(
    alloc: Global,
    events: &[Event],
    counts: &mut Counts,
) -> Result<(), OutOfMemory> {
    let answer = wh_replay::replay_history::<W>(alloc, copy_of(alloc, events)?);
    let same = check::<W>(alloc, events) == answer;
    counts.histories = counts.histories.saturating_add(1);
    let is_misplaced = matches!(answer, Err(RunFault::Fault(Fault::Place { .. })));
    if same && (is_misplaced || same_lookups(alloc, events)) {
        counts.alike = counts.alike.saturating_add(1);
    }
    let count = counts.count_of(answer);
    *count = count.saturating_add(1);
    Ok(())
}

/// Compares the results of both replays of each beginning of a history.
pub(crate) fn compare_all<W: Workflow>(
    alloc: Global,
    events: &[Event],
    counts: &mut Counts,
) -> Result<(), OutOfMemory> {
    for end in 0..=events.len() {
        compare::<W>(alloc, &events[..end], counts)?;
    }
    Ok(())
}
