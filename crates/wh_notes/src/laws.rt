//! What is counted adds up, and how long waits are, each law as the contract of a function that does
//! nothing.

ghost use Rattle.wh_notes.specs.Laws.{AnswersAddUp, AnswersCountOnce, CountsAreOfNotes, PollsAddUp};
ghost use Rattle.wh_notes.specs.Waits.{WaitsDouble};

/// Each answer that a source notes counts under exactly one outcome: the server took it, and its
/// task is timed by its kind, or it is not found, invalid or lost, or it was never sent. So the
/// counts of all outcomes are as many as the answers. Each poll that is noted is empty, or gave a
/// task, or failed.
pub fn notes_add_up()
    ensures once { AnswersCountOnce }
    ensures counts { CountsAreOfNotes }
    ensures answers { AnswersAddUp }
    ensures polls { PollsAddUp }
{}

/// The waits between polls that fail in a row double, from a tenth of a second to ten seconds.
pub fn waits_are_said()
    ensures { WaitsDouble }
{}
