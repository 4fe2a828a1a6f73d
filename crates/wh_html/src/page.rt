//! What a page shows.

ghost use Rattle.std.specs.Prelude.{◌≡◌};
ghost use Rattle.wh_html.specs.Words.{kind_word, outcome_class, side_word};

use wh_events::{Items, Text};

/// An event and its time.
#[derive(Clone, Copy)]
pub struct Moment {
    /// The number of the event.
    pub event: u64,
    /// Milliseconds from 1970-01-01T00:00:00Z. A time after the year 9999 is shown as the end of
    /// that year.
    pub millis: u64,
}

/// The kind of a thing.
#[derive(Clone, Copy)]
pub enum Kind {
    /// An activity.
    Activity,
    /// A timer.
    Timer,
    /// A child workflow.
    Child,
    /// A signal that the run received.
    Signal,
    /// A request to another workflow.
    Request,
    /// A marker.
    Marker,
}

/// The outcome of a thing.
#[derive(Clone, Copy)]
pub enum ThingOutcome {
    /// It has not ended.
    Open,
    /// It ended as intended.
    Done,
    /// It failed, timed out or was terminated.
    Failed,
    /// It was canceled.
    Canceled,
}

/// How a thing stands in its row of the picture.
#[derive(Clone, Copy)]
pub enum RowPart {
    /// As the only one of which the row tells.
    Alone,
    /// As the first that is drawn there, in a row that tells of several.
    First {
        /// Of how many things of the run the row tells, whether they are drawn or not.
        things: usize,
        /// How many of these are drawn.
        drawn: usize,
        /// How many of all these failed.
        failed: usize,
        /// How many of all these are open.
        pending: usize,
    },
    /// As a later one that is drawn there.
    Later,
}

/// A thing that a run opened: a bar or a dot of the picture, and a row of the table.
#[derive(Drop)]
pub struct Lane {
    /// Its kind.
    pub kind: Kind,
    /// Its id, or another name.
    pub name: Text,
    /// Its type, if it has one.
    pub type_name: Option<Text>,
    /// The event that opened it.
    pub opened: Moment,
    /// The event that started it, if there is one.
    pub started: Option<Moment>,
    /// The event that requested its cancellation, if there is one.
    pub cancelling: Option<Moment>,
    /// The event that ended it; `None` while it is open, and if the event that opened it also ended
    /// it.
    pub ended: Option<Moment>,
    /// How long it waited for its start, in words; `None` if it has not started, or that is not
    /// known.
    pub waited: Option<Text>,
    /// How long it took, in words: from its start to its end, or from its opening if it was not
    /// started; `None` if it has not ended, or that is not known.
    pub took: Option<Text>,
    /// Its outcome.
    pub outcome: ThingOutcome,
    /// Its outcome in words: `completed`, or the text of its failure.
    pub words: Text,
    /// How often it was attempted, if the history has that.
    pub attempts: Option<u64>,
    /// The row of the picture in which it stands, counted from 0.
    pub row: usize,
    /// How it stands there.
    pub part: RowPart,
}

/// The longest of some times.
#[derive(Drop)]
pub struct Longest {
    /// The time in words: `19 min 33 s`.
    pub words: Text,
    /// The number of the event that opened what took so long.
    pub event: u64,
}

/// What the things of a type come to.
#[derive(Drop)]
pub struct SumOfType {
    /// Their kind, and their type if they have one: `activity ChargeCard`, `timer`.
    pub name: Text,
    /// How many there are.
    pub times: usize,
    /// How many of them failed.
    pub failed: usize,
    /// How many of them are open.
    pub pending: usize,
    /// The median of their times, in words; `None` if no time is known.
    pub median: Option<Text>,
    /// The longest of their times; `None` if no time is known.
    pub longest: Option<Longest>,
}

/// Which side a line of a task belongs to.
#[derive(Clone, Copy)]
pub enum Side {
    /// The workflow was activated with it.
    Told,
    /// It is a command of the workflow.
    Gives,
    /// The history records it.
    Recorded,
    /// It has the fault.
    Fault,
    /// It is a note on the task.
    Note,
}

/// A line of a task.
#[derive(Drop)]
pub struct TaskLine {
    /// Its side.
    pub side: Side,
    /// The number of the event that it is about, if there is one.
    pub event: Option<u64>,
    /// Its text.
    pub text: Text,
    /// The stack traces of the failure that it tells of, line by line; no lines if there are none.
    pub trace: Items<Text>,
}

/// A workflow task.
#[derive(Drop)]
pub struct Task {
    /// Its heading.
    pub heading: Text,
    /// The event that started it.
    pub started: Moment,
    /// Its lines.
    pub lines: Items<TaskLine>,
    /// Whether it is the one with the fault.
    pub faulty: bool,
}

/// A name and a value, such as the workflow type.
#[derive(Drop)]
pub struct Fact {
    /// The name, such as `Run id`.
    pub name: Text,
    /// The value.
    pub value: Text,
}

/// Where the code and the history differ.
#[derive(Drop)]
pub struct Difference {
    /// The number of the event at which they differ, if there is one.
    pub event: Option<u64>,
    /// What the code gives.
    pub code: Text,
    /// What the history has.
    pub history: Text,
}

/// What a page shows.
#[derive(Drop)]
pub struct Page {
    /// The title of the page: the file, or the run.
    pub title: Text,
    /// The verdict, in words.
    pub verdict: Text,
    /// Whether the verdict is good; `None` if nothing was replayed.
    pub good: Option<bool>,
    /// The workflow type, ids, counts and the like.
    pub facts: Items<Fact>,
    /// What an open run waits for, in words; nothing if the run is closed.
    pub waits: Items<Text>,
    /// The first difference, if there is one.
    pub difference: Option<Difference>,
    /// The event of the fault, if there is one.
    pub fault: Option<Moment>,
    /// The things that the page shows, in the order of the events that opened them.
    pub lanes: Items<Lane>,
    /// How many rows of the picture they have.
    pub rows: usize,
    /// How many things the run opened in all.
    pub things: usize,
    /// What the things of each type come to, whether they are shown or not.
    pub sums: Items<SumOfType>,
    /// The tasks that the page shows, in the order of the events that started them.
    pub tasks: Items<Task>,
    /// How many tasks are left out before them.
    pub earlier: usize,
    /// How many tasks the run has in all.
    pub all_tasks: usize,
    /// What else a reader has to know, such as what is not supported.
    pub notes: Items<Text>,
}

impl Kind {
    /// Returns the kind in words.
    pub fn word(self) -> &'static str
        ensures { result.now ≡ kind_word self }
    {
        match self {
            Kind::Activity => "activity",
            Kind::Timer => "timer",
            Kind::Child => "child",
            Kind::Signal => "signal",
            Kind::Request => "request",
            Kind::Marker => "marker",
        }
    }
}

impl ThingOutcome {
    /// Returns its class in the style sheet.
    pub fn class(self) -> &'static str
        ensures { result.now ≡ outcome_class self }
    {
        match self {
            ThingOutcome::Open => "open",
            ThingOutcome::Done => "done",
            ThingOutcome::Failed => "failed",
            ThingOutcome::Canceled => "canceled",
        }
    }
}

impl Side {
    /// Returns the side in a word.
    pub fn word(self) -> &'static str
        ensures { result.now ≡ side_word self }
    {
        match self {
            Side::Told => "told",
            Side::Gives => "gives",
            Side::Recorded => "recorded",
            Side::Fault => "fault",
            Side::Note => "note",
        }
    }
}
