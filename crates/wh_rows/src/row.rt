//! The types of a table and of its rows.

use crate::state_name::StateName;
use wh_events::{Items, Payload, Text};

/// Where an input or a result comes from.
#[derive(Clone, Copy)]
pub enum Source {
    /// No payloads.
    Nothing,
    /// The input of the run.
    Input,
    /// The payloads of the job: the input of the start or of a signal, or the result of an activity
    /// or a child workflow that completed. Other jobs carry none.
    Brought,
    /// The payloads that a row kept last by `Keep`. None before that.
    Kept,
}

/// The jobs that a row is for. A text is an id, or the name of a signal; `@` is the name of the
/// run.
#[derive(Drop)]
pub enum JobPattern<T> {
    /// The run starts.
    Start,
    /// A signal of this name.
    Signal(T),
    /// Cancellation of the run is requested.
    CancelRequested,
    /// The activity with this id completed.
    Done(T),
    /// The activity with this id failed, timed out or was canceled.
    NotDone(T),
    /// The timer with this id fired.
    Fired(T),
    /// The child workflow with this workflow id started.
    ChildStarted(T),
    /// The child workflow with this workflow id completed.
    ChildDone(T),
    /// The child workflow with this workflow id was canceled.
    ChildCanceled(T),
    /// The child workflow with this workflow id ended without completing: it failed, was canceled
    /// or ended in another way.
    ChildNotDone(T),
    /// This is the version of the change.
    Version(T, i32),
    /// There is a version of the change, whichever it is.
    AnyVersion(T),
}

/// A counter of a run. It starts at 0, and effects raise it no further than its bound.
#[derive(Clone, Copy)]
pub enum Counter {
    /// The first one.
    A,
    /// The second one.
    B,
    /// The third one.
    C,
    /// The fourth one.
    D,
}

/// A condition of a row on a counter.
#[derive(Clone, Copy)]
pub enum Condition {
    /// The counter is below this number.
    Below(Counter, u64),
    /// The counter is at least this number.
    AtLeast(Counter, u64),
}

/// What a row changes besides giving commands. A flag is a counter with the bound 1.
#[derive(Clone, Copy)]
pub enum RowEffect {
    /// Raises a counter by one, unless it is at its bound.
    Up(Counter),
    /// Sets the counter to 0.
    Zero(Counter),
    /// Keeps the payloads of the job.
    Keep,
}

/// A command that a row gives. An id `@` is the name of the run.
#[derive(Drop)]
pub enum CommandTemplate<T> {
    /// Starts an activity: id, type, input.
    StartActivity(T, T, Source),
    /// Requests the cancellation of the activity with this id.
    CancelActivity(T),
    /// Starts a timer: id, duration in seconds.
    StartTimer(T, u64),
    /// Cancels the timer with this id.
    CancelTimer(T),
    /// Starts a child workflow: workflow id, type, input.
    StartChild(T, T, Source),
    /// Requests the cancellation of the child workflow with this workflow id.
    CancelChild(T),
    /// Signals another workflow: workflow id, signal, input.
    SignalExternal(T, T, Source),
    /// Asks for the version of a change (GetVersion): change id, least version, greatest version.
    Ask(T, i32, i32),
    /// Completes the run with a result.
    Complete(Source),
    /// Fails the run with this message.
    Fail(T),
    /// Closes the run as canceled.
    Cancel,
    /// Continues the run as a new one: type, input.
    ContinueAsNew(T, Source),
}

/// A row: in this state, at this job, if these conditions hold, it gives these commands and leads
/// to that state. It is generic in the types of a text and a list: a table of the program borrows
/// them, a table that is read from a file owns them. It has no lifetime parameter, since proofs
/// can't name the constants of a type that has one.
#[derive(Drop)]
pub struct RowOf<T, C, G, E> {
    /// The state that it is for; `any` is each state of a run that is not closed.
    pub state: T,
    /// The jobs that it is for.
    pub job: JobPattern<T>,
    /// The conditions, which must all hold.
    pub conditions: C,
    /// The commands, in their order. Only the last one may ask for a version or close the run.
    pub gives: G,
    /// The effects, in their order.
    pub effects: E,
    /// The state after it, or `same`. If the row closes the run, only the query `state` shows it.
    pub next: T,
}

/// A row of a table of the program.
pub type Row = RowOf<
    &'static str,
    &'static [Condition],
    &'static [CommandTemplate<&'static str>],
    &'static [RowEffect],
>;

/// How runs are named: what `@` in a row stands for.
#[derive(Drop)]
pub enum Naming<T> {
    /// The name is empty.
    Nameless,
    /// The name is the prefix and the text of a payload of the start's input, counted from 0, that
    /// is a plain JSON string. If there is no such payload, it is the other name. A string with an
    /// escape (a backslash) is not plain, since only a JSON library reads it.
    ByPayload(usize, T, T),
}

/// A workflow: its type, the state that a run begins in, and its rows. The first row that fits
/// applies.
pub struct DefinitionOf<T, R> {
    /// The workflow type.
    pub kind: T,
    /// The state that a run begins in.
    pub first: T,
    /// How its runs are named.
    pub name: Naming<T>,
    /// The bound of each counter, 0 for one that is not used. No condition compares with a number
    /// above it, so it does not change what a table does.
    pub bounds: Counters,
    /// The rows.
    pub rows: R,
}

/// A table of the program.
pub type Definition = DefinitionOf<&'static str, &'static [Row]>;

/// A value for each counter.
#[derive(Clone, Copy)]
pub struct Counters {
    /// The value of the first one.
    pub a: u64,
    /// The value of the second one.
    pub b: u64,
    /// The value of the third one.
    pub c: u64,
    /// The value of the fourth one.
    pub d: u64,
}

/// Counters that are all 0: those with which a run begins, and the bounds of a table that uses no
/// counter.
pub const UNCOUNTED: Counters = Counters {
    a: 0,
    b: 0,
    c: 0,
    d: 0,
};

/// The state of a run that follows a table.
#[derive(Drop)]
pub struct RowsState {
    /// The name of the state that the run is in.
    pub at: StateName,
    /// Whether the run is closed.
    pub closed: bool,
    /// The name of the run, which `@` stands for.
    pub name: Text,
    /// The input of the run.
    pub input: Items<Payload>,
    /// The payloads that a row kept last.
    pub kept: Items<Payload>,
    /// The counters.
    pub counts: Counters,
}
