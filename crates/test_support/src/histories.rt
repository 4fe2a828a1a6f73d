//! Histories in short words, for tests: each word is an event, and the history is read as JSON.

use std::alloc::{AllocError, Global};
use wh_events::{Event, RunKey, Text};
use wh_json::read_events;

/// Why words are not a history.
#[derive(Debug, Drop)]
pub enum HistoryFault {
    /// A word is not one of an event.
    BadWord,
    /// The text to be replaced is missing.
    BadChange,
    /// The reader refuses the JSON of the words.
    Unreadable,
    OutOfMemory,
}

impl From<AllocError> for HistoryFault {
    fn from(_error: AllocError) -> HistoryFault {
        HistoryFault::OutOfMemory
    }
}

/// The form of each event: its short word, its type, and its attributes. `$1` and `$2` are replaced
/// by the words after its colons, and `'` by a quotation mark.
const FORMS: &str = "\
start WorkflowExecutionStarted ,'workflowExecutionStartedEventAttributes':{'workflowType':{'name':'$1'}}
S WorkflowTaskScheduled
T WorkflowTaskStarted
C WorkflowTaskCompleted
task_failed WorkflowTaskFailed
task_timed_out WorkflowTaskTimedOut
activity ActivityTaskScheduled ,'activityTaskScheduledEventAttributes':{'activityId':'$1','activityType':{'name':'$2'}}
activity_cancel ActivityTaskCancelRequested ,'activityTaskCancelRequestedEventAttributes':{'scheduledEventId':'$1'}
activity_started ActivityTaskStarted ,'activityTaskStartedEventAttributes':{'scheduledEventId':'$1'}
activity_completed ActivityTaskCompleted ,'activityTaskCompletedEventAttributes':{'scheduledEventId':'$1'}
activity_failed ActivityTaskFailed ,'activityTaskFailedEventAttributes':{'scheduledEventId':'$1'}
activity_timed_out ActivityTaskTimedOut ,'activityTaskTimedOutEventAttributes':{'scheduledEventId':'$1'}
activity_canceled ActivityTaskCanceled ,'activityTaskCanceledEventAttributes':{'scheduledEventId':'$1'}
timer TimerStarted ,'timerStartedEventAttributes':{'timerId':'$1'}
timer_canceled TimerCanceled ,'timerCanceledEventAttributes':{'startedEventId':'$1'}
timer_fired TimerFired ,'timerFiredEventAttributes':{'startedEventId':'$1'}
child StartChildWorkflowExecutionInitiated ,'startChildWorkflowExecutionInitiatedEventAttributes':{'workflowId':'$1','workflowType':{'name':'$2'}}
child_started ChildWorkflowExecutionStarted ,'childWorkflowExecutionStartedEventAttributes':{'initiatedEventId':'$1'}
child_completed ChildWorkflowExecutionCompleted ,'childWorkflowExecutionCompletedEventAttributes':{'initiatedEventId':'$1'}
child_failed ChildWorkflowExecutionFailed ,'childWorkflowExecutionFailedEventAttributes':{'initiatedEventId':'$1'}
child_canceled ChildWorkflowExecutionCanceled ,'childWorkflowExecutionCanceledEventAttributes':{'initiatedEventId':'$1'}
child_timed_out ChildWorkflowExecutionTimedOut ,'childWorkflowExecutionTimedOutEventAttributes':{'initiatedEventId':'$1'}
child_terminated ChildWorkflowExecutionTerminated ,'childWorkflowExecutionTerminatedEventAttributes':{'initiatedEventId':'$1'}
child_refused StartChildWorkflowExecutionFailed ,'startChildWorkflowExecutionFailedEventAttributes':{'initiatedEventId':'$1'}
cancel_child RequestCancelExternalWorkflowExecutionInitiated ,'requestCancelExternalWorkflowExecutionInitiatedEventAttributes':{'workflowExecution':{'workflowId':'$1'}}
cancel_sent ExternalWorkflowExecutionCancelRequested ,'externalWorkflowExecutionCancelRequestedEventAttributes':{'initiatedEventId':'$1'}
cancel_failed RequestCancelExternalWorkflowExecutionFailed ,'requestCancelExternalWorkflowExecutionFailedEventAttributes':{'initiatedEventId':'$1'}
external SignalExternalWorkflowExecutionInitiated ,'signalExternalWorkflowExecutionInitiatedEventAttributes':{'workflowExecution':{'workflowId':'$1'},'signalName':'$2'}
external_sent ExternalWorkflowExecutionSignaled ,'externalWorkflowExecutionSignaledEventAttributes':{'initiatedEventId':'$1'}
external_failed SignalExternalWorkflowExecutionFailed ,'signalExternalWorkflowExecutionFailedEventAttributes':{'initiatedEventId':'$1'}
chg_marker MarkerRecorded ,'markerRecordedEventAttributes':{'markerName':'Version','details':{'change-id':{'payloads':[{'metadata':{'encoding':'anNvbi9wbGFpbg=='},'data':'ImNoZyI='}]},'version':{'payloads':[{'metadata':{'encoding':'anNvbi9wbGFpbg=='},'data':'$1'}]}}}
oth_marker MarkerRecorded ,'markerRecordedEventAttributes':{'markerName':'Version','details':{'change-id':{'payloads':[{'data':'Im90aCI='}]},'version':{'payloads':[{'data':'$1'}]}}}
marker MarkerRecorded ,'markerRecordedEventAttributes':{'markerName':'$1'}
signal WorkflowExecutionSignaled ,'workflowExecutionSignaledEventAttributes':{'signalName':'$1'}
cancel_requested WorkflowExecutionCancelRequested
completed WorkflowExecutionCompleted
failed WorkflowExecutionFailed
canceled WorkflowExecutionCanceled
continued WorkflowExecutionContinuedAsNew
timed_out WorkflowExecutionTimedOut
terminated WorkflowExecutionTerminated
attributes_upserted UpsertWorkflowSearchAttributes
properties_modified WorkflowPropertiesModified
unknown EVENT_TYPE_SOMETHING_NEW
ignored EVENT_TYPE_SOMETHING_NEW ,'workerMayIgnore':true
";

/// Histories by name. `nap/3` is the first three events of `nap`.
const HISTORIES: &str = "\
nap start:Nap S T C timer:nap timer_fired:5 S T C completed
greet start:Greet S T C activity:1:greet activity_started:5 activity_completed:5 S T C completed
branch start:Branch S T C activity:1:old activity_started:5 activity_completed:5 S T C completed
family start:Family S T C child:kid:Nap child_started:5 S T C child_completed:5 S T C completed
racer start:Racer S T C activity:1:race timer:t timer_fired:6 S T C activity_cancel:5 activity_canceled:5 timer:u S T C timer_fired:13 S T C completed
late start:Racer S T C activity:1:race timer:t activity_started:5 timer_fired:6 activity_completed:5 S T
caller start:Caller S T C external:other:go external_sent:5 S T C completed
";

/// Returns the text after a name in a list with a line for each name.
fn line_named(lines: &'static str, name: &str) -> Option<&'static str> {
    for line in lines.lines() {
        let (first, rest) = line.split_once(' ').unwrap_or((line, ""));
        if first == name {
            return Some(rest);
        }
    }
    None
}

/// Returns a word without the number after a sign in it, and that number, if there is one.
fn counted(
    word: &'static str,
    sign: &str,
    otherwise: usize,
) -> Result<(&'static str, usize), HistoryFault> {
    let Some((word, count)) = word.split_once(sign) else {
        return Ok((word, otherwise));
    };
    match count.parse::<usize>() {
        Ok(count) => Ok((word, count)),
        Err(_) => Err(HistoryFault::BadWord),
    }
}

fn push_word(words: &mut Vec<&'static str>, word: &'static str) -> Result<(), HistoryFault> {
    match words.push(word) {
        Ok(()) => Ok(()),
        Err(_) => Err(HistoryFault::OutOfMemory),
    }
}

/// Adds the first events of a history, as many as there are up to a number.
fn push_first(
    words: &mut Vec<&'static str>,
    history: &'static str,
    count: usize,
) -> Result<(), HistoryFault> {
    for event in history.split_whitespace().take(count) {
        push_word(words, event)?;
    }
    Ok(())
}

/// Adds one event as many times as its word says after `*`.
fn push_times(words: &mut Vec<&'static str>, word: &'static str) -> Result<(), HistoryFault> {
    let (event, times) = counted(word, "*", 1)?;
    for _ in 0..times {
        push_word(words, event)?;
    }
    Ok(())
}

/// Adds the events that a word stands for: those of a history with that name, as many as it says
/// after `/`, or one event as many times as it says after `*`.
fn push_events(words: &mut Vec<&'static str>, word: &'static str) -> Result<(), HistoryFault> {
    let (name, count) = counted(word, "/", usize::MAX)?;
    match line_named(HISTORIES, name) {
        Some(history) => push_first(words, history, count),
        None => push_times(words, word),
    }
}

/// Returns the short words of a history, one for each event.
fn words_of(alloc: Global, history: &'static str) -> Result<Vec<&'static str>, HistoryFault> {
    let mut words = Vec::new(alloc);
    for word in history.split_whitespace() {
        push_events(&mut words, word)?;
    }
    Ok(words)
}

/// Returns a form with these texts instead of `$1` and `$2`.
fn filled(alloc: Global, form: &str, first: &str, second: &str) -> Result<String, AllocError> {
    let half = form.replace(alloc, "$1", first)?;
    let filled = half.as_str().replace(alloc, "$2", second);
    drop(half);
    filled
}

/// Adds an event in JSON by its form, with `'` instead of quotation marks.
fn push_form(
    alloc: Global,
    text: &mut String,
    number: usize,
    form: &str,
) -> Result<(), AllocError> {
    let (kind, rest) = form.split_once(' ').unwrap_or((form, ""));
    let minute = number / 60 % 60;
    let second = number % 60;
    let event = format!(in alloc;
        "{{'eventId':'{number}','eventTime':'2024-05-01T10:{minute:02}:{second:02}Z','eventType':'{kind}'{rest}}}"
    )?;
    let pushed = text.push_str(event.as_str());
    drop(event);
    pushed
}

/// Adds an event in JSON, with `'` instead of quotation marks.
fn push_event(
    alloc: Global,
    text: &mut String,
    number: usize,
    word: &str,
) -> Result<(), HistoryFault> {
    let (short, given) = word.split_once(':').unwrap_or((word, ""));
    let (first, second) = given.split_once(':').unwrap_or((given, ""));
    let Some(form) = line_named(FORMS, short) else {
        return Err(HistoryFault::BadWord);
    };
    let form = filled(alloc, form, first, second)?;
    let pushed = push_form(alloc, text, number, form.as_str());
    drop(form);
    Ok(pushed?)
}

/// Adds events in JSON, with `'` instead of quotation marks, and the end of their list.
fn push_each(alloc: Global, text: &mut String, words: &[&'static str]) -> Result<(), HistoryFault> {
    for (place, word) in words.iter().enumerate() {
        text.push_str(if place == 0 { "" } else { ",\n" })?;
        push_event(alloc, text, place + 1, word)?;
    }
    Ok(text.push_str("]")?)
}

/// Returns events in JSON, with `'` instead of quotation marks.
fn events_text(alloc: Global, words: &[&'static str]) -> Result<String, HistoryFault> {
    let mut text = String::from_str(alloc, "[")?;
    let pushed = push_each(alloc, &mut text, words);
    pushed.and(Ok(text))
}

/// Returns the events of a history in JSON, with `'` instead of quotation marks.
fn text_of(alloc: Global, history: &'static str) -> Result<String, HistoryFault> {
    let words = words_of(alloc, history)?;
    let text = events_text(alloc, words.as_slice());
    drop(words);
    text
}

/// Returns a text with a change, which is written as the old text, `->` and the new one.
fn changed(alloc: Global, text: &str, change: &str) -> Result<String, HistoryFault> {
    match change.split_once(" -> ") {
        Some((old, new)) if text.contains(old) => Ok(text.replace(alloc, old, new)?),
        _ => Err(HistoryFault::BadChange),
    }
}

/// Returns the events of a history with its changes, with `'` instead of quotation marks.
fn changed_text(alloc: Global, history: &'static str) -> Result<String, HistoryFault> {
    let mut parts = history.split(" | ");
    let mut text = text_of(alloc, parts.next().unwrap_or(""))?;
    for change in parts {
        text = changed(alloc, text.as_str(), change)?;
    }
    Ok(text)
}

/// Returns a history as JSON. After the events it may have changes of that text, each after a `|`.
pub fn json(alloc: Global, history: &'static str) -> Result<String, HistoryFault> {
    let text = changed_text(alloc, history)?;
    let json = text.as_str().replace(alloc, "'", "\"");
    drop(text);
    Ok(json?)
}

/// Returns the events of a JSON text.
fn read(alloc: Global, text: &str) -> Result<Vec<Event>, HistoryFault> {
    match read_events(alloc, text.as_bytes()) {
        Ok(events) => Ok(events),
        Err(fault) => {
            drop(fault);
            Err(HistoryFault::Unreadable)
        }
    }
}

/// Returns the events of a history; none if it is empty.
pub fn events(alloc: Global, history: &'static str) -> Result<Vec<Event>, HistoryFault> {
    if history.is_empty() {
        return Ok(Vec::new(alloc));
    }
    let text = json(alloc, history)?;
    let events = read(alloc, text.as_str());
    drop(text);
    events
}

/// Keeps the first events, so many, and returns the later ones.
fn split_after(events: &mut Vec<Event>, after: usize) -> Result<Vec<Event>, HistoryFault> {
    if events.len() < after {
        return Err(HistoryFault::BadWord);
    }
    Ok(events.split_off(after)?)
}

/// Returns the events of a history after so many, or after as many as the history says itself:
/// those of `nap/8 after 3` are events 4 to 8 of `nap`.
pub fn events_after(
    alloc: Global,
    history: &'static str,
    otherwise: usize,
) -> Result<Vec<Event>, HistoryFault> {
    let (history, after) = counted(history, " after ", otherwise)?;
    let mut all = events(alloc, history)?;
    let later = split_after(&mut all, after);
    drop(all);
    later
}

/// Returns the key of a run by its workflow id.
pub fn key(alloc: Global, workflow_id: &str) -> Result<RunKey, HistoryFault> {
    Ok(RunKey {
        workflow_id: Text::new(String::from_str(alloc, workflow_id)?),
        run_id: Text::new(String::from_str(alloc, "recorded")?),
    })
}
