//! What a line of an overview of histories tells of a run.

ghost use Rattle.std.specs.Prelude.{◌≡◌, option_map};
ghost use Rattle.wh_view.specs.Runs.{closing_in};
ghost use Rattle.wh_view_report.specs.Run.{is_start};
ghost use Rattle.wh_explain_report.specs.RunFacts as facts;

use wh_events::EventKind;
use wh_view::{RunStatus, View, ViewedEvent, ViewedFailure};

/// Returns whether a run is open, or how it was closed, in words.
pub(crate) fn status_phrase(status: RunStatus) -> &'static str
    ensures { result.now ≡ facts.status_phrase status }
{
    match status {
        RunStatus::Running => "running",
        RunStatus::Completed => "completed",
        RunStatus::Failed => "failed",
        RunStatus::Canceled => "canceled",
        RunStatus::Terminated => "terminated",
        RunStatus::TimedOut => "timed out",
        RunStatus::ContinuedAsNew => "continued as new",
    }
}

/// Returns whether an event starts the run.
fn is_start(event: &ViewedEvent) -> bool
    ensures { result ≡ is_start event.now.read.kind }
{
    matches!(
        event.read.kind,
        Some(EventKind::WorkflowExecutionStarted { .. })
    )
}

/// Returns the event that starts a run, if its history begins with it.
fn start_of(events: &[ViewedEvent]) -> Option<&ViewedEvent>
    ensures { option_map (λ event. event.now) result ≡ facts.start_of events.now }
{
    let first = events.first()?;
    if is_start(first) { Some(first) } else { None }
}

/// Returns the workflow type of a run; empty if its history does not begin with its start.
pub(crate) fn start_type(events: &[ViewedEvent]) -> &str
    ensures { result.now ≡ facts.start_type events.now }
{
    match start_of(events) {
        Some(event) => event.type_name(),
        None => "",
    }
}

/// Returns when a run started, as its history writes it; empty if that does not begin with the
/// start of the run.
pub(crate) fn start_moment(events: &[ViewedEvent]) -> &str
    ensures { result.now ≡ facts.start_moment events.now }
{
    match start_of(events) {
        Some(event) => event.moment.get(),
        None => "",
    }
}

/// Returns the attempt of an activity that an event starts; 0 if it starts none.
fn attempt_of(event: &ViewedEvent) -> u64
    ensures { result ≡ facts.attempt_of event.now }
{
    match event.read.kind {
        Some(EventKind::ActivityTaskStarted { .. }) => event.attempt,
        _ => 0,
    }
}

/// Returns the highest attempt of an activity that events start; 0 if they start none.
pub(crate) fn most_attempts(events: &[ViewedEvent]) -> u64
    ensures { result ≡ facts.most_attempts events.now }
{
    let mut most = 0;
    for event in events {
        most = most.max(attempt_of(event));
    }
    most
}

/// Returns the failure that caused those before it.
fn innermost_failure(failures: &[ViewedFailure]) -> Option<&ViewedFailure>
    ensures { option_map (λ failure. failure.now) result ≡ facts.innermost_failure failures.now }
{
    failures.last()
}

/// Returns the type of the first cause for which an event closed a run; empty if it tells none.
fn type_at(event: &ViewedEvent) -> &str
    ensures { result.now ≡ facts.type_of (facts.innermost_failure event.now.details.failures) }
{
    match innermost_failure(event.details.failures.get()) {
        Some(failure) => failure.kind.get(),
        None => "",
    }
}

/// Returns the message of the first cause for which an event closed a run, or else the reason that
/// the event gives.
fn message_at(event: &ViewedEvent) -> &str
    ensures { result.now ≡ facts.message_of (facts.innermost_failure event.now.details.failures) event.now.failure }
{
    match innermost_failure(event.details.failures.get()) {
        Some(failure) => failure.message.get(),
        None => event.failure.get(),
    }
}

/// Returns the type of the first cause for which a run was closed; empty if none is told.
pub(crate) fn cause_type(view: &View) -> &str
    ensures { result.now ≡ facts.cause_type (closing_in view.now.events) }
{
    match view.closing_event() {
        Some(event) => type_at(event),
        None => "",
    }
}

/// Returns the message of the first cause for which a run was closed; empty if none is told.
pub(crate) fn cause_message(view: &View) -> &str
    ensures { result.now ≡ facts.cause_message (closing_in view.now.events) }
{
    match view.closing_event() {
        Some(event) => message_at(event),
        None => "",
    }
}
