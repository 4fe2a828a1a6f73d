//! What holds of each request that is handed on, and of what is kept for it, each law as the
//! contract of a function that does nothing.

ghost use Rattle.wh_payload_metadata.specs.Laws.{EachPayloadGoesOn, HeaderGoesOn, HeaderGoesOnLast, MetadataGoOn, NothingElseChanges};
ghost use Rattle.wh_payload_metadata.specs.Laws.{LastEventSets, NothingElseSets, EachFieldGoesOn};
ghost use Rattle.wh_payload_metadata.specs.Laws.{OpenRunsStay, RunsStayUntilTaken, FailuresEndNoRun};

/// A payload that was seen, and goes out with the same data and encoding, has all the metadata that
/// it came with, unless metadata came later with the same data.
pub fn metadata_go_on()
    ensures { MetadataGoOn }
{}

/// Each payload of a request that is handed on has the metadata that were seen of it, and none is
/// added or left out.
pub fn each_payload_goes_on()
    ensures { EachPayloadGoesOn }
{}

/// A field of a run's header has the value that the last event in the history gives it, of the
/// start and the signals that came, however often and in whatever order they came. A field that
/// none of them brings is not set. The header that goes out has the fields that are set, and no
/// other.
pub fn last_fields_go_on()
    ensures last { LastEventSets }
    ensures nothing_else { NothingElseSets }
    ensures each { EachFieldGoesOn }
{}

/// Each command of a request that takes a header has that of the run, and it changes no payload:
/// what is handed on with it is what is handed on without it, but for these headers.
pub fn header_goes_on()
    ensures header { HeaderGoesOn }
    ensures last { HeaderGoesOnLast }
{}

/// A request that is handed on differs from what it was only in metadata beside the encoding of
/// payloads, and in the headers of commands that schedule an activity or start a child.
pub fn nothing_else_changes()
    ensures { NothingElseChanges }
{}

/// What is kept of runs stays until the server takes an answer that closes one of them: an answer
/// that closes none, fails a task, comes late or is lost forgets nothing of a run.
pub fn open_runs_stay()
    ensures unclosed { OpenRunsStay }
    ensures taken { RunsStayUntilTaken }
    ensures failures { FailuresEndNoRun }
{}
