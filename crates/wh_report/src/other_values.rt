//! Replays a file, and finds its values that differ from what it records.

ghost use Rattle.std.specs.Prelude.{◌≡◌, ◌≢◌, ◌≤◌, ℕ, List, IfErr, IfOk, Ok, [], length, map, true};
ghost use Rattle.serde_json.specs.View.{view};
ghost use Rattle.wh_explain.specs.Differences.{IsDifferenceIn};
ghost use Rattle.wh_explain.specs.Explaining.{AreTasksIn};
ghost use Rattle.wh_explain.specs.Reading.{IsReadOf};
ghost use Rattle.wh_json.specs.Events.{document_within, history, longest};
ghost use Rattle.wh_tester.specs.Report.{is_good};
ghost use Rattle.wh_tester.specs.Verdicts.{IsVerdict};
ghost use Rattle.wh_report.specs.OtherValues.{AreOtherValues, members_of, values_if};
ghost use Rattle.wh_report.specs.Private.Found.{IsFound};

use serde_json::Value;
use std::alloc::Global;
use wh_events::{Event, OutOfMemory};
use wh_explain::{ExplainedTask, Explanation, explain_read};
use wh_json::{ReadFault, events_in, read_document, read_members};
use wh_phrases::{OtherValue, values_in};
use wh_tester::{Verdict, is_good};
use wh_workflow::Workflow;

/// The values that differ of tasks, if the replay is good.
fn values_if(
    alloc: Global,
    verdict: &Verdict,
    members: &[Value],
    tasks: &[ExplainedTask],
) -> Result<Vec<OtherValue>, OutOfMemory>
    ensures values { IfOk result (λ values.
        values.items ≡ values_if (is_good verdict.now) (map view members.now) tasks.now) }
    ensures good { IfErr result (λ _. is_good verdict.now ≡ true) }
{
    if is_good(verdict) {
        values_in(alloc, members, tasks)
    } else {
        Ok(Vec::new(alloc))
    }
}

/// The explanation of a file with these members, with the values that differ of its tasks.
fn with_values(
    alloc: Global,
    members: &[Value],
    explanation: Explanation,
) -> Result<(Explanation, Vec<OtherValue>), OutOfMemory>
    ensures explanation { IfOk result (λ found. found.0 ≡ explanation) }
    ensures values { IfOk result (λ found.
        found.1.items ≡ values_if (is_good explanation.verdict) (map view members.now) explanation.tasks) }
    ensures good { IfErr result (λ _. is_good explanation.verdict ≡ true) }
{
    match values_if(
        alloc,
        &explanation.verdict,
        members,
        explanation.tasks.get(),
    ) {
        Ok(values) => Ok((explanation, values)),
        Err(full) => {
            drop(explanation);
            Err(full)
        }
    }
}

/// What the replay of a file with these members finds by what was read of it, and the values that
/// differ.
fn find_with<W: Workflow>(
    alloc: Global,
    members: &[Value],
    read: Result<Vec<Event>, ReadFault>,
) -> Result<(Explanation, Vec<OtherValue>), OutOfMemory>
    ensures found { (bytes : List ℕ) → IsReadOf bytes read → members_of (document_within bytes) ≡ map view members.now
        → IfOk result (λ found. IsFound W.program bytes found.0 found.1.items) }
    ensures memory { (bytes : List ℕ) → IsReadOf bytes read → IfErr result (λ _. length bytes ≤ longest) }
{
    let explanation = explain_read::<W>(alloc, read)?;
    with_values(alloc, members, explanation)
}

/// What the replay of a file with this document finds, and the values that differ.
fn find_in_document<W: Workflow>(
    alloc: Global,
    document: &Value,
) -> Result<(Explanation, Vec<OtherValue>), OutOfMemory>
    ensures found { (bytes : List ℕ) → document_within bytes ≡ Ok (view document.now)
        → IfOk result (λ found. IsFound W.program bytes found.0 found.1.items) }
    ensures memory { (bytes : List ℕ) → document_within bytes ≡ Ok (view document.now)
        → IfErr result (λ _. length bytes ≤ longest) }
{
    match events_in(document) {
        Some(members) => {
            let read = read_members(alloc, members);
            find_with::<W>(alloc, members, read)
        }
        None => find_with::<W>(alloc, &[], Err(ReadFault::NoEvents)),
    }
}

/// What the replay of a file finds, and the values that differ. It is parsed once.
fn find_in_bytes<W: Workflow>(
    alloc: Global,
    bytes: &[u8],
) -> Result<(Explanation, Vec<OtherValue>), OutOfMemory>
    ensures found { IfOk result (λ found. IsFound W.program bytes.now found.0 found.1.items) }
    ensures memory { IfErr result (λ _. length bytes.now ≤ longest) }
{
    match read_document(alloc, bytes) {
        Ok(document) => find_in_document::<W>(alloc, &document),
        Err(ReadFault::OutOfMemory) => Err(OutOfMemory),
        Err(fault) => find_with::<W>(alloc, &[], Err(fault)),
    }
}

/// Replays a history file with the code of `W`, and gives what `wh_explain::explain` finds, and the
/// values of a file whose replay is good that differ from what it records: inputs and results
/// by the encodings and the bytes of their payloads, durations of timers and messages of failures
/// by their texts. What the history lacks, or has in a form that can't be read, is not compared,
/// but for payloads that are absent, which are none. There are no such values of a file that is not
/// good.
///
/// The file is parsed once and its history is replayed once. `Verdict::OutOfMemory` can come in
/// place of every verdict but that of a file that is too long; then no values differ.
pub fn replay_with_values<W: Workflow>(
    alloc: Global,
    bytes: &[u8],
) -> (Explanation, Vec<OtherValue>)
    ensures verdict { IsVerdict W.program bytes.now result.0.verdict }
    ensures difference { result.0.verdict ≢ Verdict.OutOfMemory
        → IsDifferenceIn W.program bytes.now result.0.difference }
    ensures tasks { result.0.verdict ≢ Verdict.OutOfMemory
        → AreTasksIn W.program (history bytes.now) result.0.tasks }
    ensures values { result.0.verdict ≢ Verdict.OutOfMemory
        → AreOtherValues W.program bytes.now result.0.verdict result.1.items }
    ensures none { result.0.verdict ≡ Verdict.OutOfMemory → result.1.items ≡ [] }
{
    match find_in_bytes::<W>(alloc, bytes) {
        Ok(found) => found,
        Err(OutOfMemory) => {
            let explanation = Explanation::of_verdict(alloc, Verdict::OutOfMemory);
            (explanation, Vec::new(alloc))
        }
    }
}
