//! What the replay of a history file finds: its verdict, the command and the event that differ, and
//! its tasks.
ghost use Rattle.std.specs.Prelude.{◌≡◌, ◌≢◌, ◌≤◌, ℕ, List, [], None, Ok, length, true, IfOk, IfErr, IsSome};
ghost use Rattle.wh_json.specs.Events.{longest};
ghost use Rattle.wh_json.specs.declared.fault.ReadFault.TheVariants.{OutOfMemory as ReadMemory};
ghost use Rattle.wh_replay.specs.Replays.{workflow_of};
ghost use Rattle.wh_replay.specs.declared.fault.Fault.TheVariants.{Mismatch as Mismatched};
ghost use Rattle.wh_workflow.specs.declared.fault.Mismatch.{Mismatch};
ghost use Rattle.wh_tester.specs.Verdicts.{IsVerdict};
ghost use Rattle.wh_explain.specs.Differences.{IsDifferenceIn, if_differs, last_difference, last_of};
ghost use Rattle.wh_tester.specs.UnknownTypes.{unknown_placed};
ghost use Rattle.wh_explain.specs.Reading.{IsExplanationIn, IsReadOf};
ghost use Rattle.wh_explain.specs.Private.Findings.{IsFoundIn, IsFoundOf, IsFoundPlaced};

use crate::explanation::{DetailLevel, Explanation};
use crate::pairing::differs;
use crate::walk::walk_tasks;
use std::alloc::Global;
use wh_events::{Event, Items, OutOfMemory};
use wh_explained_tasks::{Ending, ExplainedTask, Pairing};
use wh_json::{ReadFault, read_events};
use wh_machines::Track;
use wh_replay::{RunFault, start, track_of, workflow_of};
use wh_tester::{Verdict, unknown_type};
use wh_workflow::Workflow;

/// Copies the last pairing, if the command differs from the record in it.
fn last_differing(pairings: &[Pairing]) -> Result<Option<Pairing>, OutOfMemory>
    ensures { IfOk result (λ found. found ≡ if_differs (last_of pairings.now)) }
{
    let Some(pairing) = pairings.last() else {
        return Ok(None);
    };
    if differs(pairing) {
        Ok(Some(pairing.try_copy()?))
    } else {
        Ok(None)
    }
}

/// Copies the difference that the last of the tasks ends in, if it does.
fn last_difference(tasks: &[ExplainedTask]) -> Result<Option<Pairing>, OutOfMemory>
    ensures { IfOk result (λ found. found ≡ last_difference tasks.now) }
{
    let Some(task) = tasks.last() else {
        return Ok(None);
    };
    match &task.ending {
        Ending::Recorded { pairings } => last_differing(pairings.get()),
        Ending::Refused | Ending::Live { .. } => Ok(None),
    }
}

/// Returns the explanation of a history with these tasks, which have this verdict.
fn explanation_of(verdict: Verdict, tasks: Vec<ExplainedTask>) -> Result<Explanation, OutOfMemory>
    ensures { IfOk result (λ own. own ≡ record {
      verdict = verdict;
      difference = last_difference tasks.items;
      tasks = tasks.items;
    }) }
{
    let difference = last_difference(tasks.as_slice())?;
    Ok(Explanation {
        verdict,
        difference,
        tasks: Items::new(tasks),
    })
}

/// Returns the explanation of a history whose events are in place and whose workflow type is
/// registered.
fn find_with_code<W: Workflow>(
    alloc: Global,
    detail: DetailLevel,
    track: &Track,
) -> Result<Explanation, OutOfMemory>
    requires { W.program.knows (workflow_of track.now) ≡ true }
    ensures { IfOk result (IsFoundPlaced detail W.program (Ok track.now)) }
{
    let kind = workflow_of(track.events());
    let first = start::<W>(alloc, kind)?;
    let mut tasks = Vec::new(alloc);
    match walk_tasks::<W>(alloc, detail, track, first, &mut tasks) {
        Ok(replayed_tasks) => explanation_of(Verdict::Good(replayed_tasks), tasks),
        Err(RunFault::Fault(fault)) => explanation_of(Verdict::Faulty(fault), tasks),
        Err(RunFault::OutOfMemory) => Err(OutOfMemory),
    }
}

/// Returns the explanation of a history whose events are in place. There are no tasks if its
/// workflow type is not registered.
fn find_in_track<W: Workflow>(
    alloc: Global,
    detail: DetailLevel,
    track: &Track,
) -> Result<Explanation, OutOfMemory>
    ensures { IfOk result (IsFoundPlaced detail W.program (Ok track.now)) }
{
    match unknown_type::<W>(alloc, track) {
        Ok(Some(kind)) => Ok(Explanation::of_verdict(alloc, Verdict::NoCode { kind })),
        Ok(None) => find_with_code::<W>(alloc, detail, track),
        Err(full) => Err(full),
    }
}

/// Returns the explanation of a history. There are no tasks if its events are not in place, or if
/// its workflow type is not registered.
fn find_in_events<W: Workflow>(
    alloc: Global,
    detail: DetailLevel,
    events: Vec<Event>,
) -> Result<Explanation, OutOfMemory>
    ensures { IfOk result (IsFoundOf detail W.program events.items) }
{
    match track_of(alloc, events) {
        Ok(track) => find_in_track::<W>(alloc, detail, &track),
        Err(RunFault::OutOfMemory) => Err(OutOfMemory),
        Err(RunFault::Fault(fault)) => Ok(Explanation::of_verdict(alloc, Verdict::Faulty(fault))),
    }
}

/// Returns the explanation of a file that can't be read, if there was memory to read it.
fn explanation_by(alloc: Global, fault: ReadFault) -> Result<Explanation, OutOfMemory>
    ensures exact { IfOk result (λ own.
        own ≡ record { verdict = Verdict.Unreadable fault; difference = None; tasks = [] }) }
    ensures known { IfOk result (λ _. fault ≢ ReadMemory) }
    ensures memory { IfErr result (λ _. fault ≡ ReadMemory) }
{
    match fault {
        ReadFault::OutOfMemory => Err(OutOfMemory),
        fault => Ok(Explanation::of_verdict(alloc, Verdict::Unreadable(fault))),
    }
}

/// Returns the explanation of a file by the result of reading it. There are no tasks if it can't be
/// read.
#[tactic(auto, unfolding(wh_tester::specs::Verdicts::verdict_on), using(wh_tester::proofs::Reading::read_within))]
fn find_in_read<W: Workflow>(
    alloc: Global,
    detail: DetailLevel,
    read: Result<Vec<Event>, ReadFault>,
) -> Result<Explanation, OutOfMemory>
    ensures found { (bytes : List ℕ) → IsReadOf bytes read
        → IfOk result (IsFoundIn detail W.program bytes) }
    ensures read { IfOk result (λ own. own.verdict ≢ Verdict.Unreadable ReadMemory) }
    ensures memory { (bytes : List ℕ) → IsReadOf bytes read → IfErr result (λ _. length bytes ≤ longest) }
{
    match read {
        Ok(events) => find_in_events::<W>(alloc, detail, events),
        Err(fault) => explanation_by(alloc, fault),
    }
}

/// Returns the explanation of a file. Parses it once, and replays its history once. There are no
/// tasks if it can't be read.
fn find_in_bytes<W: Workflow>(
    alloc: Global,
    detail: DetailLevel,
    bytes: &[u8],
) -> Result<Explanation, OutOfMemory>
    ensures found { IfOk result (IsFoundIn detail W.program bytes.now) }
    ensures read { IfOk result (λ own. own.verdict ≢ Verdict.Unreadable ReadMemory) }
    ensures memory { IfErr result (λ _. length bytes.now ≤ longest) }
{
    let read = read_events(alloc, bytes);
    find_in_read::<W>(alloc, detail, read)
}

/// Returns an explanation without its tasks.
fn without_tasks(alloc: Global, explanation: Explanation) -> Explanation
    ensures { result ≡ record explanation { tasks = [] } }
{
    Explanation {
        tasks: Items::new(Vec::new(alloc)),
        ..explanation
    }
}

/// Replays a history file with the code of `W`, and returns what it finds, without the tasks: the
/// verdict of `wh_tester::verdict`, and the command and the event that differ, if they do. These
/// are the last pairing of the last task that `explain` returns. The file is parsed once, and its
/// history is replayed at most once.
///
/// `Verdict::OutOfMemory` can replace any verdict but that of a file that is too long. Nothing else
/// is found then.
pub fn replay_file<W: Workflow>(alloc: Global, bytes: &[u8]) -> Explanation
    ensures verdict { IsVerdict W.program bytes.now result.verdict }
    ensures difference { result.verdict ≢ Verdict.OutOfMemory → IsDifferenceIn W.program bytes.now result.difference }
    ensures found { (at : ℕ) (mismatch : Mismatch) → result.verdict ≡ Verdict.Faulty (Mismatched at mismatch)
        → IsSome result.difference }
    ensures tasks { result.tasks ≡ [] }
{
    match find_in_bytes::<W>(alloc, DetailLevel::Verdict, bytes) {
        Ok(found) => without_tasks(alloc, found),
        Err(OutOfMemory) => Explanation::of_verdict(alloc, Verdict::OutOfMemory),
    }
}

/// Replays a history file with the code of `W`, from the result of reading it. Returns what
/// `explain` does. The history is replayed once. Returns `OutOfMemory` if an allocation was
/// refused, now or when the file was read.
pub fn explain_read<W: Workflow>(
    alloc: Global,
    read: Result<Vec<Event>, ReadFault>,
) -> Result<Explanation, OutOfMemory>
    ensures explained { (bytes : List ℕ) → IsReadOf bytes read → IfOk result (IsExplanationIn W.program bytes) }
    ensures memory { (bytes : List ℕ) → IsReadOf bytes read → IfErr result (λ _. length bytes ≤ longest) }
{
    find_in_read::<W>(alloc, DetailLevel::Steps, read)
}

/// Explains the replay of a history file with the code of `W`. Returns the verdict of
/// `wh_tester::verdict`, the command and the event that differ, if they do, and the tasks in their
/// order, up to the first that has a fault, each with the jobs that the workflow was given, the
/// commands that it gave, and the recorded events beside those that are sent. There are no tasks if
/// the file can't be read, if an event is not in place, or if the workflow type is not registered.
/// The file is parsed once, and its history is replayed at most once. Returns `OutOfMemory` if an
/// allocation was refused, but never for a file that is too long.
pub fn explain<W: Workflow>(alloc: Global, bytes: &[u8]) -> Result<Explanation, OutOfMemory>
    ensures explained { IfOk result (IsExplanationIn W.program bytes.now) }
    ensures memory { IfErr result (λ _. length bytes.now ≤ longest) }
{
    find_in_bytes::<W>(alloc, DetailLevel::Steps, bytes)
}
