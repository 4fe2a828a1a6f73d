//! What is said of a file on its page.

ghost use Rattle.std.specs.Prelude.{◌≡◌, ◌≢◌, Bool, IfOk};
ghost use Rattle.wh_explain.specs.Reading.{IsReadOf};
ghost use Rattle.wh_file_page.specs.Pages as pages;
ghost use Rattle.wh_file_page.specs.Readings.{IsReadAs};

use crate::words::{copy_text, difference_of, note_of, verdict_place, verdict_words};
use std::alloc::Global;
use wh_events::{Event, OutOfMemory, Text};
use wh_explain::{Explanation, explain_read};
use wh_file_faults::{FaultDetail, detail_of};
use wh_json::ReadFault;
use wh_run_page::Said;
use wh_tester::{Verdict, is_good};
use wh_workflow::Workflow;

/// What is said of a file, and the status of its report.
#[derive(Drop)]
pub(crate) struct Judged {
    pub(crate) said: Said,
    pub(crate) status: u8,
}

/// The status of the report of a file with this verdict.
fn status_of(verdict: &Verdict) -> u8
    ensures { result ≡ pages.status_of verdict.now }
{
    if is_good(verdict) { 0 } else { 1 }
}

/// What is said of a file with what its replay found.
#[tactic(auto, unfolding(crate::specs::Pages::said_of))]
fn said_of(
    alloc: Global,
    name: &str,
    explanation: &Explanation,
    detail: &Option<FaultDetail>,
) -> Result<Said, OutOfMemory>
    ensures { IfOk result (λ said. said ≡ pages.said_of name.now explanation.now detail.now) }
{
    let title = copy_text(alloc, name)?;
    let verdict = verdict_words(alloc, &explanation.verdict)?;
    let difference = difference_of(alloc, &explanation.difference)?;
    let note = note_of(alloc, &explanation.verdict, detail)?;
    Ok(Said {
        title,
        verdict,
        good: Some(is_good(&explanation.verdict)),
        place: verdict_place(&explanation.verdict),
        difference,
        note,
    })
}

/// What is said of a file with what its replay found, and the status of its report.
fn said_by(
    alloc: Global,
    name: &str,
    bytes: &[u8],
    explanation: &Explanation,
) -> Result<Judged, OutOfMemory>
    ensures said { IfOk result (λ own. own.said ≡ pages.said_in name.now bytes.now explanation.now) }
    ensures ends { IfOk result (λ own. own.status ≡ pages.status_of explanation.now.verdict) }
    ensures known { IfOk result (λ _. explanation.now.verdict ≢ Verdict.OutOfMemory) }
{
    if matches!(&explanation.verdict, Verdict::OutOfMemory) {
        return Err(OutOfMemory);
    }
    let detail = detail_of(alloc, &explanation.verdict, bytes)?;
    let said = said_of(alloc, name, explanation, &detail)?;
    Ok(Judged {
        said,
        status: status_of(&explanation.verdict),
    })
}

/// What is said of a file that is replayed, from the result of reading it.
fn judge_replayed<W: Workflow>(
    alloc: Global,
    name: &str,
    bytes: &[u8],
    read: Result<Vec<Event>, ReadFault>,
) -> Result<Judged, OutOfMemory>
    ensures { IsReadOf bytes.now read → IfOk result (λ own.
        pages.IsReplayed W.program name.now bytes.now own.said own.status) }
{
    let explanation = explain_read::<W>(alloc, read)?;
    said_by(alloc, name, bytes, &explanation)
}

/// What is said of a file that is not replayed.
fn judge_recorded(alloc: Global, name: &str) -> Result<Judged, OutOfMemory>
    ensures said { IfOk result (λ own. own.said ≡ pages.recorded_said name.now) }
    ensures ends { IfOk result (λ own. own.status ≡ 0) }
{
    let title = copy_text(alloc, name)?;
    let verdict = copy_text(alloc, "recorded, and not replayed")?;
    Ok(Judged {
        said: Said {
            title,
            verdict,
            good: None,
            place: None,
            difference: None,
            note: None,
        },
        status: 0,
    })
}

/// What is said of a file, which is replayed if its history was read.
pub(crate) fn said_as<W: Workflow>(
    alloc: Global,
    name: &str,
    bytes: &[u8],
    read: Option<Result<Vec<Event>, ReadFault>>,
) -> Result<Judged, OutOfMemory>
    ensures { (only_recorded : Bool) → IsReadAs only_recorded bytes.now read → IfOk result (λ own.
        pages.IsSaidOf W.program only_recorded name.now bytes.now own.said own.status) }
{
    match read {
        Some(read) => judge_replayed::<W>(alloc, name, bytes, read),
        None => judge_recorded(alloc, name),
    }
}
