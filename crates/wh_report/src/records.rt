//! The record of a file: what came of it.

ghost use Rattle.std.specs.Prelude.{◌≡◌, ◌≢◌, Err, IfErr, IfOk, MatchResult, None, Ok, []};
ghost use Rattle.wh_file_faults.specs.Made.{IsFaultIn};
ghost use Rattle.wh_explain.specs.Differences.{IsDifferenceIn};
ghost use Rattle.wh_report.specs.Records.{AreRecordsOf, AreWarnings, IsRecordOf, IsRecordOfInput};
ghost use Rattle.wh_tester.specs.Verdicts.{IsVerdict};

use crate::other_values::replay_with_values;
use rayon::prelude::*;
use std::alloc::Global;
use std::thread::Threads;
use wh_console::{InputFault, ReplayOptions};
use wh_events::{Items, OutOfMemory, Text};
use wh_explain::{Explanation, Pairing, replay_file};
use wh_file_faults::{FaultDetail, file_detail};
use wh_phrases::OtherValue;
use wh_tester::{Line, Verdict};
use wh_workflow::Workflow;

/// What came of a history file.
#[derive(Drop)]
pub struct Record {
    /// Its name, and the verdict on its bytes.
    pub line: Line,
    /// What its fault omits: where it is not JSON, the field that an event lacks, or what one that is
    /// not in place contradicts.
    pub detail: Option<FaultDetail>,
    /// What is sent and what is recorded, if the replay stops since they differ.
    pub difference: Option<Pairing>,
    /// The values that differ from what is recorded, if these are asked for and the file is good.
    pub warnings: Items<OtherValue>,
}

/// What the replay of a file finds, and its warnings: if values are strict, those that differ from
/// what is recorded, and else none. It is parsed once and its history is replayed once.
fn found_in<W: Workflow>(
    alloc: Global,
    options: ReplayOptions,
    bytes: &[u8],
) -> (Explanation, Vec<OtherValue>)
    ensures verdict { IsVerdict W.program bytes.now result.0.verdict }
    ensures difference { result.0.verdict ≢ Verdict.OutOfMemory
        → IsDifferenceIn W.program bytes.now result.0.difference }
    ensures warnings { result.0.verdict ≢ Verdict.OutOfMemory
        → AreWarnings options.strict_values W.program bytes.now result.0.verdict result.1.items }
    ensures none { result.0.verdict ≡ Verdict.OutOfMemory → result.1.items ≡ [] }
{
    if options.strict_values {
        replay_with_values::<W>(alloc, bytes)
    } else {
        (replay_file::<W>(alloc, bytes), Vec::new(alloc))
    }
}

/// The record of a file for which there was no memory.
fn no_memory(alloc: Global, name: Text) -> Record
    ensures line { result.line ≡ record { name = name; verdict = Verdict.OutOfMemory } }
    ensures detail { result.detail ≡ None }
    ensures difference { result.difference ≡ None }
    ensures warnings { result.warnings ≡ [] }
{
    Record {
        line: Line {
            name,
            verdict: Verdict::OutOfMemory,
        },
        detail: None,
        difference: None,
        warnings: Items::new(Vec::new(alloc)),
    }
}

/// The record of a file, whose bytes are kept no longer, with warnings if values are strict. Its
/// verdict is `OutOfMemory` also if there was no memory to read the bytes once more for the detail
/// of a fault.
pub fn record_of<W: Workflow>(
    alloc: Global,
    options: ReplayOptions,
    file: (String, Vec<u8>),
) -> Record
    ensures { IsRecordOf options W.program file result }
{
    let (name, bytes) = file;
    let (explanation, warnings) = found_in::<W>(alloc, options, bytes.as_slice());
    let Explanation {
        verdict,
        difference,
        tasks,
    } = explanation;
    drop(tasks);
    let detail = file_detail(alloc, &verdict, bytes.as_slice());
    drop(bytes);
    let name = Text::new(name);
    match detail {
        Ok(detail) => Record {
            line: Line { name, verdict },
            detail,
            difference,
            warnings: Items::new(warnings),
        },
        Err(OutOfMemory) => {
            drop(verdict);
            drop(difference);
            drop(warnings);
            no_memory(alloc, name)
        }
    }
}

/// Replays inputs with the code of `W`, and gives their records in their order, whichever is done
/// first, with warnings if values are strict. `read` gives the name and the bytes of an input.
/// Each is read in the thread that replays it: so the bytes of no more files are there at once than
/// there are threads. `rayon` spreads the inputs over threads, down to one each.
///
/// Out of memory within a file's replay is that file's verdict. The fault is that of an input that
/// can't be read, as `read` gives it, or `InputFault::OutOfMemory` if there is no memory for the
/// list.
pub fn replay_inputs<
    W: Workflow + Send,
    R: Threads + Sync,
    T: Send + Drop,
    F: Fn(T) -> Result<(String, Vec<u8>), InputFault> + Copy + Send + Sync,
>(
    rt: &R,
    alloc: Global,
    inputs: Vec<T>,
    options: ReplayOptions,
    read: F,
) -> Result<Vec<Record>, InputFault>
    requires { F.IsAlwaysCallable read }
    ensures records { IfOk result (λ records.
        AreRecordsOf options W.program (λ input file. F.post read input (Ok file)) inputs.items records.items) }
    ensures fault { IfErr result (IsFaultIn (λ input fault. F.post read input (Err fault)) inputs.items) }
{
    let Ok(records) = inputs
        .into_par_iter()
        .with_min_len(1)
        .map(
            |input: T| -> Result<Record, InputFault>
                requires { F.IsAlwaysCallable read }
                ensures { MatchResult result
                    (IsRecordOfInput options W.program (λ input file. F.post read input (Ok file)) input)
                    (λ fault. F.post read input (Err fault)) }
            {
                let file = read(input)?;
                Ok(record_of::<W>(alloc, options, file))
            },
        )
        .collect::<Result<Vec<Record>, InputFault>>(rt, alloc)
    else {
        return Err(InputFault::OutOfMemory);
    };
    records
}
