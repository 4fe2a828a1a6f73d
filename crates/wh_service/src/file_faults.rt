//! Files that are not JSON, and where, and files whose workflow type is not registered.

ghost use Rattle.std.specs.Prelude.{◌≡◌, ℕ, List, ◌++◌, [], ◌∷◌, IfOk, OnOk, Some, map};
ghost use Rattle.std.specs.List.{flat_map};
ghost use Rattle.wh_service.specs.Faults.{HasHistory, IsCodeFault, IsFaultOf, IsJsonFault, reported_of};

use std::alloc::Global;
use wh_events::{OutOfMemory, Text};
use wh_file_faults::{FaultDetail, json_detail};
use wh_json::ReadFault;
use wh_machines::Track;
use wh_tester::{Line, Verdict, unknown_type};
use wh_workflow::Workflow;

/// A file that is not JSON or whose workflow type is not registered.
#[derive(Drop)]
pub struct FileFault {
    /// Its name, and that as its verdict.
    pub line: Line,
    /// Where it is not JSON.
    pub detail: Option<FaultDetail>,
}

/// Returns the fault of a file of this name.
fn fault_of(
    alloc: Global,
    name: &str,
    verdict: Verdict,
    detail: Option<FaultDetail>,
) -> Result<Option<FileFault>, OutOfMemory>
    ensures { IfOk result (λ fault. fault ≡ Some (record {
      line = record { name = name.now; verdict = verdict };
      detail = detail;
    })) }
{
    let Ok(name) = String::from_str(alloc, name) else {
        return Err(OutOfMemory);
    };
    let name = Text::new(name);
    Ok(Some(FileFault {
        line: Line { name, verdict },
        detail,
    }))
}

/// Returns where a file is not JSON, if it is not. `OutOfMemory` if there was no memory to read it
/// or for its name.
pub(crate) fn json_fault(
    alloc: Global,
    name: &str,
    bytes: &[u8],
) -> Result<Option<FileFault>, OutOfMemory>
    ensures { IfOk result (IsFaultOf IsJsonFault name.now bytes.now) }
{
    let found = json_detail(alloc, bytes)?;
    let Some(detail) = found else {
        return Ok(None);
    };
    let verdict = Verdict::Unreadable(ReadFault::BadJson);
    fault_of(alloc, name, verdict, Some(detail))
}

/// Returns the workflow type of a history whose events are in place, if it is not registered, as
/// the fault of the file that it was read from. `OutOfMemory` if there was no memory for the names.
pub(crate) fn code_fault<W: Workflow>(
    alloc: Global,
    name: &str,
    track: &Track,
) -> Result<Option<FileFault>, OutOfMemory>
    ensures { (bytes : List ℕ) → HasHistory bytes track.now
        → IfOk result (IsFaultOf (IsCodeFault W.program) name.now bytes) }
{
    let unknown = unknown_type::<W>(alloc, track)?;
    let Some(kind) = unknown else {
        return Ok(None);
    };
    fault_of(alloc, name, Verdict::NoCode { kind }, None)
}

/// Adds the fault of a file, if it has one.
fn add_fault(faults: &mut Vec<FileFault>, fault: Option<FileFault>) -> Result<(), OutOfMemory>
    ensures { OnOk result (faults.new.items ≡ faults.old.items ++ reported_of fault) }
{
    match fault {
        Some(fault) => Ok(faults.push(fault)?),
        None => Ok(()),
    }
}

/// Adds what was made of a file, and apart from it the fault of the file, if it has one.
fn add_told<T: Drop>(
    made: &mut Vec<T>,
    faults: &mut Vec<FileFault>,
    told: (T, Option<FileFault>),
) -> Result<(), OutOfMemory>
    ensures made { OnOk result (made.new.items ≡ made.old.items ++ (told.0 ∷ [])) }
    ensures faults { OnOk result (faults.new.items ≡ faults.old.items ++ reported_of told.1) }
{
    let (one, fault) = told;
    let added = made.push(one).is_ok();
    add_fault(faults, fault)?;
    if added { Ok(()) } else { Err(OutOfMemory) }
}

/// What was made of files, and apart from it the faults that are reported of them, in the same
/// order.
pub(crate) fn split_faults<T: Drop>(
    alloc: Global,
    told: Vec<(T, Option<FileFault>)>,
) -> Result<(Vec<T>, Vec<FileFault>), OutOfMemory>
    ensures made { IfOk result (λ parts. parts.0.items ≡ map (λ one. one.0) told.items) }
    ensures faults { IfOk result (λ parts.
        parts.1.items ≡ flat_map reported_of (map (λ one. one.1) told.items)) }
{
    let mut made = Vec::new(alloc);
    let mut faults = Vec::new(alloc);
    for both in told {
        add_told(&mut made, &mut faults, both)?;
    }
    Ok((made, faults))
}
