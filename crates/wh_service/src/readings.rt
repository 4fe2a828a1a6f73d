//! Files are read, each in the thread that parses it.

ghost use Rattle.std.specs.Prelude.{◌≡◌, ◌++◌, ◌⊎◌, [], Err, IfErr, IfOk, MatchResult, Ok, OnOk, count_by, length, not, string_bytes};
ghost use Rattle.wh_file_faults.specs.Made.{IsFaultIn};
ghost use Rattle.wh_console.specs.declared.files.InputFault.TheVariants.{OutOfMemory as InputMemory};
ghost use Rattle.wh_json.specs.Events.{history};
ghost use Rattle.wh_replay.specs.Replays.{workflow_of};
ghost use Rattle.wh_service.specs.Faults.{HasHistory, IsFaultOf, IsReadFaultIn, IsReportedOf};
ghost use Rattle.wh_service.specs.Made.{IsMadeOf};
ghost use Rattle.wh_service.specs.Readings.{AreRead, HasRead, IsReading, faulty_of, is_unread, reading, readings_of};

use crate::file_faults::{FileFault, code_fault, json_fault};
use crate::parallel::all_made;
use std::alloc::Global;
use std::thread::Threads;
use wh_console::InputFault;
use wh_events::{Event, OutOfMemory};
use wh_json::{ReadFault, read_events};
use wh_machines::Track;
use wh_replay::{RunFault, track_of, workflow_of};
use wh_workflow::Workflow;

/// A file that was read: its name, with its history or why it cannot be read.
#[derive(Drop)]
pub(crate) struct ReadFile {
    pub(crate) name: String,
    pub(crate) outcome: Result<Vec<Event>, ReadFault>,
}

/// What was read of inputs: each as a file, in their order, and what is reported of them.
#[derive(Drop)]
pub struct ReadFiles {
    pub(crate) files: Vec<ReadFile>,
    pub(crate) faults: Vec<FileFault>,
}

/// Whether no history can be read of a file.
fn is_unread(file: &ReadFile) -> bool
    ensures { result ≡ is_unread (reading file.now) }
{
    match &file.outcome {
        Ok(_) => false,
        Err(_) => true,
    }
}

impl ReadFiles {
    /// Returns what is read of no inputs.
    pub fn new(alloc: Global) -> ReadFiles
        ensures files { result.files.items ≡ [] }
        ensures faults { result.faults.items ≡ [] }
    {
        ReadFiles {
            files: Vec::new(alloc),
            faults: Vec::new(alloc),
        }
    }

    /// Returns how many inputs were read.
    pub fn count(&self) -> usize
        ensures count { result ≡ length (readings_of self.now) }
    {
        self.files.len()
    }

    /// Returns of how many inputs no history can be read.
    pub fn unread_count(&self) -> usize
        ensures count { result ≡ count_by (λ own. own) (faulty_of (readings_of self.now)) }
    {
        self.files.iter().filter(|file| is_unread(file)).count()
    }

    /// Adds what was read of later inputs. `OutOfMemory` if there is no memory for that; then some
    /// of it may have been added.
    pub fn append(&mut self, later: ReadFiles) -> Result<(), OutOfMemory>
        ensures files { OnOk result
            (readings_of self.new ≡ readings_of self.old ++ readings_of later) }
        ensures faults { OnOk result
            (self.new.faults.items ≡ self.old.faults.items ++ later.faults.items) }
    {
        let ReadFiles {
            mut files,
            mut faults,
        } = later;
        self.files.append(&mut files)?;
        self.faults.append(&mut faults)?;
        Ok(())
    }
}

/// Whether the workflow type that a history begins with is not registered.
fn lacks_code<W: Workflow>(events: &[Event]) -> bool
    ensures { result ≡ not (W.program.knows (workflow_of events.now)) }
{
    !W::handles(workflow_of(events))
}

/// The history of bytes that were parsed before, once more.
fn read_again(alloc: Global, bytes: &[u8]) -> Result<Vec<Event>, InputFault>
    ensures events { IfOk result (λ events. history bytes.now ≡ Ok events.items) }
    ensures memory { IfErr result (λ fault. fault ≡ InputMemory) }
{
    match read_events(alloc, bytes) {
        Ok(events) => Ok(events),
        Err(_) => Err(InputFault::OutOfMemory),
    }
}

/// A history in place, and its workflow type, if that is not registered.
fn with_code_fault<W: Workflow>(
    alloc: Global,
    name: &str,
    track: Track,
    bytes: &[u8],
) -> Result<(Vec<Event>, Option<FileFault>), InputFault>
    requires { HasHistory bytes.now track }
    ensures events { IfOk result (λ own. history bytes.now ≡ Ok own.0.items) }
    ensures fault { IfOk result (λ own. IsFaultOf (IsReadFaultIn W.program) name.now bytes.now own.1) }
    ensures memory { IfErr result (λ fault. fault ≡ InputMemory) }
{
    match code_fault::<W>(alloc, name, &track) {
        Ok(fault) => Ok((track.into_events(), fault)),
        Err(OutOfMemory) => Err(InputFault::OutOfMemory),
    }
}

/// A history, and its workflow type, which is not registered, if its events are in place. Only if
/// they are not, its bytes are parsed once more.
fn placed_history<W: Workflow>(
    alloc: Global,
    name: &str,
    events: Vec<Event>,
    bytes: &[u8],
) -> Result<(Vec<Event>, Option<FileFault>), InputFault>
    requires { history bytes.now ≡ Ok events.items }
    ensures events { IfOk result (λ own. history bytes.now ≡ Ok own.0.items) }
    ensures fault { IfOk result (λ own. IsFaultOf (IsReadFaultIn W.program) name.now bytes.now own.1) }
    ensures memory { IfErr result (λ fault. fault ≡ InputMemory) }
{
    match track_of(alloc, events) {
        Ok(track) => with_code_fault::<W>(alloc, name, track, bytes),
        Err(RunFault::Fault(_)) => Ok((read_again(alloc, bytes)?, None)),
        Err(RunFault::OutOfMemory) => Err(InputFault::OutOfMemory),
    }
}

/// A history, and what is reported of its file: its workflow type, if that is not registered.
fn with_fault<W: Workflow>(
    alloc: Global,
    name: &str,
    events: Vec<Event>,
    bytes: &[u8],
) -> Result<(Vec<Event>, Option<FileFault>), InputFault>
    requires { history bytes.now ≡ Ok events.items }
    ensures events { IfOk result (λ own. history bytes.now ≡ Ok own.0.items) }
    ensures fault { IfOk result (λ own. IsFaultOf (IsReadFaultIn W.program) name.now bytes.now own.1) }
    ensures memory { IfErr result (λ fault. fault ≡ InputMemory) }
{
    if lacks_code::<W>(events.as_slice()) {
        placed_history::<W>(alloc, name, events, bytes)
    } else {
        Ok((events, None))
    }
}

/// What is reported of a file that can't be read: where it is not JSON.
#[tactic(auto, using(crate::proofs::Faults::of_json))]
fn unread_fault<W: Workflow>(
    alloc: Global,
    name: &str,
    fault: &ReadFault,
    bytes: &[u8],
) -> Result<Option<FileFault>, OutOfMemory>
    requires { history bytes.now ≡ Err fault.now }
    ensures { IfOk result (IsFaultOf (IsReadFaultIn W.program) name.now bytes.now) }
{
    match fault {
        ReadFault::BadJson => json_fault(alloc, name, bytes),
        _ => Ok(None),
    }
}

/// What was read of a file that can't be read, and what is reported of it.
fn unread_file<W: Workflow>(
    alloc: Global,
    name: String,
    fault: ReadFault,
    bytes: &[u8],
) -> Result<(ReadFile, Option<FileFault>), InputFault>
    requires { history bytes.now ≡ Err fault }
    ensures reading { IfOk result (λ made. reading made.0 ≡ (string_bytes name, history bytes.now)) }
    ensures fault { IfOk result (λ made. IsFaultOf (IsReadFaultIn W.program) (string_bytes name) bytes.now made.1) }
    ensures memory { IfErr result (λ fault. fault ≡ InputMemory) }
{
    match unread_fault::<W>(alloc, name.as_str(), &fault, bytes) {
        Ok(own) => {
            let outcome = Err(fault);
            Ok((ReadFile { name, outcome }, own))
        }
        Err(OutOfMemory) => Err(InputFault::OutOfMemory),
    }
}

/// Parses a file, whose bytes are dropped then. Beside it is what is reported of it.
fn read_file<W: Workflow>(
    alloc: Global,
    file: (String, Vec<u8>),
) -> Result<(ReadFile, Option<FileFault>), InputFault>
    ensures reading { IfOk result (λ made. IsReading file made.0) }
    ensures fault { IfOk result (λ made. IsReportedOf W.program file made.1) }
    ensures memory { IfErr result (λ fault. fault ≡ InputMemory) }
{
    let (name, bytes) = file;
    match read_events(alloc, bytes.as_slice()) {
        Ok(events) => {
            let own = with_fault::<W>(alloc, name.as_str(), events, bytes.as_slice())?;
            let outcome = Ok(own.0);
            Ok((ReadFile { name, outcome }, own.1))
        }
        Err(ReadFault::OutOfMemory) => Err(InputFault::OutOfMemory),
        Err(fault) => unread_file::<W>(alloc, name, fault, bytes.as_slice()),
    }
}

/// Reads inputs and parses them in threads. Beside the files stands what is reported of them, in
/// their order.
fn read_all<
    W: Workflow + Send,
    R: Threads + Sync,
    T: Send + Drop,
    F: Fn(T) -> Result<(String, Vec<u8>), InputFault> + Copy + Send + Sync,
>(
    rt: &R,
    alloc: Global,
    inputs: Vec<T>,
    read: F,
) -> Result<(Vec<ReadFile>, Vec<FileFault>), InputFault>
    requires { F.IsAlwaysCallable read }
    ensures read { IfOk result (λ parts. AreRead (λ input file. F.post read input (Ok file)) W.program
        inputs.items parts.0.items parts.1.items) }
    ensures fault { IfErr result (IsFaultIn (λ input fault. F.post read input (Err fault)) inputs.items) }
{
    let Ok(parts) = all_made(
        rt,
        alloc,
        inputs,
        |input: T| -> Result<(ReadFile, Option<FileFault>), InputFault>
            requires { F.IsAlwaysCallable read }
            ensures { MatchResult result
                (IsMadeOf W.program (λ input file. F.post read input (Ok file)) IsReading input)
                (λ fault. (fault ≡ InputMemory) ⊎ F.post read input (Err fault)) }
        {
            let file = read(input)?;
            read_file::<W>(alloc, file)
        },
    ) else {
        return Err(InputFault::OutOfMemory);
    };
    parts
}

/// Reads inputs and parses them, and returns what was read of them, in their order. Each is read in
/// the thread that parses it: so the bytes of no more files are there at once than there are
/// threads, and only histories are held. The fault is that of an input that can't be read, as
/// `read` returns it, or `OutOfMemory`.
pub fn read_inputs<
    W: Workflow + Send,
    R: Threads + Sync,
    T: Send + Drop,
    F: Fn(T) -> Result<(String, Vec<u8>), InputFault> + Copy + Send + Sync,
>(rt: &R, alloc: Global, inputs: Vec<T>, read: F) -> Result<ReadFiles, InputFault>
    requires { F.IsAlwaysCallable read }
    ensures read { IfOk result
        (HasRead (λ input file. F.post read input (Ok file)) W.program inputs.items) }
    ensures fault { IfErr result (IsFaultIn (λ input fault. F.post read input (Err fault)) inputs.items) }
{
    let (files, faults) = read_all::<W, R, T, F>(rt, alloc, inputs, read)?;
    Ok(ReadFiles { files, faults })
}
