//! The command line, what the program is called by it, and the standard output.

ghost use Rattle.std.specs.Prelude.{◌≡◌, ◌⊎◌, IfErr, IfOk, map, string_bytes};
ghost use Rattle.wh_command_line.specs.Options.{IsWithinLimits};
ghost use Rattle.wh_command_line.specs.Plans.{IsAskedBy};
ghost use Rattle.wh_diagnostics.specs.Lines.{IsRefusedLine, called, name_of};

use crate::Failure;
use std::alloc::Global;
use std::env::Env;
use std::io::{BufWriter, ErrorKind, Print, Printer};
use std::path::Path;
use std::{env, io};
use wh_command_line::{Plan, Refusal, parse};

/// What the program is called if the command line has no word.
pub const UNCALLED: &str = "wfhost";

/// Returns the words of the command line, the program's name first. `BadArguments` if one is not
/// UTF-8, and `OutOfMemory` if there is no memory for them.
pub fn words<R: Env + AllocGlobal>(rt: &R) -> Result<Vec<String>, Failure>
    ensures { IfErr result (λ failure. (failure ≡ Failure.BadArguments) ⊎ (failure ≡ Failure.OutOfMemory)) }
{
    match env::args(rt) {
        Ok(words) => match words.collect(rt.alloc()) {
            Ok(words) => Ok(words),
            Err(_) => Err(Failure::OutOfMemory),
        },
        Err(error) => match error.kind() {
            ErrorKind::OutOfMemory => Err(Failure::OutOfMemory),
            _ => Err(Failure::BadArguments),
        },
    }
}

/// What a program at a path is called: the last part of the path, or `wfhost` if there is none.
fn name_of(path: &str) -> &str
    ensures { result.now ≡ name_of path.now }
{
    match Path::new(path).file_name() {
        Some(name) => name,
        None => UNCALLED,
    }
}

/// Returns what the program is called: the last part of its first word, or `wfhost` if there is
/// none.
pub fn program_name(words: &[String]) -> &str
    ensures { result.now ≡ called (map string_bytes words.now) }
{
    match words.first() {
        Some(word) => name_of(word.as_str()),
        None => UNCALLED,
    }
}

/// Returns what the words of the command line ask for. `BadLine` if they are invalid, and
/// `FewSlots` if they ask for fewer slots than workers. Other than `OutOfMemory` there is no
/// failure but these. The help lists `types`, the registered workflow types, unless it is empty.
pub fn plan(alloc: Global, types: &str, words: &[String]) -> Result<Plan, Failure>
    ensures limits { IfOk result IsWithinLimits }
    ensures asked { IfOk result (IsAskedBy (map string_bytes words.now)) }
    ensures refused { IfErr result (IsRefusedLine (map string_bytes words.now)) }
{
    match parse(alloc, program_name(words), types, words) {
        Ok(plan) => Ok(plan),
        Err(Refusal::BadLine { text }) => Err(Failure::BadLine { text }),
        Err(Refusal::FewSlots) => Err(Failure::FewSlots),
        Err(Refusal::OutOfMemory) => Err(Failure::OutOfMemory),
    }
}

/// Returns the standard output, for a report. `OutOfMemory` if there is no memory for its buffer.
pub fn output<R: Print + AllocGlobal>(rt: &R) -> Result<BufWriter<Printer<'_, R>>, Failure>
    ensures { IfErr result (λ failure. failure ≡ Failure.OutOfMemory) }
{
    match BufWriter::new(rt.alloc(), io::writer(rt)) {
        Ok(writer) => Ok(writer),
        Err(_) => Err(Failure::OutOfMemory),
    }
}
