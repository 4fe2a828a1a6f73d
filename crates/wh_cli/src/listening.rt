//! What the bridge of live tasks writes.

use std::alloc::Global;
use std::env::Env;
use std::sync::Wait;
use wh_diagnostics::{UNCALLED, program_name, words};
use wh_rpc::Caller;

/// Reads the standard input, until it ends, and gives each response to the call that waits for it.
/// Once the input has ended, or if it can't be read, all calls are closed. Malformed lines are
/// skipped, and reported on the standard error under the name that the program was called by.
///
/// It runs in a thread beside `run`, which needs the responses to its last calls too. A program
/// that is to end while its input is open does not join that thread.
pub fn read_input<R: Env + AllocGlobal + Wait + Input + Eprint, C: Caller>(
    rt: &R,
    alloc: Global,
    calls: &C,
) {
    match words(rt) {
        Ok(words) => wh_crew::read_input(rt, alloc, program_name(words.as_slice()), calls),
        Err(_) => wh_crew::read_input(rt, alloc, UNCALLED, calls),
    }
}
