//! Calls on files: reading one, and checking some.

use crate::calls::saying::{say, say_answer, say_nothing};
use std::alloc::Global;
use std::io::Print;
use std::thread::Threads;
use test_support::json;
use wh_console::{InputFault, NO_OPTIONS};
use wh_json::read_events;
use wh_report::{Record, replay_inputs};
use wh_sample_workflows::Nap;

/// Reads a history.
pub(crate) fn read<R: Print>(rt: &R, alloc: Global, name: &str) -> Option<()> {
    let text = json(alloc, "nap").ok()?;
    say(rt, name, "before", &text.len());
    say_answer(rt, name, read_events(alloc, text.as_bytes()));
    say(rt, name, "after", &text.len());
    drop(text);
    Some(())
}

/// Adds the file of a history, with its name.
fn push_file(
    alloc: Global,
    files: &mut Vec<(String, Vec<u8>)>,
    name: &str,
    history: &'static str,
) -> Option<()> {
    let name = String::from_str(alloc, name).ok();
    let (name, text) = name.zip(json(alloc, history).ok())?;
    files.push((name, text.into_bytes())).ok()
}

/// Prints the lines of the records of two files, as an answer.
fn say_lines<R: Print>(rt: &R, name: &str, records: Vec<Record>) {
    if let [nap, live] = records.as_slice() {
        let lines = [&nap.line, &live.line];
        let _ = println!(rt; "{name} answer: Ok({lines:?})");
    }
    drop(records);
}

/// Checks two files.
pub(crate) fn check<R: Print + Threads + Sync>(rt: &R, alloc: Global, name: &str) -> Option<()> {
    let mut files = Vec::new(alloc);
    let nap = push_file(alloc, &mut files, "nap", "nap");
    let live = push_file(alloc, &mut files, "live", "nap/8");
    let files = nap.and(live).and(Some(files))?;
    say_nothing(rt, name, "before");
    let replayed_tasks = replay_inputs::<Nap, _, _, _>(
        rt,
        alloc,
        files,
        NO_OPTIONS,
        |file: (String, Vec<u8>)| -> Result<(String, Vec<u8>), InputFault> { Ok(file) },
    );
    match replayed_tasks {
        Ok(records) => say_lines(rt, name, records),
        Err(fault) => say_answer(rt, name, Err::<(), InputFault>(fault)),
    }
    say_nothing(rt, name, "after");
    Some(())
}
