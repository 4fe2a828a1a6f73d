//! The histories that both replays are compared on: each beginning of the examples and of some that
//! are written as letters, and generated ones.
use crate::blink::Blink;
use crate::comparing::{Counts, compare, compare_all};
use crate::folder::files_of;
use crate::generated::{changed, of_letters};
use crate::notation::{ROWS, events_of};
use rand_pcg::Pcg32;
use std::alloc::Global;
use std::io;
use std::io::{ErrorKind, Print};
use std::rt::Files;
use wh_events::{Event, OutOfMemory};
use wh_json::read_events;
use wh_sample_workflows::All;
use wh_workflow::{Pair, Workflow};

/// The folder of the example histories.
pub(crate) const FOLDER: &str = "histories";

/// How many histories of letters are made.
const OF_LETTERS: u32 = 4_000;

/// How many changed ones are made of each example.
const CHANGED: u32 = 200;

/// Appends the histories that the bytes of the files are.
fn push_histories(
    alloc: Global,
    histories: &mut Vec<Vec<Event>>,
    files: &[(String, Vec<u8>)],
) -> io::Result<()> {
    for (_name, bytes) in files {
        let Ok(events) = read_events(alloc, bytes.as_slice()) else {
            return Err(ErrorKind::InvalidData.into());
        };
        histories.push(events)?;
    }
    Ok(())
}

/// The histories of the folder.
fn read_histories<R: Files + AllocGlobal + Clone + Drop>(rt: &R) -> io::Result<Vec<Vec<Event>>> {
    let Some(files) = files_of(rt, FOLDER) else {
        return Err(ErrorKind::NotFound.into());
    };
    let mut histories = Vec::new(rt.alloc());
    let pushed = push_histories(rt.alloc(), &mut histories, files.as_slice());
    drop(files);
    pushed.and(Ok(histories))
}

/// Compares both replays on each beginning of an example, and of the example with a change.
fn compare_example<W: Workflow>(
    alloc: Global,
    history: &[Event],
    counts: &mut Counts,
) -> Result<(), OutOfMemory> {
    compare_all::<W>(alloc, history, counts)?;
    let mut random = Pcg32::new(42, 54);
    for _history in 0..CHANGED {
        let events = changed(alloc, &mut random, history)?;
        let compared = compare::<W>(alloc, events.as_slice(), counts);
        drop(events);
        compared?;
    }
    Ok(())
}

/// Compares both replays on each beginning of the histories in letters.
fn compare_rows<W: Workflow>(alloc: Global, counts: &mut Counts) -> Result<(), OutOfMemory> {
    for row in ROWS.as_slice() {
        let events = events_of(alloc, row)?;
        let compared = compare_all::<W>(alloc, events.as_slice(), counts);
        drop(events);
        compared?;
    }
    Ok(())
}

/// Compares both replays on generated histories of letters.
fn compare_letters<W: Workflow>(alloc: Global, counts: &mut Counts) -> Result<(), OutOfMemory> {
    let mut random = Pcg32::new(42, 54);
    for _history in 0..OF_LETTERS {
        let events = of_letters(alloc, &mut random)?;
        let compared = compare::<W>(alloc, events.as_slice(), counts);
        drop(events);
        compared?;
    }
    Ok(())
}

/// Compares both replays on the examples, and on the histories that are made.
fn compare_each<W: Workflow>(
    alloc: Global,
    examples: &[Vec<Event>],
    counts: &mut Counts,
) -> Result<(), OutOfMemory> {
    for history in examples {
        compare_example::<W>(alloc, history.as_slice(), counts)?;
    }
    compare_rows::<W>(alloc, counts)?;
    compare_letters::<W>(alloc, counts)
}

/// Compares both replays on all histories.
fn compare_histories<R: Files + AllocGlobal + Clone + Drop, W: Workflow>(
    rt: &R,
) -> io::Result<Counts> {
    let mut counts = Counts::new();
    let examples = read_histories(rt)?;
    let compared = compare_each::<W>(rt.alloc(), examples.as_slice(), &mut counts);
    drop(examples);
    match compared {
        Ok(()) => Ok(counts),
        Err(OutOfMemory) => Err(ErrorKind::OutOfMemory.into()),
    }
}

/// Prints how many histories have which result of both replays.
fn tell_answers<R: Print>(rt: &R, counts: Counts) -> io::Result<()> {
    let (good, misplaced) = (counts.good, counts.misplaced);
    let (faulty, different) = (counts.faulty, counts.different);
    println!(rt;
        "{good} replay, {misplaced} are not in place, {faulty} have a command that can't stand, {different} differ from a record"
    )
}

/// Prints how many histories were compared, how many have which result of both replays, and whether
/// all results agree. An error if the histories can't be read, or there is no memory.
pub(crate) fn tell<R: Files + Print + AllocGlobal + Clone + Drop>(rt: &R) -> io::Result<bool> {
    let counts = compare_histories::<R, Pair<Blink, All>>(rt)?;
    let (histories, alike) = (counts.histories, counts.alike);
    println!(rt; "{histories} histories, both replays say the same of {alike}")?;
    tell_answers(rt, counts)?;
    Ok(alike == histories)
}
