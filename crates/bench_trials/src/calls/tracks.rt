//! Calls on a track: of its events, of a script over it, and of its jobs.

use crate::calls::saying::{say, say_answer, say_nothing, track_of};
use std::alloc::Global;
use std::io::Print;
use test_support::events;
use wh_activation::jobs;
use wh_events::{Event, EventNo, OpenKind};
use wh_machines::Track;
use wh_match::{Script, Versions};
use wh_workflow::{Command, text_of};

/// A history whose last event starts a task.
const STARTED: &str = "nap/3";

/// Prints the events of a track before or after a call, and whether they open the timer of a nap.
fn say_track<R: Print>(rt: &R, name: &str, part: &str, track: &Track) {
    let opened = track.last_named(OpenKind::Timer, "nap");
    let status = match opened {
        Some(number) => track.status(number),
        None => None,
    };
    say(rt, name, part, &(track.events(), opened, status));
}

/// An empty script of the task that the history's last event starts.
fn new_script(alloc: Global) -> Option<Script> {
    Some(Script::new(alloc, 0, EventNo::new(3)?))
}

/// The last event of a history.
fn last_of(alloc: Global, history: &'static str) -> Option<Event> {
    let mut events = events(alloc, history).ok()?;
    let last = events.pop();
    drop(events);
    last
}

/// Pushes an event that opens a timer.
pub(crate) fn push<R: Print>(rt: &R, alloc: Global, name: &str) -> Option<()> {
    let (mut track, event) = track_of(alloc, "nap/4").zip(last_of(alloc, "nap/5"))?;
    say_track(rt, name, "before", &track);
    say_answer(rt, name, track.push(event));
    say_track(rt, name, "after", &track);
    drop(track);
    Some(())
}

/// Issues a command.
pub(crate) fn issue<R: Print>(rt: &R, alloc: Global, name: &str) -> Option<()> {
    let made = track_of(alloc, STARTED).zip(new_script(alloc));
    let ((track, mut script), id) = made.zip(text_of(alloc, "nap").ok())?;
    let command = Command::StartTimer { id, seconds: 60 };
    say(rt, name, "before", &script);
    say_answer(rt, name, script.issue(&track, command));
    say(rt, name, "after", &script);
    drop(script);
    drop(track);
    Some(())
}

/// Asks for the version of a change; a marker is issued for it.
pub(crate) fn ask<R: Print>(rt: &R, alloc: Global, name: &str) -> Option<()> {
    let mut script = new_script(alloc)?;
    let mut versions = Versions::new(alloc);
    say(rt, name, "before", &(&script, &versions));
    say_answer(rt, name, script.ask(None, &mut versions, "change", -1, 1));
    say(rt, name, "after", &(&script, &versions));
    drop(versions);
    drop(script);
    Some(())
}

/// Gets the commands that are sent of a script with an issued marker.
pub(crate) fn reduced<R: Print>(rt: &R, alloc: Global, name: &str) -> Option<()> {
    let mut script = new_script(alloc)?;
    let mut versions = Versions::new(alloc);
    let is_marked = script.ask(None, &mut versions, "change", -1, 1).is_ok();
    drop(versions);
    say(rt, name, "before", &script);
    say_answer(rt, name, script.reduce());
    say_nothing(rt, name, "after");
    is_marked.then_some(())
}

/// Gets the jobs of a task.
pub(crate) fn tell<R: Print>(rt: &R, alloc: Global, name: &str) -> Option<()> {
    let (track, cut) = track_of(alloc, STARTED).zip(EventNo::new(3))?;
    say_track(rt, name, "before", &track);
    say_answer(rt, name, jobs(alloc, &track, 0, cut));
    say_track(rt, name, "after", &track);
    drop(track);
    Some(())
}
