//! Places the times of a page on the axis of its picture.

ghost use Rattle.std.specs.Prelude.{◌≡◌, ◌≤◌, ◌<◌, ◌-◌, nat_le, get_or, ◌++◌, map, IfOk, OnOk, IsPermutation, IsSorted};
ghost use Rattle.std.specs.Ordering.{nat_cmp};
ghost use Rattle.wh_html.specs.Axes.{left, right, place_of, moment_times, lane_times, times_shown, GoesRight, BeginsLeft, first_of, last_of, last_place, steps_of, whole_of, shorter, longest_of, gap_of, Gaps, shortened, next_free, Marks, share, steps_to, length_to, place_after, next_place, Places};
ghost use Rattle.wh_html.specs.Views.{IsAxisOf};
ghost use Rattle.std.specs.List.{flat_map};

use crate::page::{Lane, Moment, Page, Task};
use std::alloc::Global;
use wh_events::{Items, OutOfMemory};

/// Where the first time stands, in units of the picture from the left.
pub const LEFT: u64 = 200;

/// The room that all steps share equally, in units of the picture.
const EVEN: u64 = 250;

/// The room that all steps share by their lengths, in units of the picture.
const SCALED: u64 = 380;

/// Where the last time stands, in units of the picture from the left.
pub const RIGHT: u64 = 830;

/// The least distance between two marks of the scale, in units of the picture.
const APART: u64 = 84;

/// A time without events that is drawn shorter than it was.
#[derive(Clone, Copy)]
pub struct Gap {
    /// Where it begins, in units of the picture from the left.
    pub from: u64,
    /// How long it was, in milliseconds.
    pub millis: u64,
}

/// A time at which something happens.
#[derive(Drop)]
pub struct Stop {
    /// Milliseconds from 1970-01-01T00:00:00Z.
    pub millis: u64,
    /// Where it stands, in units of the picture from the left.
    pub x: u64,
    /// The time since the stop before, if it is drawn shorter than it was.
    pub gap: Option<Gap>,
    /// Whether the scale has a mark for it.
    pub marked: bool,
}

/// The axis of a picture: the times at which something happens, in their order, and their places.
#[derive(Drop)]
pub struct Axis {
    /// The times.
    pub stops: Items<Stop>,
}

/// How the steps from one time to the next are drawn.
#[derive(Clone, Copy)]
struct Scale {
    /// The longest step that is drawn to scale, in milliseconds.
    longest: u64,
    /// How many times differ from the time before.
    steps: u64,
    /// The length of all steps together, in milliseconds, each counted as `longest` at most.
    whole: u64,
    /// The last time, in milliseconds from 1970-01-01T00:00:00Z.
    last: u64,
}

/// Adds the time of an event, if there is one.
fn push_moment(times: &mut Vec<u64>, moment: Option<Moment>) -> Result<(), OutOfMemory>
    ensures { OnOk result (times.new.items ≡ times.old.items ++ moment_times moment) }
{
    if let Some(moment) = moment {
        times.push(moment.millis)?;
    }
    Ok(())
}

/// Adds the times of a thing.
fn push_lane(times: &mut Vec<u64>, lane: &Lane) -> Result<(), OutOfMemory>
    ensures { OnOk result (times.new.items ≡ times.old.items ++ lane_times lane.now) }
{
    push_moment(times, Some(lane.opened))?;
    push_moment(times, lane.started)?;
    push_moment(times, lane.cancelling)?;
    push_moment(times, lane.ended)
}

/// Adds the times of things.
fn push_lanes(times: &mut Vec<u64>, lanes: &[Lane]) -> Result<(), OutOfMemory>
    ensures { OnOk result (times.new.items ≡ times.old.items ++ flat_map lane_times lanes.now) }
{
    for lane in lanes {
        push_lane(times, lane)?;
    }
    Ok(())
}

/// Adds the times of tasks.
fn push_tasks(times: &mut Vec<u64>, tasks: &[Task]) -> Result<(), OutOfMemory>
    ensures { OnOk result (times.new.items ≡ times.old.items ++ map (λ task. task.started.millis) tasks.now) }
{
    for task in tasks {
        times.push(task.started.millis)?;
    }
    Ok(())
}

/// Returns the times at which something happens, in their order.
#[tactic(auto, unfolding(crate::specs::Axes::times_shown))]
fn times_of(
    alloc: Global,
    lanes: &[Lane],
    tasks: &[Task],
    fault: Option<Moment>,
) -> Result<Vec<u64>, OutOfMemory>
    ensures order { IfOk result (λ times. IsSorted nat_cmp times.items) }
    ensures all { IfOk result (λ times. IsPermutation (times_shown lanes.now tasks.now fault) times.items) }
{
    let mut times = Vec::new(alloc);
    push_lanes(&mut times, lanes)?;
    push_tasks(&mut times, tasks)?;
    push_moment(&mut times, fault)?;
    times.sort_unstable();
    Ok(times)
}

/// Returns the time at a place in the list; 0 if there is none.
fn time_at(times: &[u64], place: usize) -> u64
    ensures { result ≡ get_or times.now place 0 }
{
    match times.get(place) {
        Some(time) => *time,
        None => 0,
    }
}

/// Returns the first of the times; 0 if there is none.
fn first_of(times: &[u64]) -> u64
    ensures { result ≡ first_of times.now }
{
    time_at(times, 0)
}

/// Returns the last of the times; 0 if there is none.
fn last_of(times: &[u64]) -> u64
    ensures { result ≡ last_of times.now }
{
    time_at(times, times.len().saturating_sub(1))
}

/// Returns how many of the times differ from the one before.
fn steps_of(times: &[u64]) -> u64
    ensures { result ≡ steps_of times.now }
{
    let mut steps: u64 = 0;
    let mut before = first_of(times);
    for time in times {
        if *time != before {
            steps = steps.saturating_add(1);
        }
        before = *time;
    }
    steps
}

/// Returns the length of all steps together, each counted as `longest` at most.
fn whole_of(times: &[u64], longest: u64) -> u64
    ensures { result ≡ whole_of times.now longest }
{
    let mut whole: u64 = 0;
    let mut before = first_of(times);
    for time in times {
        whole = whole.saturating_add(time.saturating_sub(before).min(longest));
        before = *time;
    }
    whole
}

/// Returns half of `longest` if it is more than half of the length of all steps together, and
/// `longest` otherwise.
fn shorter_step(times: &[u64], longest: u64) -> u64
    ensures { result ≡ shorter times.now longest }
{
    if longest <= whole_of(times, longest) / 2 {
        longest
    } else {
        longest / 2
    }
}

/// Returns the longest step after up to `halvings` halvings.
#[tactic(auto, unfolding(crate::specs::Axes::shortened))]
fn halve_longest(times: &[u64], halvings: usize, all: u64) -> u64
    ensures { result ≡ shortened times.now halvings all }
{
    let mut longest = all;
    for halving in 0..halvings {
        longest = shorter_step(times, longest);
    }
    longest
}

/// Returns the longest step that is drawn to scale. If there are three steps or more, it is the
/// time between the first and the last, halved until it is no more than half of what is drawn.
fn longest_of(times: &[u64]) -> u64
    ensures { result ≡ longest_of times.now }
{
    let all = last_of(times).saturating_sub(first_of(times));
    if 3 <= steps_of(times) {
        halve_longest(times, 64, all)
    } else {
        all
    }
}

/// Returns the scale of the times.
fn scale_of(times: &[u64]) -> Scale
    ensures longest { result.longest ≡ longest_of times.now }
    ensures steps { result.steps ≡ steps_of times.now }
    ensures whole { result.whole ≡ whole_of times.now (longest_of times.now) }
    ensures last { result.last ≡ last_of times.now }
{
    let longest = longest_of(times);
    Scale {
        longest,
        steps: steps_of(times),
        whole: whole_of(times, longest),
        last: last_of(times),
    }
}

/// Returns the share of the room for a part of the whole, `room` at most.
fn share(room: u64, part: u64, whole: u64) -> u64
    ensures { result ≡ share room part whole }
{
    if whole == 0 {
        return 0;
    }
    (room.saturating_mul(part) / whole).min(room)
}

/// Returns the gap of a step from a place, if the step is drawn shorter than it was.
fn gap_of(from: u64, step: u64, longest: u64) -> Option<Gap>
    ensures { result ≡ gap_of from step longest }
{
    if longest < step {
        Some(Gap { from, millis: step })
    } else {
        None
    }
}

/// The steps up to a time.
#[derive(Clone, Copy)]
struct AxisPath {
    /// How many there are.
    steps: u64,
    /// Their length together, each counted as the longest that is drawn to scale at most.
    length: u64,
    /// The time to which they lead.
    millis: u64,
    /// Where that time stands.
    x: u64,
    /// Where the next mark of the scale may stand.
    free: u64,
}

/// Returns where a time stands after so many steps of this total length. Each step gets the same
/// share of `EVEN` units, and a share of `SCALED` units in proportion to its length. The last time
/// stands at the right end.
fn place_after(steps: u64, length: u64, millis: u64, scale: Scale) -> u64
    ensures { result ≡ place_after scale.steps scale.whole scale.last steps length millis }
{
    if millis == scale.last {
        return RIGHT;
    }
    LEFT + share(EVEN, steps, scale.steps) + share(SCALED, length, scale.whole)
}

/// Returns where the next mark of the scale may stand after a stop at `x`.
fn next_free(free: u64, x: u64) -> u64
    requires { x ≤ right }
    ensures { result ≡ next_free free x }
{
    if free <= x { x + APART } else { free }
}

/// Returns the path to the next time.
fn way_to(way: AxisPath, millis: u64, scale: Scale) -> AxisPath
    requires { way.x ≤ right }
    ensures time { result.millis ≡ millis }
    ensures steps { result.steps ≡ steps_to way.steps (millis - way.millis) }
    ensures length { result.length ≡ length_to scale.longest way.length (millis - way.millis) }
    ensures place { result.x
        ≡ next_place scale.steps scale.whole scale.longest scale.last way.steps way.length way.millis way.x millis }
    ensures right { (way.x ≤ result.x) × (result.x ≤ right) }
    ensures free { result.free ≡ next_free way.free result.x }
    ensures still { millis ≡ way.millis → result.x ≡ way.x }
    ensures last { millis ≡ scale.last → (way.millis ≡ scale.last → way.x ≡ right) → result.x ≡ right }
{
    let step = millis.saturating_sub(way.millis);
    let steps = way.steps.saturating_add(step.min(1));
    let length = way.length.saturating_add(step.min(scale.longest));
    let x = if millis == way.millis {
        way.x
    } else {
        place_after(steps, length, millis, scale).max(way.x)
    };
    let free = next_free(way.free, x);
    AxisPath {
        steps,
        length,
        millis,
        x,
        free,
    }
}

/// Returns the stop at the end of a path, given the path to the stop before.
fn stop_at(before: AxisPath, way: AxisPath, scale: Scale) -> Stop
    ensures time { result.millis ≡ way.millis }
    ensures place { result.x ≡ way.x }
    ensures gap { result.gap ≡ gap_of before.x (way.millis - before.millis) scale.longest }
    ensures mark { result.marked ≡ nat_le before.free way.x }
{
    let step = way.millis.saturating_sub(before.millis);
    Stop {
        millis: way.millis,
        x: way.x,
        gap: gap_of(before.x, step, scale.longest),
        marked: before.free <= way.x,
    }
}

/// Returns the stops of the times.
fn stops_of(alloc: Global, times: &[u64], scale: Scale) -> Result<Vec<Stop>, OutOfMemory>
    requires { scale.last ≡ last_of times.now }
    ensures times { IfOk result (λ stops. map (λ stop. stop.millis) stops.items ≡ times.now) }
    ensures places { IfOk result (λ stops. GoesRight left stops.items) }
    ensures begins { IfOk result (λ stops. BeginsLeft stops.items) }
    ensures ends { first_of times.now < last_of times.now → IfOk result (λ stops. last_place left stops.items ≡ right) }
    ensures gaps { IfOk result (λ stops. Gaps scale.longest left (first_of times.now) stops.items) }
    ensures stand { IfOk result (λ stops.
        Places scale.steps scale.whole scale.longest scale.last 0 0 (first_of times.now) left stops.items) }
    ensures marks { IfOk result (λ stops. Marks left stops.items) }
{
    let mut stops = Vec::new(alloc);
    let mut way = AxisPath {
        steps: 0,
        length: 0,
        millis: first_of(times),
        x: LEFT,
        free: LEFT,
    };
    for time in times {
        let next = way_to(way, *time, scale);
        stops.push(stop_at(way, next, scale))?;
        way = next;
    }
    Ok(stops)
}

/// Places the times of what a page shows in its picture, in their order from left to right: the
/// first at the left end, and the last at the right end if it is later. Each step from one time to
/// the next gets some room, and more by its length. If there are three steps or more, the longest
/// that is drawn to scale is the time between the first and the last, halved until it is no more
/// than half of what is drawn; each longer step has a gap, and is drawn as long as that one. A stop
/// has a mark if the mark before is at least 84 units away. Returns `OutOfMemory` if there is no
/// memory for the stops.
pub fn axis_of(alloc: Global, page: &Page) -> Result<Axis, OutOfMemory>
    ensures { IfOk result (λ axis. IsAxisOf page.now axis.stops) }
{
    let times = times_of(alloc, page.lanes.get(), page.tasks.get(), page.fault)?;
    let scale = scale_of(times.as_slice());
    let stops = stops_of(alloc, times.as_slice(), scale)?;
    Ok(Axis {
        stops: Items::new(stops),
    })
}

/// Returns where a time stands: at the place of the last stop that is not later.
#[tactic(auto, unfolding(crate::specs::Axes::place_of))]
pub(crate) fn place_of(stops: &[Stop], millis: u64) -> u64
    ensures { result ≡ place_of stops.now millis }
{
    let mut x = LEFT;
    for stop in stops {
        if millis < stop.millis {
            return x;
        }
        x = stop.x;
    }
    x
}
