//! A cache for sticky execution: it keeps the runs of workflows between their tasks. One bound
//! limits their number, another one their weight together. A run weighs one for each event that it
//! holds, and one for each whole KiB (1,024 bytes) of its input. At most 4 GiB of the input count.

ghost use Rattle.std.specs.Prelude.{◌≡◌, ◌≢◌, ◌↔◌, ◌≤◌, ◌<◌, ◌+◌, ◌-◌, ◌*◌, ◌++◌, [], None, IsTrue};
ghost use Rattle.std.specs.Prelude.{IfOk, IfErr, MatchOption, OnOk, OnErr, length, map, reverse};
ghost use Rattle.std.specs.Prelude.{is_some, option_map, vec_capacity};
ghost use Rattle.std.specs.Map.{keys_of, lookup, lookup_entry, remove_entry};
ghost use Rattle.std.specs.List.{IsDistinct};
ghost use Rattle.wh_events.specs.Keys.{same_key};
ghost use Rattle.wh_replay.specs.Runs.{history_of, IsReplayed};
ghost use Rattle.wh_host.specs.Cache.{cache_view, entry_of, held_of, held_by, IsSound, IsShorter};
ghost use Rattle.wh_host.specs.Cache.{IsTooLarge, MayEnter, Enters, NeedsMemory, FitMost};
ghost use Rattle.wh_host.specs.Cache.{with_first, fitting, put_reply_of, Puts};

use crate::weighing::{MOST_WEIGHT, Weighed, weight_of};
use lru::LruCache;
use std::alloc::Global;
use std::marker::Model;
use std::num::NonZeroUsize;
use wh_events::{Items, OutOfMemory, RunKey};
use wh_replay::{ReplayedHistory, Run};
use wh_slots::{MOST_CACHED_EVENTS, MOST_RUNS};
use wh_workflow::Workflow;

/// What became of a run that was put into the cache. The last four return the run and leave the
/// cache as it was.
#[derive(Drop)]
pub enum Put<W: Workflow> {
    /// The run is the first one, and no run was evicted.
    Kept,
    /// The run is the first one. These runs were evicted, the least recently used first.
    PushedOut(Items<Run<W>>),
    /// The cache keeps no runs: its capacity is 0.
    Off(Run<W>),
    /// The cached run of the same key holds at least as many events.
    Shorter(Run<W>),
    /// The run alone weighs more than all cached runs together may weigh.
    TooLarge(Run<W>),
    /// There was no memory for a run of a key that is not cached, or for the list of the runs to
    /// evict.
    NoMemory(Run<W>),
}

/// The cached runs of a worker. If the next task of a workflow comes to the same worker, it need
/// not be replayed from its first event ("sticky execution" in Temporal's documentation). Contracts
/// see the runs, the most recently used first, with both bounds.
#[derive(Drop)]
pub struct Sticky<W: Workflow> {
    alloc: Global,
    capacity: usize,
    bound: u64,
    held: u64,
    runs: LruCache<RunKey, Weighed<W>>,
}

impl<W: Workflow> Model for Sticky<W> {
    ghost use Rattle.std.specs.Prelude.{◌≡◌, ◌+◌};
    ghost use Rattle.wh_host.specs.Cache.{CacheView, cache_view, held_by, IsSound};

    ghost Value = { CacheView };

    ghost view = { λ s. cache_view s.runs.entries s.capacity s.bound };

    ghost invariant = { λ s.
        (s.runs.cap ≡ s.capacity + 1)
        × (s.held ≡ held_by s.runs.entries)
        × IsSound W.program (cache_view s.runs.entries s.capacity s.bound) };
}

impl<W: Workflow> Sticky<W> {
    /// Opens an empty cache of at most `capacity` runs. If `events` is not 0, the cached runs
    /// together weigh at most `events`. Returns `OutOfMemory` if there was no memory.
    pub fn open(alloc: Global, capacity: usize, events: u64) -> Result<Self, OutOfMemory>
        requires capacity { capacity ≤ MOST_RUNS }
        requires events { events ≤ MOST_CACHED_EVENTS }
        ensures { IfOk result (λ cache. cache ≡ cache_view [] capacity events) }
    {
        // One place more than the capacity: a new run is added before the last one is evicted.
        let places = NonZeroUsize::MIN.saturating_add(capacity);
        Ok(Sticky {
            alloc,
            capacity,
            bound: events,
            held: 0,
            runs: LruCache::new(alloc, places)?,
        })
    }

    /// Takes the run of the key out of the cache, if there is one.
    pub fn take(&mut self, key: &RunKey) -> Option<Run<W>>
        ensures run { result ≡ option_map held_of (lookup_entry (same_key key.now) self.old.runs) }
        ensures runs { self.new ≡ record self.old { runs = remove_entry (same_key key.now) self.old.runs } }
    {
        let (key, weighed) = self.runs.pop_entry(key)?;
        self.held -= weighed.weight();
        Some(Run::from_parts(key, weighed.into_history()))
    }

    /// Drops the run of the key, and returns whether there was one.
    pub fn evict(&mut self, key: &RunKey) -> bool
        ensures found { result ≡ is_some (lookup (same_key key.now) self.old.runs) }
        ensures runs { self.new ≡ record self.old { runs = remove_entry (same_key key.now) self.old.runs } }
    {
        let found = self.runs.contains(key);
        let _gone = self.take(key);
        found
    }

    /// Returns the history of the run of the key, if there is one. The order of use stays.
    pub fn peek(&self, key: &RunKey) -> Option<&ReplayedHistory<W>>
        ensures { option_map (λ history. history.now) result ≡ lookup (same_key key.now) self.now.runs }
    {
        let weighed = self.runs.peek(key)?;
        Some(weighed.history())
    }

    /// Returns how many events the run of the key holds, if there is one. The order of use stays.
    pub fn peek_len(&self, key: &RunKey) -> Option<usize>
        ensures { result ≡ option_map (λ history. length history.events) (lookup (same_key key.now) self.now.runs) }
    {
        let history = self.peek(key)?;
        Some(history.len())
    }

    /// Returns how many runs are cached. Both bounds hold, no two runs have the same key, and each
    /// run is what replay of its held events gives.
    pub fn len(&self) -> usize
        ensures len { result ≡ length self.now.runs }
        ensures sound { IsSound W.program self.now }
    {
        self.runs.len()
    }

    /// Returns the weight of all cached runs together.
    pub fn total_weight(&self) -> u64
        ensures { result ≡ held_by self.now.runs }
    {
        self.held
    }

    /// Puts the run in front, where it replaces the one of its key, and evicts runs from the back
    /// until both bounds hold. If `Off`, `Shorter`, `TooLarge` or `NoMemory` applies, tried in this
    /// order, returns the run and leaves the cache as it was.
    pub fn put(&mut self, run: Run<W>) -> Put<W>
        ensures { Puts self.old run self.new (put_reply_of result) }
    {
        if self.is_off() {
            return Put::Off(run);
        }
        if self.is_shorter(&run) {
            return Put::Shorter(run);
        }
        if self.is_too_large(&run) {
            return Put::TooLarge(run);
        }
        match self.enter(run) {
            Ok(gone) if gone.is_empty() => Put::Kept,
            Ok(gone) => Put::PushedOut(Items::new(gone)),
            Err(run) => Put::NoMemory(run),
        }
    }

    /// Puts a run that may enter in front, where it replaces the one of its key, and returns the
    /// evicted runs, the least recently used first. Returns the run if there was no memory.
    fn enter(&mut self, run: Run<W>) -> Result<Vec<Run<W>>, Run<W>>
        requires { MayEnter self.old run }
        ensures entered { IfOk result (λ gone. Enters self.old run self.new gone.items) }
        ensures back { IfErr result (λ back. back ≡ run) }
        ensures needed { OnErr result (NeedsMemory self.old run) }
        ensures unchanged { OnErr result (self.new ≡ self.old) }
    {
        let going = self.count_evictions(&run);
        let Some(mut gone) = room_for(self.alloc, going) else {
            return Err(run);
        };
        put_first(&mut self.runs, &mut self.held, run)?;
        push_out(&mut self.runs, &mut self.held, going, &mut gone);
        Ok(gone)
    }

    /// Whether the cache keeps no runs.
    fn is_off(&self) -> bool
        ensures { IsTrue result ↔ (self.now.capacity ≡ 0) }
    {
        self.capacity == 0
    }

    /// Whether the cached run of the key holds at least as many events.
    fn is_shorter(&self, run: &Run<W>) -> bool
        ensures { IsTrue result ↔ IsShorter self.now run.now }
    {
        match self.peek_len(run.key()) {
            Some(len) => run.held_len() <= len,
            None => false,
        }
    }

    /// Whether the run alone weighs more than the bound.
    fn is_too_large(&self, run: &Run<W>) -> bool
        ensures { IsTrue result ↔ IsTooLarge self.now run.now }
    {
        self.bound != 0 && self.bound < weight_of(run)
    }

    /// Counts the runs to evict, the last first, once this run is in front. The run is what replay
    /// of its held events gives.
    fn count_evictions(&self, run: &Run<W>) -> usize
        requires { MayEnter self.now run.now }
        ensures count { result < length (with_first (entry_of run.now) self.now.runs) }
        ensures most { FitMost self.now (with_first (entry_of run.now) self.now.runs)
            (length (with_first (entry_of run.now) self.now.runs) - result) }
        ensures replayed { IsReplayed W.program (history_of run.now) }
    {
        // Made for the proof: its contract says that the run is replayed.
        run.invariant();
        let left = room_beside(self.bound, weight_of(run));
        let count = self.count_others(run.key());
        let held = self.held - replaced_weight(&self.runs, run.key());
        going_beside(&self.runs, run.key(), count, held, self.capacity - 1, left)
    }

    /// Counts the cached runs of other keys. No two runs have the same key.
    fn count_others(&self, key: &RunKey) -> usize
        ensures distinct { IsDistinct same_key (keys_of self.now.runs) }
        ensures count { result ≡ length (remove_entry (same_key key.now) self.now.runs) }
    {
        match self.runs.peek(key) {
            Some(_) => self.runs.len() - 1,
            None => self.runs.len(),
        }
    }
}

/// Returns how much weight fits beside `added`. If there is no bound, all that a cache may hold
/// fits.
fn room_beside(bound: u64, added: u64) -> u64
    requires { bound ≢ 0 → added ≤ bound }
    ensures some { bound ≢ 0 → result + added ≡ bound }
    ensures none { bound ≡ 0 → MOST_RUNS * MOST_WEIGHT ≤ result }
{
    if bound == 0 { u64::MAX } else { bound - added }
}

/// Returns an empty list with room for `count` runs, or `None` if there was no memory for it. A
/// list for no run needs no memory.
fn room_for<W: Workflow>(alloc: Global, count: usize) -> Option<Vec<Run<W>>>
    ensures { MatchOption result (0 < count) (λ room. (room.items ≡ []) × (count ≤ vec_capacity room)) }
{
    let mut room = Vec::new(alloc);
    if 0 < count {
        room.reserve(count).ok()?;
    }
    Some(room)
}

/// Puts the run in front. It replaces the run of its key, if there is one, without any memory. Else
/// the run comes back if there was no memory.
fn put_first<W: Workflow>(
    runs: &mut LruCache<RunKey, Weighed<W>>,
    held: &mut u64,
    run: Run<W>,
) -> Result<(), Run<W>>
    requires room { length runs.old.entries < runs.old.cap }
    requires held { (held.old ≡ held_by runs.old.entries) × (held.old ≤ MOST_RUNS * MOST_WEIGHT) }
    ensures runs { OnOk result (runs.new.entries ≡ with_first (entry_of run) runs.old.entries) }
    ensures held { OnOk result (held.new ≡ held_by runs.new.entries) }
    ensures cap { runs.new.cap ≡ runs.old.cap }
    ensures refused { IfErr result (λ back. back ≡ run) }
    ensures missing { OnErr result (lookup (same_key run.key) runs.old.entries ≡ None) }
    ensures unchanged { OnErr result ((runs.new ≡ runs.old) × (held.new ≡ held.old)) }
{
    let replaced = replaced_weight(runs, run.key());
    let (key, weighed) = Weighed::of(run);
    let added = weighed.weight();
    match runs.push(key, weighed) {
        Ok(_replaced) => {
            *held = *held - replaced + added;
            Ok(())
        }
        Err(failed) => {
            let (key, weighed) = failed.value;
            Err(Run::from_parts(key, weighed.into_history()))
        }
    }
}

/// Returns the weight of the run of the key, or 0 if there is none.
fn replaced_weight<W: Workflow>(runs: &LruCache<RunKey, Weighed<W>>, key: &RunKey) -> u64
    ensures held { held_by (remove_entry (same_key key.now) runs.now.entries) + result ≡ held_by runs.now.entries }
    ensures most { result ≤ MOST_WEIGHT }
{
    match runs.peek(key) {
        Some(weighed) => weighed.weight(),
        None => 0,
    }
}

/// Counts the runs to evict beside one of this key, the last first. There are `count` other runs of
/// the weight `held`, and `room` runs of the weight `left` fit. Visits only those to evict, and
/// perhaps the run of the key.
fn going_beside<W: Workflow>(
    runs: &LruCache<RunKey, Weighed<W>>,
    key: &RunKey,
    count: usize,
    held: u64,
    room: usize,
    left: u64,
) -> usize
    requires distinct { IsDistinct same_key (keys_of runs.now.entries) }
    requires count { count ≡ length (remove_entry (same_key key.now) runs.now.entries) }
    requires held { held ≡ held_by (remove_entry (same_key key.now) runs.now.entries) }
    ensures { result + fitting room left (remove_entry (same_key key.now) runs.now.entries)
        ≡ length (remove_entry (same_key key.now) runs.now.entries) }
{
    let mut count = count;
    let mut held = held;
    let mut going = 0;
    let mut rest = runs.iter();
    'last: while room < count || left < held {
        let Some((other, weighed)) = rest.next_back() else {
            unreachable!()
        };
        if key == other {
            continue;
        }
        count -= 1;
        held -= weighed.weight();
        going += 1;
    }
    going
}

/// Moves the last `count` runs into `gone`, the least recently used first.
fn push_out<W: Workflow>(
    runs: &mut LruCache<RunKey, Weighed<W>>,
    held: &mut u64,
    count: usize,
    gone: &mut Vec<Run<W>>,
)
    requires count { count ≤ length runs.old.entries }
    requires held { held.old ≡ held_by runs.old.entries }
    requires gone { (gone.old.items ≡ []) × (count ≤ vec_capacity gone.old) }
    ensures parts { runs.old.entries ≡ runs.new.entries ++ reverse (map entry_of gone.new.items) }
    ensures count { length gone.new.items ≡ count }
    ensures cap { runs.new.cap ≡ runs.old.cap }
    ensures held { held.new ≡ held_by runs.new.entries }
{
    for _turn in 0..count {
        let Some((key, weighed)) = runs.pop_lru() else {
            unreachable!()
        };
        *held -= weighed.weight();
        gone.push_reserved(Run::from_parts(key, weighed.into_history()));
    }
}
