//! The state of a host as one machine: slots, the mark of each workflow place, cached runs and
//! books.
ghost use Rattle.std.specs.Prelude.{◌≡◌, ◌<◌, ◌+◌, ◌-◌, ◌^◌, ◌↔◌, Bool, false, None, Some, [], length};
ghost use Rattle.std.specs.Prelude.{map};
ghost use Rattle.std.specs.Prelude.{option_map, slice_get, replicate, IsTrue, IfOk, IfErr, OnOk};
ghost use Rattle.std.specs.Prelude.{IsErr, Err, MatchOption, MatchResult, vec_len};
ghost use Rattle.std.specs.Map.{lookup, lookup_entry, remove_entry};
ghost use Rattle.wh_events.specs.Keys.{same_key};
ghost use Rattle.wh_host.specs.Cache.{cache_view, held_of, Puts, put_reply_of};
ghost use Rattle.wh_host.specs.Shares.{no_shares, sums_of, IsWithin};
ghost use Rattle.wh_slots.specs.Table.{table};
ghost use Rattle.wh_slots.specs.declared.Place.TheVariants.{Free};
ghost use Rattle.wh_slots.specs.declared.SlotKind.{SlotKind};
ghost use Rattle.wh_slots.specs.Sizes.{IsConfig};
ghost use Rattle.wh_host.specs.Machine.{IsBlankOf, IsHost, in_hand, totals_of, opening_of, step};
ghost use Rattle.wh_host.specs.Machine.{with_taken, with_outcome, books_of, give_reply_of, evicted_for};
ghost use Rattle.wh_host.specs.Machine.{has_key, has_mark, is_marked_at, Reserve, Release};
ghost use Rattle.wh_host.specs.Machine.{UseWorkflow, UseActivity, GiveRun, EvictRun, Finish, Drain};
ghost use Rattle.wh_host.specs.Machine.{ReadCounts};

use crate::cache::{Put, Sticky};
use crate::ledger::{Books, Seat, SeatsMissing};
use crate::open_fault::OpenFault;
use crate::reply::{Counts, Evict, Given, Outcome, Totals};
use std::alloc::Global;
use std::marker::Model;
use std::sync::ledger::{Blank, Ledger};
use wh_events::{OutOfMemory, RunKey};
use wh_replay::{ReplayedHistory, Run};
use wh_slots::{
    Config, Held, NotHeld, NotReserved, Permit, ReserveFault, SlotKind, Slots, TaskName, UseFault,
};
use wh_workflow::Workflow;

/// The mark of a held workflow place: the key of its run, and whether the run is to be evicted.
#[derive(Drop, Debug)]
pub struct Mark {
    /// The key of the run.
    pub key: RunKey,
    /// Whether the run is not to be cached when it comes back.
    pub evicted: bool,
}

/// The slots, the sticky cache and the books of a worker host. Contracts see them as one record,
/// and each method as one step of a machine. A method that refuses returns what was moved in, and
/// leaves the state as it was. As in Temporal's documentation on workers, slots limit how many
/// tasks are processed at once ("worker performance"), and the cache keeps a run between its tasks
/// ("sticky execution").
#[derive(Drop)]
pub struct HostState<W: Workflow, T: Ledger, C: Ledger, F: Ledger> {
    workflow: Slots,
    activity: Slots,
    marks: Vec<Option<Mark>>,
    cache: Sticky<W>,
    books: Books<T, C, F>,
}

impl<W: Workflow, T: Ledger, C: Ledger, F: Ledger> Model for HostState<W, T, C, F> {
    ghost use Rattle.wh_host.specs.Machine.{HostView, host_view, IsHost};

    ghost Value = { HostView };

    ghost view = { λ s. host_view s.workflow s.activity s.marks.items s.cache s.books };

    ghost invariant = { λ s. IsHost W.program (host_view s.workflow s.activity s.marks.items s.cache s.books) };
}

impl<W: Workflow, T: Ledger, C: Ledger, F: Ledger> HostState<W, T, C, F> {
    /// Opens a state with all places free, an empty cache and empty books. Returns it with its
    /// seats, which counted nothing yet. Each blank has as many parts as there are seats. Returns
    /// `BadConfig` if a size is not within its range, and `OutOfMemory` if there was no memory.
    pub fn open(
        alloc: Global,
        config: Config,
        taken: Blank,
        completed: Blank,
        failed: Blank,
    ) -> Result<(Self, Vec<Seat<T, C, F>>), OpenFault>
        requires taken { IsBlankOf config taken T.name T.parts }
        requires completed { IsBlankOf config completed C.name C.parts }
        requires failed { IsBlankOf config failed F.name F.parts }
        ensures opened { IfOk result (λ opened. opened.0 ≡ opening_of config) }
        ensures seats { IfOk result (λ opened. opened.1.items ≡ replicate config.seats no_shares) }
        ensures bad { (result ≡ Err OpenFault.BadConfig) ↔ (¬ IsConfig config) }
    {
        if !config.is_within() {
            return Err(OpenFault::BadConfig);
        }
        let (books, seats) = Books::open(alloc, config.seats, taken, completed, failed)?;
        let state = HostState::beside(alloc, config, books)?;
        Ok((state, seats))
    }

    /// Opens a state over empty books, with all places free and an empty cache. Returns
    /// `OutOfMemory` if there was no memory.
    fn beside(alloc: Global, config: Config, books: Books<T, C, F>) -> Result<Self, OutOfMemory>
        requires config { IsConfig config }
        requires books { books ≡ no_shares }
        ensures { IfOk result (λ state. state ≡ opening_of config) }
    {
        let (workflow, activity) = open_slots(alloc, config)?;
        let (marks, cache) = open_runs(alloc, config)?;
        Ok(HostState {
            workflow,
            activity,
            marks,
            cache,
            books,
        })
    }

    /// Reserves a place of the kind for one poll. The faults are tried as `Draining`,
    /// `NumbersSpent`, `NoSlot`.
    pub fn reserve(&mut self, kind: SlotKind) -> Result<Permit, ReserveFault>
        ensures { step self.old (Reserve kind result) self.new }
    {
        match kind {
            SlotKind::Workflow => self.workflow.reserve(),
            SlotKind::Activity => self.activity.reserve(),
        }
    }

    /// Ends reserving. Places that are reserved or held stay so.
    pub fn drain(&mut self)
        ensures { step self.old Drain self.new }
    {
        self.workflow.drain();
        self.activity.drain();
    }

    /// Frees a reserved place that was not used. Returns the permit if no place is reserved under
    /// it.
    pub fn release(&mut self, permit: Permit) -> Result<(), (Permit, NotReserved)>
        ensures { step self.old (Release permit result) self.new }
    {
        match permit.kind() {
            SlotKind::Workflow => self.workflow.release(permit),
            SlotKind::Activity => self.activity.release(permit),
        }
    }

    /// Starts processing a workflow task: the task holds the reserved place under its name and is
    /// counted as taken. The cached run of the key, if there is one, leaves the cache and is
    /// returned. The faults are tried in the order `NotReserved`, `TaskInHand`.
    pub fn use_workflow(
        &mut self,
        permit: Permit,
        name: TaskName,
        key: RunKey,
        seat: &mut Seat<T, C, F>,
    ) -> Result<(Held, Option<Run<W>>), (Permit, RunKey, UseFault)>
        ensures step { step self.old (UseWorkflow permit name key result) self.new }
        ensures seat { MatchResult result (λ _. seat.new ≡ with_taken seat.old) (λ _. seat.new ≡ seat.old) }
    {
        let held = match self.workflow.use_slot(permit, name) {
            Ok(held) => held,
            Err((permit, fault)) => return Err((permit, key, fault)),
        };
        let Some(at) = self.workflow.place_of(&held) else {
            unreachable!()
        };
        let run = hand_out(&mut self.cache, &key);
        drop(self.marks[at].replace(Mark {
            key,
            evicted: false,
        }));
        self.books.add_taken(seat);
        Ok((held, run))
    }

    /// Starts processing an activity task: the task holds the reserved place under its name and is
    /// counted as taken. The faults are tried in the order `NotReserved`, `TaskInHand`.
    pub fn use_activity(
        &mut self,
        permit: Permit,
        name: TaskName,
        seat: &mut Seat<T, C, F>,
    ) -> Result<Held, (Permit, UseFault)>
        ensures step { step self.old (UseActivity permit name result) self.new }
        ensures seat { MatchResult result (λ _. seat.new ≡ with_taken seat.old) (λ _. seat.new ≡ seat.old) }
    {
        let held = self.activity.use_slot(permit, name)?;
        self.books.add_taken(seat);
        Ok(held)
    }

    /// Puts the run of a workflow task that is being processed into the cache. Returns the run as
    /// `NotHeld` if no workflow place is held under the number with the run's key, and else as
    /// `Marked` if that place is marked for eviction.
    pub fn give_run(&mut self, held: &Held, run: Run<W>) -> Given<W>
        ensures { step self.old (GiveRun held.now run (give_reply_of result)) self.new }
    {
        let Some(at) = self.workflow.place_of(held) else {
            return Given::NotHeld(run);
        };
        let Some(evicted) = mark_of(self.marks.as_slice(), at, run.key()) else {
            return Given::NotHeld(run);
        };
        if evicted {
            return Given::Marked(run);
        }
        let put = put_back(&mut self.cache, run);
        // Called for the proof: its contract says that the cached runs are replayed.
        self.cache.len();
        Given::Put(put)
    }

    /// Drops the run of the key from the cache, and marks each held place of the key, so that the
    /// run of its task won't be cached.
    pub fn evict(&mut self, key: &RunKey) -> Evict
        ensures { step self.old (EvictRun key.now result) self.new }
    {
        let marked = mark_places(self.marks.as_mut_slice(), key);
        if self.cache.evict(key) {
            return Evict::Evicted;
        }
        if marked {
            return Evict::Marked;
        }
        Evict::NotCached
    }

    /// Finishes a task: frees its place, and counts its outcome. Returns the right if no place is
    /// held under it.
    pub fn finish(
        &mut self,
        held: Held,
        outcome: Outcome,
        seat: &mut Seat<T, C, F>,
    ) -> Result<(), (Held, NotHeld)>
        ensures step { step self.old (Finish held outcome result) self.new }
        ensures seat { MatchResult result (λ _. seat.new ≡ with_outcome outcome seat.old) (λ _. seat.new ≡ seat.old) }
    {
        match held.kind() {
            SlotKind::Workflow => {
                let Some(at) = self.workflow.place_of(&held) else {
                    return Err((held, NotHeld));
                };
                self.workflow.free(held)?;
                drop(self.marks[at].take());
                count_outcome(&mut self.books, outcome, seat);
                Ok(())
            }
            SlotKind::Activity => {
                self.activity.free(held)?;
                count_outcome(&mut self.books, outcome, seat);
                Ok(())
            }
        }
    }

    /// Returns what is counted, cached and held. Nothing changes. None of the three books is below
    /// the seat's share of it.
    pub fn counts(&mut self, seat: &mut Seat<T, C, F>) -> Counts
        ensures step { step self.old (ReadCounts result) self.new }
        ensures within { IsWithin seat.old (books_of result) }
        ensures seat { seat.new ≡ seat.old }
        ensures host { IsHost W.program self.old }
    {
        self.books.audit(seat);
        let shares = self.books.totals();
        Counts {
            taken: shares.taken,
            completed: shares.completed,
            failed: shares.failed,
            in_hand: self.in_hand(),
            cached: self.cache.len(),
            cached_events: self.cache.total_weight(),
            workflow: self.workflow.count(),
            activity: self.activity.count(),
        }
    }

    /// Returns the history of the run that is cached for the key, if one is. Nothing changes: no
    /// slot is used, nothing is counted, and the order of use stays.
    pub fn cached_history(&self, key: &RunKey) -> Option<&ReplayedHistory<W>>
        ensures { option_map (λ history. history.now) result ≡ lookup (same_key key.now) self.now.cache.runs }
    {
        self.cache.peek(key)
    }

    /// Does nothing. Its contract says what holds for every state.
    pub(crate) fn invariant(&self)
        ensures { IsHost W.program self.now }
    {
        let _books = &self.books;
    }

    /// Counts the tasks that are being processed, of both kinds.
    fn in_hand(&self) -> u64
        ensures in_hand { result ≡ in_hand self.now }
        ensures host { IsHost W.program self.now }
    {
        let totals = self.books.totals();
        totals.taken - totals.completed - totals.failed
    }

    /// Closes the state, and returns what all seats counted together. Each task taken is completed,
    /// failed or being processed. If a seat is missing, returns `SeatsMissing`, the state and the
    /// seats.
    pub fn close(
        self,
        seats: Vec<Seat<T, C, F>>,
    ) -> Result<Totals, (Self, Vec<Seat<T, C, F>>, SeatsMissing)>
        ensures gathered { IfOk result (λ totals. totals ≡ totals_of (sums_of seats.items)) }
        ensures books { OnOk result (sums_of seats.items ≡ self.books) }
        ensures in_hand { IfOk result (λ totals. totals.in_hand ≡ in_hand self) }
        ensures balanced { IfOk result (λ totals. totals.taken ≡ totals.completed + totals.failed + totals.in_hand) }
        ensures missing { IsErr result ↔ (vec_len seats < T.parts) }
        ensures back { IfErr result (λ refused. (refused.0 ≡ self) × (refused.1 ≡ seats)) }
    {
        let in_hand = self.in_hand();
        let HostState {
            workflow,
            activity,
            marks,
            cache,
            books,
        } = self;
        match books.gather(seats) {
            Ok(shares) => Ok(Totals {
                taken: shares.taken,
                completed: shares.completed,
                failed: shares.failed,
                in_hand,
            }),
            Err((books, seats, missing)) => Err((
                HostState {
                    workflow,
                    activity,
                    marks,
                    cache,
                    books,
                },
                seats,
                missing,
            )),
        }
    }
}

/// Opens the slots of both kinds, with all places free.
fn open_slots(alloc: Global, config: Config) -> Result<(Slots, Slots), OutOfMemory>
    requires { IsConfig config }
    ensures workflow { IfOk result (λ slots.
        slots.0 ≡ table SlotKind.Workflow (replicate config.workflow_slots Free) 1 false) }
    ensures activity { IfOk result (λ slots.
        slots.1 ≡ table SlotKind.Activity (replicate config.activity_slots Free) 1 false) }
{
    let workflow = Slots::open(alloc, SlotKind::Workflow, config.workflow_slots)?;
    let activity = Slots::open(alloc, SlotKind::Activity, config.activity_slots)?;
    Ok((workflow, activity))
}

/// Returns a list with no mark for any of the workflow places, and an empty cache.
fn open_runs<W: Workflow>(
    alloc: Global,
    config: Config,
) -> Result<(Vec<Option<Mark>>, Sticky<W>), OutOfMemory>
    requires { IsConfig config }
    ensures marks { IfOk result (λ runs. runs.0.items ≡ replicate config.workflow_slots None) }
    ensures cache { IfOk result (λ runs. runs.1 ≡ cache_view [] config.cache config.cache_events) }
{
    let marks = no_marks(alloc, config.workflow_slots)?;
    let cache = Sticky::open(alloc, config.cache, config.cache_events)?;
    Ok((marks, cache))
}

/// Returns a list for `count` places, with no mark for any of them.
fn no_marks(alloc: Global, count: usize) -> Result<Vec<Option<Mark>>, OutOfMemory>
    ensures { IfOk result (λ marks. marks.items ≡ replicate count None) }
{
    let mut marks = Vec::new(alloc);
    marks.reserve(count)?;
    for _place in 0..count {
        marks.push_reserved(None);
    }
    Ok(marks)
}

/// Takes the run of the key out of the cache, for the task that is now processed.
fn hand_out<W: Workflow>(cache: &mut Sticky<W>, key: &RunKey) -> Option<Run<W>>
    ensures run { result ≡ option_map held_of (lookup_entry (same_key key.now) cache.old.runs) }
    ensures runs { cache.new ≡ record cache.old { runs = remove_entry (same_key key.now) cache.old.runs } }
{
    cache.take(key)
}

/// Puts a run back into the cache.
fn put_back<W: Workflow>(cache: &mut Sticky<W>, run: Run<W>) -> Put<W>
    ensures { Puts cache.old run cache.new (put_reply_of result) }
{
    cache.put(run)
}

/// Adds one to the book of the outcome and to the seat's share of it.
fn count_outcome<T: Ledger, C: Ledger, F: Ledger>(
    books: &mut Books<T, C, F>,
    outcome: Outcome,
    seat: &mut Seat<T, C, F>,
)
    requires completed { books.old.completed < 2 ^ 64 - 1 }
    requires failed { books.old.failed < 2 ^ 64 - 1 }
    ensures books { books.new ≡ with_outcome outcome books.old }
    ensures seat { seat.new ≡ with_outcome outcome seat.old }
{
    match outcome {
        Outcome::Completed => books.add_completed(seat),
        Outcome::Failed => books.add_failed(seat),
    }
}

/// Returns whether the place is marked for eviction, or `None` if it doesn't have this key.
fn mark_of(marks: &[Option<Mark>], at: usize, key: &RunKey) -> Option<bool>
    requires { at < length marks.now }
    ensures { MatchOption result
        ((evicted : Bool) → ¬ is_marked_at marks.now at key.now evicted)
        (is_marked_at marks.now at key.now) }
{
    match &marks[at] {
        Some(mark) if mark.key == *key => Some(mark.evicted),
        _ => None,
    }
}

/// Marks the place for eviction if it has the key, and returns whether it has.
fn mark_place(mark: &mut Option<Mark>, key: &RunKey) -> bool
    ensures mark { mark.new ≡ evicted_for key.now mark.old }
    ensures found { result ≡ has_key key.now mark.old }
{
    match mark {
        Some(mark) if mark.key == *key => {
            mark.evicted = true;
            true
        }
        _ => false,
    }
}

/// Marks every place that has the key for eviction, and returns whether there is one.
fn mark_places(marks: &mut [Option<Mark>], key: &RunKey) -> bool
    ensures marks { marks.new ≡ map (evicted_for key.now) marks.old }
    ensures found { result ≡ has_mark key.now marks.old }
{
    let mut found = false;
    for mark in marks.iter_mut() {
        if mark_place(mark, key) {
            found = true;
        }
    }
    found
}
