//! The events of a run with the tables of what they opened.

ghost use Rattle.std.specs.Prelude.{◌≡◌, IsTrue, ◌-◌, ◌+◌, ◌<◌, ◌≤◌, ◌↔◌, ◌++◌, ◌∷◌, [], true, not};
ghost use Rattle.std.specs.Prelude.{is_some, length, option_copied, slice_get, OnOk, OnErr, IfOk};
ghost use Rattle.std.specs.Prelude.{IfSome, Option, None, List, ℕ, vec_len};
ghost use Rattle.std.specs.Vec.{vec_capacity};
ghost use Rattle.wh_events.specs.Kinds.{role_of, role_seen};
ghost use Rattle.wh_events.specs.Machines as machines;
ghost use Rattle.wh_events.specs.Places as places;
ghost use Rattle.wh_events.specs.declared.place.PlaceFault.{PlaceFault};
ghost use Rattle.wh_machines.specs.Private.Changes.{things_after, names_after};
ghost use Rattle.wh_machines.specs.Private.Jumps.{IsAlike};
ghost use Rattle.wh_machines.specs.Lookups.{thing_of, last_at, events_between};
ghost use Rattle.wh_machines.specs.Private.Tables.{IsSound, opening_in, named_in};

use crate::fault::PushFault;
use crate::jumps::{Jump, NO_JUMP, jump_to, step_back};
use crate::names::Names;
use crate::note::note;
use crate::openings::Openings;
use crate::place;
use std::alloc::Global;
use std::marker::Model;
use wh_events::{
    Event, EventNo, MOST_EVENTS, OpenKind, OutOfMemory, PlaceFault, Role, Status, Thing,
};

/// The events of a run, each in place after those before it, and tables of what they opened (the
/// kinds of events: <https://docs.temporal.io/references/events>). Contracts see the list of the
/// events, and each look-up is its definition over that list.
#[derive(Drop)]
pub struct Track {
    events: Vec<Event>,
    over: bool,
    openings: Openings,
    names: Names,
    jumps: Vec<Jump>,
    alloc: Global,
}

impl Model for Track {
    ghost use Rattle.std.specs.Prelude.{List};
    ghost use Rattle.wh_events.specs.declared.event.Event.{Event};
    ghost use Rattle.wh_machines.specs.Private.Tables.{IsTracked};

    ghost Value = { List Event };

    ghost view = { λ t. t.events.items };

    ghost invariant = { λ t. IsTracked t.events.items t.over t.openings t.names t.jumps.items };
}

/// Makes room for an event of that number and role, and enters it in the tables. After
/// `OutOfMemory` the tables are as they were.
fn admit(
    alloc: Global,
    events: &mut Vec<Event>,
    jumps: &mut Vec<Jump>,
    openings: &mut Openings,
    names: &mut Names,
    number: EventNo,
    role: Role<'_>,
) -> Result<(), OutOfMemory>
    requires sound { IsSound openings.old }
    requires unknown { opening_in openings.old number ≡ None }
    ensures events { events.new.items ≡ events.old.items }
    ensures jumps { jumps.new.items ≡ jumps.old.items }
    ensures event_room { OnOk result (vec_len events.new < vec_capacity events.new) }
    ensures jump_room { OnOk result (vec_len jumps.new < vec_capacity jumps.new) }
    ensures sound { IsSound openings.new }
    ensures opened { OnOk result ((opened : ℕ) → opening_in openings.new opened
        ≡ things_after (role_seen role.entry) number (named_in names.old) (opening_in openings.old) opened) }
    ensures named { OnOk result ((thing : Thing) (id : List ℕ) → named_in names.new thing id
        ≡ names_after (role_seen role.entry) number (named_in names.old) thing id) }
    ensures same_opened { OnErr result ((n : ℕ) → opening_in openings.new n ≡ opening_in openings.old n) }
    ensures same_named { OnErr result ((t : Thing) (id : List ℕ) → named_in names.new t id ≡ named_in names.old t id) }
{
    events.reserve(1)?;
    jumps.reserve(1)?;
    note(alloc, openings, names, number, role)
}

impl Track {
    /// Returns a track without events. It takes no memory until the first push.
    pub fn new(alloc: Global) -> Self
        ensures { result ≡ [] }
    {
        Track {
            events: Vec::new(alloc),
            over: false,
            openings: Openings::new(alloc),
            names: Names::new(alloc),
            jumps: Vec::new(alloc),
            alloc,
        }
    }

    /// Appends an event that is in place after those before it. Fails with `Place` if it is not,
    /// with the least fault that it has. `Place` comes before `OutOfMemory`. After either the track
    /// is as it was, its tables too, and the event is dropped.
    pub fn push(&mut self, event: Event) -> Result<(), PushFault>
        ensures fault { (fault : PlaceFault) → (result ≡ Err (PushFault.Place fault))
            ↔ (places.place_fault self.old event ≡ Some fault) }
        ensures ok { OnOk result (self.new ≡ self.old ++ event ∷ []) }
        ensures err { OnErr result (self.new ≡ self.old) }
    {
        let role = event.role();
        if let Some(fault) = self.place_fault(&event, role) {
            drop(event);
            return Err(PushFault::Place(fault));
        }
        let jump = self.jump_of(role);
        let noted = admit(
            self.alloc,
            &mut self.events,
            &mut self.jumps,
            &mut self.openings,
            &mut self.names,
            event.number,
            role,
        );
        match noted {
            Ok(()) => {
                self.over = event.closes_run();
                self.events.push_reserved(event);
                self.jumps.push_reserved(jump);
                Ok(())
            }
            Err(full) => {
                drop(event);
                Err(PushFault::from(full))
            }
        }
    }

    /// Returns how many events are held, at most 51,200. They are in place.
    pub fn len(&self) -> usize
        ensures len { result ≡ length self.now }
        ensures in_place { places.fault_after [] self.now ≡ None }
    {
        self.events.len()
    }

    /// Returns whether no event is held.
    pub fn is_empty(&self) -> bool
        ensures { IsTrue result ↔ (self.now ≡ []) }
    {
        self.events.is_empty()
    }

    /// Returns all events. They are in place.
    pub fn events(&self) -> &[Event]
        ensures events { result.now ≡ self.now }
        ensures in_place { places.fault_after [] self.now ≡ None }
    {
        self.events.as_slice()
    }

    /// Returns the status of the thing that the event of the number opened, after all events.
    /// Returns `None` if there is no such event or it opened nothing.
    pub fn status(&self, number: EventNo) -> Option<Status>
        ensures { result ≡ machines.status_at self.now number }
    {
        let opening = self.openings.find(number.get())?;
        Some(opening.status_up_to(self.events.len() as u64))
    }

    /// Returns the number of the open thing of a kind and an id, or `None` if each of them is
    /// closed.
    pub fn open_named(&self, kind: OpenKind, id: &str) -> Option<EventNo>
        ensures { result ≡ machines.open_named self.now (thing_of kind) id.now }
    {
        self.open_thing(kind.thing(), id)
    }

    /// Returns the number of the last thing that was opened of a kind under an id, whether it is
    /// open or closed.
    pub fn last_named(&self, kind: OpenKind, id: &str) -> Option<EventNo>
        ensures { result ≡ machines.last_named self.now (thing_of kind) id.now }
    {
        self.names.last(kind.thing(), id)
    }

    /// Returns the last thing of a kind and an id among the events up to the number `place`, and
    /// its status there, as if no event followed.
    pub fn last_at(&self, kind: OpenKind, id: &str, place: u64) -> Option<(EventNo, Status)>
        ensures { result ≡ last_at self.now (thing_of kind) id.now place }
    {
        let mut last = self.names.last(kind.thing(), id);
        while let Some(number) = last {
            let opening = self.openings.find(number.get())?;
            if number.get() <= place {
                return Some((number, opening.status_up_to(place)));
            }
            last = step_back(&self.jumps, number, opening.previous, place);
        }
        None
    }

    /// Returns the event of a number, if it is held.
    pub fn event(&self, number: EventNo) -> Option<&Event>
        ensures { option_copied result ≡ slice_get self.now (number - 1) }
    {
        let index = number.get() - 1;
        if index < self.events.len() as u64 {
            Some(&self.events[index as usize])
        } else {
            None
        }
    }

    /// Returns the events strictly between two numbers. Number 0 stands before the first event, and
    /// one more than their count after the last.
    pub fn between(&self, from: u64, to: u64) -> &[Event]
        requires rising { from < to }
        requires within { to ≤ length self.now + 1 }
        ensures { result.now ≡ events_between self.now from to }
    {
        &self.events[from as usize..(to - 1) as usize]
    }

    /// Returns a track of the same events. Fails with `OutOfMemory` if there was no memory for it;
    /// this track stays as it is.
    pub fn try_copy(&self) -> Result<Self, OutOfMemory>
        ensures { IfOk result (λ copy. copy ≡ self.now) }
    {
        let mut copy = Track::new(self.alloc);
        self.copy_into(&mut copy)?;
        Ok(copy)
    }

    /// Returns the events in their order, without copies.
    pub fn into_events(self) -> Vec<Event>
        ensures { result.items ≡ self }
    {
        let Track { events, .. } = self;
        events
    }

    /// Pushes copies of the events onto a track without events. After `OutOfMemory` some of them
    /// may be there.
    fn copy_into(&self, copy: &mut Track) -> Result<(), OutOfMemory>
        requires { copy.old ≡ [] }
        ensures { OnOk result (copy.new ≡ self.now) }
    {
        for event in &self.events {
            match copy.push(event.try_copy()?) {
                Ok(()) => {}
                Err(PushFault::OutOfMemory) => return Err(OutOfMemory),
                Err(PushFault::Place(_)) => unreachable!(),
            }
        }
        Ok(())
    }

    /// Returns the number of the open thing of a kind and an id.
    fn open_thing(&self, thing: Thing, id: &str) -> Option<EventNo>
        requires { places.is_named thing ≡ true }
        ensures { result ≡ machines.open_named self.now thing id.now }
    {
        let number = self.names.last(thing, id)?;
        let opening = self.openings.find(number.get())?;
        if opening.closed.is_none() {
            Some(number)
        } else {
            None
        }
    }

    /// Returns the jump of the thing that an event of the role opens next.
    fn jump_of(&self, role: Role<'_>) -> Jump
        ensures { IfSome result.to (IsAlike self.now (role_seen role.entry)) }
    {
        let Role::Opens { thing, id } = role else {
            return NO_JUMP;
        };
        match self.names.last(thing, id) {
            Some(previous) => jump_to(&self.jumps, previous),
            None => NO_JUMP,
        }
    }

    /// Returns the least fault of the event, which has the role, after those before it.
    #[tactic(auto, unfolding(wh_events::specs::Places::place_fault))]
    fn place_fault(&self, event: &Event, role: Role<'_>) -> Option<PlaceFault>
        requires { role_seen role ≡ role_of event.now.body }
        ensures { result ≡ places.place_fault self.now event.now }
    {
        let len = self.events.len() as u64;
        if (len == 0) != place::is_start(event) {
            return Some(PlaceFault::FirstNotStart);
        }
        if event.number.get() - 1 != len {
            return Some(PlaceFault::WrongNumber);
        }
        if self.over {
            return Some(PlaceFault::AfterClose);
        }
        if let Some(fault) = self.role_fault(role) {
            return Some(fault);
        }
        if len >= MOST_EVENTS {
            return Some(PlaceFault::TooManyEvents);
        }
        None
    }

    /// Returns the least fault in what an event of the role does to the things of the events.
    fn role_fault(&self, role: Role<'_>) -> Option<PlaceFault>
        ensures { result ≡ places.role_fault self.now (role_seen role.entry) }
    {
        match role {
            Role::Opens { thing, id } => {
                if place::is_named(thing) && self.open_thing(thing, id).is_some() {
                    Some(PlaceFault::IdInUse)
                } else {
                    None
                }
            }
            Role::Refers { thing, number, .. } => self.reference_fault(thing, number),
            Role::CancelsChild { workflow_id } => {
                if self.open_thing(Thing::Child, workflow_id).is_none() {
                    Some(PlaceFault::NoSuchRef)
                } else {
                    None
                }
            }
            Role::Plain => None,
        }
    }

    /// Returns why an event can't refer to a thing.
    #[tactic(auto, unfolding(wh_events::specs::Places::reference_fault))]
    fn reference_fault(&self, thing: Thing, number: u64) -> Option<PlaceFault>
        ensures { result ≡ places.reference_fault self.now thing number }
    {
        if number == 0 || (self.events.len() as u64) < number {
            Some(PlaceFault::NoSuchRef)
        } else if !place::opens_at(&self.events, thing, number) {
            Some(PlaceFault::WrongKindRef)
        } else {
            self.closed_fault(number)
        }
    }

    /// Returns the fault of a reference to a thing, if the thing is closed.
    fn closed_fault(&self, number: u64) -> Option<PlaceFault>
        requires opens { is_some (machines.opened_thing (machines.role_at self.now number)) ≡ true }
        requires positive { 0 < number }
        ensures { result ≡ places.fault_if (not (machines.is_open self.now number)) PlaceFault.AlreadyClosed }
    {
        match self.openings.find(number) {
            Some(opening) if opening.closed.is_some() => Some(PlaceFault::AlreadyClosed),
            _ => None,
        }
    }
}
