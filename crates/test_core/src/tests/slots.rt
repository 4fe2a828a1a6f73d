//! Task slots: rows of reserving, using and freeing.

use std::alloc::Global;
use std::process::Abort;
use test_support::{same, shown, wants};
use wh_slots::{Held, Permit, SlotKind, Slots, TaskName};

/// Reserves a slot, whose text is this.
fn reserve(rt: &impl Abort, alloc: Global, slots: &mut Slots, wanted: &str) -> Permit {
    let permit = slots.reserve().expect(rt, "reserve");
    let words = shown(alloc, &permit).expect(rt, "memory");
    same(alloc, words.as_str(), wanted).expect(rt, "reserve");
    permit
}

/// No slot can be reserved, for this reason.
fn reserve_fails(rt: &impl Abort, alloc: Global, slots: &mut Slots, wanted: &str) {
    wants(alloc, slots.reserve().err(), wanted).expect(rt, "reserve");
}

/// Frees a reserved slot.
fn release(rt: &impl Abort, slots: &mut Slots, permit: Permit) {
    slots.release(permit).expect(rt, "release");
}

/// The one slot is held, for task 7.
fn holds(rt: &impl Abort, alloc: Global, slots: &mut Slots, permit: Permit) -> Held {
    let held = slots.use_slot(permit, TaskName(7)).expect(rt, "use");
    let words = shown(alloc, &held).expect(rt, "memory");
    same(alloc, words.as_str(), "Held kind: Workflow, number: 2").expect(rt, "use");
    let wanted = "SlotCount free: 0, reserved: 0, held: 1";
    wants(alloc, slots.count(), wanted).expect(rt, "count");
    held
}

#[test]
fn a_slot_is_reserved_used_and_freed(rt: HostRuntime) {
    let alloc = rt.alloc();
    let mut slots = Slots::open(alloc, SlotKind::Workflow, 1).expect(&rt, "memory");
    let permit = reserve(&rt, alloc, &mut slots, "Permit kind: Workflow, number: 1");
    reserve_fails(&rt, alloc, &mut slots, "Some(NoSlot)");
    release(&rt, &mut slots, permit);
    let permit = reserve(&rt, alloc, &mut slots, "Permit kind: Workflow, number: 2");
    let held = holds(&rt, alloc, &mut slots, permit);
    slots.free(held).expect(&rt, "free");
    slots.drain();
    reserve_fails(&rt, alloc, &mut slots, "Some(Draining)");
}

/// Task 7 is held already: the permit is returned, and is valid.
fn use_fails(rt: &impl Abort, alloc: Global, slots: &mut Slots, permit: Permit) {
    let Err((permit, fault)) = slots.use_slot(permit, TaskName(7)) else {
        panic!(rt; "used twice")
    };
    wants(alloc, fault, "TaskInHand").expect(rt, "use");
    release(rt, slots, permit);
}

#[test]
fn a_task_holds_one_place(rt: HostRuntime) {
    let alloc = rt.alloc();
    let mut slots = Slots::open(alloc, SlotKind::Workflow, 2).expect(&rt, "memory");
    let first = reserve(&rt, alloc, &mut slots, "Permit kind: Workflow, number: 1");
    let second = reserve(&rt, alloc, &mut slots, "Permit kind: Workflow, number: 2");
    assert!(rt; slots.use_slot(first, TaskName(7)).is_ok());
    use_fails(&rt, alloc, &mut slots, second);
}

#[test]
fn numbers_are_spent(rt: HostRuntime) {
    let alloc = rt.alloc();
    let next = 9_223_372_036_854_775_807;
    let mut slots = Slots::starting_at(alloc, SlotKind::Workflow, 1, next).expect(&rt, "memory");
    let wanted = "Permit kind: Workflow, number: 9223372036854775807";
    let permit = reserve(&rt, alloc, &mut slots, wanted);
    release(&rt, &mut slots, permit);
    reserve_fails(&rt, alloc, &mut slots, "Some(NumbersSpent)");
}
