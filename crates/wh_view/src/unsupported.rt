//! Lists the kinds of events that the reader of histories does not support.

ghost use Rattle.std.specs.Prelude.{◌≡◌, IfOk, OnOk, count_by, option_map};
ghost use Rattle.wh_view.specs.Unsupported.{is_unsupported, same_kind, fault_at, is_among};
ghost use Rattle.wh_view.specs.Unsupported.{kind_at, with_kind, unsupported_kinds};

use crate::view::{UnsupportedKind, ViewedEvent};
use std::alloc::Global;
use wh_events::OutOfMemory;
use wh_json::ReadFault;

/// Returns whether an event is refused because its type, or its marker's name, is not supported.
fn is_unsupported(fault: &Option<ReadFault>) -> bool
    ensures { result ≡ is_unsupported fault.now }
{
    matches!(
        fault,
        Some(ReadFault::UnsupportedEvent { .. } | ReadFault::UnsupportedMarker { .. })
    )
}

/// Returns whether two events are refused for the same type, or for markers of the same name.
fn same_kind(one: &Option<ReadFault>, other: &Option<ReadFault>) -> bool
    ensures { result ≡ same_kind one.now other.now }
{
    match (one, other) {
        (
            Some(ReadFault::UnsupportedEvent { at: _, name }),
            Some(ReadFault::UnsupportedEvent { at: _, name: other }),
        ) => name.get() == other.get(),
        (
            Some(ReadFault::UnsupportedMarker { at: _, name }),
            Some(ReadFault::UnsupportedMarker { at: _, name: other }),
        ) => name.get() == other.get(),
        _ => false,
    }
}

/// Returns whether the first event of a kind is refused for the same reason.
fn is_of(events: &[ViewedEvent], fault: &Option<ReadFault>, kind: &UnsupportedKind) -> bool
    ensures { result ≡ same_kind (fault_at events.now kind.now.first) fault.now }
{
    match events.get(kind.first) {
        Some(event) => same_kind(&event.read.fault, fault),
        None => false,
    }
}

/// Returns whether an event is of one of the kinds.
fn is_among(events: &[ViewedEvent], fault: &Option<ReadFault>, kinds: &[UnsupportedKind]) -> bool
    ensures { result ≡ is_among events.now fault.now kinds.now }
{
    kinds.iter().any(|kind| is_of(events, fault, kind))
}

/// Returns how many events are refused for the same reason.
fn count_of(events: &[ViewedEvent], fault: &Option<ReadFault>) -> usize
    ensures { result ≡ count_by (λ event. same_kind fault.now event.read.fault) events.now }
{
    events
        .iter()
        .filter(|event| same_kind(fault, &event.read.fault))
        .count()
}

/// Adds the kind of the event at an index, if it is a new one.
fn add_kind(
    events: &[ViewedEvent],
    fault: &Option<ReadFault>,
    first: usize,
    kinds: &mut Vec<UnsupportedKind>,
) -> Result<(), OutOfMemory>
    ensures { OnOk result (kinds.new.items ≡ with_kind events.now fault.now first kinds.old.items) }
{
    if is_unsupported(fault) && !is_among(events, fault, kinds.as_slice()) {
        let count = count_of(events, fault);
        kinds.push(UnsupportedKind { first, count })?;
    }
    Ok(())
}

/// Returns the kinds of events that are not supported, in the order of their first events.
pub(crate) fn unsupported_kinds(
    alloc: Global,
    events: &[ViewedEvent],
) -> Result<Vec<UnsupportedKind>, OutOfMemory>
    ensures { IfOk result (λ kinds. kinds.items ≡ unsupported_kinds events.now) }
{
    let mut kinds = Vec::new(alloc);
    for (index, event) in events.iter().enumerate() {
        add_kind(events, &event.read.fault, index, &mut kinds)?;
    }
    Ok(kinds)
}
