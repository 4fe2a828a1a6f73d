//! Jumps back over the things of one kind and id.

ghost use Rattle.std.specs.Prelude.{◌≡◌, IfSome, IsSome};
ghost use Rattle.wh_machines.specs.Private.Jumps.{jump_at, back_by, IsShort};

use wh_events::EventNo;

/// A jump from a thing back to an earlier one of its kind and id.
#[derive(Clone, Copy)]
pub(crate) struct Jump {
    /// The number of that earlier thing.
    pub(crate) to: Option<EventNo>,
    /// How many things of the kind and id are before this one.
    pub(crate) depth: u64,
}

/// The jump of an event that opens nothing, or the first thing of its kind and id.
pub(crate) const NO_JUMP: Jump = Jump { to: None, depth: 0 };

/// Returns the number to which the jump of the event of the number goes.
fn target(jumps: &[Jump], number: EventNo) -> Option<EventNo>
    ensures { result ≡ jump_at jumps.now number }
{
    match jumps.get((number.get() - 1) as usize) {
        Some(jump) => jump.to,
        None => None,
    }
}

/// Returns how many things of the same kind and id are before the event of the number.
fn depth(jumps: &[Jump], number: EventNo) -> u64 {
    match jumps.get((number.get() - 1) as usize) {
        Some(jump) => jump.depth,
        None => 0,
    }
}

/// Returns the jump of the thing that follows the one of the number. The jump goes to that one, or,
/// if two jumps from there are equally long, past both. So a walk back takes steps in proportion to
/// the logarithm of the things that it skips (E. W. Myers, "An applicative random-access stack",
/// 1983).
pub(crate) fn jump_to(jumps: &[Jump], previous: EventNo) -> Jump
    ensures some { IsSome result.to }
    ensures short { IfSome result.to (IsShort jumps.now previous) }
{
    let near = depth(jumps, previous);
    let next = near.saturating_add(1);
    if let Some(middle) = target(jumps, previous) {
        if let Some(far) = target(jumps, middle) {
            let halfway = depth(jumps, middle);
            if near.saturating_sub(halfway) == halfway.saturating_sub(depth(jumps, far)) {
                return Jump {
                    to: Some(far),
                    depth: next,
                };
            }
        }
    }
    Jump {
        to: Some(previous),
        depth: next,
    }
}

/// Returns the next thing of a walk back from a thing past the place: the one to which its jump
/// goes, if that is past the place too, else the one before it.
pub(crate) fn step_back(
    jumps: &[Jump],
    number: EventNo,
    previous: Option<EventNo>,
    place: u64,
) -> Option<EventNo>
    ensures { result ≡ back_by place (jump_at jumps.now number) previous }
{
    match target(jumps, number) {
        Some(to) if place < to.get() => Some(to),
        _ => previous,
    }
}
