//! The rules for the counters of rows.
ghost use Rattle.std.specs.Prelude.{◌≡◌};
ghost use Rattle.wh_rows.specs.Rows.{count_of};
ghost use Rattle.wh_rows.specs.Rules.{condition_bounded, conditions_bounded, effect_bounded, effects_bounded};
ghost use Rattle.wh_rows.specs.Rules.{place_of, implies, follows, all_follow};

use wh_rows::{Condition, Counter, Counters, RowEffect};

/// Returns the bound of a counter.
fn count_of(counter: Counter, bounds: Counters) -> u64
    ensures { result ≡ count_of counter bounds }
{
    match counter {
        Counter::A => bounds.a,
        Counter::B => bounds.b,
        Counter::C => bounds.c,
        Counter::D => bounds.d,
    }
}

/// Returns whether the condition compares with no number above the bound of its counter.
fn condition_bounded(bounds: Counters, condition: Condition) -> bool
    ensures { result ≡ condition_bounded bounds condition }
{
    match condition {
        Condition::Below(counter, number) => number <= count_of(counter, bounds),
        Condition::AtLeast(counter, number) => number <= count_of(counter, bounds),
    }
}

/// Returns whether no condition compares with a number above the bound of its counter.
pub(crate) fn conditions_bounded(bounds: Counters, conditions: &[Condition]) -> bool
    ensures { result ≡ conditions_bounded bounds conditions.now }
{
    for condition in conditions {
        if !condition_bounded(bounds, *condition) {
            return false;
        }
    }
    true
}

/// Returns whether the effect raises no counter without a bound.
fn effect_bounded(bounds: Counters, effect: RowEffect) -> bool
    ensures { result ≡ effect_bounded bounds effect }
{
    match effect {
        RowEffect::Up(counter) => 1 <= count_of(counter, bounds),
        _ => true,
    }
}

/// Returns whether no effect raises a counter without a bound.
pub(crate) fn effects_bounded(bounds: Counters, effects: &[RowEffect]) -> bool
    ensures { result ≡ effects_bounded bounds effects.now }
{
    for effect in effects {
        if !effect_bounded(bounds, *effect) {
            return false;
        }
    }
    true
}

/// Returns the place of a counter among the four.
fn place_of(counter: Counter) -> u8
    ensures { result ≡ place_of counter }
{
    match counter {
        Counter::A => 0,
        Counter::B => 1,
        Counter::C => 2,
        Counter::D => 3,
    }
}

/// Returns whether the other condition holds whenever the first does.
fn implies(condition: Condition, wanted: Condition) -> bool
    ensures { result ≡ implies condition wanted }
{
    match condition {
        Condition::Below(counter, number) => match wanted {
            Condition::Below(other, most) => place_of(counter) == place_of(other) && number <= most,
            Condition::AtLeast(_, _) => false,
        },
        Condition::AtLeast(counter, number) => match wanted {
            Condition::AtLeast(other, least) => {
                place_of(counter) == place_of(other) && least <= number
            }
            Condition::Below(_, _) => false,
        },
    }
}

/// Returns whether one of the given conditions implies this one.
fn follows(given: &[Condition], wanted: Condition) -> bool
    ensures { result ≡ follows given.now wanted }
{
    for condition in given {
        if implies(*condition, wanted) {
            return true;
        }
    }
    false
}

/// Returns whether each of the others is implied by one of the given conditions.
pub(crate) fn all_follow(given: &[Condition], wanted: &[Condition]) -> bool
    ensures { result ≡ all_follow given.now wanted.now }
{
    for condition in wanted {
        if !follows(given, *condition) {
            return false;
        }
    }
    true
}
