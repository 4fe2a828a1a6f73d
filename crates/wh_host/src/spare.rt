//! A spare seat beside those of the workers.

ghost use Rattle.std.specs.Prelude.{◌≡◌, ◌≤◌, ◌<◌, ◌+◌, ◌++◌, ◌↔◌, length, vec_capacity, vec_len};
ghost use Rattle.wh_slots.specs.Sizes.{IsConfig};
ghost use Rattle.wh_host.specs.Spares.{spare_seats, with_spare};

use crate::ledger::Seat;
use std::sync::ledger::Ledger;
use wh_slots::{Config, MOST_SEATS};

/// Returns the sizes of a host with one seat more, if `is_wanted` is set, there is a seat, and a
/// host may have one more. Else returns the sizes as they are.
pub fn with_spare(config: Config, is_wanted: bool) -> Config
    ensures sizes { result ≡ with_spare config is_wanted }
    ensures seats { (config.seats ≤ result.seats) × (result.seats ≤ config.seats + 1) }
    ensures fits { IsConfig result ↔ IsConfig config }
{
    if is_wanted && 0 < config.seats && config.seats < MOST_SEATS {
        Config {
            seats: config.seats + 1,
            ..config
        }
    } else {
        config
    }
}

/// Takes out the spare seat beside one seat for each of the workers, if there is one. The list
/// keeps the room for it.
pub fn take_spare<T: Ledger, C: Ledger, F: Ledger>(
    seats: &mut Vec<Seat<T, C, F>>,
    workers: usize,
) -> Option<Seat<T, C, F>>
    requires { (workers ≤ vec_len seats.old) × (vec_len seats.old ≤ workers + 1) }
    ensures workers { vec_len seats.new ≡ workers }
    ensures all { seats.old.items ≡ seats.new.items ++ spare_seats result }
    ensures room { vec_len seats.new + length (spare_seats result) ≤ vec_capacity seats.new }
{
    if seats.len() <= workers {
        return None;
    }
    seats.pop()
}

/// Puts the spare seat back, if one was taken out. The list has room for it.
pub fn put_spare<T: Ledger, C: Ledger, F: Ledger>(
    seats: &mut Vec<Seat<T, C, F>>,
    spare: Option<Seat<T, C, F>>,
)
    requires { vec_len seats.old + length (spare_seats spare) ≤ vec_capacity seats.old }
    ensures { seats.new.items ≡ seats.old.items ++ spare_seats spare }
{
    if let Some(seat) = spare {
        seats.push_reserved(seat);
    }
}
