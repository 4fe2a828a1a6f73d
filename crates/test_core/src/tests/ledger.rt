//! Shares and totals, gathered when all seats are there.

ghost use Rattle.std.specs.Prelude.{◌≡◌};

use std::alloc::Global;
use std::marker::Brand;
use std::process::Abort;
use std::sync::ledger::{Blank, Ledger};
use test_support::push;
use wh_host::{Books, Seat, SeatsMissing, Shares};

/// With a seat missing the books are returned, with the seats that are there.
fn not_gathered<T: Ledger, C: Ledger, F: Ledger>(
    rt: &impl Abort,
    books: Books<T, C, F>,
    seats: Vec<Seat<T, C, F>>,
) -> (Books<T, C, F>, Vec<Seat<T, C, F>>) {
    match books.gather(seats) {
        Ok(_) => panic!(rt; "gathered with a seat missing"),
        Err((books, seats, SeatsMissing)) => (books, seats),
    }
}

/// The sums of all seats.
fn gathered<T: Ledger, C: Ledger, F: Ledger>(
    rt: &impl Abort,
    books: Books<T, C, F>,
    seats: Vec<Seat<T, C, F>>,
) -> Shares {
    match books.gather(seats) {
        Ok(sums) => sums,
        Err(_) => panic!(rt; "not gathered"),
    }
}

/// Three seats count. With two of them nothing is gathered, with all three their sums are.
fn day<T: Ledger, C: Ledger, F: Ledger>(
    rt: &impl Abort,
    alloc: Global,
    taken: Blank,
    completed: Blank,
    failed: Blank,
) -> (Shares, Shares)
    requires taken { (taken.name ≡ T.name) × (taken.parts ≡ T.parts) × (taken.parts ≡ 3) }
    requires completed { (completed.name ≡ C.name) × (completed.parts ≡ C.parts) × (completed.parts ≡ 3) }
    requires failed { (failed.name ≡ F.name) × (failed.parts ≡ F.parts) × (failed.parts ≡ 3) }
{
    let opened = Books::<T, C, F>::open(alloc, 3, taken, completed, failed);
    let (mut books, mut seats) = opened.expect(rt, "memory");
    let mut first = seats.pop().expect(rt, "seat");
    let mut second = seats.pop().expect(rt, "seat");
    books.add_taken(&mut first);
    books.add_taken(&mut first);
    books.add_taken(&mut second);
    books.add_completed(&mut first);
    books.add_failed(&mut second);
    let totals = books.totals();
    push(&mut seats, second).expect(rt, "memory");
    let (books, mut seats) = not_gathered(rt, books, seats);
    push(&mut seats, first).expect(rt, "memory");
    (totals, gathered(rt, books, seats))
}

#[test]
fn totals_are_sums(rt: HostRuntime) {
    let (totals, sums) = day::<Brand, Brand, Brand>(
        &rt,
        rt.alloc(),
        Blank::new(3),
        Blank::new(3),
        Blank::new(3),
    );
    let counted = Shares {
        taken: 3,
        completed: 1,
        failed: 1,
    };
    assert!(rt; totals == counted);
    assert!(rt; sums == counted);
}
