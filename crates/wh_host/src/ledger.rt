//! Books that count tasks taken, completed and failed, and the seats whose shares add up to them.
//!
//! Each worker counts on a seat of its own. The workers share the books. An addition raises one
//! book and the same share of one seat. Shares can't be copied or made up, so the sums of all
//! gathered seats are the books. The three ledgers are of `std::sync::ledger`: `T` counts tasks
//! taken, `C` tasks completed and `F` tasks failed. Each is cut into as many parts as there are
//! seats.

ghost use Rattle.std.specs.Prelude.{◌≡◌, ◌+◌, ◌-◌, ◌<◌, ◌↔◌, ◌^◌, IfOk, IfErr, IsErr, vec_len};
ghost use Rattle.std.specs.Prelude.{replicate};
ghost use Rattle.wh_host.specs.Shares.{no_shares, sums_of, IsWithin, IsSumOf};

use std::alloc::Global;
use std::marker::Model;
use std::sync::ledger::{Blank, Book, Ledger, Share};
use wh_events::OutOfMemory;

/// How many tasks were taken, completed and failed.
#[derive(Clone, Copy, PartialEq, Eq, Debug)]
pub struct Shares {
    /// Tasks that used a slot.
    pub taken: u64,
    /// Tasks that were finished as completed.
    pub completed: u64,
    /// Tasks that were finished as failed.
    pub failed: u64,
}

impl Shares {
    /// Nothing was counted.
    pub const NONE: Shares = Shares {
        taken: 0,
        completed: 0,
        failed: 0,
    };
}

/// What all seats together counted. Contracts see the three totals.
#[derive(Drop)]
pub struct Books<T: Ledger, C: Ledger, F: Ledger> {
    seats: usize,
    totals: Shares,
    taken: Book<T>,
    completed: Book<C>,
    failed: Book<F>,
}

impl<T: Ledger, C: Ledger, F: Ledger> Model for Books<T, C, F> {
    ghost use Rattle.std.specs.Prelude.{◌≡◌, ◌<◌};
    ghost use Rattle.wh_host.specs.declared.ledger.Shares.{Shares};

    ghost Value = { Shares };

    ghost view = { λ b. b.totals };

    ghost invariant = { λ b.
        (b.taken.total ≡ b.totals.taken)
        × (b.completed.total ≡ b.totals.completed)
        × (b.failed.total ≡ b.totals.failed)
        × (0 < b.seats)
        × (b.seats ≡ T.parts)
        × (b.seats ≡ C.parts)
        × (b.seats ≡ F.parts) };
}

/// The seat of one worker. Contracts see what it counted. If a seat is dropped, the books can't be
/// gathered any more.
#[derive(Drop)]
pub struct Seat<T: Ledger, C: Ledger, F: Ledger> {
    shares: Shares,
    taken: Share<T>,
    completed: Share<C>,
    failed: Share<F>,
}

impl<T: Ledger, C: Ledger, F: Ledger> Model for Seat<T, C, F> {
    ghost use Rattle.std.specs.Prelude.{◌≡◌};
    ghost use Rattle.wh_host.specs.declared.ledger.Shares.{Shares};

    ghost Value = { Shares };

    ghost view = { λ s. s.shares };

    ghost invariant = { λ s.
        (s.taken.parts ≡ 1)
        × (s.completed.parts ≡ 1)
        × (s.failed.parts ≡ 1)
        × (s.taken.amount ≡ s.shares.taken)
        × (s.completed.amount ≡ s.shares.completed)
        × (s.failed.amount ≡ s.shares.failed) };
}

impl<T: Ledger, C: Ledger, F: Ledger> Seat<T, C, F> {
    /// Returns what this seat counted.
    pub fn share(&self) -> Shares
        ensures { result ≡ self.now }
    {
        self.shares
    }
}

/// The error of a call that got fewer seats to gather than were opened.
#[derive(Clone, Copy, PartialEq, Eq, Debug)]
pub struct SeatsMissing;

impl<T: Ledger, C: Ledger, F: Ledger> Books<T, C, F> {
    /// Opens empty books and `seats` empty seats, over three new ledgers that are cut into as many
    /// parts. Returns `OutOfMemory` if there was no memory for the seats. The ledgers are spent
    /// then. No later call allocates.
    pub fn open(
        alloc: Global,
        seats: usize,
        taken: Blank,
        completed: Blank,
        failed: Blank,
    ) -> Result<(Books<T, C, F>, Vec<Seat<T, C, F>>), OutOfMemory>
        requires some { 0 < seats }
        requires taken { (taken.name ≡ T.name) × (taken.parts ≡ T.parts) × (taken.parts ≡ seats) }
        requires completed { (completed.name ≡ C.name) × (completed.parts ≡ C.parts) × (completed.parts ≡ seats) }
        requires failed { (failed.name ≡ F.name) × (failed.parts ≡ F.parts) × (failed.parts ≡ seats) }
        ensures books { IfOk result (λ opened. opened.0 ≡ no_shares) }
        ensures seats { IfOk result (λ opened. opened.1.items ≡ replicate seats no_shares) }
    {
        let (taken, mut taken_left) = taken.open::<T>();
        let (completed, mut completed_left) = completed.open::<C>();
        let (failed, mut failed_left) = failed.open::<F>();
        let mut all = Vec::new(alloc);
        for _seat in 0..seats {
            all.push(Seat {
                shares: Shares::NONE,
                taken: taken_left.split_off(1, 0),
                completed: completed_left.split_off(1, 0),
                failed: failed_left.split_off(1, 0),
            })?;
        }
        Ok((
            Books {
                seats,
                totals: Shares::NONE,
                taken,
                completed,
                failed,
            },
            all,
        ))
    }

    /// Returns what all seats together counted.
    pub fn totals(&self) -> Shares
        ensures { result ≡ self.now }
    {
        self.totals
    }

    /// Compares a seat with the books: none of its shares is above its book. Nothing changes.
    pub fn audit(&mut self, seat: &mut Seat<T, C, F>)
        ensures books { self.new ≡ self.old }
        ensures seat { seat.new ≡ seat.old }
        ensures within { IsWithin seat.old self.old }
    {
        let Books {
            taken,
            completed,
            failed,
            ..
        } = self;
        let Seat {
            taken: my_taken,
            completed: my_completed,
            failed: my_failed,
            ..
        } = seat;
        taken.audit(my_taken);
        completed.audit(my_completed);
        failed.audit(my_failed);
    }

    /// Counts one more task as taken: the book and the seat's share of it rise by one.
    pub fn add_taken(&mut self, seat: &mut Seat<T, C, F>)
        requires { self.old.taken < 2 ^ 64 - 1 }
        ensures books { self.new ≡ record self.old { taken = self.old.taken + 1 } }
        ensures seat { seat.new ≡ record seat.old { taken = seat.old.taken + 1 } }
    {
        let Books { totals, taken, .. } = self;
        let Seat {
            shares,
            taken: mine,
            ..
        } = seat;
        taken.audit(mine);
        taken.add(mine, 1);
        totals.taken += 1;
        shares.taken += 1;
    }

    /// Counts one more task as completed: the book and the seat's share of it rise by one.
    pub fn add_completed(&mut self, seat: &mut Seat<T, C, F>)
        requires { self.old.completed < 2 ^ 64 - 1 }
        ensures books { self.new ≡ record self.old { completed = self.old.completed + 1 } }
        ensures seat { seat.new ≡ record seat.old { completed = seat.old.completed + 1 } }
    {
        let Books {
            totals,
            completed,
            ..
        } = self;
        let Seat {
            shares,
            completed: mine,
            ..
        } = seat;
        completed.audit(mine);
        completed.add(mine, 1);
        totals.completed += 1;
        shares.completed += 1;
    }

    /// Counts one more task as failed: the book and the seat's share of it rise by one.
    pub fn add_failed(&mut self, seat: &mut Seat<T, C, F>)
        requires { self.old.failed < 2 ^ 64 - 1 }
        ensures books { self.new ≡ record self.old { failed = self.old.failed + 1 } }
        ensures seat { seat.new ≡ record seat.old { failed = seat.old.failed + 1 } }
    {
        let Books { totals, failed, .. } = self;
        let Seat {
            shares,
            failed: mine,
            ..
        } = seat;
        failed.audit(mine);
        failed.add(mine, 1);
        totals.failed += 1;
        shares.failed += 1;
    }

    /// Adds up the shares of all seats, and returns the sums, which are the books. If there are
    /// fewer seats than were opened, returns `SeatsMissing`, and the books and seats as they were.
    pub fn gather(
        self,
        seats: Vec<Seat<T, C, F>>,
    ) -> Result<Shares, (Books<T, C, F>, Vec<Seat<T, C, F>>, SeatsMissing)>
        ensures books { IfOk result (λ shares. shares ≡ self) }
        ensures sums { IfOk result (λ shares. shares ≡ sums_of seats.items) }
        ensures missing { IsErr result ↔ (vec_len seats < T.parts) }
        ensures books_back { IfErr result (λ refused. refused.0 ≡ self) }
        ensures seats_back { IfErr result (λ refused. refused.1 ≡ seats) }
    {
        if seats.len() < self.seats {
            return Err((self, seats, SeatsMissing));
        }
        let Books {
            seats: _,
            totals,
            mut taken,
            mut completed,
            mut failed,
        } = self;
        let (mut all_taken, mut all_completed, mut all_failed) = merge_all(seats);
        taken.audit(&mut all_taken);
        completed.audit(&mut all_completed);
        failed.audit(&mut all_failed);
        Ok(totals)
    }
}

/// Merges the shares of all seats, at least one, into one share of each ledger.
fn merge_all<T: Ledger, C: Ledger, F: Ledger>(
    mut seats: Vec<Seat<T, C, F>>,
) -> (Share<T>, Share<C>, Share<F>)
    requires some { 0 < vec_len seats }
    requires parts { (0 < T.parts) × (0 < C.parts) × (0 < F.parts) }
    ensures taken { IsSumOf T.parts (λ s. s.taken) seats.items result.0.parts result.0.amount }
    ensures completed { IsSumOf C.parts (λ s. s.completed) seats.items result.1.parts result.1.amount }
    ensures failed { IsSumOf F.parts (λ s. s.failed) seats.items result.2.parts result.2.amount }
{
    let Some(first) = seats.pop() else {
        unreachable!()
    };
    let Seat {
        shares: _,
        taken: mut all_taken,
        completed: mut all_completed,
        failed: mut all_failed,
    } = first;
    while let Some(seat) = seats.pop() {
        let Seat {
            shares: _,
            taken,
            completed,
            failed,
        } = seat;
        all_taken.merge(taken);
        all_completed.merge(completed);
        all_failed.merge(failed);
    }
    (all_taken, all_completed, all_failed)
}
