// The lock and its turns.
ghost use Rattle.std.specs.Prelude.{◌≡◌};

use crate::lock_table::{LockSeat, LockTable};
use crate::logged::Logged;
use std::marker::Model;

mod calls;
mod seats;

/// The most seats that a lock may have.
pub const SEAT_LIMIT: u32 = 64;

/// A ticket lock round a value that stands for a list of events, the history.
///
/// After the ticket lock of Mellor-Crummey and Scott, "Algorithms for scalable synchronization on
/// shared-memory multiprocessors" (1991). Threads share it by reference. Where it is dropped, the
/// value is dropped with it.
#[derive(Drop)]
pub struct TurnLock<V: Logged> {
    lock_table: LockTable<V>,
}

impl<V: Logged> Model for TurnLock<V> {
    ghost use Rattle.std.specs.Prelude.{◌<◌};
    ghost use Rattle.turn_lock.specs.Turns.{LockFacts};

    ghost Value = { LockFacts V.Base };

    ghost view = { λ l. record { table = l.lock_table.table.shared.table_id; base = V.base l.lock_table.table.shared.key.start.value; seats = l.lock_table.table.shared.key.seats } };

    ghost invariant = { λ l. 0 < l.lock_table.table.shared.key.seats };
}

/// A seat at the lock. Who has it may take turns, on any thread.
///
/// It has no bytes. Contracts see what it knows of the history: a `Token`. A lock that lost a turn
/// can be dropped, and not closed.
#[derive(Drop)]
pub struct Turn<V: Logged> {
    seat: LockSeat<V>,
}

impl<V: Logged> Model for Turn<V> {
    ghost use Rattle.turn_lock.specs.Turns.{Token, token_of, Rests};

    ghost Value = { Token V.Event V.Base };

    ghost view = { λ t. token_of t.seat.table_id t.seat.me.0 };

    ghost invariant = { λ t. Rests t.seat.me };
}
