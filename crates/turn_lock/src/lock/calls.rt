// The calls.
ghost use Rattle.std.specs.Prelude.{◌≡◌, ℕ, ◌<◌, ◌≤◌, [], length, count_by, slice_get, vec_len, All, Any, EachIndex, IfOk, Some};
ghost use Rattle.std.specs.Fn.{FnOnceReturnsAtMut, FnOnceTakesAtMut};
ghost use Rattle.turn_lock.specs.Lists.{Begins};
ghost use Rattle.turn_lock.specs.Turns.{newcomer, IsTurnOf, Finds, MayLeave, turned, times_made};

use super::seats::{deal, gather};
use super::{SEAT_LIMIT, Turn, TurnLock};
use crate::lock_table::LockTable;
use crate::logged::Logged;
use std::alloc::Global;
use std::sync::Wait;
use trk_base::NoMemory;

impl<V: Logged> TurnLock<V> {
    /// Makes a lock round the value, and a turn for each of its seats, numbered from 0 in their
    /// order.
    ///
    /// The turn of number 0 is the head. The value stands for no event yet.
    pub fn new(alloc: Global, value: V, seats: u32) -> Result<(TurnLock<V>, Vec<Turn<V>>), NoMemory>
        requires seats { (1 ≤ seats) × (seats ≤ SEAT_LIMIT) }
        requires empty { V.events value ≡ [] }
        ensures base { IfOk result (λ r. r.0.base ≡ V.base value) }
        ensures seats { IfOk result (λ r. (r.0.seats ≡ seats) × (vec_len r.1 ≡ seats)) }
        ensures turns { IfOk result (λ r. EachIndex r.1.items (λ n. slice_get r.1.items n ≡ Some (newcomer r.0 n))) }
    {
        let mut turns = Vec::with_capacity(alloc, seats as usize)?;
        let (lock_table, seat) = LockTable::open(alloc, value, seats)?;
        deal(&lock_table, seat, seats, &mut turns);
        Ok((TurnLock { lock_table }, turns))
    }

    /// Takes a turn: draws a ticket, waits until it is served, and calls once on the value.
    ///
    /// The value that is found stands for the history at this turn, which begins with all that the
    /// turn had seen. The call adds one event at most, and a publishing event at the head's turns
    /// alone. Then the turn has seen that history with the event, whose index is one of its own. It
    /// answers what the call answers.
    ///
    /// It takes no memory but what the call takes, and may wait for ever. A turn inside a turn
    /// never comes.
    pub fn with_turn<R, F: FnOnce(&mut V) -> R, W: Wait>(
        &self,
        rt: &W,
        turn: &mut Turn<V>,
        call: F,
    ) -> R
        requires own { IsTurnOf self.now turn.old }
        requires may { (x : V) → Finds V.events V.is_publish V.base self.now turn.old x → FnOnceTakesAtMut F.FnOnce call x }
        requires keeps { (x : V) (r : R) (y : V) → Finds V.events V.is_publish V.base self.now turn.old x → FnOnceReturnsAtMut F.FnOnce call x r y → MayLeave V.events V.is_publish V.base turn.old x y }
        ensures turn { (x : V) × (y : V) × Finds V.events V.is_publish V.base self.now turn.old x × FnOnceReturnsAtMut F.FnOnce call x result y × (turn.new ≡ turned turn.old (V.events x) (V.events y)) }
    {
        self.lock_table.take_turn(rt, &mut turn.seat, call)
    }

    /// The last published number, by one load. It waits for nobody.
    ///
    /// It is below none that this turn was told before, nor below that of the last publishing event
    /// that it has seen.
    pub fn fresh(&self, turn: &mut Turn<V>) -> u64
        requires own { IsTurnOf self.now turn.old }
        ensures told { turn.old.told ≤ result }
        ensures seen { count_by V.is_publish turn.old.seen ≤ result }
        ensures turn { turn.new ≡ record turn.old { told = result } }
    {
        self.lock_table.fresh(&mut turn.seat)
    }

    /// Gives the value back, for the turns of all seats in any order.
    ///
    /// Its list begins with all that each turn has seen, and each event of it stands at an index of
    /// exactly one turn. No turn was told a number that isn't published. It takes no memory.
    pub fn close(self, turns: Vec<Turn<V>>) -> V
        requires own { All (λ t. IsTurnOf self t) turns.items }
        requires all { (n : ℕ) → n < self.seats → Any (λ t. t.number ≡ n) turns.items }
        ensures base { V.base result ≡ self.base }
        ensures begins { All (λ t. Begins t.seen (V.events result)) turns.items }
        ensures made_once { (p : ℕ) → p < length (V.events result) → times_made p turns.items ≡ 1 }
        ensures made_within { (p : ℕ) → length (V.events result) ≤ p → times_made p turns.items ≡ 0 }
        ensures told { All (λ t. t.told ≤ count_by V.is_publish (V.events result)) turns.items }
    {
        let TurnLock { lock_table } = self;
        let seat = gather(&lock_table, turns);
        lock_table.close(seat)
    }
}
