// How the table is opened and closed, and how its seats are made and joined.
ghost use Rattle.std.specs.Prelude.{◌≡◌, ℕ, ◌<◌, [], ◌∷◌, List, length, true, IfOk};
ghost use Rattle.turn_lock.specs.declared.rule.Stage.TheVariants.{Idle};
ghost use Rattle.turn_lock.specs.Lists.{is_member};
ghost use Rattle.turn_lock.specs.Rule.{beginner, IsWhole};
ghost use Rattle.turn_lock.specs.Steps.{view_of, slots_of, giver, given, both};

use super::{LockSeat, LockTable};
use crate::logged::Logged;
use crate::plays::{GiveAway, TakeIn};
use crate::rule::Key;
use atomic_table::Table;
use std::alloc::Global;
use std::snapshot::Snapshot;
use trk_base::NoMemory;

impl<V: Logged> LockTable<V> {
    // The table round the value, and its first seat, which has all numbers.
    pub(crate) fn open(
        alloc: Global,
        value: V,
        seats: u32,
    ) -> Result<(LockTable<V>, LockSeat<V>), NoMemory>
        requires { V.events value ≡ [] }
        ensures key { IfOk result (λ r. (V.base r.0.table.shared.key.start.value ≡ V.base value) × (r.0.table.shared.key.seats ≡ seats)) }
        ensures seat { IfOk result (λ r. (r.1.table_id ≡ r.0.table.shared.table_id) × (r.1.me ≡ (beginner (V.base value) seats, []))) }
    {
        let key = Key {
            start: Snapshot::of(&value),
            seats,
        };
        let mut slots = Vec::with_capacity(alloc, 1)?;
        slots.push_reserved(value);
        let Ok((table, seat)) = Table::new(alloc, &[0, 0, 0, 0], slots, &key) else {
            return Err(NoMemory);
        };
        Ok((LockTable { table }, seat))
    }

    // The seat gives its first number away, to a new seat.
    pub(crate) fn split(&self, seat: &mut LockSeat<V>) -> LockSeat<V>
        requires own { seat.old.table_id ≡ self.now.table.shared.table_id }
        requires idle { (view_of seat.old.me).stage ≡ Idle }
        requires more { (n : ℕ) × (ns : List ℕ) × ((view_of seat.old.me).numbers ≡ n ∷ ns) × (is_member 0 ns ≡ true) }
        ensures own { (seat.new.table_id ≡ seat.old.table_id) × (result.table_id ≡ seat.old.table_id) }
        ensures left { seat.new.me ≡ (giver (view_of seat.old.me), slots_of seat.old.me) }
        ensures right { result.me ≡ (given (view_of seat.old.me), []) }
    {
        self.table.shared.split_seat::<GiveAway>(seat)
    }

    // The seat takes in what another knows.
    pub(crate) fn join(&self, seat: &mut LockSeat<V>, other: LockSeat<V>)
        requires own { (seat.old.table_id ≡ self.now.table.shared.table_id) × (other.table_id ≡ self.now.table.shared.table_id) }
        requires idle { ((view_of seat.old.me).stage ≡ Idle) × (0 < length (view_of seat.old.me).numbers) }
        requires other { (slots_of other.me ≡ []) × ((view_of other.me).stage ≡ Idle) }
        ensures own { seat.new.table_id ≡ seat.old.table_id }
        ensures both { seat.new.me ≡ (both (view_of seat.old.me) (view_of other.me), slots_of seat.old.me) }
    {
        self.table.shared.join_seat::<TakeIn>(seat, other);
    }

    // Gives the value up, to the seat that has all numbers.
    pub(crate) fn close(self, seat: LockSeat<V>) -> V
        requires own { seat.table_id ≡ self.table.shared.table_id }
        requires idle { (view_of seat.me).stage ≡ Idle }
        requires all { (n : ℕ) → n < self.table.shared.key.seats → is_member n (view_of seat.me).numbers ≡ true }
        ensures { IsWhole V.events V.is_publish V.base (V.base self.table.shared.key.start.value) (view_of seat.me) result }
    {
        let LockTable { table } = self;
        let mut closed = table.close_with(seat);
        let value = closed.take(0);
        closed.free();
        value
    }
}
