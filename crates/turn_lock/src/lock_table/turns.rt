// A whole turn.
ghost use Rattle.std.specs.Prelude.{◌≡◌, [], ◌∷◌, ◌+◌, ◌<◌, ◌^◌, List, length, count_by, Some};
ghost use Rattle.std.specs.Fn.{FnOnceReturnsAtMut, FnOnceTakesAtMut};
ghost use Rattle.turn_lock.specs.declared.rule.Stage.TheVariants.{Idle, Holding};
ghost use Rattle.turn_lock.specs.Lists.{is_member};
ghost use Rattle.turn_lock.specs.Steps.{view_of, slots_of, with_stage, view_after, IsAtRest, Found, Adds, MayEnd};

use super::{LockSeat, LockTable};
use crate::logged::Logged;
use std::sync::Wait;

impl<V: Logged> LockTable<V> {
    // Calls once on the value, at this turn.
    pub(crate) fn take_turn<R, F: FnOnce(&mut V) -> R, W: Wait>(
        &self,
        rt: &W,
        seat: &mut LockSeat<V>,
        call: F,
    ) -> R
        requires own { seat.old.table_id ≡ self.now.table.shared.table_id }
        requires rests { IsAtRest seat.old.me }
        requires may { (x : V) → Found V.events V.is_publish V.base (view_of seat.old.me) x → FnOnceTakesAtMut F.FnOnce call x }
        requires adds { (x : V) (r : R) (y : V) → Found V.events V.is_publish V.base (view_of seat.old.me) x → FnOnceReturnsAtMut F.FnOnce call x r y → Adds V.is_publish (is_member 0 (view_of seat.old.me).numbers) (V.events x) (V.events y) }
        requires base { (x : V) (r : R) (y : V) → Found V.events V.is_publish V.base (view_of seat.old.me) x → FnOnceReturnsAtMut F.FnOnce call x r y → V.base y ≡ V.base x }
        ensures own { (seat.new.table_id ≡ seat.old.table_id) × (seat.new.id ≡ seat.old.id) }
        ensures turn { (x : V) × (y : V) × Found V.events V.is_publish V.base (view_of seat.old.me) x × FnOnceReturnsAtMut F.FnOnce call x result y × (seat.new.me ≡ (view_after (view_of seat.old.me) (V.events x) (V.events y) Idle, [])) }
    {
        let ticket = self.enter(rt, seat);
        let value = seat.slot_mut(&self.table.shared, 0);
        let before = value.published();
        let result = call(value);
        let count = value.count();
        let published = value.published();
        self.leave(seat, ticket, before, count, published);
        result
    }

    // Waits for a turn, and answers its ticket. The value is out with the seat then.
    fn enter<W: Wait>(&self, rt: &W, seat: &mut LockSeat<V>) -> u64
        requires own { seat.old.table_id ≡ self.now.table.shared.table_id }
        requires rests { IsAtRest seat.old.me }
        ensures own { (seat.new.table_id ≡ seat.old.table_id) × (seat.new.id ≡ seat.old.id) }
        ensures taken { (x : V) × Found V.events V.is_publish V.base (view_of seat.old.me) x × (seat.new.me ≡ (with_stage (view_of seat.old.me) (Holding result (V.events x)), (0, x) ∷ [])) }
        ensures room { result + 1 < 2 ^ 64 }
    {
        let ticket = self.draw(rt, seat);
        self.wait(rt, seat, ticket);
        ticket
    }

    // Ends the turn: what the value stands for is the history now.
    fn leave(&self, seat: &mut LockSeat<V>, ticket: u64, before: u64, count: u64, published: u64)
        requires own { seat.old.table_id ≡ self.now.table.shared.table_id }
        requires held { MayEnd V.events V.is_publish V.base seat.old.me ticket before count published }
        requires room { ticket + 1 < 2 ^ 64 }
        ensures own { (seat.new.table_id ≡ seat.old.table_id) × (seat.new.id ≡ seat.old.id) }
        ensures left { (found : List V.Event) (y : V) → (view_of seat.old.me).stage ≡ Holding ticket found → slots_of seat.old.me ≡ (0, y) ∷ [] → seat.new.me ≡ (view_after (view_of seat.old.me) found (V.events y) Idle, []) }
    {
        self.commit(seat, ticket, count);
        self.announce(seat, ticket, before, published);
        self.pass(seat, ticket);
    }
}
