// The steps of a turn on the table.
ghost use Rattle.std.specs.Prelude.{◌≡◌, [], ◌∷◌, ◌+◌, ◌<◌, ◌≤◌, ◌^◌, List, length, count_by, Some};
ghost use Rattle.atomic_table.specs.Table.{rest};
ghost use Rattle.turn_lock.specs.declared.rule.Stage.TheVariants.{Idle, Waiting, Holding, Raising, Committed};
ghost use Rattle.turn_lock.specs.Lists.{is_member};
ghost use Rattle.turn_lock.specs.Steps.{view_of, slots_of, with_stage, stage_after, view_after, Found, MayCommit, MayAnnounce, MayPass};

use super::{LockSeat, LockTable};
use crate::logged::Logged;
use crate::plays::{Commit, Draw, Look, Pass, Peek, Raise, Refresh};
use crate::rule::{COUNT, PUBLISHED, SERVING, TICKET};
use std::sync::Wait;
use std::thread;

impl<V: Logged> LockTable<V> {
    // Draws a ticket: tries with the word that it found, from a load on. At the last one it waits for
    // ever.
    pub(super) fn draw<R: Wait>(&self, rt: &R, seat: &mut LockSeat<V>) -> u64
        requires own { seat.old.table_id ≡ self.now.table.shared.table_id }
        requires idle { ((view_of seat.old.me).stage ≡ Idle) × (0 < length (view_of seat.old.me).numbers) }
        ensures own { (seat.new.table_id ≡ seat.old.table_id) × (seat.new.id ≡ seat.old.id) }
        ensures drawn { seat.new.me ≡ (with_stage (view_of seat.old.me) (Waiting result), slots_of seat.old.me) }
        ensures room { result + 1 < 2 ^ 64 }
    {
        let mut next = self.table.shared.load::<Peek>(seat, TICKET);
        for _ in rt.forever() {
            if next < u64::MAX {
                let found = self
                    .table
                    .shared
                    .compare_exchange::<Draw>(seat, TICKET, next, next + 1);
                if found == next {
                    return next;
                }
                next = found;
            }
        }
        unreachable!()
    }

    // Looks until its own ticket is served. Then the slot is out with the seat.
    pub(super) fn wait<R: Wait>(&self, rt: &R, seat: &mut LockSeat<V>, ticket: u64)
        requires own { seat.old.table_id ≡ self.now.table.shared.table_id }
        requires drawn { (view_of seat.old.me).stage ≡ Waiting ticket }
        ensures own { (seat.new.table_id ≡ seat.old.table_id) × (seat.new.id ≡ seat.old.id) }
        ensures taken { (y : V) × Found V.events V.is_publish V.base (view_of seat.old.me) y × (seat.new.me ≡ (with_stage (view_of seat.old.me) (Holding ticket (V.events y)), (0, y) ∷ slots_of seat.old.me)) }
    {
        for _ in rt.forever() {
            if self.table.shared.load::<Look>(seat, SERVING) == ticket {
                return;
            }
            thread::yield_now();
        }
        unreachable!()
    }

    // Says how long the history is now. The seat has seen it.
    pub(super) fn commit(&self, seat: &mut LockSeat<V>, ticket: u64, count: u64)
        requires own { seat.old.table_id ≡ self.now.table.shared.table_id }
        requires held { MayCommit V.events V.is_publish V.base seat.old.me ticket count }
        ensures own { (seat.new.table_id ≡ seat.old.table_id) × (seat.new.id ≡ seat.old.id) }
        ensures seen { (found : List V.Event) (y : V) → (view_of seat.old.me).stage ≡ Holding ticket found → slots_of seat.old.me ≡ (0, y) ∷ [] → seat.new.me ≡ (view_after (view_of seat.old.me) found (V.events y) (stage_after V.is_publish ticket found (V.events y)), slots_of seat.old.me) }
    {
        self.table.shared.store::<Commit>(seat, COUNT, count);
    }

    // Says that a publishing event was committed, if it was.
    pub(super) fn announce(&self, seat: &mut LockSeat<V>, ticket: u64, before: u64, published: u64)
        requires own { seat.old.table_id ≡ self.now.table.shared.table_id }
        requires committed { MayAnnounce V.events V.is_publish V.base seat.old.me ticket before published }
        ensures own { (seat.new.table_id ≡ seat.old.table_id) × (seat.new.id ≡ seat.old.id) }
        ensures said { seat.new.me ≡ (with_stage (view_of seat.old.me) (Committed ticket), slots_of seat.old.me) }
    {
        if before != published {
            self.raise(seat, ticket, published);
        }
    }

    fn raise(&self, seat: &mut LockSeat<V>, ticket: u64, published: u64)
        requires own { seat.old.table_id ≡ self.now.table.shared.table_id }
        requires committed { ((view_of seat.old.me).stage ≡ Raising ticket) × (published ≡ count_by V.is_publish (view_of seat.old.me).seen) }
        ensures own { (seat.new.table_id ≡ seat.old.table_id) × (seat.new.id ≡ seat.old.id) }
        ensures said { seat.new.me ≡ (with_stage (view_of seat.old.me) (Committed ticket), slots_of seat.old.me) }
    {
        self.table.shared.store::<Raise>(seat, PUBLISHED, published);
    }

    // Gives the slot back, and lets the next ticket be served.
    pub(super) fn pass(&self, seat: &mut LockSeat<V>, ticket: u64)
        requires own { seat.old.table_id ≡ self.now.table.shared.table_id }
        requires held { MayPass V.events V.is_publish V.base seat.old.me ticket }
        requires room { ticket + 1 < 2 ^ 64 }
        ensures own { (seat.new.table_id ≡ seat.old.table_id) × (seat.new.id ≡ seat.old.id) }
        ensures rests { seat.new.me ≡ (with_stage (view_of seat.old.me) Idle, rest (slots_of seat.old.me)) }
    {
        self.table.shared.store::<Pass>(seat, SERVING, ticket + 1);
    }

    // The last published number, by one load.
    pub(crate) fn fresh(&self, seat: &mut LockSeat<V>) -> u64
        requires own { seat.old.table_id ≡ self.now.table.shared.table_id }
        requires idle { (view_of seat.old.me).stage ≡ Idle }
        ensures own { (seat.new.table_id ≡ seat.old.table_id) × (seat.new.id ≡ seat.old.id) }
        ensures told { ((view_of seat.old.me).told ≤ result) × (count_by V.is_publish (view_of seat.old.me).seen ≤ result) }
        ensures view { seat.new.me ≡ (record (view_of seat.old.me) { told = result }, slots_of seat.old.me) }
    {
        self.table.shared.load::<Refresh>(seat, PUBLISHED)
    }
}
