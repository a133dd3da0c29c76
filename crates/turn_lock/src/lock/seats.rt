// The turns of a lock's seats, as they are made and as they come back.
ghost use Rattle.std.specs.Prelude.{◌≡◌, ℕ, ◌<◌, ◌≤◌, [], length, slice_get, vec_len, vec_capacity, All, EachIndex, Some};
ghost use Rattle.turn_lock.specs.declared.rule.Stage.TheVariants.{Idle};
ghost use Rattle.turn_lock.specs.Rule.{beginner};
ghost use Rattle.turn_lock.specs.Steps.{view_of};
ghost use Rattle.turn_lock.specs.Turns.{new_token, Gathers};

use super::Turn;
use crate::lock_table::{LockSeat, LockTable};
use crate::logged::Logged;

// A turn for each number, in rising order.
pub(super) fn deal<V: Logged>(
    lock_table: &LockTable<V>,
    mut seat: LockSeat<V>,
    seats: u32,
    turns: &mut Vec<Turn<V>>,
)
    requires own { seat.table_id ≡ lock_table.now.table.shared.table_id }
    requires first { (b : V.Base) × (seat.me ≡ (beginner b seats, [])) }
    requires seats { 1 ≤ seats }
    requires room { (turns.old.items ≡ []) × (seats ≤ vec_capacity turns.old) }
    ensures len { vec_len turns.new ≡ seats }
    ensures each { EachIndex turns.new.items (λ n. slice_get turns.new.items n ≡ Some (new_token seat.table_id (view_of seat.me).base n)) }
{
    // The highest number is given away first.
    let mut left = seats;
    while left > 1 {
        let given = lock_table.split(&mut seat);
        turns.push_reserved(Turn { seat: given });
        left -= 1;
    }
    turns.push_reserved(Turn { seat });
    turns.reverse();
}

// One seat that knows what the seats of all these turns knew.
pub(super) fn gather<V: Logged>(lock_table: &LockTable<V>, mut turns: Vec<Turn<V>>) -> LockSeat<V>
    requires own { All (λ t. t.table ≡ lock_table.now.table.shared.table_id) turns.items }
    requires some { 0 < vec_len turns }
    ensures own { result.table_id ≡ lock_table.now.table.shared.table_id }
    ensures idle { (view_of result.me).stage ≡ Idle }
    ensures gathers { Gathers (view_of result.me) turns.items }
{
    let Some(last) = turns.pop() else {
        unreachable!()
    };
    let Turn { mut seat } = last;
    while let Some(turn) = turns.pop() {
        let Turn { seat: other } = turn;
        lock_table.join(&mut seat, other);
    }
    seat
}
