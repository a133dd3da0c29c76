// The table under the lock, with its four words and its one slot.
ghost use Rattle.std.specs.Prelude.{◌≡◌};

use crate::logged::Logged;
use crate::rule::{Key, OneHistory, View};
use atomic_table::{Seat, Table};
use std::alloc::Global;

mod seats;
mod steps;
mod turns;

pub(crate) type LockSeat<V> = Seat<V, View<<V as Logged>::Event, <V as Logged>::Base>>;

#[derive(Drop)]
pub(crate) struct LockTable<V: Logged> {
    pub(crate) table: Table<V, View<V::Event, V::Base>, Key<V>, OneHistory, Global>,
    ghost sized: { (table.shared.table_id.words ≡ 4) × (table.shared.table_id.slots ≡ 1) },
}
