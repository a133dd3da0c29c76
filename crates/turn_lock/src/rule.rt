// What stands in the table under the lock, what its seats know, and the rule that each step keeps.
use crate::logged::Logged;
use atomic_table::TableRule;
use std::collections::LinkedList;
use std::snapshot::Snapshot;

// Indexes of the words.

// The next ticket to be drawn.
pub(crate) const TICKET: usize = 0;

// The ticket whose turn it is.
pub(crate) const SERVING: usize = 1;

// The length of the history.
pub(crate) const COUNT: usize = 2;

// The last published number.
pub(crate) const PUBLISHED: usize = 3;

/// How far a seat's turn has come. No value of it is made.
pub enum Stage<E> {
    Idle,
    /// The ticket that was drawn.
    Waiting(u64),
    /// The ticket, and the list that the look found. The slot is out with this seat.
    Holding(u64, LinkedList<E>),
    /// The ticket. A publishing event was committed, and the published word isn't raised yet.
    Raising(u64),
    /// The ticket. The slot is still out.
    Committed(u64),
}

/// What a seat knows. No value of it is made.
pub struct View<E, B> {
    /// The beginning of the history that its turns have seen.
    pub seen: LinkedList<E>,
    /// The indices in the history of the events that its turns have added.
    pub mine: LinkedList<u64>,
    /// The last number that it was told as published.
    pub told: u64,
    /// Its numbers among the seats: one, but while the lock is opened or closed.
    pub numbers: LinkedList<u64>,
    pub stage: Stage<E>,
    /// What each seat that was joined into this one had seen, and was told.
    pub joined: LinkedList<(LinkedList<E>, u64)>,
    /// The base of the lock's value. None where the view is spent.
    pub base: Option<B>,
}

/// What a table is told when it is made.
#[derive(Drop)]
pub struct Key<V> {
    pub start: Snapshot<V>,
    pub seats: u32,
}

/// The rule of the table: there is one history.
pub struct OneHistory;

impl<V: Logged> TableRule<V, View<V::Event, V::Base>, Key<V>> for OneHistory {
    ghost use Rattle.turn_lock.specs.Rule.{Kept, beginner};

    ghost holds = { λ k. Kept V.events V.is_publish V.base (V.base k.start.value) k.seats };

    ghost first = { λ k. beginner (V.base k.start.value) k.seats };
}
