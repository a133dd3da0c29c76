// The lock round a diary, whose entries are its events.
ghost use Rattle.std.specs.Prelude.{◌≡◌, ◌+◌, [], ◌∷◌, ◌++◌, length, count_by, IfSome};
ghost use Rattle.turn_lock.specs.Steps.{Adds};
ghost use Rattle.turn_lock.specs.Turns.{newcomer, IsTurnOf};

use crate::{Logged, Turn, TurnLock};
use std::alloc::Global;
use std::sync::Wait;
use std::test::Fail;
use std::thread::{Threads, join};

#[derive(Clone, Copy, Debug, PartialEq, Eq)]
struct Entry {
    by: u64,
    number: u64,
    publishes: bool,
}

#[derive(Drop)]
struct Diary {
    name: u64,
    entries: Vec<Entry>,
    published: u64,
    ghost counted: { published ≡ count_by (λ e. e.publishes) entries.items },
}

impl Diary {
    fn new(alloc: Global, name: u64) -> Diary
        ensures { (result.name ≡ name) × (result.entries.items ≡ []) }
    {
        Diary {
            name,
            entries: Vec::new(alloc),
            published: 0,
        }
    }

    // The entry's index, if there was memory for it.
    fn add(&mut self, entry: Entry) -> Option<u64>
        ensures name { self.new.name ≡ self.old.name }
        ensures adds { Adds (λ e. e.publishes) entry.publishes self.old.entries.items self.new.entries.items }
        ensures index { IfSome result (λ at. (at ≡ length self.old.entries.items) × (length self.new.entries.items ≡ at + 1)) }
    {
        let at = self.count();
        if self.entries.push(entry).is_err() {
            return None;
        }
        if entry.publishes {
            self.published += 1;
        }
        Some(at)
    }
}

impl Logged for Diary {
    type Event = Entry;

    type Base = u64;

    ghost events = { λ d. d.entries.items };

    ghost is_publish = { λ e. e.publishes };

    ghost base = { λ d. d.name };

    fn count(&self) -> u64 {
        self.entries.len() as u64
    }

    fn published(&self) -> u64 {
        self.published
    }
}

// A lock with two seats.
fn opened(alloc: Global) -> Option<(TurnLock<Diary>, Turn<Diary>, Turn<Diary>)>
    ensures { IfSome result (λ r. (r.0.seats ≡ 2) × (r.1 ≡ newcomer r.0 0) × (r.2 ≡ newcomer r.0 1)) }
{
    let (lock, mut turns) = TurnLock::new(alloc, Diary::new(alloc, 7), 2).ok()?;
    let other = turns.pop()?;
    let head = turns.pop()?;
    Some((lock, head, other))
}

// Closes the lock, with the head's turn second.
fn closed(
    alloc: Global,
    lock: TurnLock<Diary>,
    head: Turn<Diary>,
    other: Turn<Diary>,
) -> Option<Diary>
    requires seats { lock.seats ≡ 2 }
    requires own { IsTurnOf lock head × IsTurnOf lock other }
    requires numbers { (head.number ≡ 0) × (other.number ≡ 1) }
{
    let mut turns = Vec::with_capacity(alloc, 2).ok()?;
    turns.push_reserved(other);
    turns.push_reserved(head);
    Some(lock.close(turns))
}

// Adds an entry, and answers its index.
fn note<W: Wait>(
    rt: &W,
    lock: &TurnLock<Diary>,
    turn: &mut Turn<Diary>,
    by: u64,
    number: u64,
) -> Option<u64>
    requires own { IsTurnOf lock.now turn.old }
    ensures own { IsTurnOf lock.now turn.new }
    ensures number { turn.new.number ≡ turn.old.number }
    ensures index { IfSome result (λ at. turn.new.mine ≡ turn.old.mine ++ at ∷ []) }
{
    lock.with_turn(
        rt,
        turn,
        |diary: &mut Diary| diary.add(Entry {
            by,
            number,
            publishes: false,
        }),
    )
}

// Adds a publishing entry, and answers its index.
fn publish<W: Wait>(
    rt: &W,
    lock: &TurnLock<Diary>,
    head: &mut Turn<Diary>,
    number: u64,
) -> Option<u64>
    requires own { IsTurnOf lock.now head.old }
    requires head { head.old.number ≡ 0 }
    ensures own { IsTurnOf lock.now head.new }
    ensures number { head.new.number ≡ head.old.number }
{
    lock.with_turn(
        rt,
        head,
        |diary: &mut Diary| diary.add(Entry {
            by: 0,
            number,
            publishes: true,
        }),
    )
}

// Adds an entry at each of a hundred turns, and answers their indices.
fn hundred<W: Wait>(
    rt: &W,
    alloc: Global,
    lock: &TurnLock<Diary>,
    mut turn: Turn<Diary>,
    by: u64,
) -> (Turn<Diary>, Option<Vec<u64>>)
    requires own { IsTurnOf lock.now turn }
    ensures own { IsTurnOf lock.now result.0 }
    ensures number { result.0.number ≡ turn.number }
{
    let mut indices = Vec::new(alloc);
    for number in 0..100 {
        let Some(at) = note(rt, lock, &mut turn, by, number) else {
            return (turn, None);
        };
        if indices.push(at).is_err() {
            return (turn, None);
        }
    }
    (turn, Some(indices))
}

// Publishes so many entries, numbered from 0 on.
fn publish_all<W: Wait>(
    rt: &W,
    lock: &TurnLock<Diary>,
    mut head: Turn<Diary>,
    count: u64,
) -> (Turn<Diary>, bool)
    requires own { IsTurnOf lock.now head }
    requires head { head.number ≡ 0 }
    ensures own { IsTurnOf lock.now result.0 }
    ensures number { result.0.number ≡ 0 }
{
    for number in 0..count {
        if publish(rt, lock, &mut head, number).is_none() {
            return (head, false);
        }
    }
    (head, true)
}

// Asks for the published number again and again, with no leave to wait, and answers whether it
// never fell.
fn watch(lock: &TurnLock<Diary>, mut turn: Turn<Diary>) -> (Turn<Diary>, bool)
    requires own { IsTurnOf lock.now turn }
    ensures own { IsTurnOf lock.now result.0 }
    ensures number { result.0.number ≡ turn.number }
{
    let mut last = 0;
    for _ in 0..1000 {
        let now = lock.fresh(&mut turn);
        if now < last {
            return (turn, false);
        }
        last = now;
    }
    (turn, true)
}

// What a turn adds in a thread of its own: the turn comes back, with the indices of the entries.
type Added = (Turn<Diary>, Option<Vec<u64>>);

fn add_beside<R: Threads + Wait + Sync>(
    rt: &R,
    alloc: Global,
    lock: &TurnLock<Diary>,
    head: Turn<Diary>,
    other: Turn<Diary>,
) -> (Added, Added)
    requires own { IsTurnOf lock.now head × IsTurnOf lock.now other }
    ensures own { IsTurnOf lock.now result.0.0 × IsTurnOf lock.now result.1.0 }
    ensures numbers { (result.0.0.number ≡ head.number) × (result.1.0.number ≡ other.number) }
{
    join(
        rt,
        move || -> Added
            requires { IsTurnOf lock.now head }
            ensures { IsTurnOf lock.entry.now result.0 × (result.0.number ≡ head.number) }
        { hundred(rt, alloc, lock, head, 0) },
        move || -> Added
            requires { IsTurnOf lock.now other }
            ensures { IsTurnOf lock.entry.now result.0 × (result.0.number ≡ other.number) }
        { hundred(rt, alloc, lock, other, 1) },
    )
}

fn watch_beside<R: Threads + Wait + Sync>(
    rt: &R,
    lock: &TurnLock<Diary>,
    head: Turn<Diary>,
    other: Turn<Diary>,
) -> ((Turn<Diary>, bool), (Turn<Diary>, bool))
    requires own { IsTurnOf lock.now head × IsTurnOf lock.now other }
    requires head { head.number ≡ 0 }
    ensures own { IsTurnOf lock.now result.0.0 × IsTurnOf lock.now result.1.0 }
    ensures numbers { (result.0.0.number ≡ 0) × (result.1.0.number ≡ other.number) }
{
    join(
        rt,
        move || -> (Turn<Diary>, bool)
            requires { IsTurnOf lock.now head × (head.number ≡ 0) }
            ensures { IsTurnOf lock.entry.now result.0 × (result.0.number ≡ 0) }
        { publish_all(rt, lock, head, 8) },
        move || -> (Turn<Diary>, bool)
            requires { IsTurnOf lock.now other }
            ensures { IsTurnOf lock.entry.now result.0 × (result.0.number ≡ other.number) }
        { watch(lock, other) },
    )
}

#[test]
fn each_of_two_turns_adds_an_event(rt: HostRuntime) -> Result<(), Fail> {
    let (lock, mut head, mut other) = opened(rt.alloc()).ok_or("memory")?;
    assert_eq!(rt; note(&rt, &lock, &mut other, 1, 40), Some(0));
    assert_eq!(rt; note(&rt, &lock, &mut head, 0, 41), Some(1));
    let diary = closed(rt.alloc(), lock, head, other).ok_or("memory")?;
    let want = [
        Entry {
            by: 1,
            number: 40,
            publishes: false,
        },
        Entry {
            by: 0,
            number: 41,
            publishes: false,
        },
    ];
    assert_eq!(rt; diary.entries.as_slice(), want.as_slice());
    assert_eq!(rt; (diary.name, diary.published), (7, 0));
    Ok(())
}

#[test]
fn two_threads_add_each_event_once(rt: HostRuntime) -> Result<(), Fail> {
    let (lock, head, other) = opened(rt.alloc()).ok_or("memory")?;
    let ((head, first), (other, second)) = add_beside(&rt, rt.alloc(), &lock, head, other);
    let diary = closed(rt.alloc(), lock, head, other).ok_or("memory")?;
    assert_eq!(rt; diary.entries.len(), 200);
    for (by, indices) in [(0, first.ok_or("memory")?), (1, second.ok_or("memory")?)] {
        for (number, at) in indices.iter().enumerate() {
            let want = Entry {
                by,
                number: number as u64,
                publishes: false,
            };
            assert_eq!(rt; diary.entries.get(*at as usize), Some(&want));
        }
    }
    Ok(())
}

#[test]
fn a_turn_that_was_never_taken_is_told_the_published_number(rt: HostRuntime) -> Result<(), Fail> {
    let (lock, head, mut other) = opened(rt.alloc()).ok_or("memory")?;
    assert_eq!(rt; lock.fresh(&mut other), 0);
    let (mut head, all) = publish_all(&rt, &lock, head, 7);
    assert!(rt; all);
    assert_eq!(rt; lock.fresh(&mut other), 7);
    assert_eq!(rt; note(&rt, &lock, &mut head, 0, 7), Some(7));
    assert_eq!(rt; publish(&rt, &lock, &mut head, 8), Some(8));
    assert_eq!(rt; lock.fresh(&mut other), 8);
    Ok(())
}

#[test]
fn the_published_number_never_falls_beside_a_thread_that_publishes(
    rt: HostRuntime,
) -> Result<(), Fail> {
    let (lock, head, other) = opened(rt.alloc()).ok_or("memory")?;
    let ((head, all), (mut other, rising)) = watch_beside(&rt, &lock, head, other);
    assert!(rt; all && rising);
    assert_eq!(rt; lock.fresh(&mut other), 8);
    let diary = closed(rt.alloc(), lock, head, other).ok_or("memory")?;
    assert_eq!(rt; (diary.entries.len(), diary.published), (8, 8));
    Ok(())
}
