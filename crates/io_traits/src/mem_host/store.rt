// The octets of a place in memory.
ghost use Rattle.std.specs.Prelude.{◌≡◌, ◌≢◌, ◌<◌, ◌≤◌, ◌↔◌, ◌-◌, ◌&&◌, ℕ, List, [], length, map, min, not, nat_lt, is_ok, take, Option, None, Some, IsTrue, IfOk, OnErr, option_map, string_bytes, vec_len};

use crate::Failed;
use std::alloc::Global;

/// The octets of a place, and its faults.
#[derive(Drop)]
pub(crate) struct Store {
    left: Vec<u8>,
    taken: usize,
    // as long as the octets that the place is to get in all
    got: Vec<u8>,
    held: usize,
    faults: u64,
    ghost taken_within: { taken ≤ vec_len left },
    ghost held_within: { held ≤ vec_len got },
}

impl Store {
    ghost use Rattle.std.specs.Prelude.{Some};
    ghost use Rattle.io_traits.specs.Faults.{HasCause, Rose};
    ghost use Rattle.io_traits.specs.Host.{Writes, Reads};
    ghost use Rattle.io_traits.specs.Store.{store_left, store_got};

    pub(crate) fn empty(alloc: Global) -> Self
        ensures left { store_left result ≡ [] }
        ensures got { store_got result ≡ [] }
        ensures size { vec_len result.got ≡ 0 }
        ensures faults { result.faults ≡ 0 }
    {
        Store {
            left: Vec::new(alloc),
            taken: 0,
            got: Vec::new(alloc),
            held: 0,
            faults: 0,
        }
    }

    pub(crate) fn put_left(&mut self, octets: Vec<u8>)
        ensures left { store_left self.new ≡ octets.items }
        ensures got { store_got self.new ≡ store_got self.old }
        ensures size { vec_len self.new.got ≡ vec_len self.old.got }
        ensures faults { self.new.faults ≡ self.old.faults }
    {
        self.taken = 0;
        self.left = octets;
    }

    pub(crate) fn put_room(&mut self, room: Vec<u8>)
        ensures left { store_left self.new ≡ store_left self.old }
        ensures got { store_got self.new ≡ [] }
        ensures size { vec_len self.new.got ≡ vec_len room }
        ensures faults { self.new.faults ≡ self.old.faults }
    {
        self.held = 0;
        self.got = room;
    }

    fn fail(&mut self) -> Failed
        ensures same { self.new ≡ record self.old { faults = self.new.faults } }
        ensures later { self.old.faults ≤ self.new.faults }
        ensures rose { Rose self.old.faults self.new.faults }
    {
        self.faults = self.faults.saturating_add(1);
        Failed
    }

    pub(crate) fn bind(&mut self, fails: bool) -> Result<(), Failed>
        ensures left { store_left self.new ≡ store_left self.old }
        ensures got { store_got self.new ≡ store_got self.old }
        ensures size { vec_len self.new.got ≡ vec_len self.old.got }
        ensures cause { HasCause self.old.faults self.new.faults result }
        ensures later { self.old.faults ≤ self.new.faults }
        ensures succeeds { is_ok result ≡ not fails }
    {
        if fails {
            return Err(self.fail());
        }
        Ok(())
    }

    pub(crate) fn read(&mut self, fails: bool, piece: &mut [u8]) -> Result<usize, Failed>
        requires { 0 < length piece.old }
        ensures taken { Reads result piece.new (Some (store_left self.old)) (Some (store_left self.new)) }
        ensures got { store_got self.new ≡ store_got self.old }
        ensures size { vec_len self.new.got ≡ vec_len self.old.got }
        ensures cause { HasCause self.old.faults self.new.faults result }
        ensures later { self.old.faults ≤ self.new.faults }
        ensures succeeds { is_ok result ≡ not fails }
        ensures count { IfOk result (λ n. n ≡ min (length piece.old) (length (store_left self.old))) }
    {
        if fails {
            return Err(self.fail());
        }
        let count = piece.len().min(self.left.len() - self.taken);
        piece[..count].copy_from_slice(&self.left[self.taken..self.taken + count]);
        self.taken += count;
        Ok(count)
    }

    pub(crate) fn write(&mut self, fails: bool, piece: &[u8]) -> Result<usize, Failed>
        requires { 0 < length piece.now }
        ensures appended { Writes result piece.now (Some (store_got self.old)) (Some (store_got self.new)) }
        ensures left { store_left self.new ≡ store_left self.old }
        ensures size { vec_len self.new.got ≡ vec_len self.old.got }
        ensures cause { HasCause self.old.faults self.new.faults result }
        ensures later { self.old.faults ≤ self.new.faults }
        ensures succeeds { is_ok result ≡ (not fails && nat_lt (length (store_got self.old)) (vec_len self.old.got)) }
        ensures count { IfOk result (λ n. n ≡ min (length piece.now) (vec_len self.old.got - length (store_got self.old))) }
    {
        if fails || self.held == self.got.len() {
            return Err(self.fail());
        }
        let count = piece.len().min(self.got.len() - self.held);
        self.got[self.held..self.held + count].copy_from_slice(&piece[..count]);
        self.held += count;
        Ok(count)
    }

    pub(crate) fn left(&self) -> &[u8]
        ensures { result.now ≡ store_left self.now }
    {
        &self.left[self.taken..]
    }

    pub(crate) fn got(&self) -> &[u8]
        ensures { result.now ≡ store_got self.now }
    {
        &self.got[..self.held]
    }

    pub(crate) fn faults(&self) -> u64
        ensures { result ≡ self.now.faults }
    {
        self.faults
    }
}
