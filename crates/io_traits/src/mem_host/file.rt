// A place in memory that can be bound.
ghost use Rattle.std.specs.Prelude.{◌≡◌, ◌≢◌, ◌<◌, ◌≤◌, ◌-◌, ◌&&◌, ℕ, List, [], length, min, not, nat_lt, is_ok, IfOk, string_bytes, vec_len, option_map};
ghost use Rattle.std.specs.Option.{ForNone};

use super::store::Store;
use crate::{Failed, Way};
use std::alloc::Global;

/// A place that can be bound. Until it is, it has got nothing.
#[derive(Drop)]
pub(crate) struct File {
    store: Store,
    bound: Option<(Way, String)>,
    ghost unbound_is_empty: { ForNone bound (store.held ≡ 0) },
}

impl File {
    ghost use Rattle.std.specs.Prelude.{Some, None};
    ghost use Rattle.io_traits.specs.Faults.{HasCause};
    ghost use Rattle.io_traits.specs.Host.{Writes, Reads};
    ghost use Rattle.io_traits.specs.Store.{store_left, store_got};
    ghost use Rattle.io_traits.specs.MemHost.{file_bound};

    pub(crate) fn empty(alloc: Global) -> Self
        ensures left { store_left result.store ≡ [] }
        ensures got { store_got result.store ≡ [] }
        ensures size { vec_len result.store.got ≡ 0 }
        ensures faults { result.store.faults ≡ 0 }
        ensures bound { result.bound ≡ None }
    {
        File {
            store: Store::empty(alloc),
            bound: None,
        }
    }

    pub(crate) fn put_left(&mut self, octets: Vec<u8>)
        ensures left { store_left self.new.store ≡ octets.items }
        ensures got { store_got self.new.store ≡ store_got self.old.store }
        ensures size { vec_len self.new.store.got ≡ vec_len self.old.store.got }
        ensures faults { self.new.store.faults ≡ self.old.store.faults }
        ensures bound { self.new.bound ≡ self.old.bound }
    {
        self.store.put_left(octets);
    }

    pub(crate) fn put_room(&mut self, room: Vec<u8>)
        ensures left { store_left self.new.store ≡ store_left self.old.store }
        ensures got { store_got self.new.store ≡ [] }
        ensures size { vec_len self.new.store.got ≡ vec_len room }
        ensures faults { self.new.store.faults ≡ self.old.store.faults }
        ensures bound { self.new.bound ≡ self.old.bound }
    {
        self.store.put_room(room);
    }

    pub(crate) fn bind(&mut self, fails: bool, way: Way, name: String) -> Result<(), Failed>
        ensures bound { file_bound self.new ≡ Some (way, string_bytes name) }
        ensures left { store_left self.new.store ≡ store_left self.old.store }
        ensures got { store_got self.new.store ≡ store_got self.old.store }
        ensures size { vec_len self.new.store.got ≡ vec_len self.old.store.got }
        ensures cause { HasCause self.old.store.faults self.new.store.faults result }
        ensures later { self.old.store.faults ≤ self.new.store.faults }
        ensures succeeds { is_ok result ≡ not fails }
    {
        self.bound = Some((way, name));
        self.store.bind(fails)
    }

    pub(crate) fn read(&mut self, fails: bool, piece: &mut [u8]) -> Result<usize, Failed>
        requires { 0 < length piece.old }
        ensures taken { Reads result piece.new (Some (store_left self.old.store)) (Some (store_left self.new.store)) }
        ensures bound { self.new.bound ≡ self.old.bound }
        ensures got { store_got self.new.store ≡ store_got self.old.store }
        ensures size { vec_len self.new.store.got ≡ vec_len self.old.store.got }
        ensures cause { HasCause self.old.store.faults self.new.store.faults result }
        ensures later { self.old.store.faults ≤ self.new.store.faults }
        ensures succeeds { is_ok result ≡ not fails }
        ensures count { IfOk result (λ n. n ≡ min (length piece.old) (length (store_left self.old.store))) }
    {
        self.store.read(fails, piece)
    }

    pub(crate) fn write(&mut self, fails: bool, piece: &[u8]) -> Result<usize, Failed>
        requires some { 0 < length piece.now }
        requires bound { option_map (λ binding. binding.0) (file_bound self.old) ≡ Some Way.Write }
        ensures appended { Writes result piece.now (Some (store_got self.old.store)) (Some (store_got self.new.store)) }
        ensures bound { self.new.bound ≡ self.old.bound }
        ensures left { store_left self.new.store ≡ store_left self.old.store }
        ensures size { vec_len self.new.store.got ≡ vec_len self.old.store.got }
        ensures cause { HasCause self.old.store.faults self.new.store.faults result }
        ensures later { self.old.store.faults ≤ self.new.store.faults }
        ensures succeeds { is_ok result ≡ (not fails && nat_lt (length (store_got self.old.store)) (vec_len self.old.store.got)) }
        ensures count { IfOk result (λ n. n ≡ min (length piece.now) (vec_len self.old.store.got - length (store_got self.old.store))) }
    {
        self.store.write(fails, piece)
    }

    pub(crate) fn store(&self) -> &Store
        ensures { result.now ≡ self.now.store }
    {
        &self.store
    }

    pub(crate) fn bound(&self) -> Option<(Way, &str)>
        ensures { option_map (λ binding. (binding.0, binding.1.now)) result ≡ file_bound self.now }
    {
        self.bound
            .as_ref()
            .map(|binding| (binding.0, binding.1.as_str()))
    }
}
