// The places of the outside in memory.
ghost use Rattle.std.specs.Prelude.{◌≡◌, ◌≢◌, ◌<◌, ◌≤◌, ◌-◌, ◌&&◌, ℕ, List, [], ◌∷◌, length, map, min, not, nat_lt, is_ok, Option, IsTrue, IfOk, option_map, string_bytes, vec_len};

mod file;
mod store;

use crate::{Failed, Host, Place, Way};
use file::File;
use std::alloc::Global;
use store::Store;
use trk_base::NoMemory;

/// The places of the outside in memory. It tells everything, and its calls take no memory.
#[derive(Drop)]
pub struct MemHost {
    settings: File,
    input: File,
    output: File,
    prices: File,
    screen: Store,
    calls: u64,
    fails: Vec<u64>,
}

impl MemHost {
    ghost use Rattle.std.specs.Prelude.{Some, None, if◌then◌else◌};
    ghost use Rattle.io_traits.specs.MemHost.{CountsCall, IsNew, bound_of, fails_next, got_of, left_of, names_once, size_of, state_of, store_of};
    ghost use Rattle.io_traits.specs.Touching.{same_place};
    ghost use Rattle.io_traits.specs.declared.host.Place.{Place};

    fn empty(alloc: Global, fails: Vec<u64>) -> Self
        ensures { IsNew result [] [] fails.items }
    {
        MemHost {
            settings: File::empty(alloc),
            input: File::empty(alloc),
            output: File::empty(alloc),
            prices: File::empty(alloc),
            screen: Store::empty(alloc),
            calls: 0,
            fails,
        }
    }

    fn put_left(&mut self, place: Place, octets: Vec<u8>)
        ensures left { (p : Place) → left_of self.new p ≡ (if same_place place p then octets.items else left_of self.old p) }
        ensures got { (p : Place) → got_of self.new p ≡ got_of self.old p }
        ensures size { (p : Place) → size_of self.new p ≡ size_of self.old p }
        ensures faults { (p : Place) → (store_of self.new p).faults ≡ (store_of self.old p).faults }
        ensures bound { (p : Place) → bound_of self.new p ≡ bound_of self.old p }
        ensures fails { self.new.fails ≡ self.old.fails }
        ensures calls { self.new.calls ≡ self.old.calls }
    {
        match place {
            Place::Settings => self.settings.put_left(octets),
            Place::Input => self.input.put_left(octets),
            Place::Output => self.output.put_left(octets),
            Place::Prices => self.prices.put_left(octets),
            Place::Screen => self.screen.put_left(octets),
        }
    }

    fn put_room(&mut self, place: Place, room: Vec<u8>)
        ensures left { (p : Place) → left_of self.new p ≡ left_of self.old p }
        ensures got { (p : Place) → got_of self.old p ≡ [] → got_of self.new p ≡ [] }
        ensures size { (p : Place) → size_of self.new p ≡ (if same_place place p then vec_len room else size_of self.old p) }
        ensures faults { (p : Place) → (store_of self.new p).faults ≡ (store_of self.old p).faults }
        ensures bound { (p : Place) → bound_of self.new p ≡ bound_of self.old p }
        ensures fails { self.new.fails ≡ self.old.fails }
        ensures calls { self.new.calls ≡ self.old.calls }
    {
        match place {
            Place::Settings => self.settings.put_room(room),
            Place::Input => self.input.put_room(room),
            Place::Output => self.output.put_room(room),
            Place::Prices => self.prices.put_room(room),
            Place::Screen => self.screen.put_room(room),
        }
    }

    /// Counts a call, and tells whether it is to fail.
    fn count_call(&mut self) -> bool
        ensures result { result ≡ fails_next self.old }
        ensures stores { (p : Place) → store_of self.new p ≡ store_of self.old p }
        ensures bound { (p : Place) → bound_of self.new p ≡ bound_of self.old p }
        ensures counted { CountsCall self.old self.new }
    {
        let call = self.calls;
        self.calls = call.saturating_add(1);
        self.fails.contains(&call)
    }

    /// A host with the octets that each place has left, the octets that each is to get in all, and the calls that are
    /// to fail: bind, read and write counted together, from 0. A place that isn't named has nothing left, or no room.
    /// The room is reserved here.
    pub fn new(
        alloc: Global,
        left: Vec<(Place, Vec<u8>)>,
        room: Vec<(Place, usize)>,
        fails: Vec<u64>,
    ) -> Result<MemHost, NoMemory>
        requires left_once { IsTrue (names_once (map (λ entry. entry.0) left.items)) }
        requires room_once { IsTrue (names_once (map (λ entry. entry.0) room.items)) }
        ensures { IfOk result (λ host. IsNew host left.items room.items fails.items) }
    {
        let mut host = MemHost::empty(alloc, fails);
        for (place, octets) in left {
            host.put_left(place, octets);
        }
        for (place, octets) in room {
            host.put_room(place, vec![in alloc; 0; octets]?);
        }
        Ok(host)
    }

    fn store(&self, place: Place) -> &Store
        ensures { result.now ≡ store_of self.now place }
    {
        match place {
            Place::Settings => self.settings.store(),
            Place::Input => self.input.store(),
            Place::Output => self.output.store(),
            Place::Prices => self.prices.store(),
            Place::Screen => &self.screen,
        }
    }

    /// What a place has left to be read.
    pub fn left(&self, place: Place) -> &[u8]
        ensures { (state_of self.now).left place ≡ Some result.now }
    {
        self.store(place).left()
    }

    /// What a place has got.
    pub fn got(&self, place: Place) -> &[u8]
        ensures { (state_of self.now).got place ≡ Some result.now }
    {
        self.store(place).got()
    }

    /// How often a place has failed.
    pub fn faults(&self, place: Place) -> u64
        ensures { (state_of self.now).faults place ≡ result }
    {
        self.store(place).faults()
    }

    /// The way and the name that a place is bound to.
    pub fn bound(&self, place: Place) -> Option<(Way, &str)>
        ensures { (state_of self.now).bound place ≡ option_map (λ binding. (binding.0, binding.1.now)) result }
    {
        match place {
            Place::Settings => self.settings.bound(),
            Place::Input => self.input.bound(),
            Place::Output => self.output.bound(),
            Place::Prices => self.prices.bound(),
            Place::Screen => None,
        }
    }
}

impl Host for MemHost {
    ghost use Rattle.io_traits.specs.Faults.{HasCause};
    ghost use Rattle.io_traits.specs.Host.{Writes, IsBoundFor, Reads};
    ghost use Rattle.io_traits.specs.Touching.{Touches};
    ghost use Rattle.io_traits.specs.MemHostLaws.{unbound_is_empty as unbound_is_empty_law};
    ghost use Rattle.io_traits.specs.MemHost.{CountsCall, HasRoom, NeverFails, fails_next, got_of, left_of, size_of, state_of};
    ghost use Rattle.io_traits.specs.declared.host.Place.{Place};
    ghost use Rattle.io_traits.specs.declared.host.Way.{Way};
    ghost use Rattle.std.specs.Prelude.{None, Some};

    ghost state = { state_of };

    ghost unbound_is_empty = { unbound_is_empty_law };

    fn bind(&mut self, place: Place, way: Way, name: String) -> Result<(), Failed>
        requires file { place ≢ Place.Screen }
        requires unbound { (state_of self.old).bound place ≡ None }
        ensures bound { (state_of self.new).bound place ≡ Some (way, string_bytes name) }
        ensures cause { HasCause ((state_of self.old).faults place) ((state_of self.new).faults place) result }
        ensures touches { Touches (place ∷ []) [] [] (state_of self.old) (state_of self.new) }
        ensures counted { CountsCall self.old self.new }
        ensures succeeds { is_ok result ≡ not (fails_next self.old) }
        ensures faultless { NeverFails self.old → (state_of self.new).faults place ≡ (state_of self.old).faults place }
    {
        let fails = self.count_call();
        match place {
            Place::Settings => self.settings.bind(fails, way, name),
            Place::Input => self.input.bind(fails, way, name),
            Place::Output => self.output.bind(fails, way, name),
            Place::Prices => self.prices.bind(fails, way, name),
            Place::Screen => unreachable!(),
        }
    }

    fn read(&mut self, place: Place, piece: &mut [u8]) -> Result<usize, Failed>
        requires room { 0 < length piece.old }
        requires bound { IsBoundFor Way.Read (state_of self.old) place }
        ensures taken { Reads result piece.new ((state_of self.old).left place) ((state_of self.new).left place) }
        ensures cause { HasCause ((state_of self.old).faults place) ((state_of self.new).faults place) result }
        ensures touches { Touches [] (place ∷ []) [] (state_of self.old) (state_of self.new) }
        ensures counted { CountsCall self.old self.new }
        ensures succeeds { is_ok result ≡ not (fails_next self.old) }
        ensures faultless { NeverFails self.old → (state_of self.new).faults place ≡ (state_of self.old).faults place }
        ensures count { IfOk result (λ n. n ≡ min (length piece.old) (length (left_of self.old place))) }
    {
        let fails = self.count_call();
        match place {
            Place::Settings => self.settings.read(fails, piece),
            Place::Input => self.input.read(fails, piece),
            Place::Output => self.output.read(fails, piece),
            Place::Prices => self.prices.read(fails, piece),
            Place::Screen => self.screen.read(fails, piece),
        }
    }

    fn write(&mut self, place: Place, piece: &[u8]) -> Result<usize, Failed>
        requires some { 0 < length piece.now }
        requires bound { place ≢ Place.Screen → IsBoundFor Way.Write (state_of self.old) place }
        ensures appended { Writes result piece.now ((state_of self.old).got place) ((state_of self.new).got place) }
        ensures cause { HasCause ((state_of self.old).faults place) ((state_of self.new).faults place) result }
        ensures touches { Touches [] [] (place ∷ []) (state_of self.old) (state_of self.new) }
        ensures counted { CountsCall self.old self.new }
        ensures succeeds { is_ok result ≡ (not (fails_next self.old) && nat_lt (length (got_of self.old place)) (size_of self.old place)) }
        ensures faultless { NeverFails self.old → HasRoom self.old place → (state_of self.new).faults place ≡ (state_of self.old).faults place }
        ensures count { IfOk result (λ n. n ≡ min (length piece.now) (size_of self.old place - length (got_of self.old place))) }
    {
        let fails = self.count_call();
        match place {
            Place::Settings => self.settings.write(fails, piece),
            Place::Input => self.input.write(fails, piece),
            Place::Output => self.output.write(fails, piece),
            Place::Prices => self.prices.write(fails, piece),
            Place::Screen => self.screen.write(fails, piece),
        }
    }
}
