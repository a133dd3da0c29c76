// The places that a run reads and writes.
ghost use Rattle.std.specs.Prelude.{◌≡◌, ◌≢◌, ◌<◌, ◌∷◌, [], ℕ, List, length, Option, None, Some, string_bytes};

/// A place of the outside. Screen is the program's standard output; the others are files.
#[derive(Clone, Copy, Debug, PartialEq, Eq)]
pub enum Place {
    Settings,
    Input,
    Output,
    Prices,
    Screen,
}

/// What a place is bound for.
#[derive(Clone, Copy, Debug, PartialEq, Eq)]
pub enum Way {
    Read,
    Write,
}

/// The outside has failed.
#[derive(Clone, Copy, Debug, PartialEq, Eq)]
pub struct Failed;

/// The places of the outside. A place has a count of faults that never falls, and, but for Screen,
/// at most one binding, to a way and a name. Every host tells these two. What a place has left to
/// be read, and what it has got, a host may tell, as one in memory does, or not.
///
/// A call answers [`Failed`] only where the count of its place rose in that call; a count that
/// stands at 2^64 - 1 counts as risen. A call that answers Ok leaves every count as it was.
pub trait Host {
    ghost use Rattle.io_traits.specs.Faults.{HasCause};
    ghost use Rattle.io_traits.specs.Touching.{Touches};
    ghost use Rattle.io_traits.specs.Host.{HostState, IsBoundFor, IsEmpty, Reads, Writes};
    ghost use Rattle.io_traits.specs.declared.host.Place.{Place};
    ghost use Rattle.io_traits.specs.declared.host.Way.{Way};

    /// The counts, the bindings, and what is told of the octets of each place.
    ghost state: { Self → HostState };

    /// Binds a place to a name, for reading or for writing. A file that is bound for writing is
    /// made, or emptied. The place has this binding also where the call fails.
    fn bind(&mut self, place: Place, way: Way, name: String) -> Result<(), Failed>
        requires file { place ≢ Place.Screen }
        requires unbound { (state self.old).bound place ≡ None }
        ensures bound { (state self.new).bound place ≡ Some (way, string_bytes name) }
        ensures cause { HasCause ((state self.old).faults place) ((state self.new).faults place) result }
        ensures touches { Touches (place ∷ []) [] [] (state self.old) (state self.new) };

    /// Takes a prefix of what the place has left into the piece's first octets, and answers how
    /// many: from 1 to the piece's length, or 0 exactly at the end. Where it fails it has taken
    /// nothing.
    fn read(&mut self, place: Place, piece: &mut [u8]) -> Result<usize, Failed>
        requires room { 0 < length piece.old }
        requires bound { IsBoundFor Way.Read (state self.old) place }
        ensures taken { Reads result piece.new ((state self.old).left place) ((state self.new).left place) }
        ensures cause { HasCause ((state self.old).faults place) ((state self.new).faults place) result }
        ensures touches { Touches [] (place ∷ []) [] (state self.old) (state self.new) };

    /// Appends a prefix of the piece to what the place has got, and answers how many octets: from 1
    /// to the piece's length. Where it fails it has appended nothing.
    fn write(&mut self, place: Place, piece: &[u8]) -> Result<usize, Failed>
        requires some { 0 < length piece.now }
        requires bound { place ≢ Place.Screen → IsBoundFor Way.Write (state self.old) place }
        ensures appended { Writes result piece.now ((state self.old).got place) ((state self.new).got place) }
        ensures cause { HasCause ((state self.old).faults place) ((state self.new).faults place) result }
        ensures touches { Touches [] [] (place ∷ []) (state self.old) (state self.new) };

    /// A file that isn't bound has got nothing.
    ghost unbound_is_empty: { (host : Self) (place : Place) → place ≢ Place.Screen → (state host).bound place ≡ None → IsEmpty ((state host).got place) };
}
