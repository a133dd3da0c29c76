// How octets end that were read from the left.
ghost use Rattle.std.specs.Prelude.{◌≡◌};

/// What follows things that are written one after the other, where no more of them begins.
#[derive(Clone, Copy, Debug, PartialEq, Eq)]
pub enum Ending {
    /// No octet.
    Nothing,
    /// Octets that begin none, however they go on.
    Other,
    /// A prefix of one, and not all of it.
    Truncated,
}

impl Ending {
    ghost use Rattle.recording.specs.Endings.{fault_of};

    // The offset of the fault, where the ending stands at `offset` of octets that end at `end`.
    //
    // Of octets that go on after their end it is known where they begin nothing that is written;
    // but what is truncated there may be whole, and their end is told.
    pub(crate) fn fault(self, goes_on: bool, offset: usize, end: usize) -> Option<usize>
        ensures { result ≡ fault_of self goes_on offset end }
    {
        match (self, goes_on) {
            (Ending::Other, _) | (Ending::Truncated, false) => Some(offset),
            (Ending::Nothing | Ending::Truncated, true) => Some(end),
            (Ending::Nothing, false) => None,
        }
    }
}
