// What tells entries apart.
ghost use Rattle.std.specs.Prelude.{◌≡◌};
ghost use Rattle.tracker_fold.specs.Keys.{key_in};

use admission_log::Entry;
use trk_base::Key;

/// What tells the entries of a log apart.
#[derive(Clone, Copy, Debug, PartialEq, Eq)]
pub enum EntryKey {
    /// A change of biases, by the first slot for which it holds and the index of its event.
    Change {
        /// The slot.
        slot: u64,
        /// The index.
        place: u64,
    },
    /// An admitted plot, by its key.
    Plot(Key),
}

impl EntryKey {
    /// That of an entry.
    pub fn of(entry: &Entry) -> EntryKey
        ensures { result ≡ key_in entry.now }
    {
        match entry {
            Entry::Bias { slot, place, .. } => EntryKey::Change {
                slot: *slot,
                place: *place,
            },
            Entry::Plot { key, .. } => EntryKey::Plot(*key),
        }
    }
}
