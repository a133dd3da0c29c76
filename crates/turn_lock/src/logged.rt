// What the lock may hold.
ghost use Rattle.std.specs.Prelude.{◌≡◌, List, Bool, length, count_by};

/// A value that stands for a list of events, the history so far.
///
/// Some of its events are publishing events. Their number is the last published number.
pub trait Logged: Drop {
    /// One event of the list.
    type Event;
    /// Plain data that no turn changes.
    type Base;

    // The list.
    ghost events: { Self → List Self.Event };

    // Whether an event is a publishing event.
    ghost is_publish: { Self.Event → Bool };

    ghost base: { Self → Self.Base };

    /// The length of the list.
    fn count(&self) -> u64
        ensures { result ≡ length (events self.now) };

    /// The last published number, which is the number of publishing events in the list.
    fn published(&self) -> u64
        ensures { result ≡ count_by is_publish (events self.now) };
}
