// The items of a recording.
use plot_geometry::Bias;

/// An item of a recording.
#[derive(Clone, Copy, Debug, PartialEq, Eq)]
pub enum Item<'a> {
    /// A datagram that came from a feed.
    Datagram { feed: u8, bytes: &'a [u8] },
    /// The clock, in 1/128 s.
    Tick(u64),
    /// The biases of a radar, by its index in the settings, from a slot on.
    Bias { radar: u8, slot: u64, bias: Bias },
}
