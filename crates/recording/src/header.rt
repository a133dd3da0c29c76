// What an input begins with.
/// The header of a recording, told by its first four octets.
#[derive(Clone, Copy, Debug, PartialEq, Eq)]
pub enum Header {
    /// `MRT1`: the items are ticks and datagrams.
    First,
    /// `MRT2`: the items are ticks, datagrams and changes of biases.
    Second,
}
