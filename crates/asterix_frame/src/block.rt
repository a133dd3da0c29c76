// Data blocks, and why octets are none.
ghost use Rattle.std.specs.Prelude.{◌+◌, ◌<◌, ◌^◌, length};

use std::alloc::AllocFailed;
use trk_base::NoMemory;

// The octets of a block's head: its category and its length.
pub(crate) const HEAD_LENGTH: usize = 3;

/// A data block of a datagram.
#[derive(Clone, Copy)]
pub struct Block<'a> {
    /// The category.
    pub cat: u8,
    /// The offset of the body in the datagram.
    pub at: usize,
    /// The records: what follows the category and the length.
    pub body: &'a [u8],
    pub ghost in_memory: { at + length body.now < 2 ^ 64 },
}

impl Block<'_> {
    ghost use Rattle.std.specs.Prelude.{◌≡◌};

    /// The offset in the datagram of what follows the block.
    pub fn end(&self) -> usize
        ensures { result ≡ self.now.at + length self.now.body.now }
    {
        self.at + self.body.len()
    }
}

/// The first octet of a datagram, from the left, where nothing that ASTERIX allows stands.
#[derive(Clone, Copy, Debug, PartialEq, Eq)]
pub struct Malformed {
    /// The offset in the datagram that the cause tells.
    pub offset: usize,
    /// One of the causes of the module `cause`.
    pub cause: u8,
}

/// Why a datagram wasn't cut into its blocks, a record not walked, or a block's records not read.
#[derive(Clone, Copy, Debug, PartialEq, Eq)]
pub enum BlocksError {
    /// The octets aren't in the grammar.
    Malformed(Malformed),
    /// Memory is wanting.
    NoMemory,
}

impl From<Malformed> for BlocksError {
    ghost use Rattle.std.specs.Prelude.{◌≡◌};
    ghost use Rattle.asterix_frame.specs.declared.block.BlocksError.TheVariants as errors;

    ghost from_gives = { λ m e. e ≡ errors.Malformed m };

    fn from(malformed: Malformed) -> Self {
        BlocksError::Malformed(malformed)
    }
}

impl From<NoMemory> for BlocksError {
    ghost use Rattle.std.specs.Prelude.{◌≡◌};
    ghost use Rattle.asterix_frame.specs.declared.block.BlocksError.TheVariants as errors;

    ghost from_gives = { λ _ e. e ≡ errors.NoMemory };

    fn from(_: NoMemory) -> Self {
        BlocksError::NoMemory
    }
}

impl<T: Drop> From<AllocFailed<T>> for BlocksError {
    ghost use Rattle.std.specs.Prelude.{◌≡◌};
    ghost use Rattle.asterix_frame.specs.declared.block.BlocksError.TheVariants.{NoMemory};

    ghost from_gives = { λ _ e. e ≡ NoMemory };

    fn from(_: AllocFailed<T>) -> Self {
        BlocksError::NoMemory
    }
}
