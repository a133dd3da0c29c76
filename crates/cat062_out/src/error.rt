// Why a block of this system's own categories wasn't read.
use asterix_frame::{BlocksError, Malformed};
use std::alloc::AllocFailed;
use trk_base::NoMemory;

/// Why a block of one of the categories that this system writes wasn't read.
#[derive(Clone, Copy, Debug, PartialEq, Eq)]
pub enum ProfileError {
    /// The octets aren't in the grammar: the first fault, with one of the causes `FSPEC_END` to
    /// `TIME_RANGE` of `asterix_frame::cause`.
    Malformed(Malformed),
    /// A whole record isn't one that this system writes.
    Profile {
        /// The offset of the record's first octet in the datagram.
        at: usize,
    },
    /// Memory is wanting.
    NoMemory,
}

impl From<BlocksError> for ProfileError {
    ghost use Rattle.std.specs.Prelude.{◌≡◌};
    ghost use Rattle.cat062_out.specs.Errors.{of_blocks};

    ghost from_gives = { λ b e. e ≡ of_blocks b };

    fn from(error: BlocksError) -> Self {
        match error {
            BlocksError::Malformed(malformed) => ProfileError::Malformed(malformed),
            BlocksError::NoMemory => ProfileError::NoMemory,
        }
    }
}

impl From<NoMemory> for ProfileError {
    ghost use Rattle.std.specs.Prelude.{◌≡◌};
    ghost use Rattle.cat062_out.specs.declared.error.ProfileError.TheVariants as errors;

    ghost from_gives = { λ _ e. e ≡ errors.NoMemory };

    fn from(_: NoMemory) -> Self {
        ProfileError::NoMemory
    }
}

impl<T: Drop> From<AllocFailed<T>> for ProfileError {
    ghost use Rattle.std.specs.Prelude.{◌≡◌};
    ghost use Rattle.cat062_out.specs.declared.error.ProfileError.TheVariants.{NoMemory};

    ghost from_gives = { λ _ e. e ≡ NoMemory };

    fn from(_: AllocFailed<T>) -> Self {
        ProfileError::NoMemory
    }
}
