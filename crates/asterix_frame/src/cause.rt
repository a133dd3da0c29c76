//! Why octets are no ASTERIX datagram: the causes that `Malformed` tells, and the octet whose
//! offset each tells.
ghost use Rattle.std.specs.Prelude.{◌≡◌};
ghost use Rattle.asterix_frame.specs.Causes.{block_short, block_length, fspec_end, spare_frn, item_end, length_zero, unknown_subfield, time_range};

/// Fewer than 3 octets are left where a block begins, but some. Told at the block's first octet.
pub const BLOCK_SHORT: u8 = 1;
/// A block's length is below 3 or reaches past the datagram. Told at the first octet of the length.
pub const BLOCK_LENGTH: u8 = 2;
/// The block ends after an FSPEC octet with FX. Told at the block's end.
pub const FSPEC_END: u8 = 3;
/// A presence bit stands for an FRN that the category's table doesn't have. Told at that FSPEC
/// octet.
pub const SPARE_FRN: u8 = 4;
/// The block ends before the item does. Told at the item's first octet.
pub const ITEM_END: u8 = 5;
/// A length octet is 0. Told at that octet.
pub const LENGTH_ZERO: u8 = 6;
/// A bit of a compound item's primary field has no subfield. Told at that primary octet.
pub const UNKNOWN_SUBFIELD: u8 = 7;
/// A time of day is a day or more. It is judged when its item is whole, and told at the item's
/// first octet.
pub const TIME_RANGE: u8 = 8;

/// The causes are numbered as the definition numbers them, whose numbers the refusals name.
pub fn one_numbering()
    ensures block_short { BLOCK_SHORT ≡ block_short }
    ensures block_length { BLOCK_LENGTH ≡ block_length }
    ensures fspec_end { FSPEC_END ≡ fspec_end }
    ensures spare_frn { SPARE_FRN ≡ spare_frn }
    ensures item_end { ITEM_END ≡ item_end }
    ensures length_zero { LENGTH_ZERO ≡ length_zero }
    ensures unknown_subfield { UNKNOWN_SUBFIELD ≡ unknown_subfield }
    ensures time_range { TIME_RANGE ≡ time_range }
{}
