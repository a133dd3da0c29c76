// Fields of presence bits: the FSPEC of a record, and the primary field of a compound item.
ghost use Rattle.std.specs.Prelude.{◌≡◌, ◌≤◌, ◌<◌, ◌/◌, ◌↔◌, length, take, IsTrue, IfOk, IfErr};
ghost use Rattle.asterix_frame.specs.Presence.{IsField, presence};
ghost use Rattle.asterix_frame.specs.Names.{known, known_count, IsFieldError};

use crate::tables::{ItemFormat, SubfieldFormat};

// Bit 1 of an octet: the field goes on.
pub(crate) const FX: u8 = 1;

// The octets of the longest FSPEC that names an item.
pub(crate) const FSPEC_LIMIT: usize = 4;

// The numbers that a table has at most.
pub(crate) const TABLE_LIMIT: usize = 7 * FSPEC_LIMIT;

// What the bits of a field name, by number.
#[derive(Clone, Copy)]
pub(crate) enum Names<'a> {
    Items(&'a [ItemFormat]),
    Subfields(&'a [SubfieldFormat]),
}

// Why no field begins.
#[derive(Clone, Copy)]
pub(crate) enum FieldError {
    // The octets end within it.
    Ends,
    // The octet at that offset has a bit that names nothing.
    Spare(usize),
}

impl Names<'_> {
    ghost use Rattle.std.specs.Prelude.{◌≡◌, ◌≤◌, ◌<◌, ◌+◌, ◌*◌};
    ghost use Rattle.std.specs.Bool.{OnTrue, OnFalse};
    ghost use Rattle.asterix_frame.specs.declared.presence.TheConstants.{TABLE_LIMIT};
    ghost use Rattle.asterix_frame.specs.Names.{known, known_count, NamesKnown, NamesUnknown};

    // Whether a number names something.
    fn knows(self, offset: usize, bit: usize) -> bool
        requires few { known_count self ≤ TABLE_LIMIT }
        requires in_octet { bit < 7 }
        ensures { result ≡ known self.entry (7 * offset + bit) }
    {
        match self {
            Names::Items(items) => offset < items.len()
                && items.get(7 * offset + bit).is_some_and(ItemFormat::is_item),
            Names::Subfields(subfields) => offset < subfields.len()
                && subfields
                    .get(7 * offset + bit)
                    .is_some_and(SubfieldFormat::is_subfield),
        }
    }

    // Whether the octet at that offset of a field has a bit that names nothing.
    fn has_unknown(self, offset: usize, octet: u8) -> bool
        requires few { known_count self ≤ TABLE_LIMIT }
        ensures unknown { OnTrue result (NamesUnknown (known self.entry) offset octet) }
        ensures known { OnFalse result (NamesKnown (known self.entry) offset octet) }
    {
        for bit in 0..7 {
            if octet >> (7 - bit) & 1 == 1 && !self.knows(offset, bit) {
                return true;
            }
        }
        false
    }
}

// The octets of the field that begins there.
pub(crate) fn field_len(names: Names<'_>, octets: &[u8]) -> Result<usize, FieldError>
    requires { known_count names ≤ TABLE_LIMIT }
    ensures found { IfOk result (λ n. (n ≤ length octets.now) × IsField (known names.entry) (take n octets.now)) }
    ensures none { IfErr result (λ e. IsFieldError (known names.entry) octets.now e) }
{
    for (offset, octet) in octets.iter().enumerate() {
        if names.has_unknown(offset, *octet) {
            return Err(FieldError::Spare(offset));
        }
        if octet & FX == 0 {
            return Ok(offset + 1);
        }
    }
    Err(FieldError::Ends)
}

// Whether a field names a number.
pub(crate) fn is_present(field: &[u8], number: usize) -> bool
    requires { number / 7 < length field.now }
    ensures { IsTrue result ↔ (presence field.now number ≡ 1) }
{
    field[number / 7] >> (7 - number % 7) & 1 == 1
}
