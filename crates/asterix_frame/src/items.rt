// The octets of one item.
ghost use Rattle.std.specs.Prelude.{◌≡◌, ◌≤◌, ◌<◌, ℕ, true, length, take, slice_index, IfOk, IfErr, IfSome, IfNone};
ghost use Rattle.asterix_frame.specs.Presence.{IsExtended, IsField, fx};
ghost use Rattle.asterix_frame.specs.Items.{IsRepetitive, EndsInRepetitive, IsExplicit, BeginsNoExplicit, IsSubfield, EndsInSubfield, IsCompound, EndsInNext, BeginsNoCompound, subfield_at, IsItem, BeginsNoItem, is_item, is_subfield};
ghost use Rattle.asterix_frame.specs.Tables.{subfields_of};

use crate::cause::{ITEM_END, LENGTH_ZERO, UNKNOWN_SUBFIELD};
use crate::presence::{FX, FieldError, Names, field_len, is_present};
use crate::tables::{Compound, ItemFormat, SubfieldFormat};

// Why no item begins.
#[derive(Clone, Copy)]
pub(crate) struct ItemError {
    // How far in the item it is told.
    pub(crate) inside: usize,
    // Its cause.
    pub(crate) cause: u8,
}

// The octets end before the item does.
const ENDS: ItemError = ItemError {
    inside: 0,
    cause: ITEM_END,
};

// The octets of the item that begins there.
pub(crate) fn item_len(item: &ItemFormat, octets: &[u8]) -> Result<usize, ItemError>
    requires { is_item item.now ≡ true }
    ensures found { IfOk result (λ n. (n ≤ length octets.now) × IsItem item.now (take n octets.now)) }
    ensures none { IfErr result (λ e. BeginsNoItem item.now octets.now e.inside e.cause) }
    ensures within { IfErr result (λ e. e.inside ≤ length octets.now) }
{
    match item {
        ItemFormat::Spare => unreachable!(),
        ItemFormat::Fixed(size) => fixed_len(*size, octets).ok_or(ENDS),
        ItemFormat::Extended => extended_len(octets).ok_or(ENDS),
        ItemFormat::Repetitive(size) => repetitive_len(*size, octets).ok_or(ENDS),
        ItemFormat::Explicit => explicit_len(octets),
        ItemFormat::Compound(compound) => compound_len(*compound, octets),
    }
}

fn fixed_len(size: u8, octets: &[u8]) -> Option<usize>
    ensures found { IfSome result (λ n. (n ≤ length octets.now) × (length (take n octets.now) ≡ size)) }
    ensures ends { IfNone result (length octets.now < size) }
{
    let size = size as usize;
    (size <= octets.len()).then_some(size)
}

fn extended_len(octets: &[u8]) -> Option<usize>
    ensures found { IfSome result (λ n. (n ≤ length octets.now) × IsExtended (take n octets.now)) }
    ensures ends { IfNone result ((i : ℕ) → i < length octets.now → fx (slice_index octets.now i) ≡ 1) }
{
    let last = octets.iter().position(|octet| octet & FX == 0)?;
    Some(last + 1)
}

fn repetitive_len(size: u8, octets: &[u8]) -> Option<usize>
    ensures found { IfSome result (λ n. (n ≤ length octets.now) × IsRepetitive size (take n octets.now)) }
    ensures ends { IfNone result (EndsInRepetitive size octets.now) }
{
    let (count, rest) = octets.split_first()?;
    let len = *count as usize * size as usize;
    (len <= rest.len()).then_some(len + 1)
}

fn explicit_len(octets: &[u8]) -> Result<usize, ItemError>
    ensures found { IfOk result (λ n. (n ≤ length octets.now) × IsExplicit (take n octets.now)) }
    ensures none { IfErr result (λ e. BeginsNoExplicit octets.now e.cause × (e.inside ≡ 0)) }
    ensures within { IfErr result (λ e. e.inside ≤ length octets.now) }
{
    match octets {
        [] => Err(ENDS),
        [0, ..] => Err(ItemError {
            inside: 0,
            cause: LENGTH_ZERO,
        }),
        [len, ..] => fixed_len(*len, octets).ok_or(ENDS),
    }
}

fn subfield_len(subfield: &SubfieldFormat, octets: &[u8]) -> Option<usize>
    requires { is_subfield subfield.now ≡ true }
    ensures found { IfSome result (λ n. (n ≤ length octets.now) × IsSubfield subfield.now (take n octets.now)) }
    ensures ends { IfNone result (EndsInSubfield subfield.now octets.now) }
{
    match subfield {
        SubfieldFormat::Spare => unreachable!(),
        SubfieldFormat::Fixed(size) => fixed_len(*size, octets),
        SubfieldFormat::Repetitive(size) => repetitive_len(*size, octets),
    }
}

fn compound_len(compound: Compound, octets: &[u8]) -> Result<usize, ItemError>
    ensures found { IfOk result (λ n. (n ≤ length octets.now) × IsCompound (subfields_of compound) (take n octets.now)) }
    ensures none { IfErr result (λ e. BeginsNoCompound (subfields_of compound) octets.now e.inside e.cause) }
    ensures within { IfErr result (λ e. e.inside ≤ length octets.now) }
{
    let subfields = compound.subfields();
    match field_len(Names::Subfields(subfields), octets) {
        Ok(primary) => subfields_end(subfields, primary, octets).ok_or(ENDS),
        Err(FieldError::Ends) => Err(ENDS),
        Err(FieldError::Spare(offset)) => Err(ItemError {
            inside: offset,
            cause: UNKNOWN_SUBFIELD,
        }),
    }
}

// The end of the subfields that a primary field of so many octets names.
fn subfields_end(subfields: &[SubfieldFormat], primary: usize, octets: &[u8]) -> Option<usize>
    requires within { primary ≤ length octets.now }
    requires field { IsField (λ n. is_subfield (subfield_at subfields.now n)) (take primary octets.now) }
    ensures found { IfSome result (λ n. (n ≤ length octets.now) × IsCompound subfields.now (take n octets.now)) }
    ensures ends { IfNone result (EndsInNext subfields.now octets.now) }
{
    let field = &octets[..primary];
    let mut end = primary;
    for (number, subfield) in subfields.iter().enumerate() {
        if number / 7 >= primary {
            break;
        }
        if is_present(field, number) {
            end += subfield_len(subfield, &octets[end..])?;
        }
    }
    Some(end)
}
