// The items of a record.
ghost use Rattle.std.specs.Prelude.{◌≡◌, ◌≤◌, ◌<◌, ℕ, List, Result, length, take, drop, All, IfOk};
ghost use Rattle.asterix_frame.specs.declared.block.Malformed.{Malformed};
ghost use Rattle.asterix_frame.specs.declared.tables.ItemFormat.{ItemFormat};
ghost use Rattle.asterix_frame.specs.Answers.{IfMalformed, AnswersWith, RefusesWith};
ghost use Rattle.asterix_frame.specs.Tables.{table_of};
ghost use Rattle.asterix_frame.specs.Presence.{IsField};
ghost use Rattle.asterix_frame.specs.Records.{knows, LiesIn, HasRecord, IsFaultOfRecord, Walks};

use crate::cause::{FSPEC_END, SPARE_FRN};
use crate::items::item_len;
use crate::presence::{FSPEC_LIMIT, FieldError, Names, TABLE_LIMIT, field_len, is_present};
use crate::tables::{ItemFormat, Uap};
use crate::{Block, BlocksError, Malformed};
use std::alloc::Global;
use trk_base::NoMemory;

/// The items of a whole record.
#[derive(Drop)]
pub struct ItemSpans {
    /// The FRN, the first octet and the end of each item, in order. The offsets are in the block's
    /// body.
    pub frns: Vec<(u8, usize, usize)>,
    /// The offset of the record's end in the block's body.
    pub next: usize,
}

/// Why a record wasn't walked: it has a fault with one of the causes `FSPEC_END` to
/// `UNKNOWN_SUBFIELD`, or memory is wanting.
pub type WalkError = BlocksError;

/// A walk over one record: its whole items, up to its end or to the first fault.
#[derive(Drop)]
pub struct ItemWalk {
    /// The FRN, the first octet and the end of each item, in order. The offsets are in the block's
    /// body.
    pub frns: Vec<(u8, usize, usize)>,
    /// The offset of the record's end in the block's body, or the first fault, which follows these
    /// items.
    pub end: Result<usize, Malformed>,
}

/// The items of the record that begins at an offset of a block's body.
///
/// It is refused exactly where no whole record begins there, by the first fault from the left, with
/// one of the causes `FSPEC_END` to `UNKNOWN_SUBFIELD`. Each octet of the FSPEC and of a primary
/// field is judged before the next one is asked for.
pub fn walk_record(
    alloc: Global,
    uap: Uap,
    block: &Block<'_>,
    from: usize,
) -> Result<ItemSpans, WalkError>
    requires { from < length block.now.body.now }
    ensures found { IfOk result (λ s. HasRecord (table_of uap) block.now.body.now from s.frns.items s.next) }
    ensures within { IfOk result (λ s. All (LiesIn block.now.body.now) s.frns.items) }
    ensures advances { IfOk result (λ s. (from < s.next) × (s.next ≤ length block.now.body.now)) }
    ensures malformed { IfMalformed result (λ m. IsFaultOfRecord (table_of uap) block.now from m) }

    // The other directions, unless memory is wanting.
    ensures reads { (spans : List (ℕ × ℕ × ℕ)) (next : ℕ) → HasRecord (table_of uap) block.now.body.now from spans next → AnswersWith result (λ s. (s.frns.items ≡ spans) × (s.next ≡ next)) }
    ensures refuses { (m : Malformed) → IsFaultOfRecord (table_of uap) block.now from m → RefusesWith result (λ x. x ≡ m) }
{
    let ItemWalk { frns, end } = walk_items(alloc, uap, block, from)?;
    let next = end?;
    Ok(ItemSpans { frns, next })
}

/// The items of the record that begins at an offset of a block's body, as far as they are whole.
///
/// A fault is told with one of the causes `FSPEC_END` to `UNKNOWN_SUBFIELD`; a fault of the FSPEC
/// comes before all items.
pub fn walk_items(
    alloc: Global,
    uap: Uap,
    block: &Block<'_>,
    from: usize,
) -> Result<ItemWalk, NoMemory>
    requires { from < length block.now.body.now }
    ensures walks { IfOk result (λ w. Walks (table_of uap) block.now.at block.now.body.now from w.frns.items w.end) }
    ensures within { IfOk result (λ w. All (LiesIn block.now.body.now) w.frns.items) }
    ensures advances { IfOk result (λ w. IfOk w.end (λ next. (from < next) × (next ≤ length block.now.body.now))) }
{
    let table = uap.table();
    match field_len(Names::Items(table), &block.body[from..]) {
        Ok(fspec) => walk_named(alloc, table, block, from, fspec),
        Err(FieldError::Ends) => Ok(ItemWalk {
            frns: Vec::new(alloc),
            end: Err(Malformed {
                offset: block.end(),
                cause: FSPEC_END,
            }),
        }),
        Err(FieldError::Spare(offset)) => Ok(ItemWalk {
            frns: Vec::new(alloc),
            end: Err(Malformed {
                offset: block.at + from + offset,
                cause: SPARE_FRN,
            }),
        }),
    }
}

// The items that an FSPEC of so many octets names.
fn walk_named(
    alloc: Global,
    table: &[ItemFormat],
    block: &Block<'_>,
    from: usize,
    fspec: usize,
) -> Result<ItemWalk, NoMemory>
    requires few { length table.now ≤ TABLE_LIMIT }
    requires from { from ≤ length block.now.body.now }
    requires within { fspec ≤ length (drop from block.now.body.now) }
    requires field { IsField (knows table.now) (take fspec (drop from block.now.body.now)) }
    ensures { IfOk result (λ w. Walks table.now block.now.at block.now.body.now from w.frns.items w.end) }
{
    let octets = &block.body[from..];
    let mut frns = Vec::with_capacity(alloc, 7 * fspec.min(FSPEC_LIMIT))?;
    let mut end = fspec;
    for (number, item) in table.iter().enumerate() {
        if number / 7 >= fspec {
            break;
        }
        if is_present(&octets[..fspec], number) {
            match item_len(item, &octets[end..]) {
                Ok(len) => {
                    frns.push((number as u8 + 1, from + end, from + end + len))?;
                    end += len;
                }
                Err(error) => {
                    let end = Err(Malformed {
                        offset: block.at + from + end + error.inside,
                        cause: error.cause,
                    });
                    return Ok(ItemWalk { frns, end });
                }
            }
        }
    }
    Ok(ItemWalk {
        frns,
        end: Ok(from + end),
    })
}

/// A walk has exactly one answer: a record with its items, or the first fault with the items before
/// it.
pub fn one_walk()
    ensures some { (table : List ItemFormat) (body : List ℕ) (from offset : ℕ) → (spans : List (ℕ × ℕ × ℕ)) × (end : Result ℕ Malformed) × Walks table offset body from spans end }
    ensures one { (table : List ItemFormat) (body : List ℕ) (from offset : ℕ) (spans spans' : List (ℕ × ℕ × ℕ)) (end end' : Result ℕ Malformed) → Walks table offset body from spans end → Walks table offset body from spans' end' → (spans ≡ spans') × (end ≡ end') }
{}
