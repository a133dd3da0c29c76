// The records of a block, with their times of day judged.
ghost use Rattle.std.specs.Prelude.{◌≡◌, ◌<◌, ◌≤◌, ◌++◌, ◌⊎◌, ℕ, List, length, drop, All, IfOk, IfSome, IfNone};
ghost use Rattle.asterix_frame.specs.declared.block.Malformed.{Malformed};
ghost use Rattle.asterix_frame.specs.declared.tables.Uap.{Uap};
ghost use Rattle.asterix_frame.specs.Answers.{AnswersWith, RefusesWith, IfMalformed};
ghost use Rattle.trk_base.specs.Numbers.{day};
ghost use Rattle.asterix_frame.specs.DataRecords.{DataRecord, IsDataRecord, record_octets, time_in, time_of};
ghost use Rattle.asterix_frame.specs.Bodies.{IsBody, BodyFault, IsFaultFrom, IsFaultOfBody, HasDataRecord, HaveDataRecords, HasRecords, AreSpans, IsSpan, IsTimeOutOfRange, span_of, elements_at};

use crate::cause::TIME_RANGE;
use crate::tables::{SOURCE_FRN, Uap};
use crate::values::{data_source, three_octets};
use crate::walk::{ItemSpans, ItemWalk, walk_items};
use crate::{Block, BlocksError, Malformed};
use std::alloc::Global;
use trk_base::DAY;

/// The record that begins at an offset of a block's body, where it is whole and its time of day, if
/// it has one, is below a day.
///
/// It is refused exactly where none begins there, by the first fault from the left, with one of the
/// causes `FSPEC_END` to `TIME_RANGE`. A time of day is judged when its item is whole, so before a
/// later item that is cut short.
pub fn first_record(
    alloc: Global,
    uap: Uap,
    block: &Block<'_>,
    from: usize,
) -> Result<ItemSpans, BlocksError>
    requires { from < length block.now.body.now }
    ensures found { IfOk result (λ s. (r : DataRecord) × HasDataRecord uap block.now.body.now from r s) }
    ensures spans { IfOk result (λ s. AreSpans block.now.body.now s) }
    ensures advances { IfOk result (λ s. (from < s.next) × (s.next ≤ length block.now.body.now)) }
    ensures malformed { IfMalformed result (λ m. IsFaultFrom uap block.now from m) }

    // The other directions, unless memory is wanting.
    ensures reads { (r : DataRecord) (rest : List ℕ) → IsDataRecord uap r → drop from block.now.body.now ≡ record_octets r ++ rest → AnswersWith result (λ s. HasDataRecord uap block.now.body.now from r s) }
    ensures refuses { (m : Malformed) → IsFaultFrom uap block.now from m → RefusesWith result (λ x. x ≡ m) }
{
    let ItemWalk { frns, end } = walk_items(alloc, uap, block, from)?;
    if let Some(first) = time_out_of_range(uap, block.body, &frns) {
        return Err(BlocksError::Malformed(Malformed {
            offset: block.at + first,
            cause: TIME_RANGE,
        }));
    }
    let next = end?;
    Ok(ItemSpans { frns, next })
}

/// The records of a block, in order. A block without octets in its body has none.
///
/// It is refused exactly where the body isn't a list of whole records whose times of day are below
/// a day, by the first fault from the left, with one of the causes `FSPEC_END` to `TIME_RANGE`.
pub fn records(alloc: Global, uap: Uap, block: &Block<'_>) -> Result<Vec<ItemSpans>, BlocksError>
    ensures found { IfOk result (λ v. HasRecords uap block.now.body.now v.items) }
    ensures spans { IfOk result (λ v. All (AreSpans block.now.body.now) v.items) }
    ensures malformed { IfMalformed result (λ m. IsFaultOfBody uap block.now m) }

    // The other directions, unless memory is wanting.
    ensures reads { (rs : List DataRecord) → IsBody uap block.now.body.now rs → AnswersWith result (λ v. HaveDataRecords uap block.now.body.now 0 rs v.items) }
    ensures refuses { (m : Malformed) → IsFaultOfBody uap block.now m → RefusesWith result (λ x. x ≡ m) }
{
    let mut found = Vec::new(alloc);
    let mut from = 0;
    while from < block.body.len() {
        let one = first_record(alloc, uap, block, from)?;
        from = one.next;
        found.push(one)?;
    }
    Ok(found)
}

// The offset of the time of day, where it isn't below a day.
fn time_out_of_range(uap: Uap, body: &[u8], frns: &[(u8, usize, usize)]) -> Option<usize>
    requires { All (IsSpan body.now) frns.now }
    ensures out_of_range { IfSome result (λ first. IsTimeOutOfRange uap body.now frns.now first) }
    ensures early { IfNone result (IfSome (time_of uap (elements_at body.now frns.now)) (λ time. time < day)) }
{
    let (first, end) = span_of(frns, uap.time_of_day())?;
    let time = time_in(&body[first..end])?;
    (u64::from(time) >= DAY).then_some(first)
}

// The first octet and the end of the item with that FRN.
fn span_of(frns: &[(u8, usize, usize)], frn: u8) -> Option<(usize, usize)>
    ensures { result ≡ span_of frn frns.now }
{
    for (known, first, end) in frns {
        if *known == frn {
            return Some((*first, *end));
        }
    }
    None
}

// The time of day in three octets, in 1/128 s.
fn time_in(octets: &[u8]) -> Option<u32>
    ensures { result ≡ time_in octets.now }
{
    three_octets(octets)
}

impl ItemSpans {
    ghost use Rattle.std.specs.Prelude.{◌≡◌};
    ghost use Rattle.std.specs.Option.{option_map};
    ghost use Rattle.asterix_frame.specs.DataRecords.{item, item_octets, source_of, time_of};
    ghost use Rattle.asterix_frame.specs.Bodies.{AreSpans, elements_at};

    /// The octets of the item with that FRN, if the record has it. `body` is that of the record's
    /// block.
    pub fn item<'a>(&self, body: &'a [u8], frn: u8) -> Option<&'a [u8]>
        requires { AreSpans body.now self.now }
        ensures { option_map (λ octets. octets.now) result ≡ item frn (elements_at body.now self.now.frns.items) }
    {
        let (first, end) = span_of(&self.frns, frn)?;
        Some(&body[first..end])
    }

    /// The octets of the item with that FRN; those of an item that the record doesn't have are
    /// none. `body` is that of the record's block.
    pub fn octets<'a>(&self, body: &'a [u8], frn: u8) -> &'a [u8]
        requires { AreSpans body.now self.now }
        ensures { result.now ≡ item_octets frn (elements_at body.now self.now.frns.items) }
    {
        self.item(body, frn).unwrap_or(&[])
    }

    /// The record's data source identifier, SAC and SIC, if it has one. `body` is that of the
    /// record's block.
    pub fn data_source(&self, body: &[u8]) -> Option<(u8, u8)>
        requires { AreSpans body.now self.now }
        ensures { result ≡ source_of (elements_at body.now self.now.frns.items) }
    {
        data_source(self.octets(body, SOURCE_FRN))
    }

    /// The record's time of day in 1/128 s, if it has one. `body` is that of the record's block.
    pub fn time_of_day(&self, uap: Uap, body: &[u8]) -> Option<u32>
        requires { AreSpans body.now self.now }
        ensures { result ≡ time_of uap (elements_at body.now self.now.frns.items) }
    {
        time_in(self.item(body, uap.time_of_day())?)
    }
}

/// A body has exactly one reading: as whole records, or as a first fault.
pub fn one_body()
    ensures some { (uap : Uap) (body : List ℕ) → ((rs : List DataRecord) × IsBody uap body rs) ⊎ ((offset : ℕ) × (cause : ℕ) × BodyFault uap body offset cause) }
    ensures one_list { (uap : Uap) (body : List ℕ) (rs rs' : List DataRecord) → IsBody uap body rs → IsBody uap body rs' → rs ≡ rs' }
    ensures one_fault { (uap : Uap) (body : List ℕ) (p c p' c' : ℕ) → BodyFault uap body p c → BodyFault uap body p' c' → (p ≡ p') × (c ≡ c') }
    ensures not_both { (uap : Uap) (body : List ℕ) (rs : List DataRecord) (offset cause : ℕ) → IsBody uap body rs → BodyFault uap body offset cause → ⊥ }
{}
