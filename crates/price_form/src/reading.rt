// The records of a price file, read and judged where they stand.
ghost use Rattle.std.specs.Prelude.{◌≡◌, ◌<◌, ◌≤◌, ◌-◌, ◌↔◌, ◌⊎◌, ◌^◌, ℕ, List, IsTrue, MatchOption, MatchResult, IfSome, IfOk, All, length};
ghost use Rattle.trk_base.specs.Limits.{gate_cost};
ghost use Rattle.assignment_dual.specs.Problems.{IsProblem};
ghost use Rattle.price_form.specs.declared.certs.PriceRecord.{PriceRecord};
ghost use Rattle.assignment_dual.specs.Problems.{EdgeBefore, edge_at};
ghost use Rattle.price_form.specs.Reading.{end_of, cert_end, cert_read, BeginsCert, HasCounts, ReadsNone, ReadsCert, NoRecord, ReadsRecord, EndsRecord, AreOffsets};
ghost use Rattle.price_form.specs.Files.{ArePrices, IsPriceFault, IfPriceFault};

use crate::columns::{Column, Edges, Entries};
use crate::numbers::{edges_at, entries_at, half_at, prices_at, word_at, words_at};
use crate::{Cert, PriceRecord, PricesError};
use assignment_dual::Costs;
use short_list::ShortList;
use std::alloc::Global;
use trk_base::{GATE_COST, NoMemory};

/// What a price file begins with: `MRP1`.
pub(crate) const MAGIC: [u8; 4] = [0x4D, 0x52, 0x50, 0x31];

/// How many plots, tracks and edges a certificate has.
#[derive(Clone, Copy)]
pub(crate) struct Counts {
    pub(crate) plots: u32,
    pub(crate) tracks: u32,
    pub(crate) edges: u32,
}

// The counts of the certificate at a place, if they can be those of one and its octets aren't cut
// short.
fn counts_at(octets: &[u8], at: usize) -> Option<Counts>
    requires { at ≤ length octets.now }
    ensures { MatchOption result (ReadsNone octets.now at) (HasCounts octets.now at) }
{
    if octets.len() - at < 18 {
        return None;
    }
    let plots = half_at(octets, at + 10);
    let tracks = half_at(octets, at + 14);
    if plots == 0 {
        return None;
    }
    if tracks == u32::MAX {
        return None;
    }
    let numbers = at + 18 + plots as usize * 8 + tracks as usize * 8;
    if octets.len() < numbers + 4 {
        return None;
    }
    let edges = half_at(octets, numbers);
    let counts = Counts {
        plots,
        tracks,
        edges,
    };
    if octets.len() < counts.end(at) {
        return None;
    }
    Some(counts)
}

/// The counts of the certificate whose record begins at a place.
pub(crate) fn counts_of(octets: &[u8], at: usize) -> Counts
    requires { BeginsCert octets.now at }
    ensures { HasCounts octets.now at result }
{
    let plots = half_at(octets, at + 10);
    let tracks = half_at(octets, at + 14);
    Counts {
        plots,
        tracks,
        edges: half_at(octets, at + 18 + plots as usize * 8 + tracks as usize * 8),
    }
}

impl Counts {
    // Where a certificate of these counts ends that begins at a place.
    fn end(self, at: usize) -> usize
        requires { at < 2 ^ 63 }
        ensures { result ≡ end_of self.plots self.tracks self.edges at }
    {
        at + 22 + self.plots as usize * 20 + self.tracks as usize * 16 + self.edges as usize * 10
    }
}

/// Whether an edge stands before another, by its plot, then by its track.
pub(crate) fn is_before(edge: (u32, u32, u16), other: (u32, u32, u16)) -> bool
    ensures { IsTrue result ↔ EdgeBefore edge other }
{
    edge.0 < other.0 || (edge.0 == other.0 && edge.1 < other.1)
}

// Whether an edge's places are in range, and its cost is.
fn is_edge(edge: (u32, u32, u16), plots: u32, tracks: u32) -> bool
    ensures { IsTrue result ↔ ((edge.0 < plots) × (edge.1 < tracks) × (edge.2 ≤ gate_cost)) }
{
    edge.0 < plots && edge.1 < tracks && edge.2 <= GATE_COST
}

// Whether edges strictly rise, their places are in range and their costs are at most 4,096.
fn are_edges<E: Column<(u32, u32, u16)>>(edges: &E, plots: u32, tracks: u32) -> bool
    ensures { IsTrue result ↔ IsProblem (record { plots = plots; tracks = tracks; edges = E.list edges.now }) }
{
    let mut last = None;
    for i in 0..edges.len() {
        let edge = edges.at(i);
        if !is_edge(edge, plots, tracks) {
            return false;
        }
        if !follows(last, edge) {
            return false;
        }
        last = Some(edge);
    }
    true
}

// Whether an edge stands after the one before it, if there is one.
fn follows(last: Option<(u32, u32, u16)>, edge: (u32, u32, u16)) -> bool
    ensures { IsTrue result ↔ IfSome last (λ e. EdgeBefore e edge) }
{
    match last {
        None => true,
        Some(last) => is_before(last, edge),
    }
}

// Whether each track that is named is below a number.
fn name_below<X: Column<Option<u32>>>(pairing: &X, tracks: u32) -> bool
    ensures { IsTrue result ↔ All (λ x. IfSome x (λ t. t < tracks)) (X.list pairing.now) }
{
    for i in 0..pairing.len() {
        let entry = pairing.at(i);
        if let Some(track) = entry
            && track >= tracks
        {
            return false;
        }
    }
    true
}

// The counts of the certificate at a place, if there is one. It is judged where it stands.
fn cert_counts(octets: &[u8], at: usize) -> Option<Counts>
    requires { at ≤ length octets.now }
    ensures { MatchOption result (ReadsNone octets.now at) (λ cs. HasCounts octets.now at cs × ReadsCert octets.now at (cert_read octets.now at) (cert_end octets.now at)) }
{
    let Some(counts) = counts_at(octets, at) else {
        return None;
    };
    let edges = Edges {
        octets,
        from: at + 22 + counts.plots as usize * 8 + counts.tracks as usize * 8,
        count: counts.edges as usize,
    };
    if !are_edges(&edges, counts.plots, counts.tracks) {
        return None;
    }
    let pairing = Entries {
        octets,
        from: edges.from + edges.count * 10,
        count: counts.plots as usize,
    };
    if !name_below(&pairing, counts.tracks) {
        return None;
    }
    Some(counts)
}

// The certificate of these counts at a place.
fn cert_at(alloc: Global, octets: &[u8], at: usize, counts: Counts) -> Result<Cert, NoMemory>
    requires counts { HasCounts octets.now at counts }
    requires stands { ReadsCert octets.now at (cert_read octets.now at) (cert_end octets.now at) }
    ensures { IfOk result (λ c. c ≡ cert_read octets.now at) }
{
    let (n, k, m) = (
        counts.plots as usize,
        counts.tracks as usize,
        counts.edges as usize,
    );
    let edges_from = at + 22 + n * 8 + k * 8;
    let prices_from = edges_from + m * 10 + n * 4;
    let plots = words_at(alloc, octets, at + 18, n)?;
    let tracks = words_at(alloc, octets, at + 18 + n * 8, k)?;
    let edges = edges_at(alloc, octets, edges_from, m)?;
    let pairing = entries_at(alloc, octets, edges_from + m * 10, n)?;
    let u = prices_at(alloc, octets, prices_from, n)?;
    let v = prices_at(alloc, octets, prices_from + n * 8, k)?;
    Ok(Cert {
        slot: word_at(octets, at + 1),
        radar: octets[at + 9],
        plots: ShortList::of(plots),
        tracks: ShortList::of(tracks),
        costs: Costs {
            plots: counts.plots,
            tracks: counts.tracks,
            edges: ShortList::of(edges),
        },
        pairing: ShortList::of(pairing),
        u: ShortList::of(u),
        v: ShortList::of(v),
    })
}

/// Where the record at a place ends, if there is one.
pub(crate) fn record_end(octets: &[u8], at: usize) -> Option<usize>
    requires { at < length octets.now }
    ensures { MatchOption result (NoRecord octets.now at) (EndsRecord octets.now at) }
{
    match octets[at] {
        1 => {
            if octets.len() - at < 17 {
                return None;
            }
            Some(at + 17)
        }
        2 => {
            let Some(counts) = cert_counts(octets, at) else {
                return None;
            };
            Some(counts.end(at))
        }
        _ => None,
    }
}

// The record at a place, if there is one, and where it ends.
fn record_at(
    alloc: Global,
    octets: &[u8],
    at: usize,
) -> Result<Option<(PriceRecord, usize)>, NoMemory>
    requires { at < length octets.now }
    ensures { IfOk result (λ o. MatchOption o (NoRecord octets.now at) (λ r. ReadsRecord octets.now at r.0 r.1)) }
{
    match octets[at] {
        1 => {
            if octets.len() - at < 17 {
                return Ok(None);
            }
            let number = word_at(octets, at + 1);
            let cut = word_at(octets, at + 9);
            Ok(Some((PriceRecord::Edition { number, cut }, at + 17)))
        }
        2 => {
            let Some(counts) = cert_counts(octets, at) else {
                return Ok(None);
            };
            let cert = cert_at(alloc, octets, at, counts)?;
            Ok(Some((PriceRecord::Cert { cert, at }, counts.end(at))))
        }
        _ => Ok(None),
    }
}

/// The records of a price file.
///
/// A fault is told at the first octet of the first record that is none: where its first octet is
/// another than `01` and `02`, where it is truncated, has no plots or `FFFFFFFF` tracks, an edge's
/// place out of range, a cost above 4,096, edges that don't strictly rise, or a paired track that
/// is neither `FFFFFFFF` nor in range. Another beginning than the four octets is a fault at 0.
/// No more memory is asked for than a record's octets are there for.
pub fn read_prices(alloc: Global, bytes: &[u8]) -> Result<Vec<PriceRecord>, PricesError>
    ensures { MatchResult result (λ v. ArePrices bytes.now v.items) (IfPriceFault bytes.now) }
{
    if !bytes.starts_with(&MAGIC) {
        return Err(PricesError::Fault { offset: 0 });
    }
    let mut records = Vec::new(alloc);
    let mut at = MAGIC.len();
    while at < bytes.len() {
        match record_at(alloc, bytes, at)? {
            None => return Err(PricesError::Fault { offset: at }),
            Some((found, end)) => {
                records.push(found)?;
                at = end;
            }
        }
    }
    Ok(records)
}

/// Where the record of each certificate of a price file begins, in order.
///
/// The grammar of the whole file is judged, and a fault is told as by [`read_prices`], but no
/// certificate is taken out of the octets: [`check_at`](crate::check_at) judges them where they stand.
pub fn certificate_offsets(alloc: Global, bytes: &[u8]) -> Result<Vec<usize>, PricesError>
    ensures { MatchResult result (λ v. AreOffsets bytes.now v.items) (IfPriceFault bytes.now) }
{
    if !bytes.starts_with(&MAGIC) {
        return Err(PricesError::Fault { offset: 0 });
    }
    let mut offsets = Vec::new(alloc);
    let mut at = MAGIC.len();
    while at < bytes.len() {
        let Some(end) = record_end(bytes, at) else {
            return Err(PricesError::Fault { offset: at });
        };
        if bytes[at] == 2 {
            offsets.push(at)?;
        }
        at = end;
    }
    Ok(offsets)
}

/// Each list of octets is a price file, in one way, or has one fault.
pub fn one_price_file()
    ensures some { (bytes : List ℕ) → All (λ octet. octet < 256) bytes → ((records : List PriceRecord) × ArePrices bytes records) ⊎ ((offset : ℕ) × IsPriceFault bytes offset) }
    ensures same_records { (bytes : List ℕ) (a b : List PriceRecord) → ArePrices bytes a → ArePrices bytes b → a ≡ b }
    ensures same_fault { (bytes : List ℕ) (p q : ℕ) → IsPriceFault bytes p → IsPriceFault bytes q → p ≡ q }
    ensures not_both { (bytes : List ℕ) (a : List PriceRecord) (p : ℕ) → ArePrices bytes a → IsPriceFault bytes p → ⊥ }
{}
