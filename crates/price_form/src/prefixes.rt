// The prefix of a price file of which no more is read.
ghost use Rattle.std.specs.Prelude.{◌≡◌, ◌<◌, ◌≤◌, ◌+◌, ◌*◌, ◌++◌, ◌^◌, ◌↔◌, ◌⊎◌, ℕ, List, IsTrue, MatchBool, All, length};
ghost use Rattle.price_form.specs.Files.{IsPriceFault, StopsAt};
ghost use Rattle.price_form.specs.Prefixes.{IsOutOfRange, IsOutOfOrder, IsWrongEdge, HasWrongEdge, IsWrongEntry, HasWrongEntry, HasWrongNumber, IsWrong, record_end, IsPrefixFault, HasPrefixFault};

use crate::numbers::{edge_at, half_at, short_at};
use crate::reading::{Counts, MAGIC, is_before, record_end};
use trk_base::GATE_COST;

// Whether the edge at a place has a number that is whole and out of range.
fn is_out_of_range(octets: &[u8], at: usize, plots: u32, tracks: u32) -> bool
    requires { at + 10 < 2 ^ 64 }
    ensures { IsTrue result ↔ IsOutOfRange octets.now plots tracks at }
{
    let end = octets.len();
    (end >= at + 4 && half_at(octets, at) >= plots)
        || (end >= at + 8 && half_at(octets, at + 4) >= tracks)
        || (end >= at + 10 && short_at(octets, at + 8) > GATE_COST)
}

// Whether an edge, of which the plot and the track are whole, isn't after the one before it.
fn is_out_of_order(octets: &[u8], at: usize) -> bool
    requires after { 10 ≤ at }
    requires fits { at + 10 < 2 ^ 64 }
    ensures { IsTrue result ↔ IsOutOfOrder octets.now at }
{
    if octets.len() < at + 8 {
        return false;
    }
    // The order goes by the plot and the track alone.
    let edge = (half_at(octets, at), half_at(octets, at + 4), 0);
    !is_before(edge_at(octets, at - 10), edge)
}

// Whether an edge, of those from a place on, has a number that is whole and wrong.
fn is_wrong_edge(octets: &[u8], from: usize, i: usize, counts: Counts) -> bool
    requires place { from ≤ 2 ^ 63 }
    requires few { i < 2 ^ 32 }
    ensures { IsTrue result ↔ IsWrongEdge octets.now counts.plots counts.tracks from i }
{
    let at = from + i * 10;
    is_out_of_range(octets, at, counts.plots, counts.tracks)
        || (i > 0 && is_out_of_order(octets, at))
}

// Whether one of the edges from a place on has a number that is whole and wrong.
fn has_wrong_edge(octets: &[u8], from: usize, counts: Counts) -> bool
    requires { from ≤ 2 ^ 63 }
    ensures { MatchBool result (HasWrongEdge octets.now counts.plots counts.tracks counts.edges from) (HasWrongEdge octets.now counts.plots counts.tracks counts.edges from → ⊥) }
{
    for i in 0..counts.edges as usize {
        if octets.len() <= from + i * 10 {
            return false;
        }
        if is_wrong_edge(octets, from, i, counts) {
            return true;
        }
    }
    false
}

// Whether the paired track at a place is whole, and is neither none nor one of the tracks.
fn is_wrong_entry(octets: &[u8], at: usize, tracks: u32) -> bool
    requires { at + 4 < 2 ^ 64 }
    ensures { IsTrue result ↔ IsWrongEntry octets.now tracks at }
{
    if octets.len() < at + 4 {
        return false;
    }
    let track = half_at(octets, at);
    track != u32::MAX && track >= tracks
}

// Whether one of the paired tracks from a place on is whole and wrong.
fn has_wrong_entry(octets: &[u8], from: usize, counts: Counts) -> bool
    requires { from ≤ 2 ^ 63 + 2 ^ 36 }
    ensures { MatchBool result (HasWrongEntry octets.now counts.plots counts.tracks from) (HasWrongEntry octets.now counts.plots counts.tracks from → ⊥) }
{
    for i in 0..counts.plots as usize {
        if octets.len() <= from + i * 4 {
            return false;
        }
        if is_wrong_entry(octets, from + i * 4, counts.tracks) {
            return true;
        }
    }
    false
}

// Whether the certificate that is begun at a place has a number that is whole and wrong.
fn has_wrong_number(octets: &[u8], at: usize) -> bool
    requires { at ≤ length octets.now }
    ensures { MatchBool result (HasWrongNumber octets.now at) (HasWrongNumber octets.now at → ⊥) }
{
    let left = octets.len() - at;
    if left < 14 {
        return false;
    }
    let plots = half_at(octets, at + 10);
    if plots == 0 {
        return true;
    }
    if left < 18 {
        return false;
    }
    let tracks = half_at(octets, at + 14);
    if tracks == u32::MAX {
        return true;
    }
    let numbers = at + 18 + plots as usize * 8 + tracks as usize * 8;
    if octets.len() < numbers + 4 {
        return false;
    }
    let counts = Counts {
        plots,
        tracks,
        edges: half_at(octets, numbers),
    };
    if has_wrong_edge(octets, numbers + 4, counts) {
        return true;
    }
    has_wrong_entry(octets, numbers + 4 + counts.edges as usize * 10, counts)
}

// Whether no record goes on from a place, by its first octet or by a number that is whole.
fn is_wrong(octets: &[u8], at: usize) -> bool
    requires { at < length octets.now }
    ensures { MatchBool result (IsWrong octets.now at) (IsWrong octets.now at → ⊥) }
{
    match octets[at] {
        1 => false,
        2 => has_wrong_number(octets, at),
        _ => true,
    }
}

/// The fault of a price file that goes on after this prefix of it.
///
/// It is told at the first octet of a record, where a number that stands whole in the prefix is
/// wrong, and at 0 where the prefix doesn't begin as the four octets do. Else it is the prefix's end:
/// where whole records end there, and where a record is truncated by it. The records are judged
/// where they stand, so no memory is asked for.
pub fn prefix_fault(prefix: &[u8]) -> usize
    ensures { IsPrefixFault prefix.now result }
{
    if MAGIC.starts_with(prefix) {
        return prefix.len();
    }
    if !prefix.starts_with(&MAGIC) {
        return 0;
    }
    let mut at = MAGIC.len();
    while at < prefix.len() {
        match record_end(prefix, at) {
            Some(end) => at = end,
            None if is_wrong(prefix, at) => return at,
            None => return prefix.len(),
        }
    }
    prefix.len()
}

/// Each list of octets has exactly one fault as a prefix. Where a price file stops and no number that
/// is whole is wrong, the octets end before the record does.
pub fn one_prefix_fault()
    ensures some { (prefix : List ℕ) → All (λ octet. octet < 256) prefix → HasPrefixFault prefix }
    ensures one { (prefix : List ℕ) (p q : ℕ) → IsPrefixFault prefix p → IsPrefixFault prefix q → p ≡ q }
    ensures causes { (bytes : List ℕ) (p : ℕ) → All (λ octet. octet < 256) bytes → StopsAt bytes p → IsWrong bytes p ⊎ (length bytes < record_end bytes p) }
{}

/// A fault before the end of a prefix is the fault of each file that goes on from this prefix.
pub fn prefix_fault_stays()
    ensures { (prefix more : List ℕ) (p : ℕ) → IsPrefixFault prefix p → p < length prefix → IsPriceFault (prefix ++ more) p }
{}
