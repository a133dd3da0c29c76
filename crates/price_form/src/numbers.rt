// Numbers in octets, the highest octet first.
ghost use Rattle.std.specs.Prelude.{◌≡◌, ◌≤◌, ◌+◌, ◌*◌, ◌++◌, List, IfOk, OnOk, OnErr, length};
ghost use Rattle.std.specs.Io.{StartsWith};
ghost use Rattle.std.specs.List.{flat_map};
ghost use Rattle.price_form.specs.Octets.{short_at, half_at, word_at, price_number_at, edge_numbers_at, entry_number_at, many_at, word_octets, price_octets, edge_octets, entry_octets};

use std::alloc::Global;
use trk_base::NoMemory;

// What stands for none among the places of tracks.
const NONE: u32 = u32::MAX;

/// The number of two octets at a place.
pub(crate) fn short_at(octets: &[u8], at: usize) -> u16
    requires { at + 2 ≤ length octets.now }
    ensures { result ≡ short_at octets.now at }
{
    u16::from_be_bytes([octets[at], octets[at + 1]])
}

/// The number of four octets at a place.
pub(crate) fn half_at(octets: &[u8], at: usize) -> u32
    requires { at + 4 ≤ length octets.now }
    ensures { result ≡ half_at octets.now at }
{
    u32::from_be_bytes([octets[at], octets[at + 1], octets[at + 2], octets[at + 3]])
}

/// The number of eight octets at a place.
pub(crate) fn word_at(octets: &[u8], at: usize) -> u64
    requires { at + 8 ≤ length octets.now }
    ensures { result ≡ word_at octets.now at }
{
    u64::from_be_bytes([
        octets[at],
        octets[at + 1],
        octets[at + 2],
        octets[at + 3],
        octets[at + 4],
        octets[at + 5],
        octets[at + 6],
        octets[at + 7],
    ])
}

/// The numbers of eight octets from a place on.
pub(crate) fn words_at(
    alloc: Global,
    octets: &[u8],
    at: usize,
    count: usize,
) -> Result<Vec<u64>, NoMemory>
    requires { at + count * 8 ≤ length octets.now }
    ensures { IfOk result (λ v. v.items ≡ many_at word_at 8 octets.now at count) }
{
    let mut words = Vec::with_capacity(alloc, count)?;
    for i in 0..count {
        words.push(word_at(octets, at + i * 8))?;
    }
    Ok(words)
}

/// The price at a place.
pub(crate) fn price_at(octets: &[u8], at: usize) -> i64
    requires { at + 8 ≤ length octets.now }
    ensures { result ≡ price_number_at octets.now at }
{
    word_at(octets, at).cast_signed()
}

/// The prices from a place on.
pub(crate) fn prices_at(
    alloc: Global,
    octets: &[u8],
    at: usize,
    count: usize,
) -> Result<Vec<i64>, NoMemory>
    requires { at + count * 8 ≤ length octets.now }
    ensures { IfOk result (λ v. v.items ≡ many_at price_number_at 8 octets.now at count) }
{
    let mut prices = Vec::with_capacity(alloc, count)?;
    for i in 0..count {
        prices.push(price_at(octets, at + i * 8))?;
    }
    Ok(prices)
}

/// The plot, the track and the cost of the edge at a place.
pub(crate) fn edge_at(octets: &[u8], at: usize) -> (u32, u32, u16)
    requires { at + 10 ≤ length octets.now }
    ensures { result ≡ edge_numbers_at octets.now at }
{
    (
        half_at(octets, at),
        half_at(octets, at + 4),
        short_at(octets, at + 8),
    )
}

/// The edges from a place on.
pub(crate) fn edges_at(
    alloc: Global,
    octets: &[u8],
    at: usize,
    count: usize,
) -> Result<Vec<(u32, u32, u16)>, NoMemory>
    requires { at + count * 10 ≤ length octets.now }
    ensures { IfOk result (λ v. v.items ≡ many_at edge_numbers_at 10 octets.now at count) }
{
    let mut edges = Vec::with_capacity(alloc, count)?;
    for i in 0..count {
        edges.push(edge_at(octets, at + i * 10))?;
    }
    Ok(edges)
}

/// The track, or none, at a place.
pub(crate) fn entry_at(octets: &[u8], at: usize) -> Option<u32>
    requires { at + 4 ≤ length octets.now }
    ensures { result ≡ entry_number_at octets.now at }
{
    let track = half_at(octets, at);
    if track == NONE { None } else { Some(track) }
}

/// The places of tracks, or none, from a place on.
pub(crate) fn entries_at(
    alloc: Global,
    octets: &[u8],
    at: usize,
    count: usize,
) -> Result<Vec<Option<u32>>, NoMemory>
    requires { at + count * 4 ≤ length octets.now }
    ensures { IfOk result (λ v. v.items ≡ many_at entry_number_at 4 octets.now at count) }
{
    let mut entries = Vec::with_capacity(alloc, count)?;
    for i in 0..count {
        entries.push(entry_at(octets, at + i * 4))?;
    }
    Ok(entries)
}

/// Puts numbers at the end, eight octets each.
pub(crate) fn put_words(out: &mut Vec<u8>, words: &[u64]) -> Result<(), NoMemory>
    ensures ok { OnOk result (out.new.items ≡ out.old.items ++ flat_map word_octets words.now) }
    ensures err { OnErr result (StartsWith out.new.items out.old.items) }
{
    for word in words {
        out.extend_from_slice(&word.to_be_bytes())?;
    }
    Ok(())
}

fn put_price(out: &mut Vec<u8>, price: i64) -> Result<(), NoMemory>
    ensures ok { OnOk result (out.new.items ≡ out.old.items ++ price_octets price) }
    ensures err { OnErr result (out.new.items ≡ out.old.items) }
{
    out.extend_from_slice(&price.cast_unsigned().to_be_bytes())?;
    Ok(())
}

/// Puts prices at the end.
pub(crate) fn put_prices(out: &mut Vec<u8>, prices: &[i64]) -> Result<(), NoMemory>
    ensures ok { OnOk result (out.new.items ≡ out.old.items ++ flat_map price_octets prices.now) }
    ensures err { OnErr result (StartsWith out.new.items out.old.items) }
{
    for price in prices {
        put_price(out, *price)?;
    }
    Ok(())
}

/// Puts edges at the end.
pub(crate) fn put_edges(out: &mut Vec<u8>, edges: &[(u32, u32, u16)]) -> Result<(), NoMemory>
    ensures ok { OnOk result (out.new.items ≡ out.old.items ++ flat_map edge_octets edges.now) }
    ensures err { OnErr result (StartsWith out.new.items out.old.items) }
{
    for (plot, track, cost) in edges {
        out.extend_from_slice(&plot.to_be_bytes())?;
        out.extend_from_slice(&track.to_be_bytes())?;
        out.extend_from_slice(&cost.to_be_bytes())?;
    }
    Ok(())
}

/// Puts the places of tracks, or none, at the end.
pub(crate) fn put_entries(out: &mut Vec<u8>, entries: &[Option<u32>]) -> Result<(), NoMemory>
    ensures ok { OnOk result (out.new.items ≡ out.old.items ++ flat_map entry_octets entries.now) }
    ensures err { OnErr result (StartsWith out.new.items out.old.items) }
{
    for entry in entries {
        out.extend_from_slice(&entry.unwrap_or(NONE).to_be_bytes())?;
    }
    Ok(())
}
