// To which part a track or a plot goes: what may gate stays together, and the parts are even.
ghost use Rattle.std.specs.Prelude.{◌≡◌, ◌≤◌, ◌<◌, ◌+◌, length, All, IfOk};

use fixed_imm::Motion;
use plot_geometry::PlanePlot;
use std::alloc::Global;
use track_life::Track;
use trk_base::NoMemory;

// The side of a square of the plane in 1/64 m: 4,096 m.
const SIDE: u64 = 262_144;

// How many squares stand in a row, and how many rows there are.
const ROW: u64 = 2_048;

// From the middle of the plane to the edge of its squares: 4,194 km.
const TO_EDGE: i64 = 268_435_456;

// How far the reach of an item goes beyond it, each way: to all squares within 2,048 m.
const NEAR: [i64; 2] = [-131_072, 131_072];

// The same of a track whose place isn't sure: to all squares within 8,192 m, about as far as a gate
// reaches.
const FAR: [i64; 5] = [-524_288, -262_144, 0, 262_144, 524_288];

// A place is sure where the gate, of four standard deviations, stays within 2,048 m. In (1/64 m)^2.
const SURE_VARIANCE: i64 = 1_073_741_824;

// The longest that a track goes on without a plot, in 1/128 s.
const LONGEST: u64 = 7_744;

// A track or a plot, where it is, and what it tells of its aircraft.
#[derive(Clone, Copy)]
struct Spot {
    // Its place among tracks and then plots.
    item: usize,
    x: i64,
    y: i64,
    code: Option<u16>,
    address: Option<u32>,
    // Whether its place is known well enough.
    sure: bool,
}

// An item in a square, or one that reaches the square from beside.
#[derive(Clone, Copy)]
struct Entry {
    // The number of the square, among those of all items or of the items with one code.
    square: u64,
    reaches: bool,
    // Whether it tells so much that it is gated by what tells less alone.
    told: bool,
    item: usize,
}

/// A number below the wish for each track, then for each plot.
///
/// Tracks and plots of one address (I048/220) fall together. What tells neither an address nor a
/// code (I048/070) falls together with all that is near, and what tells a code alone with what is
/// near and of that code. So parts seldom cross. The largest of these groups are given first, each
/// to the part that has the fewest items.
pub(crate) fn part_numbers(
    alloc: Global,
    tracks: &[Track],
    plots: &[PlanePlot],
    wish: u8,
) -> Result<Vec<u8>, NoMemory>
    requires { 1 ≤ wish }
    ensures count { IfOk result (λ numbers. length numbers.items ≡ length tracks.now + length plots.now) }
    ensures below { IfOk result (λ numbers. All (λ k. k < wish) numbers.items) }
{
    let mut lower = own_groups(alloc, tracks.len() + plots.len())?;
    if wish > 1 {
        let spots = spots_of(alloc, tracks, plots)?;
        join_addresses(alloc, &spots, &mut lower)?;
        join_near(alloc, &spots, &mut lower)?;
    }
    numbers_of(alloc, &mut lower, wish)
}

// A coordinate some time later, in 1/64 m; `d` is in 1/128 s.
fn place_after(motion: &Motion, d: i64) -> i64 {
    motion.p.saturating_add(motion.v.saturating_mul(d) / 2_048)
}

// The variance of that coordinate, in (1/64 m)^2.
fn variance_after(motion: &Motion, d: i64) -> i64 {
    let speed = (motion.p22.saturating_mul(d) / 2_048).saturating_mul(d) / 2_048;
    let both = motion.p12.saturating_mul(d) / 1_024;
    motion.p11.saturating_add(both).saturating_add(speed)
}

// A track at a time, if it flies straight on.
fn spot_of_track(item: usize, track: &Track, time: u64) -> Spot {
    let aim = &track.aim;
    let (east, north) = (&aim.x.motion.0, &aim.y.motion.0);
    let d = time.saturating_sub(aim.time).min(LONGEST) as i64;
    Spot {
        item,
        x: place_after(east, d),
        y: place_after(north, d),
        code: aim.code,
        address: aim.address,
        sure: variance_after(east, d) <= SURE_VARIANCE && variance_after(north, d) <= SURE_VARIANCE,
    }
}

// Where the tracks are when the plots begin and when they end, and where the plots are.
fn spots_of(alloc: Global, tracks: &[Track], plots: &[PlanePlot]) -> Result<Vec<Spot>, NoMemory> {
    let mut spots = Vec::with_capacity(alloc, plots.len())?;
    let (Some(first), Some(last)) = (plots.first(), plots.last()) else {
        return Ok(spots);
    };
    for (item, track) in tracks.iter().enumerate() {
        spots.push(spot_of_track(item, track, first.key.time))?;
        spots.push(spot_of_track(item, track, last.key.time))?;
    }
    for (place, plot) in plots.iter().enumerate() {
        spots.push(Spot {
            item: tracks.len() + place,
            x: plot.x,
            y: plot.y,
            code: plot.code,
            address: plot.address,
            sure: true,
        })?;
    }
    Ok(spots)
}

// Each item as a group of its own. Below each item of a group stands another of it, or itself where
// it is the first of the group.
fn own_groups(alloc: Global, count: usize) -> Result<Vec<usize>, NoMemory>
    ensures { IfOk result (λ groups. length groups.items ≡ count) }
{
    let mut groups = Vec::with_capacity(alloc, count)?;
    for item in 0..count {
        groups.push(item)?;
    }
    Ok(groups)
}

// The first item of an item's group. Each step of the way is made to skip the next one.
fn first_of(lower: &mut [usize], item: usize) -> usize
    requires { item < length lower.old }
    ensures { result ≤ item }
{
    let mut at = item;
    'way: while lower[at] < at {
        let next = lower[at];
        lower[at] = lower[next];
        at = next;
    }
    at
}

// Makes the groups of two items one.
fn join(lower: &mut [usize], one: usize, other: usize) {
    if one >= lower.len() || other >= lower.len() {
        return;
    }
    let first = first_of(lower, one);
    let second = first_of(lower, other);
    lower[first.max(second)] = first.min(second);
}

// Joins the items of each address.
fn join_addresses(alloc: Global, spots: &[Spot], lower: &mut [usize]) -> Result<(), NoMemory> {
    let mut named: Vec<(u32, usize)> = Vec::with_capacity(alloc, spots.len())?;
    for spot in spots {
        if let Some(address) = spot.address {
            named.push((address, spot.item))?;
        }
    }
    named.sort_unstable_by_key(|pair| pair.0);
    for i in 1..named.len() {
        if named[i - 1].0 == named[i].0 {
            join(lower, named[i - 1].1, named[i].1);
        }
    }
    Ok(())
}

// In which row a coordinate falls, and in which place of a row.
fn line(x: i64) -> u64
    ensures { result < 2048 }
{
    x.saturating_add(TO_EDGE).clamp(0, 2 * TO_EDGE - 1) as u64 / SIDE
}

// 0 for all items, and from 1 on for those of each code.
fn group(code: Option<u16>) -> u64
    ensures { result ≤ 65536 }
{
    match code {
        None => 0,
        Some(code) => 1 + u64::from(code),
    }
}

// The number of a square: row by row, first those of all items, and then those of each code.
fn square(code: Option<u16>, x: i64, y: i64) -> u64 {
    (group(code) * ROW + line(y)) * ROW + line(x)
}

// Files an item in its own square, and in those that it reaches.
fn file(
    spot: &Spot,
    code: Option<u16>,
    told: bool,
    entries: &mut Vec<Entry>,
) -> Result<(), NoMemory> {
    let own = Entry {
        square: square(code, spot.x, spot.y),
        reaches: false,
        told,
        item: spot.item,
    };
    entries.push(own)?;
    let reach: &[i64] = if !spot.sure {
        &FAR
    } else if told {
        &[]
    } else {
        &NEAR
    };
    for east in reach {
        for north in reach {
            let x = spot.x.saturating_add(*east);
            let y = spot.y.saturating_add(*north);
            add_reached(own, square(code, x, y), entries)?;
        }
    }
    Ok(())
}

// Files an item in a square that it reaches, if it isn't its own.
fn add_reached(own: Entry, square: u64, entries: &mut Vec<Entry>) -> Result<(), NoMemory> {
    if square != own.square {
        entries.push(Entry {
            square,
            reaches: true,
            ..own
        })?;
    }
    Ok(())
}

// Whether an item tells neither code nor address.
fn tells_nothing(spot: &Spot) -> bool {
    spot.code.is_none() && spot.address.is_none()
}

// Whether it tells a code and no address.
fn tells_code(spot: &Spot) -> bool {
    spot.code.is_some() && spot.address.is_none()
}

// All items by square where some tell nothing, and those with a code by code and square where some
// tell nothing else.
fn filed(alloc: Global, spots: &[Spot]) -> Result<Vec<Entry>, NoMemory> {
    let mut entries = Vec::new(alloc);
    let untold = spots.iter().any(tells_nothing);
    let coded = spots.iter().any(tells_code);
    for spot in spots {
        if untold {
            file(spot, None, !tells_nothing(spot), &mut entries)?;
        }
        if coded && spot.code.is_some() {
            file(spot, spot.code, !tells_code(spot), &mut entries)?;
        }
    }
    entries.sort_unstable_by_key(|entry| entry.square);
    Ok(entries)
}

// Joins what stands in a square with what tells less than others: with all that does so there, and
// with what reaches the square. Where all in it tell enough, what tells enough doesn't reach them.
fn join_square(entries: &[Entry], lower: &mut [usize]) {
    let Some(own) = entries.iter().find(|entry| !entry.reaches) else {
        return;
    };
    if entries.iter().all(|entry| entry.told) {
        return;
    }
    let all_told = entries.iter().all(|entry| entry.told || entry.reaches);
    for entry in entries {
        if !(all_told && entry.told && entry.reaches) {
            join(lower, own.item, entry.item);
        }
    }
}

// Joins the items that are near to others and may gate them, or be gated.
fn join_near(alloc: Global, spots: &[Spot], lower: &mut [usize]) -> Result<(), NoMemory> {
    let entries = filed(alloc, spots)?;
    let mut from = 0;
    for i in 1..entries.len() + 1 {
        if i == entries.len() || entries[i - 1].square != entries[i].square {
            join_square(&entries[from..i], lower);
            from = i;
        }
    }
    Ok(())
}

// How many items each group has, and its first one, the smallest group first.
fn sizes_of(alloc: Global, lower: &mut [usize]) -> Result<Vec<(usize, usize)>, NoMemory> {
    let mut counts = vec![in alloc; 0usize; lower.len()]?;
    for item in 0..lower.len() {
        let first = first_of(lower, item);
        counts[first] = counts[first].saturating_add(1);
    }
    let mut sizes = Vec::new(alloc);
    for (first, count) in counts.iter().enumerate() {
        if *count > 0 {
            sizes.push((*count, first))?;
        }
    }
    sizes.sort_unstable();
    Ok(sizes)
}

// The part that has the fewest items so far.
fn least_loaded(loads: &[usize], wish: u8) -> u8
    requires some { 1 ≤ wish }
    requires each { length loads.now ≡ wish }
    ensures { result < wish }
{
    let mut least = 0;
    for part in 1..wish {
        if loads[usize::from(part)] < loads[usize::from(least)] {
            least = part;
        }
    }
    least
}

// A part for the first item of each group, the largest group first.
fn parts_of(alloc: Global, lower: &mut [usize], wish: u8) -> Result<Vec<u8>, NoMemory>
    requires { 1 ≤ wish }
    ensures count { IfOk result (λ parts. length parts.items ≡ length lower.old) }
    ensures below { IfOk result (λ parts. All (λ k. k < wish) parts.items) }
{
    let sizes = sizes_of(alloc, lower)?;
    let mut loads = vec![in alloc; 0usize; usize::from(wish)]?;
    let mut parts = vec![in alloc; 0u8; lower.len()]?;
    for (size, first) in sizes.iter().rev() {
        let part = least_loaded(&loads, wish);
        loads[usize::from(part)] = loads[usize::from(part)].saturating_add(*size);
        if *first < parts.len() {
            parts[*first] = part;
        }
    }
    Ok(parts)
}

// The part of each item: that of the first in its group.
fn numbers_of(alloc: Global, lower: &mut [usize], wish: u8) -> Result<Vec<u8>, NoMemory>
    requires { 1 ≤ wish }
    ensures count { IfOk result (λ numbers. length numbers.items ≡ length lower.old) }
    ensures below { IfOk result (λ numbers. All (λ k. k < wish) numbers.items) }
{
    let parts = parts_of(alloc, lower, wish)?;
    let mut numbers = Vec::with_capacity(alloc, lower.len())?;
    for item in 0..lower.len() {
        numbers.push(parts[first_of(lower, item)])?;
    }
    Ok(numbers)
}
