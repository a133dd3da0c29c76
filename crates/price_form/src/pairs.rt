// What a pairing names, and what that costs.
ghost use Rattle.std.specs.Prelude.{◌≡◌, ◌<◌, ◌≤◌, ◌+◌, ◌↔◌, ◌^◌, ◌*◌, IsTrue, MatchOption, MatchBool, IfSome, All, length};
ghost use Rattle.assignment_dual.specs.Pairings.{AllGate, Gates, Once, entry_cost, cost};
ghost use Rattle.assignment_dual.specs.Problems.{row_of};
ghost use Rattle.price_form.specs.Checks.{Rises, first_rows, NamesTwice, NamesOnce};

use crate::columns::Column;
use trk_base::MISS_COST;

// The cost of the edge between a plot and a track.
fn edge_cost<E: Column<(u32, u32, u16)>>(edges: &E, plot: u32, track: u32) -> Option<u16>
    requires { Rises (E.list edges.now) }
    ensures { result ≡ row_of (E.list edges.now) plot track }
{
    let mut low = 0;
    let mut high = edges.len();
    while low < high {
        let middle = low + (high - low) / 2;
        let (at_plot, at_track, cost) = edges.at(middle);
        if at_plot < plot || (at_plot == plot && at_track < track) {
            low = middle + 1;
        } else if at_plot == plot && at_track == track {
            return Some(cost);
        } else {
            high = middle;
        }
    }
    None
}

// What a plot costs that gets this track, or none, where the track has an edge to it.
fn entry_cost<E: Column<(u32, u32, u16)>>(edges: &E, plot: u32, entry: Option<u32>) -> Option<u64>
    requires { Rises (E.list edges.now) }
    ensures cost { MatchOption result (¬ Gates (row_of (E.list edges.now) plot) entry) (λ n. Gates (row_of (E.list edges.now) plot) entry × (n ≡ entry_cost (row_of (E.list edges.now) plot) entry)) }
    ensures size { IfSome result (λ n. n ≤ 65535) }
{
    match entry {
        None => Some(u64::from(MISS_COST)),
        Some(track) => match edge_cost(edges, plot, track) {
            None => None,
            Some(cost) => Some(u64::from(cost)),
        },
    }
}

/// What a pairing costs, where each track that it names has an edge to its plot.
pub(crate) fn pairing_cost<E: Column<(u32, u32, u16)>, X: Column<Option<u32>>>(
    edges: &E,
    pairing: &X,
) -> Option<u64>
    requires rising { Rises (E.list edges.now) }
    requires few { length (X.list pairing.now) < 2 ^ 32 }
    ensures { MatchOption result (¬ AllGate (first_rows (E.list edges.now) (length (X.list pairing.now))) (X.list pairing.now)) (λ n. AllGate (first_rows (E.list edges.now) (length (X.list pairing.now))) (X.list pairing.now) × (n ≡ cost (first_rows (E.list edges.now) (length (X.list pairing.now))) (X.list pairing.now))) }
{
    let mut sum = 0;
    for plot in 0..pairing.len() {
        let entry = pairing.at(plot);
        match entry_cost(edges, plot as u32, entry) {
            None => return None,
            Some(cost) => sum += cost,
        }
    }
    Some(sum)
}

// Whether no track of a stretch, from `low` on and as long as the marks are, is named twice. Those
// that are named are marked.
fn names_once_from<X: Column<Option<u32>>>(pairing: &X, low: usize, named: &mut [bool]) -> bool
    ensures { MatchBool result (NamesOnce (X.list pairing.now) (length (X.list pairing.now)) low (low + length named.old)) (NamesTwice (X.list pairing.now)) }
{
    named.fill(false);
    for i in 0..pairing.len() {
        if let Some(track) = pairing.at(i)
            && track as usize >= low
            && track as usize - low < named.len()
        {
            let index = track as usize - low;
            if named[index] {
                return false;
            }
            named[index] = true;
        }
    }
    true
}

// Whether no track is named twice. The tracks are looked at in stretches as long as the marks are,
// each in a pass of its own.
fn names_once_by<X: Column<Option<u32>>>(pairing: &X, tracks: u32, named: &mut [bool]) -> bool
    requires named { All (λ x. IfSome x (λ t. t < tracks)) (X.list pairing.now) }
    requires some { 0 < length named.old }
    requires few { length named.old ≤ 65536 }
    ensures { IsTrue result ↔ Once (X.list pairing.now) }
{
    let mut low = 0;
    while low < tracks as usize {
        if !names_once_from(pairing, low, named) {
            return false;
        }
        low += named.len();
    }
    true
}

// Whether no track is named twice, of many tracks.
fn names_once_of_many<X: Column<Option<u32>>>(pairing: &X, tracks: u32) -> bool
    requires { All (λ x. IfSome x (λ t. t < tracks)) (X.list pairing.now) }
    ensures { IsTrue result ↔ Once (X.list pairing.now) }
{
    names_once_by(pairing, tracks, &mut [false; 65_536])
}

/// Whether no track is named twice. No memory is asked for: the marks lie on the stack, a few where
/// there are few tracks, as nearly every certificate has, since each call clears them.
pub(crate) fn names_once<X: Column<Option<u32>>>(pairing: &X, tracks: u32) -> bool
    requires { All (λ x. IfSome x (λ t. t < tracks)) (X.list pairing.now) }
    ensures { IsTrue result ↔ Once (X.list pairing.now) }
{
    if tracks <= 32 {
        names_once_by(pairing, tracks, &mut [false; 32])
    } else if tracks <= 1_024 {
        names_once_by(pairing, tracks, &mut [false; 1_024])
    } else {
        names_once_of_many(pairing, tracks)
    }
}
