// Disjoint sets of plots. Below each plot stands another of its set, or itself where it is the
// least one of the set.
ghost use Rattle.std.specs.Prelude.{◌≡◌, ◌<◌, ◌≤◌, ℕ, All, IfOk, length, slice_index};
ghost use Rattle.std.specs.List.Sorted.{IsNonDecreasingBy};
ghost use Rattle.cluster_split.specs.Leasts.{Falls, IsLabelled, merged, HasLabels, AreLeasts};

use std::alloc::Global;
use trk_base::NoMemory;

// The least plot of a plot's set. Each step of the way is made to skip the next one.
fn least_of(lower: &mut [u32], plot: u32) -> u32
    requires falls { Falls lower.old }
    requires inside { plot < length lower.old }
    ensures falls { Falls lower.new }
    ensures inside { result ≤ plot }
    ensures ends { slice_index lower.new result ≡ result }
    ensures labels { (label : ℕ → ℕ) → IsLabelled lower.old label → IsLabelled lower.new label × (result ≡ label plot) }
{
    let mut at = plot;
    'way: while lower[at as usize] != at {
        let next = lower[lower[at as usize] as usize];
        lower[at as usize] = next;
        at = next;
    }
    at
}

// Makes the sets of two plots one.
fn join(lower: &mut [u32], a: u32, b: u32)
    requires falls { Falls lower.old }
    requires first { a < length lower.old }
    requires second { b < length lower.old }
    ensures falls { Falls lower.new }
    ensures labels { (label : ℕ → ℕ) → IsLabelled lower.old label → IsLabelled lower.new (merged (label a) (label b) label) }
{
    let first = least_of(lower, a);
    let second = least_of(lower, b);
    lower[first.max(second) as usize] = first.min(second);
}

// For each plot the least one that it is connected with, by edges that stand by track.
pub(crate) fn least_plots(
    alloc: Global,
    plots: u32,
    by_track: &[(u32, u32)],
) -> Result<Vec<u32>, NoMemory>
    requires inside { All (λ edge. edge.0 < plots) by_track.now }
    requires sorted { IsNonDecreasingBy (λ edge. edge.1) by_track.now }
    ensures { IfOk result (λ v. AreLeasts plots by_track.now v.items) }
{
    let mut lower = own_sets(alloc, plots)?;
    label_all(&mut lower, by_track);
    Ok(lower)
}

// Each plot as a set of its own.
fn own_sets(alloc: Global, plots: u32) -> Result<Vec<u32>, NoMemory>
    ensures len { IfOk result (λ v. length v.items ≡ plots) }
    ensures own { IfOk result (λ v. (p : ℕ) → p < length v.items → slice_index v.items p ≡ p) }
{
    let mut sets = Vec::with_capacity(alloc, plots as usize)?;
    for plot in 0..plots {
        sets.push(plot)?;
    }
    Ok(sets)
}

// From sets of one plot each to the least plot that each plot is connected with.
fn label_all(lower: &mut [u32], by_track: &[(u32, u32)])
    requires own { (p : ℕ) → p < length lower.old → slice_index lower.old p ≡ p }
    requires inside { All (λ edge. edge.0 < length lower.old) by_track.now }
    requires sorted { IsNonDecreasingBy (λ edge. edge.1) by_track.now }
    ensures { AreLeasts (length lower.old) by_track.now lower.new }
{
    join_sharing(lower, by_track);
    flatten(lower);
}

// Joins the plots of all edges that have one track.
fn join_sharing(lower: &mut [u32], by_track: &[(u32, u32)])
    requires falls { Falls lower.old }
    requires inside { All (λ edge. edge.0 < length lower.old) by_track.now }
    requires sorted { IsNonDecreasingBy (λ edge. edge.1) by_track.now }
    ensures falls { Falls lower.new }
    ensures labels { HasLabels by_track.now 0 lower.old → HasLabels by_track.now (length by_track.now) lower.new }
{
    for i in 1..by_track.len() {
        if by_track[i - 1].1 == by_track[i].1 {
            join(lower, by_track[i - 1].0, by_track[i].0);
        }
    }
}

// Puts the least plot of its set below each plot.
fn flatten(lower: &mut [u32])
    requires falls { Falls lower.old }
    ensures labels { (label : ℕ → ℕ) → IsLabelled lower.old label → (p : ℕ) → p < length lower.new → slice_index lower.new p ≡ label p }
{
    for plot in 0..lower.len() {
        lower[plot] = lower[lower[plot] as usize];
    }
}
