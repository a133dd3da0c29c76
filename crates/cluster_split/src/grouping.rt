// Components, put together of the least plots that their plots are connected with.
ghost use Rattle.std.specs.Prelude.{◌≡◌, ◌<◌, ◌≤◌, ◌^◌, ◌∷◌, ◌++◌, ℕ, List, [], All, IfOk, OnOk, length, vec_len, slice_index_or, slice_set};
ghost use Rattle.std.specs.List.Sorted.{IsNonDecreasingBy};
ghost use Rattle.cluster_split.specs.Grouping.{AreLabelled, AreIndices, AreGrouped, components_of, no_component, with_plot, with_track};

use crate::Component;
use short_list::ShortList;
use std::alloc::Global;
use trk_base::NoMemory;

// A new component at the end, and its place.
fn add_component(alloc: Global, parts: &mut Vec<Component>) -> Result<u32, NoMemory>
    requires { vec_len parts.old < 2 ^ 32 }
    ensures place { IfOk result (λ place. place ≡ vec_len parts.old) }
    ensures parts { OnOk result (parts.new.items ≡ parts.old.items ++ no_component ∷ []) }
{
    let place = parts.len() as u32;
    parts.push(Component {
        plots: ShortList::new(alloc),
        tracks: ShortList::new(alloc),
    })?;
    Ok(place)
}

// Puts a plot at the end of the component at `place`.
fn put_plot(
    alloc: Global,
    parts: &mut Vec<Component>,
    place: u32,
    plot: u32,
) -> Result<(), NoMemory>
    requires { place < vec_len parts.old }
    ensures { OnOk result (parts.new.items ≡ slice_set parts.old.items place (with_plot plot (slice_index_or parts.old.items place no_component))) }
{
    parts[place as usize].plots.push(alloc, plot)
}

// Puts a track at the end of the component at `place`.
fn put_track(
    alloc: Global,
    parts: &mut Vec<Component>,
    place: u32,
    track: u32,
) -> Result<(), NoMemory>
    requires { place < vec_len parts.old }
    ensures { OnOk result (parts.new.items ≡ slice_set parts.old.items place (with_track track (slice_index_or parts.old.items place no_component))) }
{
    parts[place as usize].tracks.push(alloc, track)
}

// The components with their plots alone, and for each plot the place of its component.
pub(crate) fn components_of_plots(
    alloc: Global,
    least: &[u32],
) -> Result<(Vec<Component>, Vec<u32>), NoMemory>
    requires few { length least.now < 2 ^ 32 }
    requires settled { AreLabelled least.now }
    ensures { IfOk result (λ r. AreGrouped least.now (length least.now) r.0.items r.1.items) }
{
    let mut parts: Vec<Component> = Vec::with_capacity(alloc, least.len())?;
    let mut places: Vec<u32> = Vec::with_capacity(alloc, least.len())?;
    for (plot, least) in least.iter().enumerate() {
        let place = if *least as usize == plot {
            add_component(alloc, &mut parts)?
        } else {
            places[*least as usize]
        };
        places.push(place)?;
        put_plot(alloc, &mut parts, place, plot as u32)?;
    }
    Ok((parts, places))
}

// Puts each track into the component of its plots. The edges stand by track.
pub(crate) fn add_tracks(
    alloc: Global,
    parts: &mut Vec<Component>,
    places: &[u32],
    by_track: &[(u32, u32)],
) -> Result<(), NoMemory>
    requires inside { All (λ edge. edge.0 < length places.now) by_track.now }
    requires places { All (λ place. place < vec_len parts.old) places.now }
    ensures { OnOk result ((least : List ℕ) → AreIndices least places.now → parts.old.items ≡ components_of least by_track.now (length places.now) 0 → parts.new.items ≡ components_of least by_track.now (length places.now) (length by_track.now)) }
{
    for (i, edge) in by_track.iter().enumerate() {
        if i == 0 || by_track[i - 1].1 != edge.1 {
            put_track(alloc, parts, places[edge.0 as usize], edge.1)?;
        }
    }
    Ok(())
}
