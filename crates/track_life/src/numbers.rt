// Track numbers are given.
ghost use Rattle.std.specs.Prelude.{◌≡◌, ◌++◌, ℕ, List, IfOk, OnErr, OnOk};
ghost use Rattle.std.specs.List.{list_any};
ghost use Rattle.std.specs.Option.{option_or, option_to_list};
ghost use Rattle.track_life.specs.Numbers.{with_number, held, is_among, is_waiting, new_number, assigned};
ghost use Rattle.track_life.specs.HeldNumbers.{LeapOver};

use crate::Track;
use crate::held_numbers::HeldNumbers;
use std::alloc::Global;
use trk_base::NoMemory;

// Gives each confirmed track without a number its own, the tracks in this order. Where none waits
// for a number no memory is asked for.
pub(crate) fn give_numbers(alloc: Global, tracks: &mut [Track]) -> Result<(), NoMemory>
    ensures given { OnOk result (tracks.new ≡ assigned tracks.old) }
    ensures unchanged { OnErr result (tracks.new ≡ tracks.old) }
{
    if !some_waits(tracks) {
        return Ok(());
    }
    let mut held = held_by(alloc, tracks)?;
    for track in tracks.iter_mut() {
        give_number(track, &mut held);
    }
    Ok(())
}

// Whether a track waits for a number.
fn some_waits(tracks: &[Track]) -> bool
    ensures { result ≡ list_any is_waiting tracks.now }
{
    tracks.iter().any(is_waiting)
}

// Whether a track is confirmed and has no number.
fn is_waiting(track: &Track) -> bool
    ensures { result ≡ is_waiting track.now }
{
    track.confirmed && track.number.is_none()
}

// The numbers that tracks hold.
fn held_by(alloc: Global, tracks: &[Track]) -> Result<HeldNumbers, NoMemory>
    ensures { IfOk result (LeapOver (is_among (held tracks.now))) }
{
    let mut numbers = HeldNumbers::none(alloc)?;
    for track in tracks {
        hold_number(&mut numbers, track);
    }
    Ok(numbers)
}

// The number of a track, if it has one, is held.
fn hold_number(numbers: &mut HeldNumbers, track: &Track)
    ensures { (before : List ℕ) → LeapOver (is_among before) numbers.old → LeapOver (is_among (option_to_list track.now.number ++ before)) numbers.new }
{
    if let Some(number) = track.number {
        numbers.hold(number);
    }
}

// Where a track waits for a number it is given the first that is free.
fn give_number(track: &mut Track, numbers: &mut HeldNumbers)
    ensures { (before : List ℕ) → LeapOver (is_among before) numbers.old
        → (track.new ≡ with_number (option_or track.old.number (new_number before track.old)) track.old) × LeapOver (is_among (option_to_list (new_number before track.old) ++ before)) numbers.new }
{
    if is_waiting(track) {
        track.number = numbers.take_free(track.birth.arrival);
    }
}
