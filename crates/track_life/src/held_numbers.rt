// Which track numbers are held, and the search for one that isn't.
ghost use Rattle.std.specs.Prelude.{◌≡◌, ◌≤◌, ◌++◌, ℕ, Bool, List, [], ◌∷◌, IfOk};
ghost use Rattle.std.specs.Option.{option_to_list};
ghost use Rattle.track_life.specs.Numbers.{is_among, first_free};
ghost use Rattle.track_life.specs.HeldNumbers.{AreLeaps, LeapOver, IsNextFree, IsFirstFree};

use std::alloc::Global;
use std::marker::Model;
use trk_base::NoMemory;

// The greatest track number.
const GREATEST: usize = 65_535;

// A place for each number from 0 on, and one after the greatest.
const PLACES: usize = GREATEST + 2;

// The track numbers that are held. From each number's place one leaps over numbers that are held,
// and where the leap is 0 the number is free.
#[derive(Drop)]
pub(crate) struct HeldNumbers {
    leaps: Vec<u16>,
}

impl Model for HeldNumbers {
    ghost use Rattle.std.specs.Prelude.{ℕ, List};
    ghost use Rattle.track_life.specs.HeldNumbers.{AreLeaps};

    ghost Value = { List ℕ };

    ghost view = { λ h. h.leaps.items };

    ghost invariant = { λ h. AreLeaps h.leaps.items };
}

impl HeldNumbers {
    // No number is held.
    pub(crate) fn none(alloc: Global) -> Result<HeldNumbers, NoMemory>
        ensures { IfOk result (LeapOver (is_among [])) }
    {
        Ok(HeldNumbers {
            leaps: vec![in alloc; 0u16; PLACES]?,
        })
    }

    // One more is held.
    pub(crate) fn hold(&mut self, number: u16)
        ensures { (numbers : List ℕ) → LeapOver (is_among numbers) self.old → LeapOver (is_among (number ∷ numbers)) self.new }
    {
        hold_at(&mut self.leaps, usize::from(number));
    }

    // The first number that isn't held, in the order in which they are tried for a track whose
    // first plot has this arrival. It is held from now on.
    pub(crate) fn take_free(&mut self, arrival: u64) -> Option<u16>
        ensures { (numbers : List ℕ) → LeapOver (is_among numbers) self.old → LeapOver (is_among (option_to_list result ++ numbers)) self.new × (result ≡ first_free numbers arrival) }
    {
        let from = 1 + arrival as usize % GREATEST;
        let place = first_free_place(&mut self.leaps, from);
        if place <= GREATEST {
            hold_at(&mut self.leaps, place);
            Some(place as u16)
        } else {
            None
        }
    }
}

// The number of a place is held.
fn hold_at(leaps: &mut [u16], place: usize)
    requires leaps { AreLeaps leaps.old }
    requires number { place ≤ 65535 }
    ensures leaps { AreLeaps leaps.new }
    ensures held { (numbers : List ℕ) → LeapOver (is_among numbers) leaps.old → LeapOver (is_among (place ∷ numbers)) leaps.new }
{
    leaps[place] = leaps[place].max(1);
}

// The first free place from one on, then from 1 on; 65,536 where there is none.
fn first_free_place(leaps: &mut [u16], from: usize) -> usize
    requires leaps { AreLeaps leaps.old }
    requires number { (1 ≤ from) × (from ≤ 65535) }
    ensures leaps { AreLeaps leaps.new }
    ensures first { (held : ℕ → Bool) → LeapOver held leaps.old → LeapOver held leaps.new × IsFirstFree held from result }
{
    let place = next_free(leaps, from);
    if GREATEST < place {
        next_free(leaps, 1)
    } else {
        place
    }
}

// The first free place from one on, or 65,536. Each leap of the way is made to go on by the next.
fn next_free(leaps: &mut [u16], from: usize) -> usize
    requires leaps { AreLeaps leaps.old }
    requires number { (1 ≤ from) × (from ≤ 65535) }
    ensures leaps { AreLeaps leaps.new }
    ensures next { (held : ℕ → Bool) → LeapOver held leaps.old → LeapOver held leaps.new × IsNextFree held from result }
{
    let mut place = from;
    'way: while leaps[place] > 0 {
        let next = place + usize::from(leaps[place]);
        let leap = leaps[place] + leaps[next];
        leaps[place] = leap;
        place += usize::from(leap);
    }
    place
}
