// The key of a plot, and the one order of all plots.
ghost use Rattle.std.specs.Prelude.{◌≡◌};
ghost use Rattle.trk_base.specs.Numbers.{slot_of};

use std::cmp::Ordering;

/// What a plot is told by, and ordered by among all plots: by slot, then radar, then time, then
/// arrival.
#[derive(Clone, Copy, Debug, PartialEq, Eq)]
pub struct Key {
    /// The slot of the time.
    pub slot: u64,
    /// The radar's index in the settings, from 0.
    pub radar: u8,
    /// The time in 1/128 s, counted on over midnights.
    pub time: u64,
    /// Its number among all plots that were admitted, from 0.
    pub arrival: u64,
    pub ghost in_slot: { slot ≡ slot_of time },
}

impl Ord for Key {
    ghost use Rattle.std.proofs.Common.{rules};
    ghost use Rattle.std.specs.Cmp.Rules.{comparing};
    ghost use Rattle.trk_base.specs.Keys.{key_cmp};
    ghost use Rattle.trk_base.specs.KeyOrder.{key_cmp_total};

    ghost cmp = { key_cmp };

    ghost total = { key_cmp_total };

    ghost matches_partial_cmp = { Prim.search (comparing, rules) };

    ghost matches_eq = { Prim.search (comparing, rules) };

    fn cmp(&self, other: &Key) -> Ordering {
        self.slot
            .cmp(&other.slot)
            .then(self.radar.cmp(&other.radar))
            .then(self.time.cmp(&other.time))
            .then(self.arrival.cmp(&other.arrival))
    }
}

impl PartialOrd for Key {
    ghost use Rattle.std.proofs.Common.{rules};
    ghost use Rattle.std.specs.Cmp.{partial_order_from_own_ties, partial_order_from_total};
    ghost use Rattle.std.specs.Cmp.Rules.{comparing};
    ghost use Rattle.std.specs.Ordering.{as_partial_cmp};
    ghost use Rattle.trk_base.specs.Keys.{key_cmp};
    ghost use Rattle.trk_base.specs.KeyOrder.{key_cmp_total};

    ghost partial_cmp = { as_partial_cmp key_cmp };

    ghost laws = { partial_order_from_own_ties (partial_order_from_total key_cmp_total) (Prim.search (comparing, rules)) };

    fn partial_cmp(&self, other: &Key) -> Option<Ordering> {
        Some(self.cmp(other))
    }
}
