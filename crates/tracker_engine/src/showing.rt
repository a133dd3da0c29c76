// What an edition shows beside the tracks: the biases that hold, and certificates.
ghost use Rattle.std.specs.Prelude.{◌≡◌, ◌<◌, ◌≤◌, ◌+◌, ◌^◌, ◌++◌, nat_le, filter, flat_map, length, map, take, drop, IfOk, OnOk};
ghost use Rattle.late_window.specs.Folding.{Rises, at_slot, below, from};
ghost use Rattle.plot_geometry.specs.Biases.{bias_of};
ghost use Rattle.admission_log.specs.Entries.{slot_in};
ghost use Rattle.admission_log.specs.EntryOrder.{entry_cmp};
ghost use Rattle.tracker_fold.specs.Keys.{key_in};
ghost use Rattle.tracker_fold.specs.Priced.{told_octets};
ghost use Rattle.tracker_fold.specs.Steps.{radars_after};

use admission_log::Entry;
use plot_geometry::{Bias, RadarSettings};
use price_form::Cert;
use slot_step::KeyedCert;
use std::alloc::Global;
use tracker_fold::{PricedCerts, radars_after};
use trk_base::{NoMemory, TryCopy};

/// Of each radar the biases that hold for a slot, where `radars` are as they were before it. The
/// entries are in rising order.
pub fn biases_at(
    alloc: Global,
    radars: &[RadarSettings],
    slot: u64,
    entries: &[Entry],
) -> Result<Vec<Bias>, NoMemory>
    requires rising { Rises entry_cmp key_in entries.now }
    requires room { slot + 1 < 2 ^ 64 }
    ensures { IfOk result (λ v. v.items ≡ map bias_of (radars_after radars.now (at_slot slot_in slot entries.now))) }
{
    let changed = radars_after(alloc, radars, of_slot(entries, slot))?;
    let mut biases = Vec::with_capacity(alloc, changed.len())?;
    for radar in &changed {
        biases.push(radar.bias())?;
    }
    Ok(biases)
}

// Those of one slot.
fn of_slot(entries: &[Entry], slot: u64) -> &[Entry]
    requires rising { Rises entry_cmp key_in entries.now }
    requires room { slot + 1 < 2 ^ 64 }
    ensures { result.now ≡ at_slot slot_in slot entries.now }
{
    let (_, rest) = entries.split_at(count_below(entries, slot));
    rest.split_at(count_below(rest, slot + 1)).0
}

// How many entries are of slots below this one.
fn count_below(entries: &[Entry], slot: u64) -> usize
    requires rising { Rises entry_cmp key_in entries.now }
    ensures within { result ≤ length entries.now }
    ensures below { take result entries.now ≡ below slot_in slot entries.now }
    ensures rest { drop result entries.now ≡ from slot_in slot entries.now }
{
    entries.partition_point(|entry| entry.slot() < slot)
}

/// The certificates of the slots from `low` on.
pub fn certs_from(
    alloc: Global,
    low: u64,
    outs: &[(u64, PricedCerts)],
) -> Result<Vec<Cert>, NoMemory>
    ensures { IfOk result (λ v. v.items ≡ flat_map (λ o. map (λ k. k.cert) o.1) (filter (λ o. nat_le low o.0) outs.now)) }
{
    let mut certs = Vec::new(alloc);
    for (slot, told) in outs {
        if *slot >= low {
            append_certs(alloc, told.certs(), &mut certs)?;
        }
    }
    Ok(certs)
}

// Puts the certificates of a slot after others.
fn append_certs(alloc: Global, told: &[KeyedCert], certs: &mut Vec<Cert>) -> Result<(), NoMemory>
    ensures { OnOk result (certs.new.items ≡ certs.old.items ++ map (λ k. k.cert) told.now) }
{
    for keyed in told {
        certs.push(keyed.cert.copy(alloc)?)?;
    }
    Ok(())
}

/// How many certificates the slots from `low` on have. More than can be counted can't be kept in
/// memory.
pub fn count_certs(low: u64, outs: &[(u64, PricedCerts)]) -> Result<u64, NoMemory>
    ensures { IfOk result (λ n. n ≡ length (flat_map (λ o. map (λ k. k.cert) o.1) (filter (λ o. nat_le low o.0) outs.now))) }
{
    let mut count: u64 = 0;
    for (slot, told) in outs {
        if *slot >= low {
            let more = told.certs().len() as u64;
            count = count.checked_add(more).ok_or(NoMemory)?;
        }
    }
    Ok(count)
}

/// Puts what a price file has of the certificates of the slots from `low` on after other octets.
pub fn append_prices(
    low: u64,
    outs: &[(u64, PricedCerts)],
    octets: &mut Vec<u8>,
) -> Result<(), NoMemory>
    ensures { OnOk result (octets.new.items ≡ octets.old.items ++ flat_map (λ o. told_octets o.1) (filter (λ o. nat_le low o.0) outs.now)) }
{
    for (slot, told) in outs {
        if low <= *slot {
            octets.extend_from_slice(told.octets())?;
        }
    }
    Ok(())
}
