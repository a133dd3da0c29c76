// `check`: the certificates of a price file, judged one beside the other.
ghost use Rattle.std.specs.Prelude.{◌≡◌, ◌<◌, ◌≤◌, ◌^◌, None, All, IfErr, IfOk, MatchBool, MatchOption, length, string_bytes};
ghost use Rattle.io_traits.specs.Places.{place_limit};
ghost use Rattle.io_traits.specs.declared.host.Place.{Place};
ghost use Rattle.price_form.specs.Reading.{AreOffsets, BeginsCert};
ghost use Rattle.session_script.specs.Scripts.{Follows, end_of};
ghost use Rattle.tracker_session.specs.Check.{check_script, proved_line};
ghost use Rattle.tracker_session.specs.Judging.{FailsAt, IsFirstFailure, Judged, ProvesAt, StopsTaking};

use io_traits::{Host, PLACE_LIMIT, Place};
use price_form::{PricesError, certificate_offsets, check_at, prefix_fault};
use rayon::prelude::*;
use session_script::{Status, read_file};
use std::alloc::{AllocError, Global};
use std::thread::Threads;

/// Reads a price file, and judges the grammar of all of it and then its certificates.
pub fn check<R: Threads + Sync, H: Host>(
    rt: &R,
    alloc: Global,
    prices: String,
    host: &mut H,
) -> Result<String, Status>
    requires { (H.state host.old).bound Place.Prices ≡ None }
    ensures { Follows (check_script (string_bytes prices)) (end_of result) (H.state host.old) (H.state host.new) }
{
    let octets = read_file(alloc, Place::Prices, prices, host)?;
    let count = judge_prices(rt, alloc, &octets)?;
    Ok(proved_line(alloc, count)?)
}

// How many certificates a price file has, all of which prove: the grammar of all of it is judged first.
fn judge_prices<R: Threads + Sync>(rt: &R, alloc: Global, octets: &[u8]) -> Result<u64, Status>
    ensures { Judged octets.now result }
{
    let offsets = take_offsets(alloc, octets)?;
    let count = offsets.len();
    match first_failure(rt, octets, &offsets) {
        None => Ok(count as u64),
        Some(i) => Err(Status::NotProved {
            index: i as u64,
            offset: offsets[i],
        }),
    }
}

// Where each certificate begins in a price file that doesn't pass the limit.
fn take_offsets(alloc: Global, octets: &[u8]) -> Result<Vec<usize>, Status>
    ensures within { IfOk result (λ v. length octets.now ≤ place_limit) }
    ensures file { IfOk result (λ v. AreOffsets octets.now v.items) }
    ensures stops { IfErr result (StopsTaking octets.now) }
{
    if octets.len() > PLACE_LIMIT {
        let offset = prefix_fault(&octets[..PLACE_LIMIT]);
        return Err(Status::Input { offset });
    }
    match certificate_offsets(alloc, octets) {
        Ok(offsets) => Ok(offsets),
        Err(PricesError::Fault { offset }) => Err(Status::Input { offset }),
        Err(PricesError::NoMemory) => Err(Status::Memory),
    }
}

// Whether the certificate that begins at an offset doesn't prove.
fn fails_at(octets: &[u8], at: usize) -> bool
    requires { BeginsCert octets.now at }
    ensures { MatchBool result (FailsAt octets.now at) (ProvesAt octets.now at) }
{
    !check_at(octets, at)
}

// The number of the first certificate that doesn't prove, of those that begin at these offsets,
// judged by as many threads as there are processors.
fn first_failure<R: Threads + Sync>(rt: &R, octets: &[u8], offsets: &[usize]) -> Option<usize>
    requires few { length offsets.now < 2 ^ 64 }
    requires begin { All (BeginsCert octets.now) offsets.now }
    ensures { MatchOption result (All (ProvesAt octets.now) offsets.now) (IsFirstFailure octets.now offsets.now) }
{
    offsets.par_iter().position_first(
        rt,
        |at: &usize| -> bool
            requires { BeginsCert octets.now at.now }
            ensures { MatchBool result (FailsAt octets.entry.now at.now) (ProvesAt octets.entry.now at.now) }
        { fails_at(octets, *at) },
    )
}

// The line of a price file whose certificates, so many, all prove.
fn proved_line(alloc: Global, count: u64) -> Result<String, AllocError>
    ensures { IfOk result (λ s. string_bytes s ≡ proved_line count) }
{
    format!(in alloc; "certificates {count} proved\n")
}
