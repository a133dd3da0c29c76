// The price file of a load, written record by record.
ghost use Rattle.std.specs.Prelude.{◌≡◌, [], ◌∷◌, ◌++◌, IfErr, IfOk, OnErr, OnOk};
ghost use Rattle.io_traits.specs.Host.{IsBoundFor};
ghost use Rattle.io_traits.specs.Touching.{Touches};
ghost use Rattle.io_traits.specs.declared.host.Place.{Place};
ghost use Rattle.io_traits.specs.declared.host.Way.{Way};
ghost use Rattle.io_traits.specs.Places.{Got, GotPrefix};
ghost use Rattle.price_form.specs.Encoding.{price_record_octets};
ghost use Rattle.price_form.specs.Files.{magic};
ghost use Rattle.price_form.specs.declared.certs.PriceRecord.{PriceRecord};
ghost use Rattle.pairing_load.specs.PriceFiles.{FileWritten, PrefixWritten, RecordMade};
ghost use Rattle.pairing_load.specs.Problems.{after};
ghost use Rattle.pairing_load.specs.declared.problems.EdgeCosts.{EdgeCosts};
ghost use Rattle.pairing_load.specs.Runs.{StopsWriting};

use crate::certificates::next_cert;
use crate::problems::generator_of;
use crate::status::Status;
use crate::words::PriceLoad;
use io_traits::{Failed, Host, Place, write_all};
use price_form::{start_prices, write_cert, write_edition};
use rand_pcg::Pcg32;
use std::alloc::Global;
use trk_base::NoMemory;

// What the file begins with: its four octets, and the record of edition 1, which covers no event.
fn beginning(alloc: Global) -> Result<Vec<u8>, NoMemory>
    ensures { IfOk result (λ v. v.items ≡ magic ++ price_record_octets (PriceRecord.Edition 1 0)) }
{
    let mut octets = Vec::from_slice(alloc, &start_prices())?;
    octets.extend_from_slice(&write_edition(alloc, 1, 0)?)?;
    Ok(octets)
}

// The record of the next certificate.
fn next_record(alloc: Global, number: u32, generator: &mut Pcg32) -> Result<Vec<u8>, NoMemory>
    ensures is { IfOk result (λ v. RecordMade number generator.old v.items) }
    ensures drawn { OnOk result (generator.new ≡ after EdgeCosts.Random 9 generator.old) }
{
    let cert = next_cert(alloc, number, generator)?;
    write_cert(alloc, &cert)
}

// Writes octets to Output. Where it fails, Output got a prefix of them.
fn put<H: Host>(octets: &[u8], host: &mut H) -> Result<(), Status>
    requires { IsBoundFor Way.Write (H.state host.old) Place.Output }
    ensures all { OnOk result (Got Place.Output (H.state host.old) (H.state host.new) octets.now) }
    ensures prefix { OnErr result (GotPrefix Place.Output (H.state host.old) (H.state host.new) octets.now) }
    ensures stops { IfErr result (λ s. StopsWriting s (H.state host.old) (H.state host.new)) }
    ensures kept { OnOk result ((H.state host.new).faults Place.Output ≡ (H.state host.old).faults Place.Output) }
    ensures others { Touches [] [] (Place.Output ∷ []) (H.state host.old) (H.state host.new) }
{
    match write_all(host, Place::Output, octets) {
        Ok(()) => Ok(()),
        Err(Failed) => Err(Status::Write(Place::Output)),
    }
}

// Writes what the file begins with. Where it fails, Output got a prefix of that.
fn put_beginning<H: Host>(alloc: Global, host: &mut H) -> Result<(), Status>
    requires { IsBoundFor Way.Write (H.state host.old) Place.Output }
    ensures all { OnOk result (Got Place.Output (H.state host.old) (H.state host.new) (magic ++ price_record_octets (PriceRecord.Edition 1 0))) }
    ensures prefix { OnErr result (GotPrefix Place.Output (H.state host.old) (H.state host.new) (magic ++ price_record_octets (PriceRecord.Edition 1 0))) }
    ensures stops { IfErr result (λ s. StopsWriting s (H.state host.old) (H.state host.new)) }
    ensures kept { OnOk result ((H.state host.new).faults Place.Output ≡ (H.state host.old).faults Place.Output) }
    ensures others { Touches [] [] (Place.Output ∷ []) (H.state host.old) (H.state host.new) }
{
    let Ok(octets) = beginning(alloc) else {
        return Err(Status::Memory);
    };
    put(&octets, host)
}

/// Writes the price file of a load to Output, a record at a time. Where it stops, Output got a prefix of such a file.
pub fn write_file<H: Host>(alloc: Global, load: PriceLoad, host: &mut H) -> Result<(), Status>
    requires { IsBoundFor Way.Write (H.state host.old) Place.Output }
    ensures done { OnOk result (FileWritten load.seed load.count (H.state host.old) (H.state host.new)) }
    ensures prefix { PrefixWritten load.seed load.count (H.state host.old) (H.state host.new) }
    ensures stops { IfErr result (λ s. StopsWriting s (H.state host.old) (H.state host.new)) }
    ensures kept { OnOk result ((H.state host.new).faults Place.Output ≡ (H.state host.old).faults Place.Output) }
    ensures others { Touches [] [] (Place.Output ∷ []) (H.state host.old) (H.state host.new) }
{
    put_beginning(alloc, host)?;
    let mut generator = generator_of(load.seed);
    for number in 0..load.count {
        let Ok(record) = next_record(alloc, number, &mut generator) else {
            return Err(Status::Memory);
        };
        put(&record, host)?;
    }
    Ok(())
}
