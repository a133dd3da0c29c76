// The records of a price file, written.
ghost use Rattle.std.specs.Prelude.{◌≡◌, ◌<◌, ◌^◌, ◌++◌, List, All, IfOk, OnOk, OnErr, length};
ghost use Rattle.std.specs.Io.{StartsWith};
ghost use Rattle.std.specs.List.{flat_map};
ghost use Rattle.std.specs.Int.{w32, w64, to_be_bytes};
ghost use Rattle.price_form.specs.Certificates.{IsCert};
ghost use Rattle.price_form.specs.declared.certs.PriceRecord.{PriceRecord};
ghost use Rattle.price_form.specs.declared.certs.PriceRecord.TheVariants.{Edition};
ghost use Rattle.price_form.specs.Octets.{edge_octets};
ghost use Rattle.price_form.specs.Encoding.{head_octets, gate_octets, proof_octets, cert_octets, price_record_octets};
ghost use Rattle.price_form.specs.Files.{magic, IsRecord, StandFrom, ArePrices};

use crate::Cert;
use crate::numbers::{put_edges, put_entries, put_prices, put_words};
use crate::reading::MAGIC;
use std::alloc::Global;
use trk_base::NoMemory;

/// How many octets the record of a certificate has that has one plot, one track and the gate between
/// them, as nearly all do.
pub const USUAL_RECORD: usize = 68;

fn put_word(out: &mut Vec<u8>, number: u64) -> Result<(), NoMemory>
    ensures ok { OnOk result (out.new.items ≡ out.old.items ++ to_be_bytes w64 number) }
    ensures err { OnErr result (out.new.items ≡ out.old.items) }
{
    out.extend_from_slice(&number.to_be_bytes())?;
    Ok(())
}

fn put_half(out: &mut Vec<u8>, number: u32) -> Result<(), NoMemory>
    ensures ok { OnOk result (out.new.items ≡ out.old.items ++ to_be_bytes w32 number) }
    ensures err { OnErr result (out.new.items ≡ out.old.items) }
{
    out.extend_from_slice(&number.to_be_bytes())?;
    Ok(())
}

// Which batch a certificate is of, and how many plots and tracks it has.
fn put_head(
    out: &mut Vec<u8>,
    slot: u64,
    radar: u8,
    plots: u32,
    tracks: u32,
) -> Result<(), NoMemory>
    ensures ok { OnOk result (out.new.items ≡ out.old.items ++ head_octets slot radar plots tracks) }
    ensures err { OnErr result (StartsWith out.new.items out.old.items) }
{
    out.push(2)?;
    put_word(out, slot)?;
    out.push(radar)?;
    put_half(out, plots)?;
    put_half(out, tracks)
}

// The gates between its plots and its tracks, after their number.
fn put_counted_edges(out: &mut Vec<u8>, edges: &[(u32, u32, u16)]) -> Result<(), NoMemory>
    requires { length edges.now < 2 ^ 32 }
    ensures ok { OnOk result (out.new.items ≡ out.old.items ++ (to_be_bytes w32 (length edges.now) ++ flat_map edge_octets edges.now)) }
    ensures err { OnErr result (StartsWith out.new.items out.old.items) }
{
    put_half(out, edges.len() as u32)?;
    put_edges(out, edges)?;
    Ok(())
}

// Which plots and tracks it has, and the gates between them.
fn put_gates(
    out: &mut Vec<u8>,
    plots: &[u64],
    tracks: &[u64],
    edges: &[(u32, u32, u16)],
) -> Result<(), NoMemory>
    requires { length edges.now < 2 ^ 32 }
    ensures ok { OnOk result (out.new.items ≡ out.old.items ++ gate_octets plots.now tracks.now edges.now) }
    ensures err { OnErr result (StartsWith out.new.items out.old.items) }
{
    put_words(out, plots)?;
    put_words(out, tracks)?;
    put_counted_edges(out, edges)?;
    Ok(())
}

// The pairing, and the prices.
fn put_proof(
    out: &mut Vec<u8>,
    pairing: &[Option<u32>],
    u: &[i64],
    v: &[i64],
) -> Result<(), NoMemory>
    ensures ok { OnOk result (out.new.items ≡ out.old.items ++ proof_octets pairing.now u.now v.now) }
    ensures err { OnErr result (StartsWith out.new.items out.old.items) }
{
    put_entries(out, pairing)?;
    put_prices(out, u)?;
    put_prices(out, v)
}

/// What a price file begins with, `MRP1`. Its records follow.
pub fn start_prices() -> [u8; 4]
    ensures { result ≡ magic }
{
    MAGIC
}

/// An edition's record of a price file: its number, and how many events of the log it covers.
pub fn write_edition(alloc: Global, number: u64, cut: u64) -> Result<Vec<u8>, NoMemory>
    ensures { IfOk result (λ v. v.items ≡ price_record_octets (Edition number cut)) }
{
    let mut out = Vec::with_capacity(alloc, 17)?;
    out.push(1)?;
    put_word(&mut out, number)?;
    put_word(&mut out, cut)?;
    Ok(out)
}

// The parts of a certificate's record, one after the other.
fn put_parts(out: &mut Vec<u8>, cert: &Cert) -> Result<(), NoMemory>
    requires { IsCert cert.now }
    ensures ok { OnOk result (out.new.items ≡ out.old.items ++ cert_octets cert.now) }
    ensures err { OnErr result (StartsWith out.new.items out.old.items) }
{
    put_head(
        out,
        cert.slot,
        cert.radar,
        cert.costs.plots,
        cert.costs.tracks,
    )?;
    put_gates(
        out,
        cert.plots.as_slice(),
        cert.tracks.as_slice(),
        cert.costs.edges.as_slice(),
    )?;
    put_proof(
        out,
        cert.pairing.as_slice(),
        cert.u.as_slice(),
        cert.v.as_slice(),
    )?;
    Ok(())
}

/// Puts a certificate's record of a price file at the end. Without memory the octets are as they
/// were.
pub fn put_cert(out: &mut Vec<u8>, cert: &Cert) -> Result<(), NoMemory>
    requires { IsCert cert.now }
    ensures ok { OnOk result (out.new.items ≡ out.old.items ++ cert_octets cert.now) }
    ensures err { OnErr result (out.new.items ≡ out.old.items) }
{
    let kept = out.len();
    if put_parts(out, cert).is_err() {
        out.truncate(kept);
        return Err(NoMemory);
    }
    Ok(())
}

/// A certificate's record of a price file.
pub fn write_cert(alloc: Global, cert: &Cert) -> Result<Vec<u8>, NoMemory>
    requires { IsCert cert.now }
    ensures { IfOk result (λ v. v.items ≡ cert_octets cert.now) }
{
    let mut out = Vec::with_capacity(alloc, USUAL_RECORD)?;
    put_cert(&mut out, cert)?;
    Ok(out)
}

/// The four octets and, after them, what is written of each record, are the price file of these
/// records: [`read_prices`](crate::read_prices) reads them.
pub fn written_prices()
    ensures { (records : List PriceRecord) → All IsRecord records → StandFrom 4 records → ArePrices (magic ++ flat_map price_record_octets records) records }
{}
