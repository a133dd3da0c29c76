// The certificates of a slot, with what a price file has of them.
ghost use Rattle.std.specs.Prelude.{◌≡◌, All, IfOk};
ghost use Rattle.price_form.specs.Certificates.{IsCert};
ghost use Rattle.tracker_fold.specs.Priced.{told_octets};

use price_form::{USUAL_RECORD, put_cert};
use slot_step::KeyedCert;
use std::alloc::Global;
use std::marker::Model;
use trk_base::{NoMemory, Sequence};

/// The certificates of a slot, which contracts see as their list. A slot's certificates are written
/// with each edition whose window has the slot, so their octets are made once.
#[derive(Drop)]
pub struct PricedCerts {
    certs: Sequence<KeyedCert>,
    // The records that a price file has of them.
    octets: Vec<u8>,
}

impl Model for PricedCerts {
    ghost use Rattle.std.specs.Prelude.{◌≡◌, List};
    ghost use Rattle.slot_step.specs.declared.certs.KeyedCert.{KeyedCert};
    ghost use Rattle.tracker_fold.specs.Priced.{told_octets};

    ghost Value = { List KeyedCert };

    ghost view = { λ told. told.certs };

    ghost invariant = { λ told. told.octets.items ≡ told_octets told.certs };
}

impl PricedCerts {
    /// Certificates that can be written.
    pub fn new(alloc: Global, certs: Sequence<KeyedCert>) -> Result<PricedCerts, NoMemory>
        requires { All (λ k. IsCert k.cert) certs }
        ensures { IfOk result (λ told. told ≡ certs) }
    {
        let octets = octets_of(alloc, certs.as_slice())?;
        Ok(PricedCerts { certs, octets })
    }

    /// The certificates.
    pub fn certs(&self) -> &[KeyedCert]
        ensures { result.now ≡ self.now }
    {
        self.certs.as_slice()
    }

    /// The records that a price file has of them, one after the other.
    pub fn octets(&self) -> &[u8]
        ensures { result.now ≡ told_octets self.now }
    {
        &self.octets
    }
}

// The records of certificates, one after the other.
fn octets_of(alloc: Global, certs: &[KeyedCert]) -> Result<Vec<u8>, NoMemory>
    requires { All (λ k. IsCert k.cert) certs.now }
    ensures { IfOk result (λ v. v.items ≡ told_octets certs.now) }
{
    let mut octets = Vec::with_capacity(alloc, certs.len().saturating_mul(USUAL_RECORD))?;
    for keyed in certs {
        put_cert(&mut octets, &keyed.cert)?;
    }
    Ok(octets)
}
