// Certificates and the other records of a price file, and why one cannot be read.
use assignment_dual::Costs;
use short_list::ShortList;
use std::alloc::{AllocFailed, Global};
use trk_base::{NoMemory, TryCopy};

/// A component of a batch's gate graph, its pairing, and prices that are to prove it.
#[derive(Debug, Drop, PartialEq, Eq)]
pub struct Cert {
    /// The batch's slot.
    pub slot: u64,
    /// The batch's radar, by its place in the settings.
    pub radar: u8,
    /// The arrival of each plot, in the order of the plots' keys.
    pub plots: ShortList<u64>,
    /// The arrival of each track's first plot, in the order of the tracks' births.
    pub tracks: ShortList<u64>,
    /// The gates and their costs.
    pub costs: Costs,
    /// For each plot the place of its track, or none.
    pub pairing: ShortList<Option<u32>>,
    /// The price of each plot.
    pub u: ShortList<i64>,
    /// The price of each track.
    pub v: ShortList<i64>,
}

impl TryCopy for Cert {
    fn copy(&self, alloc: Global) -> Result<Cert, NoMemory> {
        Ok(Cert {
            slot: self.slot,
            radar: self.radar,
            plots: self.plots.copy(alloc)?,
            tracks: self.tracks.copy(alloc)?,
            costs: self.costs.copy(alloc)?,
            pairing: self.pairing.copy(alloc)?,
            u: self.u.copy(alloc)?,
            v: self.v.copy(alloc)?,
        })
    }
}

/// A record of a price file.
#[derive(Debug, Drop)]
pub enum PriceRecord {
    /// An edition's number, and how many events of the log it covers.
    Edition { number: u64, cut: u64 },
    /// A certificate, and the offset of its record's first octet in the file.
    Cert { cert: Cert, at: usize },
}

/// Why a price file can't be read.
#[derive(Clone, Copy, Debug, PartialEq, Eq)]
pub enum PricesError {
    /// Here, at a record's first octet, the file is none, or at its very first octet.
    Fault { offset: usize },
    /// Memory is wanting.
    NoMemory,
}

impl From<NoMemory> for PricesError {
    ghost use Rattle.std.specs.Prelude.{◌≡◌};
    ghost use Rattle.price_form.specs.declared.certs.PricesError.TheVariants.{NoMemory as Wanting};

    ghost from_gives = { λ _ e. e ≡ Wanting };

    fn from(_: NoMemory) -> PricesError {
        PricesError::NoMemory
    }
}

impl<T: Drop> From<AllocFailed<T>> for PricesError {
    ghost use Rattle.std.specs.Prelude.{◌≡◌};
    ghost use Rattle.price_form.specs.declared.certs.PricesError.TheVariants.{NoMemory as Wanting};

    ghost from_gives = { λ _ e. e ≡ Wanting };

    fn from(_: AllocFailed<T>) -> PricesError {
        PricesError::NoMemory
    }
}
