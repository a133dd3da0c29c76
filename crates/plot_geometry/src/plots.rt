// A plot in the plane.
use std::cmp::Ordering;
use std::marker::Model;
use trk_base::Key;

/// A plot in the plane. Plots are compared by key, then by the other fields in their order.
#[derive(Clone, Copy, Debug, PartialEq, Eq)]
pub struct PlanePlot {
    /// Its key in the order of all plots.
    pub key: Key,
    /// The position to the east, in 1/64 m, at most `PLANE_BOUND` in size.
    pub x: i64,
    /// The position to the north, in 1/64 m, at most `PLANE_BOUND` in size.
    pub y: i64,
    /// The variance of `x` in (1/64 m)^2, from 1 to 2^46.
    pub rx: u64,
    /// The variance of `y` in (1/64 m)^2, from 1 to 2^46.
    pub ry: u64,
    /// The kind of detection, from 1 to 7, I048/020 TYP.
    pub kind: u8,
    /// Special position identification, I048/020 SPI.
    pub spi: bool,
    /// Mode 3/A code, 12 bits, I048/070.
    pub code: Option<u16>,
    /// Flight level in 1/4 FL, 14 bits signed, I048/090.
    pub level: Option<i16>,
    /// Aircraft address, 24 bits, I048/220.
    pub address: Option<u32>,
}

impl Model for PlanePlot {
    ghost use Rattle.plot_geometry.specs.Plots.{PlanePlot, IsPlanePlot};

    ghost Value = { PlanePlot };

    ghost view = { λ p. record { key = p.key; x = p.x; y = p.y; rx = p.rx; ry = p.ry; kind = p.kind; spi = p.spi; code = p.code; level = p.level; address = p.address } };

    ghost invariant = { λ p. IsPlanePlot (record { key = p.key; x = p.x; y = p.y; rx = p.rx; ry = p.ry; kind = p.kind; spi = p.spi; code = p.code; level = p.level; address = p.address }) };

    ghost inverse = { λ p. record { key = p.key; x = p.x; y = p.y; rx = p.rx; ry = p.ry; kind = p.kind; spi = p.spi; code = p.code; level = p.level; address = p.address } };
}

impl Ord for PlanePlot {
    ghost use Rattle.std.proofs.Common.{rules};
    ghost use Rattle.std.specs.Cmp.Rules.{comparing};
    ghost use Rattle.plot_geometry.specs.PlotOrder.{plot_cmp, plot_cmp_total};
    ghost use Rattle.plot_geometry.specs.PlotTies.{plot_ties};

    ghost cmp = { plot_cmp };

    ghost total = { plot_cmp_total };

    ghost matches_partial_cmp = { Prim.search (comparing, rules) };

    ghost matches_eq = { plot_ties };

    fn cmp(&self, other: &PlanePlot) -> Ordering {
        self.key
            .cmp(&other.key)
            .then(self.x.cmp(&other.x))
            .then(self.y.cmp(&other.y))
            .then(self.rx.cmp(&other.rx))
            .then(self.ry.cmp(&other.ry))
            .then(self.kind.cmp(&other.kind))
            .then(self.spi.cmp(&other.spi))
            .then(self.code.cmp(&other.code))
            .then(self.level.cmp(&other.level))
            .then(self.address.cmp(&other.address))
    }
}

impl PartialOrd for PlanePlot {
    ghost use Rattle.std.proofs.Common.{rules};
    ghost use Rattle.std.specs.Cmp.{partial_order_from_own_ties, partial_order_from_total};
    ghost use Rattle.std.specs.Cmp.Rules.{comparing};
    ghost use Rattle.std.specs.Ordering.{as_partial_cmp};
    ghost use Rattle.plot_geometry.specs.PlotOrder.{plot_cmp, plot_cmp_total};
    ghost use Rattle.plot_geometry.specs.PlotTies.{plot_ties};

    ghost partial_cmp = { as_partial_cmp plot_cmp };

    ghost laws = { partial_order_from_own_ties (partial_order_from_total plot_cmp_total) plot_ties };

    fn partial_cmp(&self, other: &PlanePlot) -> Option<Ordering> {
        Some(self.cmp(other))
    }
}
