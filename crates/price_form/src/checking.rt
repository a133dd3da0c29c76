// Whether a certificate proves its pairing, as it stands in plain data or in the octets of a file.
ghost use Rattle.std.specs.Prelude.{◌≡◌, ◌<◌, ◌≤◌, ◌↔◌, ◌^◌, ℕ, List, Option, IsTrue, IfSome, All, length, pos, ◌≤ℤ◌, ◌<ℤ◌, ◌+ℤ◌, unsigned_abs};
ghost use Rattle.assignment_dual.specs.Pairings.{IsPairing, cost};
ghost use Rattle.assignment_dual.specs.Problems.{rows_of, total, Proves};
ghost use Rattle.price_form.specs.declared.certs.Cert.{Cert};
ghost use Rattle.price_form.specs.Certificates.{IsCert};
ghost use Rattle.price_form.specs.Checks.{EdgesHold, AreFeasible, Rises};
ghost use Rattle.price_form.specs.Reading.{BeginsCert, HasCert};

use crate::Cert;
use crate::columns::{Column, Edges, Entries, Prices};
use crate::pairs::{names_once, pairing_cost};
use crate::reading::counts_of;
use trk_base::MISS_COST;

// Whether no price is above `most`.
fn are_at_most<P: Column<i64>>(prices: &P, most: i64) -> bool
    ensures { IsTrue result ↔ All (λ price. price ≤ℤ most) (P.list prices.now) }
{
    for i in 0..prices.len() {
        let price = prices.at(i);
        if price > most {
            return false;
        }
    }
    true
}

// Whether two prices together are above a cost.
fn are_above(u: i64, v: i64, cost: u16) -> bool
    ensures { IsTrue result ↔ (pos cost <ℤ (u +ℤ v)) }
{
    i128::from(u) + i128::from(v) > i128::from(cost)
}

// Whether no edge costs less than the prices of its plot and its track.
fn edges_hold<E: Column<(u32, u32, u16)>, P: Column<i64>>(edges: &E, u: &P, v: &P) -> bool
    requires plots { All (λ e. e.0 < length (P.list u.now)) (E.list edges.now) }
    requires tracks { All (λ e. e.1 < length (P.list v.now)) (E.list edges.now) }
    ensures { IsTrue result ↔ EdgesHold (P.list u.now) (P.list v.now) (E.list edges.now) }
{
    for i in 0..edges.len() {
        let (plot, track, cost) = edges.at(i);
        let plot_price = u.at(plot as usize);
        let track_price = v.at(track as usize);
        if are_above(plot_price, track_price, cost) {
            return false;
        }
    }
    true
}

// The sum of prices. A file may hold prices whose sum has more than 64 bits.
fn sum_of<P: Column<i64>>(prices: &P) -> i128
    requires { length (P.list prices.now) < 2 ^ 32 }
    ensures value { result ≡ total (P.list prices.now) }
    ensures size { unsigned_abs result ≤ 2 ^ 96 }
{
    let mut sum = 0;
    for i in 0..prices.len() {
        let price = prices.at(i);
        sum += i128::from(price);
    }
    sum
}

// Whether no plot pays more alone, no track is paid for, and no edge costs less than its prices.
fn are_feasible<E: Column<(u32, u32, u16)>, P: Column<i64>>(edges: &E, u: &P, v: &P) -> bool
    requires plots { All (λ e. e.0 < length (P.list u.now)) (E.list edges.now) }
    requires tracks { All (λ e. e.1 < length (P.list v.now)) (E.list edges.now) }
    ensures { IsTrue result ↔ AreFeasible (E.list edges.now) (P.list u.now) (P.list v.now) }
{
    are_at_most(u, i64::from(MISS_COST)) && are_at_most(v, 0) && edges_hold(edges, u, v)
}

// Whether the prices prove the pairing.
fn prove<E: Column<(u32, u32, u16)>, X: Column<Option<u32>>, P: Column<i64>>(
    edges: &E,
    pairing: &X,
    tracks: u32,
    u: &P,
    v: &P,
) -> bool
    requires few { length (X.list pairing.now) < 2 ^ 32 }
    requires rising { Rises (E.list edges.now) }
    requires plots { All (λ e. e.0 < length (X.list pairing.now)) (E.list edges.now) }
    requires tracks { All (λ e. e.1 < tracks) (E.list edges.now) }
    requires named { All (λ x. IfSome x (λ t. t < tracks)) (X.list pairing.now) }
    requires plot_prices { length (P.list u.now) ≡ length (X.list pairing.now) }
    requires track_prices { length (P.list v.now) ≡ tracks }
    ensures { IsTrue result ↔ Proves (record { plots = length (X.list pairing.now); tracks = tracks; edges = E.list edges.now }) (X.list pairing.now) (P.list u.now) (P.list v.now) }
{
    if !are_feasible(edges, u, v) {
        return false;
    }
    match pairing_cost(edges, pairing) {
        None => false,
        Some(cost) => {
            if sum_of(u) + sum_of(v) != i128::from(cost) {
                return false;
            }
            names_once(pairing, tracks)
        }
    }
}

/// Whether a certificate proves its pairing: the pairing names an edge or none for each plot and
/// no track twice, the price of each plot is at most 4,097 and that of each track at most 0, the
/// prices of each edge's plot and track together are at most its cost, and the sum of all prices
/// is the pairing's cost. No pairing of these edges then costs less.
///
/// It takes no memory. The time is that of a pass over the certificate and, for each plot, a
/// binary search of its edge; there is one more pass over the pairing for each 65,536 tracks.
pub fn check(cert: &Cert) -> bool
    requires { IsCert cert.now }
    ensures proves { IsTrue result ↔ Proves cert.now.costs cert.now.pairing cert.now.u cert.now.v }

    // That is weak duality.
    ensures least { IsTrue result → (ys : List (Option ℕ)) → IsPairing (rows_of cert.now.costs) ys → cost (rows_of cert.now.costs) cert.now.pairing ≤ cost (rows_of cert.now.costs) ys }
{
    // The number of plots has 32 bits, and so the lists aren't longer.
    let _plots = cert.costs.plots;
    prove(
        &cert.costs.edges,
        &cert.pairing,
        cert.costs.tracks,
        &cert.u,
        &cert.v,
    )
}

/// Whether the certificate whose record begins at this offset of a price file proves its pairing,
/// as [`check`] says of it. Its numbers are judged where they stand, so it takes no memory either.
pub fn check_at(octets: &[u8], at: usize) -> bool
    requires { BeginsCert octets.now at }
    ensures { (c : Cert) → HasCert octets.now at c → IsTrue result ↔ Proves c.costs c.pairing c.u c.v }
{
    let counts = counts_of(octets, at);
    let (plots, tracks) = (counts.plots as usize, counts.tracks as usize);
    let edges = Edges {
        octets,
        from: at + 22 + plots * 8 + tracks * 8,
        count: counts.edges as usize,
    };
    let pairing = Entries {
        octets,
        from: edges.from + edges.count * 10,
        count: plots,
    };
    let u = Prices {
        octets,
        from: pairing.from + plots * 4,
        count: plots,
    };
    let v = Prices {
        octets,
        from: u.from + plots * 8,
        count: tracks,
    };
    prove(&edges, &pairing, counts.tracks, &u, &v)
}
