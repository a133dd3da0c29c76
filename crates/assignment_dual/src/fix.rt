// A vertex is taken out, or comes back.

ghost use Rattle.std.specs.Prelude.{◌≡◌, ◌≢◌, ◌<◌, ◌+◌, length, get_or, true, false, slice_set, sum, OnOk};
ghost use Rattle.assignment_dual.specs.declared.graph.Graph.{Graph};
ghost use Rattle.assignment_dual.specs.Search.{NoneSeen};
ghost use Rattle.assignment_dual.specs.Vertices.{IsGraph, IsOptimal};

use crate::augmenting::augment;
use crate::graph::Graph;
use crate::prices::Prices;
use crate::search::{Search, unmatch};
use trk_base::NoMemory;

/// Takes x out; its mate gets another place.
pub fn take_out(
    graph: &Graph,
    prices: &mut Prices,
    mates: &mut [usize],
    search: &mut Search,
    gone: &mut [bool],
    x: usize,
) -> Result<(), NoMemory>
    requires graph { IsGraph graph.now (length prices.old) }
    requires resting { IsOptimal graph.now (length prices.old) prices.old mates.old gone.old }
    requires seen { length search.old.seen.items ≡ length prices.old }
    requires none_seen { NoneSeen search.old.seen.items }
    requires count { length gone.old ≡ length prices.old }
    requires x { x < length prices.old }
    requires here { get_or gone.old x false ≡ false }
    ensures gone { OnOk result (gone.new ≡ slice_set gone.old x true) }
    ensures resting { OnOk result (IsOptimal graph.now (length prices.old) prices.new mates.new gone.new) }
    ensures seen { OnOk result (length search.new.seen.items ≡ length prices.old) }
    ensures none_seen { OnOk result (NoneSeen search.new.seen.items) }
{
    gone[x] = true;
    prices.set(x, 0);
    let y = unmatch(mates, x);
    if y != x {
        augment(graph, prices, mates, search, y)?;
    }
    Ok(())
}

/// x comes back.
pub fn put_back(
    graph: &Graph,
    prices: &mut Prices,
    mates: &mut [usize],
    search: &mut Search,
    gone: &mut [bool],
    x: usize,
) -> Result<(), NoMemory>
    requires graph { IsGraph graph.now (length prices.old) }
    requires resting { IsOptimal graph.now (length prices.old) prices.old mates.old gone.old }
    requires seen { length search.old.seen.items ≡ length prices.old }
    requires none_seen { NoneSeen search.old.seen.items }
    requires count { length gone.old ≡ length prices.old }
    requires x { x < length prices.old }
    requires away { get_or gone.old x false ≡ true }
    ensures gone { OnOk result (gone.new ≡ slice_set gone.old x false) }
    ensures resting { OnOk result (IsOptimal graph.now (length prices.old) prices.new mates.new gone.new) }
    ensures seen { OnOk result (length search.new.seen.items ≡ length prices.old) }
    ensures none_seen { OnOk result (NoneSeen search.new.seen.items) }
{
    gone[x] = false;
    augment(graph, prices, mates, search, x)
}

/// Takes x and its mate, which is answered, out together. Nobody needs another place.
pub fn take_pair(prices: &mut Prices, mates: &mut [usize], gone: &mut [bool], x: usize) -> usize
    requires mates { length mates.old ≡ length prices.old }
    requires count { length gone.old ≡ length prices.old }
    requires x { x < length prices.old }
    requires mate { get_or mates.old x 0 < length prices.old }
    requires two { get_or mates.old x 0 ≢ x }
    ensures mate { result ≡ get_or mates.old x 0 }
    ensures gone { gone.new ≡ slice_set (slice_set gone.old x true) result true }
    ensures sum { sum prices.new + (get_or prices.old x 0 + get_or prices.old result 0) ≡ sum prices.old }
    ensures resting { (g : Graph) → IsOptimal g (length prices.old) prices.old mates.old gone.old → IsOptimal g (length prices.old) prices.new mates.new gone.new }
{
    let y = unmatch(mates, x);
    prices.set(x, 0);
    prices.set(y, 0);
    gone[x] = true;
    gone[y] = true;
    y
}
