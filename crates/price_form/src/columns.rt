// Lists of a certificate, as they stand in plain data or in the octets of a file.
ghost use Rattle.std.specs.Prelude.{◌≡◌, ◌≤◌, ◌<◌, ◌+◌, ◌*◌, List, length, get_or};
ghost use Rattle.price_form.specs.Octets.{many_at, price_number_at, edge_numbers_at, entry_number_at};

use crate::numbers::{edge_at, entry_at, price_at};
use short_list::ShortList;

/// A list that is read by index, wherever it stands.
pub(crate) trait Column<T> {
    /// The list.
    ghost list: { Self → List T };

    /// How many there are.
    fn len(&self) -> usize
        ensures { result ≡ length (list self.now) };

    /// The one at an index.
    fn at(&self, index: usize) -> T
        requires { index < length (list self.now) }
        ensures { (d : T) → result ≡ get_or (list self.now) index d };
}

impl<T: Copy> Column<T> for ShortList<T> {
    ghost list = { λ s. s };

    fn len(&self) -> usize {
        ShortList::len(self)
    }

    fn at(&self, index: usize) -> T {
        *ShortList::at(self, index)
    }
}

/// Prices of eight octets each.
#[derive(Drop)]
pub(crate) struct Prices<'a> {
    pub(crate) octets: &'a [u8],
    pub(crate) from: usize,
    pub(crate) count: usize,
    ghost inside: { from + count * 8 ≤ length octets.now },
}

impl<'a> Column<i64> for Prices<'a> {
    ghost list = { λ s. many_at price_number_at 8 s.octets.now s.from s.count };

    fn len(&self) -> usize {
        self.count
    }

    fn at(&self, index: usize) -> i64 {
        price_at(self.octets, self.from + index * 8)
    }
}

/// Edges of ten octets each: the plot, the track and the cost.
#[derive(Drop)]
pub(crate) struct Edges<'a> {
    pub(crate) octets: &'a [u8],
    pub(crate) from: usize,
    pub(crate) count: usize,
    ghost inside: { from + count * 10 ≤ length octets.now },
}

impl<'a> Column<(u32, u32, u16)> for Edges<'a> {
    ghost list = { λ s. many_at edge_numbers_at 10 s.octets.now s.from s.count };

    fn len(&self) -> usize {
        self.count
    }

    fn at(&self, index: usize) -> (u32, u32, u16) {
        edge_at(self.octets, self.from + index * 10)
    }
}

/// Entries of a pairing, of four octets each.
#[derive(Drop)]
pub(crate) struct Entries<'a> {
    pub(crate) octets: &'a [u8],
    pub(crate) from: usize,
    pub(crate) count: usize,
    ghost inside: { from + count * 4 ≤ length octets.now },
}

impl<'a> Column<Option<u32>> for Entries<'a> {
    ghost list = { λ s. many_at entry_number_at 4 s.octets.now s.from s.count };

    fn len(&self) -> usize {
        self.count
    }

    fn at(&self, index: usize) -> Option<u32> {
        entry_at(self.octets, self.from + index * 4)
    }
}
