// The prices of all vertices.

ghost use Rattle.std.specs.Prelude.{◌≡◌, ◌≤◌, ◌<◌, ◌*◌, ℕ, ◌^◌, length, get_or, slice_set, sum};
ghost use Rattle.trk_base.specs.Limits.{miss_cost};

use std::marker::Model;

/// The prices of all vertices, with their sum, which is kept while they move. Contracts see the
/// list of the prices.
#[derive(Drop)]
pub struct Prices {
    each: Vec<u32>,
    total: u64,
}

impl Model for Prices {
    ghost use Rattle.std.specs.Prelude.{◌≡◌, ◌≤◌, ◌<◌, ◌^◌, ℕ, List, length, get_or, sum};
    ghost use Rattle.trk_base.specs.Limits.{miss_cost};

    ghost Value = { List ℕ };

    ghost view = { λ prices. prices.each.items };

    ghost use Rattle.assignment_dual.specs.Totals.{IsTotal};

    ghost invariant = { λ prices. IsTotal prices.each.items prices.total };
}

impl Prices {
    /// These prices.
    pub fn of(each: Vec<u32>) -> Prices
        requires few { length each.items < 2 ^ 40 }
        requires small { (v : ℕ) → get_or each.items v 0 ≤ miss_cost }
        ensures { result ≡ each.items }
    {
        let total = sum_of(&each);
        Prices { each, total }
    }

    /// How many vertices there are.
    pub fn len(&self) -> usize
        ensures { result ≡ length self.now }
    {
        self.each.len()
    }

    /// The price of the vertex v.
    pub fn at(&self, v: usize) -> u32
        requires { v < length self.now }
        ensures price { result ≡ get_or self.now v 0 }
        ensures small { result ≤ miss_cost }
    {
        self.each[v]
    }

    /// The vertex v gets another price.
    pub fn set(&mut self, v: usize, price: u32)
        requires v { v < length self.old }
        requires small { price ≤ miss_cost }
        ensures { self.new ≡ slice_set self.old v price }
    {
        self.total = self.total - u64::from(self.each[v]) + u64::from(price);
        self.each[v] = price;
    }

    /// The sum of all prices.
    pub fn sum(&self) -> u64
        ensures sum { result ≡ sum self.now }
        ensures small { result < 2 ^ 53 }
    {
        self.total
    }

    /// The prices, to read.
    pub fn as_slice(&self) -> &[u32]
        ensures { result.now ≡ self.now }
    {
        &self.each
    }
}

// The sum of these prices.
fn sum_of(prices: &[u32]) -> u64
    requires few { length prices.now < 2 ^ 40 }
    requires small { (v : ℕ) → get_or prices.now v 0 ≤ miss_cost }
    ensures { result ≡ sum prices.now }
{
    let mut sum = 0;
    for price in prices {
        sum += u64::from(*price);
    }
    sum
}
