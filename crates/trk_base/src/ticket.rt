// Counted work: a counter that only rises, and tickets that it has counted.
ghost use Rattle.std.specs.Prelude.{◌≡◌, ◌+◌, ◌<◌, ◌≤◌, ℕ};

use std::marker::Model;
use std::sync::ledger::{Blank, Book, Ledger, Share};

/// A counter of steps that only rises. It takes no bytes, and counting costs no time.
#[derive(Drop)]
pub struct Steps<L: Ledger> {
    book: Book<L>,
    share: Share<L>,
}

impl<L: Ledger> Model for Steps<L> {
    ghost use Rattle.std.specs.Prelude.{◌<◌, ℕ};

    ghost Value = { ℕ };

    ghost view = { λ s. s.book.total };

    ghost invariant = { λ s. 0 < s.share.parts };
}

impl<L: Ledger> Steps<L> {
    /// A counter that stands at 0.
    pub fn new(blank: Blank) -> Steps<L>
        requires name { blank.name ≡ L.name }
        requires parts { blank.parts ≡ L.parts }
        requires some { 0 < blank.parts }
        ensures { result ≡ 0 }
    {
        let (book, share) = blank.open();
        Steps { book, share }
    }

    fn raise(&mut self, n: u64)
        ensures { self.new ≡ self.old + n }
    {
        self.book.add(&mut self.share, n);
    }
}

/// Leave to take some more steps, each of which the counter of [`charge`] has counted already.
#[derive(Drop)]
pub struct Ticket {
    left: u64,
}

impl Model for Ticket {
    ghost use Rattle.std.specs.Prelude.{ℕ};

    ghost Value = { ℕ };

    ghost view = { λ t. t.left };
}

impl Ticket {
    /// Takes one step of those that are left.
    #[inline]
    pub fn spend(&mut self)
        requires { 0 < self.old }
        ensures { self.new + 1 ≡ self.old }
    {
        self.left -= 1;
    }
}

/// A ticket for `n` steps, which the counter counts at once. No other call makes a ticket, so the
/// counter stands at no less than the steps that were taken by tickets.
#[inline]
pub fn charge<L: Ledger>(n: u64, steps: &mut Steps<L>) -> Ticket
    ensures count { steps.new ≡ steps.old + n }
    ensures ticket { result ≡ n }
{
    steps.raise(n);
    Ticket { left: n }
}
