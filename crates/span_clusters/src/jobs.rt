// Parts that are to be run, and those that were.
ghost use Rattle.std.specs.Prelude.{◌≡◌, ◌+◌, IfOk, length};
ghost use Rattle.late_window.specs.Folding.{Rises, BeforeFirst, slots, states, AreOutsOf};

use late_window::{Fold, count_slots, run_slots};
use std::alloc::Global;
use std::marker::Model;
use std::sync::ledger::Ledger;
use trk_base::{NoMemory, Steps, Ticket, charge};

/// A part of a span that is to be run. Its items strictly rise, its start is before the first one's
/// slot, and its ticket has a step for each slot that they fill.
#[derive(Drop)]
pub struct Job<F: Fold> {
    pub(crate) number: u8,
    pub(crate) start: F::State,
    pub(crate) items: Vec<F::Item>,
    pub(crate) ticket: Ticket,
}

impl<F: Fold> Model for Job<F> {
    ghost use Rattle.std.specs.Prelude.{◌≤◌, length};
    ghost use Rattle.late_window.specs.Folding.{slots};
    ghost use Rattle.span_clusters.specs.Parts.{Part};
    ghost use Rattle.span_clusters.specs.Jobs.{MayRun};

    ghost Value = { Part F.State F.Item };

    ghost view = { λ j. record { number = j.number; start = j.start; items = j.items.items } };

    ghost invariant = { λ j. MayRun F.Item.cmp F.key_of F.slot_of F.is_before j.start j.items.items × (length (slots F.slot_of j.items.items) ≤ j.ticket) };
}

impl<F: Fold> Job<F> {
    /// The number of the part.
    pub fn number(&self) -> u8
        ensures { result ≡ self.now.number }
    {
        self.number
    }

    /// The items of the part.
    pub fn items(&self) -> &[F::Item]
        ensures { result.now ≡ self.now.items }
    {
        &self.items
    }

    /// The part's own run, over the slots that it fills.
    pub fn run(self, alloc: Global) -> Result<Done<F>, NoMemory>
        ensures { IfOk result (λ done. done ≡ self) }
    {
        let Job {
            number,
            start,
            items,
            mut ticket,
        } = self;
        let (states, outs) = run_slots::<F>(alloc, &start, &items, &mut ticket)?;
        Ok(Done {
            number,
            start,
            items,
            states,
            outs,
        })
    }
}

// The job of a part, with a ticket for the slots that it fills, which the counter counts at once.
pub(crate) fn charged<F: Fold, L: Ledger>(
    number: u8,
    start: F::State,
    items: Vec<F::Item>,
    steps: &mut Steps<L>,
) -> Job<F>
    requires rising { Rises F.Item.cmp F.key_of items.items }
    requires before { BeforeFirst F.is_before F.slot_of start items.items }
    ensures number { result.number ≡ number }
    ensures start { result.start ≡ start }
    ensures items { result.items ≡ items.items }
    ensures count { steps.new ≡ steps.old + length (slots F.slot_of items.items) }
{
    let ticket = charge(count_slots::<F>(&items) as u64, steps);
    Job {
        number,
        start,
        items,
        ticket,
    }
}

/// A part that was run, with the state and the out after each slot that it fills.
#[derive(Drop)]
pub struct Done<F: Fold> {
    pub(crate) number: u8,
    pub(crate) start: F::State,
    pub(crate) items: Vec<F::Item>,
    pub(crate) states: Vec<F::State>,
    pub(crate) outs: Vec<F::Out>,
}

impl<F: Fold> Model for Done<F> {
    ghost use Rattle.span_clusters.specs.Parts.{Part};
    ghost use Rattle.span_clusters.specs.Jobs.{MayRun, HasRun};

    ghost Value = { Part F.State F.Item };

    ghost view = { λ d. record { number = d.number; start = d.start; items = d.items.items } };

    ghost invariant = { λ d. MayRun F.Item.cmp F.key_of F.slot_of F.is_before d.start d.items.items × HasRun F.next F.slot_of F.is_out d.start d.items.items d.states.items d.outs.items };
}

impl<F: Fold> Done<F> {
    /// The number of the part.
    pub fn number(&self) -> u8
        ensures { result ≡ self.now.number }
    {
        self.number
    }

    /// The members of the part before the span.
    pub fn start(&self) -> &F::State
        ensures { result.now ≡ self.now.start }
    {
        &self.start
    }

    /// The items of the part.
    pub fn items(&self) -> &[F::Item]
        ensures { result.now ≡ self.now.items }
    {
        &self.items
    }

    /// All that the part is and gave, by move: its members before the span, its items, and the
    /// state and the out of each slot that they fill.
    pub fn into_run(self) -> (F::State, Vec<F::Item>, Vec<F::State>, Vec<F::Out>)
        ensures start { result.0 ≡ self.start }
        ensures items { result.1.items ≡ self.items }
        ensures states { result.2.items ≡ states F.next F.slot_of self.start self.items }
        ensures outs { AreOutsOf F.next F.slot_of F.is_out self.start self.items result.3.items }
    {
        (self.start, self.items, self.states, self.outs)
    }
}
