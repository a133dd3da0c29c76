// The tracker's fold over plots, without numbers.
ghost use Rattle.std.specs.Prelude.{◌≡◌, IfOk};
ghost use Rattle.plot_geometry.specs.PlotOrder.{plot_cmp};
ghost use Rattle.late_window.specs.Folding.{Rises, InSlot};
ghost use Rattle.slot_step.specs.Calls.{AreBatches, plots_of};
ghost use Rattle.track_parts.specs.Tracking.{slot_of_plot, key_of_plot};

use crate::Tracks;
use late_window::Fold;
use plot_geometry::PlanePlot;
use slot_step::{Batch, KeyedCert, SlotRan, batches_of, slot_run};
use std::alloc::Global;
use trk_base::{Key, NoMemory, Sequence, Ticket, TryCopy};

/// The tracker's fold over plots in the plane. Its step is the run of the slot without numbers,
/// which are given once all is run; without plots tracks expire all the same.
pub struct PlotFold;

impl Fold for PlotFold {
    ghost use Rattle.std.specs.Prelude.{ℕ, List};
    ghost use Rattle.plot_geometry.specs.PlotOrder.{plot_cmp_exact};
    ghost use Rattle.track_parts.specs.Tracking.{next, slot_of_plot, key_of_plot, AreCertified, IsBefore};
    ghost use Rattle.track_parts.specs.Laws.{stays_before, goes_before, in_order, slot_in_key};

    type State = Tracks;

    type Item = PlanePlot;

    type Out = Sequence<KeyedCert>;

    type Key = Key;

    ghost next = { next };

    ghost is_out = { AreCertified };

    ghost slot_of = { slot_of_plot };

    ghost key_of = { key_of_plot };

    ghost is_before = { IsBefore };

    ghost stays_before = { stays_before };

    ghost goes_before = { goes_before };

    ghost in_order = { in_order };

    ghost exact = { plot_cmp_exact };

    ghost slot_in_key = { slot_in_key };

    fn slot(item: &PlanePlot) -> u64 {
        item.key.slot
    }

    fn step(
        alloc: Global,
        state: &Tracks,
        slot: u64,
        items: &[PlanePlot],
        ticket: &mut Ticket,
    ) -> Result<(Tracks, Sequence<KeyedCert>), NoMemory> {
        match slot_batches(alloc, slot, items) {
            Ok(batches) => {
                let SlotRan { table, certs } = slot_run(
                    alloc,
                    state.table(),
                    slot,
                    &batches,
                    state.life(),
                    ticket,
                )?;
                Ok((Tracks::of(*state.life(), table), certs))
            }
            Err(NoMemory) => {
                ticket.spend();
                Err(NoMemory)
            }
        }
    }

    fn copy(alloc: Global, state: &Tracks) -> Result<Tracks, NoMemory> {
        state.copy(alloc)
    }
}

/// A slot's plots as batches.
pub(crate) fn slot_batches(
    alloc: Global,
    slot: u64,
    plots: &[PlanePlot],
) -> Result<Vec<Batch>, NoMemory>
    requires rising { Rises plot_cmp key_of_plot plots.now }
    requires of_slot { InSlot slot_of_plot slot plots.now }
    ensures plots { IfOk result (λ batches. plots_of batches.items ≡ plots.now) }
    ensures batches { IfOk result (λ batches. AreBatches slot batches.items) }
{
    batches_of(alloc, plots)
}
