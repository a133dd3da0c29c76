// The event of a datagram.
ghost use Rattle.std.specs.Prelude.{◌≡◌, ◌+◌, ◌<◌, ◌≤◌, ◌^◌, List, length, IfOk};
ghost use Rattle.asterix_frame.specs.declared.block.Malformed.{Malformed};
ghost use Rattle.asterix_frame.specs.Answers.{IfMalformed, AnswersWith, RefusesWith};
ghost use Rattle.asterix_frame.specs.Datagrams.{Content, IsDatagram, DatagramFault};
ghost use Rattle.trk_base.specs.Limits.{count_limit};
ghost use Rattle.admission_log.specs.Histories.{admitted_in};
ghost use Rattle.admission_log.specs.Deliveries.{IsDelivery, IsDeliveryOf};

use crate::judging::{admission, counted_radar};
use crate::messages::BlockMessages;
use crate::{AdmitError, Admitted, Event, Messages, Outcome, Settings, read_messages};
use cat034_in::Service;
use cat048_in::Report;
use std::alloc::Global;
use trk_base::{COUNT_LIMIT, NoMemory, Sequence};

// What messages have brought so far.
#[derive(Drop)]
pub(crate) struct Delivery {
    // The arrival of the next plot that is admitted.
    next: u64,
    admitted: Vec<Admitted>,
    outcomes: Vec<Outcome>,
}

/// The event of a datagram that came from a feed after a last tick, where the next plot that is
/// admitted has the arrival `next`.
///
/// It is refused as malformed exactly where it isn't in the grammar, by the first fault in the
/// order of reading: a block's head, then its records, then the next head. Blocks of other
/// categories than 34 and 48 are passed over and counted.
pub fn deliver(
    alloc: Global,
    settings: &Settings,
    last: u64,
    next: u64,
    feed: u8,
    datagram: &[u8],
) -> Result<Event, AdmitError>
    requires in_time { last < 2 ^ 40 }
    requires length { length datagram.now ≤ 65535 }
    ensures delivered { IfOk result (λ e. (contents : List Content) × IsDatagram datagram.now contents × IsDelivery settings.now last next feed contents e) }
    ensures malformed { IfMalformed result (λ m. DatagramFault datagram.now m.offset m.cause) }

    // The other directions, unless memory is wanting.
    ensures reads { (contents : List Content) → IsDatagram datagram.now contents → AnswersWith result (λ e. IsDelivery settings.now last next feed contents e) }
    ensures refuses { (m : Malformed) → DatagramFault datagram.now m.offset m.cause → RefusesWith result (λ x. x ≡ m) }

    // No arrival reaches the limit.
    ensures arrivals { next ≤ count_limit → IfOk result (λ e. next + length (admitted_in e) ≤ count_limit) }
{
    let messages = read_messages(alloc, datagram)?;
    let event = judge_messages(alloc, settings, last, next, feed, &messages)?;
    Ok(event)
}

/// The event of a datagram that was read, which came from a feed after a last tick, where the next
/// plot that is admitted has the arrival `next`.
pub fn judge_messages(
    alloc: Global,
    settings: &Settings,
    last: u64,
    next: u64,
    feed: u8,
    messages: &Messages,
) -> Result<Event, NoMemory>
    requires { last < 2 ^ 40 }
    ensures delivered { IfOk result (λ e. IsDeliveryOf settings.now last next feed messages.now e) }

    // No arrival reaches the limit.
    ensures arrivals { next ≤ count_limit → IfOk result (λ e. next + length (admitted_in e) ≤ count_limit) }
{
    let mut delivery = Delivery {
        next,
        admitted: Vec::new(alloc),
        outcomes: Vec::new(alloc),
    };
    let blocks = messages.blocks.as_slice();
    for block in blocks {
        delivery.add_block(settings, last, block)?;
    }
    let Delivery {
        admitted,
        outcomes,
        ..
    } = delivery;
    Ok(Event::Deliver {
        feed,
        admitted: Sequence::of(admitted),
        outcomes: Sequence::of(outcomes),
        other: messages.other,
    })
}

impl Delivery {
    ghost use Rattle.std.specs.Prelude.{◌≡◌, ◌<◌, ◌^◌, ℕ, [], ◌∷◌, map, OnOk};
    ghost use Rattle.admission_log.specs.Messages.{report, service};
    ghost use Rattle.admission_log.specs.ReadMessages.{messages_kept};
    ghost use Rattle.admission_log.specs.Brought.{Brings, BringsMessages};

    // Judges the messages of a block.
    fn add_block(
        &mut self,
        settings: &Settings,
        last: u64,
        block: &BlockMessages,
    ) -> Result<(), NoMemory>
        requires { last < 2 ^ 40 }
        ensures { OnOk result (BringsMessages settings.now last (messages_kept block.now) self.old self.new) }
    {
        match block {
            BlockMessages::Services(services) => self.add_services(settings, services.as_slice()),
            BlockMessages::Reports(reports) => self.add_reports(settings, last, reports.as_slice()),
        }
    }

    // Judges service messages.
    fn add_services(&mut self, settings: &Settings, services: &[Service]) -> Result<(), NoMemory>
        ensures { OnOk result ((last : ℕ) → BringsMessages settings.now last (map service services.now) self.old self.new) }
    {
        self.outcomes.reserve(services.len())?;
        for service in services {
            let radar = counted_radar(settings, service.source, service.kind);
            self.add(Err(Outcome::Service(radar)))?;
        }
        Ok(())
    }

    // Judges target reports.
    fn add_reports(
        &mut self,
        settings: &Settings,
        last: u64,
        reports: &[Report],
    ) -> Result<(), NoMemory>
        requires { last < 2 ^ 40 }
        ensures { OnOk result (BringsMessages settings.now last (map report reports.now) self.old self.new) }
    {
        self.outcomes.reserve(reports.len())?;
        self.admitted.reserve(reports.len())?;
        for report in reports {
            self.add(admission(settings, last, self.next, report))?;
        }
        Ok(())
    }

    // Takes what was judged of one message.
    fn add(&mut self, judged: Result<Admitted, Outcome>) -> Result<(), NoMemory>
        ensures { OnOk result (Brings (judged ∷ []) self.old self.new) }
    {
        match judged {
            Ok(admitted) => {
                if self.next >= COUNT_LIMIT {
                    return Err(NoMemory);
                }
                self.outcomes.push(Outcome::Admitted(admitted.arrival))?;
                self.admitted.push(admitted)?;
                self.next += 1;
            }
            Err(outcome) => self.outcomes.push(outcome)?,
        }
        Ok(())
    }
}
