// The history that threads have made, judged by plain loops.
use super::START;
use super::sites::REPORTS;
use admission_log::{Admitted, Event, Outcome, Receipt};

// Whether a datagram of the feed was admitted at this receipt: the report of this place among those
// of a site, with what was told of it.
fn is_received(event: &Event, feed: u8, place: u64, receipt: &Receipt) -> bool {
    match event {
        Event::Deliver {
            feed: by,
            admitted,
            outcomes,
            ..
        } => {
            let time = START + 64 * (place % u64::from(REPORTS));
            *by == feed
                && outcomes.as_slice() == receipt.outcomes.as_slice()
                && matches!(admitted.as_slice(), [Admitted { time: own, .. }] if *own == time)
        }
        _ => false,
    }
}

// Whether the datagrams of a feed stand at exactly the indices of these receipts.
pub(super) fn are_received(events: &[Event], feed: u8, receipts: &[Receipt]) -> bool {
    let mut left = receipts;
    let mut place = 0;
    for (index, event) in events.iter().enumerate() {
        if matches!(event, Event::Deliver { feed: by, .. } if *by == feed) {
            let Some((receipt, rest)) = left.split_first() else {
                return false;
            };
            if receipt.at != index as u64 || !is_received(event, feed, place, receipt) {
                return false;
            }
            left = rest;
            place = u64::saturating_add(place, 1);
        }
    }
    left.is_empty()
}

// Whether the ticks and the editions stand at exactly these indices.
pub(super) fn are_conducted(events: &[Event], indices: &[u64]) -> bool {
    events
        .iter()
        .enumerate()
        .filter(|(_, event)| matches!(event, Event::Tick(_) | Event::Publish { .. }))
        .map(|(index, _)| index as u64)
        .eq(indices.iter().copied())
}

// The last tick, the next arrival, the number of the next edition and the cut of the last one.
#[derive(Clone, Copy, Debug, PartialEq, Eq)]
pub(super) struct Course {
    pub last: u64,
    pub next: u64,
    pub number: u64,
    pub cut: u64,
}

impl Course {
    // The course after the event with this index, if the event may stand there.
    fn after(mut self, index: u64, event: &Event) -> Option<Course> {
        match event {
            Event::Deliver {
                outcomes,
                admitted,
                ..
            } if outcomes.as_slice() == [Outcome::Admitted(self.next)].as_slice()
                && matches!(admitted.as_slice(), [one] if one.arrival == self.next) => {
                self.next = u64::saturating_add(self.next, 1);
            }
            Event::Tick(time) if self.last < *time => self.last = *time,
            Event::Publish { number, cut }
                if *number == self.number && self.cut < *cut && *cut <= index => {
                self.number = u64::saturating_add(self.number, 1);
                self.cut = *cut;
            }
            _ => return None,
        }
        Some(self)
    }
}

// The course after all events, if each of them may stand where it does.
pub(super) fn course_of(events: &[Event]) -> Option<Course> {
    let mut course = Course {
        last: START,
        next: 0,
        number: 1,
        cut: 0,
    };
    for (index, event) in events.iter().enumerate() {
        course = course.after(index as u64, event)?;
    }
    Some(course)
}
