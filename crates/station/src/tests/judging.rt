// The history that threads have made, judged by plain loops.
use super::START;
use admission_log::{Event, Outcome, Receipt};

// What was told of a datagram of the feed, if the event is one.
fn told_of(event: &Event, feed: u8) -> Option<&[Outcome]> {
    match event {
        Event::Deliver {
            feed: by,
            outcomes,
            ..
        } if *by == feed => Some(outcomes.as_slice()),
        _ => None,
    }
}

// Whether the datagrams of a feed stand at exactly the indices of these receipts, which tell the same
// of them.
pub(super) fn are_received(events: &[Event], feed: u8, receipts: &[Receipt]) -> bool {
    let mut left = receipts;
    for (index, event) in events.iter().enumerate() {
        if let Some(told) = told_of(event, feed) {
            let Some((receipt, rest)) = left.split_first() else {
                return false;
            };
            if receipt.at != index as u64 || receipt.outcomes.as_slice() != told {
                return false;
            }
            left = rest;
        }
    }
    left.is_empty()
}

// Whether the ticks and the editions stand at exactly these indices.
pub(super) fn are_conducted(events: &[Event], indices: &[u64]) -> bool {
    events
        .iter()
        .enumerate()
        .filter(|(_, event)| matches!(event, Event::Tick(_) | Event::Publish { .. }))
        .map(|(index, _)| index as u64)
        .eq(indices.iter().copied())
}

// The last tick, the next arrival and the number of the next edition.
#[derive(Clone, Copy, Debug, PartialEq, Eq)]
pub(super) struct Course {
    pub last: u64,
    pub next: u64,
    pub number: u64,
}

impl Course {
    // What becomes of a plot of the start: once the ticks are 16 s later, its slot is open no more.
    fn outcome(&self) -> Outcome {
        let slot = START / 64;
        let low = (self.last / 64).saturating_sub(32);
        if slot < low {
            Outcome::BeforeHorizon { slot, low }
        } else {
            Outcome::Admitted(self.next)
        }
    }

    // The course after an event, if the event may stand there.
    fn after(mut self, event: &Event) -> Option<Course> {
        match event {
            Event::Deliver {
                admitted,
                outcomes,
                ..
            } if outcomes.as_slice() == [self.outcome()].as_slice() => {
                self.next = u64::saturating_add(self.next, admitted.len() as u64);
            }
            Event::Tick(time) if self.last < *time => self.last = *time,
            Event::Publish { number, cut } if *number == self.number && *cut == 0 => {
                self.number = u64::saturating_add(self.number, 1);
            }
            _ => return None,
        }
        Some(self)
    }
}

// The course after all events, if each of them may stand where it does.
pub(super) fn course_of(events: &[Event]) -> Option<Course> {
    let mut course = Course {
        last: START,
        next: 0,
        number: 1,
    };
    for event in events {
        course = course.after(event)?;
    }
    Some(course)
}

// How many of the datagrams were admitted.
pub(super) fn count_admitted(receipts: &[Receipt]) -> usize {
    receipts
        .iter()
        .filter(|receipt| matches!(receipt.outcomes.as_slice(), [Outcome::Admitted(_)]))
        .count()
}
