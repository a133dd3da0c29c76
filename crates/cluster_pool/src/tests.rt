// Spans of two lamps run in parts: what they give, and which jobs a pool is handed.
ghost use Rattle.std.specs.Prelude.{◌≡◌, ◌≤◌, ℕ};
ghost use Rattle.late_window.specs.Folding.{Rises};

use crate::lamps::{Lamps, TwoLamps, rises};
use crate::{Inline, MapPool, Pool, run_in_parts};
use span_clusters::Separable;
use std::alloc::Global;
use std::marker::{Brand, PhantomData};
use std::process::Abort;
use std::sync::ledger::{Blank, Ledger};
use std::test::Fail;
use std::thread::Threads;
use trk_base::{NoMemory, Steps};

// A pool that runs its jobs one after the other, and notes the place and the items of each.
#[derive(Drop)]
struct Recorder<R> {
    handle: PhantomData<R>,
    noted: [(usize, usize); 32],
    jobs: usize,
}

impl<R: Threads + Sync> Recorder<R> {
    fn new() -> Recorder<R> {
        Recorder {
            handle: PhantomData,
            noted: [(0, 0); 32],
            jobs: 0,
        }
    }

    // The jobs since it was new.
    fn noted(&self) -> &[(usize, usize)] {
        self.noted.get(..self.jobs).unwrap_or(&[])
    }
}

impl<R: Threads + Sync> Pool for Recorder<R> {
    type Handle = R;

    fn handle(&self) -> Option<&R> {
        None
    }

    fn note(&mut self, place: usize, items: usize) {
        if self.jobs < 32 {
            self.noted[self.jobs] = (place, items);
            self.jobs += 1;
        }
    }
}

// A span, the parts that are wished, and what they come to.
struct Span {
    start: Lamps,
    items: &'static [(u64, u64)],
    wish: u8,
    // The place of each job in its run of the pool, and how many items it has.
    jobs: &'static [(usize, usize)],
    // The lamps and what they tell after each filled slot; none where memory is wanting.
    ran: Option<(&'static [Lamps], &'static [(u64, u64)])>,
}

// An item is a slot and a place: the left lamp stands below place 10, the right one from there on.
// The left lamp is in part 0, the right one in the last one, and an item from place 10 on is in the
// part of its tens.
const SPANS: [Span; 8] = [
    // All in one part.
    Span {
        start: (Some(3), Some(500)),
        items: &[(1, 2), (1, 12), (2, 5), (2, 7), (3, 19)],
        wish: 1,
        jobs: &[(0, 5)],
        ran: Some((
            &[
                (Some(4), Some(501)),
                (Some(6), Some(501)),
                (Some(6), Some(502)),
            ],
            &[(1, 1), (2, 0), (0, 1)],
        )),
    },
    // What is far from one another in two.
    Span {
        start: (Some(3), Some(500)),
        items: &[(1, 2), (1, 12), (2, 5), (2, 7), (3, 19)],
        wish: 2,
        jobs: &[(0, 3), (1, 2)],
        ran: Some((
            &[
                (Some(4), Some(501)),
                (Some(6), Some(501)),
                (Some(6), Some(502)),
            ],
            &[(1, 1), (2, 0), (0, 1)],
        )),
    },
    // The right lamp, in part 2, reaches the items of part 1: both are joined.
    Span {
        start: (Some(3), Some(500)),
        items: &[(1, 2), (1, 12), (2, 25), (3, 5), (3, 14)],
        wish: 3,
        jobs: &[(0, 2), (1, 2), (2, 1), (0, 3)],
        ran: Some((
            &[
                (Some(4), Some(501)),
                (Some(4), Some(502)),
                (Some(5), Some(503)),
            ],
            &[(1, 1), (0, 1), (1, 1)],
        )),
    },
    // It reaches those of parts 1 and 2: a part is joined once in a round.
    Span {
        start: (Some(3), Some(500)),
        items: &[(1, 11), (2, 22), (3, 33), (4, 1)],
        wish: 4,
        jobs: &[(0, 1), (1, 1), (2, 1), (3, 1), (0, 2), (0, 3)],
        ran: Some((
            &[
                (Some(3), Some(501)),
                (Some(3), Some(502)),
                (Some(3), Some(503)),
                (Some(4), Some(503)),
            ],
            &[(0, 1), (0, 1), (0, 1), (1, 0)],
        )),
    },
    // Sixteen parts, of which the right lamp's reaches all but the left lamp's, and is joined with one
    // of them at a time: fourteen joins, of two items to fifteen, each in a slot of its own.
    Span {
        start: (Some(3), Some(500)),
        items: &[
            (1, 10),
            (2, 20),
            (3, 30),
            (4, 40),
            (5, 50),
            (6, 60),
            (7, 70),
            (8, 80),
            (9, 90),
            (10, 100),
            (11, 110),
            (12, 120),
            (13, 130),
            (14, 140),
            (15, 150),
        ],
        wish: 16,
        jobs: &[
            (0, 0),
            (1, 1),
            (2, 1),
            (3, 1),
            (4, 1),
            (5, 1),
            (6, 1),
            (7, 1),
            (8, 1),
            (9, 1),
            (10, 1),
            (11, 1),
            (12, 1),
            (13, 1),
            (14, 1),
            (15, 1),
            (0, 2),
            (0, 3),
            (0, 4),
            (0, 5),
            (0, 6),
            (0, 7),
            (0, 8),
            (0, 9),
            (0, 10),
            (0, 11),
            (0, 12),
            (0, 13),
            (0, 14),
            (0, 15),
        ],
        ran: Some((
            &[
                (Some(3), Some(501)),
                (Some(3), Some(502)),
                (Some(3), Some(503)),
                (Some(3), Some(504)),
                (Some(3), Some(505)),
                (Some(3), Some(506)),
                (Some(3), Some(507)),
                (Some(3), Some(508)),
                (Some(3), Some(509)),
                (Some(3), Some(510)),
                (Some(3), Some(511)),
                (Some(3), Some(512)),
                (Some(3), Some(513)),
                (Some(3), Some(514)),
                (Some(3), Some(515)),
            ],
            &[(0, 1); 15],
        )),
    },
    // A part without a lamp.
    Span {
        start: (None, Some(7)),
        items: &[(1, 2), (2, 12)],
        wish: 2,
        jobs: &[(0, 1), (1, 1)],
        ran: Some((&[(None, Some(7)), (None, Some(8))], &[(0, 0), (0, 1)])),
    },
    // No item.
    Span {
        start: (Some(3), Some(500)),
        items: &[],
        wish: 16,
        jobs: &[],
        ran: Some((&[], &[])),
    },
    // The left lamp has no room for one more item, in the second slot of its part.
    Span {
        start: (Some(18_446_744_073_709_551_614), Some(500)),
        items: &[(1, 2), (1, 12), (2, 5), (3, 19)],
        wish: 2,
        jobs: &[(0, 2), (1, 2)],
        ran: None,
    },
];

// A run of a span whose start may take each step.
fn ran_in_parts<F: Separable + Send, P: Pool, L: Ledger>(
    alloc: Global,
    pool: &mut P,
    start: &F::State,
    items: &[F::Item],
    wish: u8,
    blank: Blank,
) -> Result<(Vec<F::State>, Vec<F::Out>), NoMemory>
where
    F::State: Send,
    F::Item: Send,
    F::Out: Send,
    requires least { 1 ≤ wish }
    requires most { wish ≤ 16 }
    requires rising { Rises F.Item.cmp F.key_of items.now }
    requires before { (n : ℕ) → F.is_before start.now n }
    requires name { blank.name ≡ L.name }
    requires parts { blank.parts ≡ L.parts }
    requires one { blank.parts ≡ 1 }
{
    let mut steps = Steps::<L>::new(blank);
    run_in_parts::<F, P, L>(alloc, pool, start, items, wish, &mut steps)
}

// Runs the span, and compares.
fn runs<P: Pool, L: Ledger>(
    rt: &impl Abort,
    alloc: Global,
    pool: &mut P,
    span: &Span,
    blank: Blank,
) -> Result<(), Fail>
    requires name { blank.name ≡ L.name }
    requires parts { blank.parts ≡ L.parts }
    requires one { blank.parts ≡ 1 }
{
    let wish = span.wish;
    assert!(rt; 1 <= wish && wish <= 16);
    assert!(rt; rises::<TwoLamps>(span.items));
    let ran = ran_in_parts::<TwoLamps, P, L>(
        alloc,
        pool,
        &span.start,
        span.items,
        wish,
        blank,
    ).ok();
    assert!(rt; ran.is_some() == span.ran.is_some());
    if let (Some((states, outs)), Some((lamps, told))) = (ran, span.ran) {
        assert!(rt; &states[..] == lamps);
        assert!(rt; &outs[..] == told);
    }
    Ok(())
}

/// Each span comes to the same by each pool, after a run for which memory was wanting too; and a
/// pool is handed these jobs.
#[test]
fn runs_spans_in_parts(rt: HostRuntime) -> Result<(), Fail> {
    let alloc = rt.alloc();
    let mut inline = Inline::<HostRuntime>::new();
    let mut threads = MapPool::new(rt.clone()?);
    for _ in 0..2 {
        for span in &SPANS {
            runs::<_, Brand>(&rt, alloc, &mut inline, span, Blank::new(1))?;
            runs::<_, Brand>(&rt, alloc, &mut threads, span, Blank::new(1))?;
            let mut recorder = Recorder::<HostRuntime>::new();
            runs::<_, Brand>(&rt, alloc, &mut recorder, span, Blank::new(1))?;
            assert!(rt; recorder.noted() == span.jobs);
        }
    }
    Ok(())
}
