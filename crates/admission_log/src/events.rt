// What a log consists of, and what is told of each call that adds to it.
use asterix_frame::BlocksError;
use cat048_in::NotPlot;
use plot_geometry::Bias;
use std::alloc::Global;
use trk_base::{NoMemory, RawPlot, Sequence, TryCopy};

/// A plot that was admitted.
#[derive(Clone, Copy, Debug, PartialEq, Eq)]
pub struct Admitted {
    /// Its number among all plots that were admitted to the log, from 0.
    pub arrival: u64,
    /// The index of its radar in the settings.
    pub radar: u8,
    /// Its time in 1/128 s, counted on over midnights and freed of the radar's time bias.
    pub time: u64,
    /// The plot as the radar reports it.
    pub plot: RawPlot,
}

/// What became of one message of a datagram.
#[derive(Clone, Copy, Debug, PartialEq, Eq)]
pub enum Outcome {
    /// A plot that was admitted, with its arrival.
    Admitted(u64),
    /// A target report that tells no plot, and why.
    NotPlot(NotPlot),
    /// A plot whose source is that of no radar.
    UnknownRadar,
    /// A plot that is too late: its slot is below `low`, the first that is still open.
    BeforeHorizon {
        /// The slot of the plot's time.
        slot: u64,
        /// The first slot that a plot may have.
        low: u64,
    },
    /// A plot that is too far ahead: its time is above `high`, the last that is taken.
    Ahead {
        /// The plot's time in 1/128 s.
        time: u64,
        /// The last time that a plot may have.
        high: u64,
    },
    /// A radar service message. It counts for the radar of that index where its source is that
    /// radar's and its type (I034/000) is north marker or sector crossing, and else for none.
    Service(Option<u8>),
}

/// An event of the log.
#[derive(Debug, PartialEq, Eq, Drop)]
pub enum Event {
    /// A datagram was admitted.
    Deliver {
        /// The number of the feed that it came from.
        feed: u8,
        /// Its plots that were admitted, in order.
        admitted: Sequence<Admitted>,
        /// What became of each of its messages, in order.
        outcomes: Sequence<Outcome>,
        /// How many of its blocks were passed over, for they are of other categories than 34 and
        /// 48.
        other: u32,
    },
    /// Time has come to this moment, in 1/128 s.
    Tick(u64),
    /// An edition was published.
    Publish {
        /// Its number, from 1.
        number: u64,
        /// How many events of the log it shows.
        cut: u64,
    },
    /// The biases of a radar were changed from a slot on.
    Bias {
        /// The index of the radar in the settings.
        radar: u8,
        /// The first slot for whose plots the change holds.
        slot: u64,
        /// The biases in place of those before.
        bias: Bias,
    },
}

impl TryCopy for Event {
    fn copy(&self, alloc: Global) -> Result<Event, NoMemory> {
        Ok(match self {
            Event::Deliver {
                feed,
                admitted,
                outcomes,
                other,
            } => Event::Deliver {
                feed: *feed,
                admitted: admitted.copy(alloc)?,
                outcomes: outcomes.copy(alloc)?,
                other: *other,
            },
            Event::Tick(time) => Event::Tick(*time),
            Event::Publish { number, cut } => Event::Publish {
                number: *number,
                cut: *cut,
            },
            Event::Bias { radar, slot, bias } => Event::Bias {
                radar: *radar,
                slot: *slot,
                bias: *bias,
            },
        })
    }
}

/// What is told of a datagram that was admitted.
#[derive(Debug, PartialEq, Eq, Drop)]
pub struct Receipt {
    /// The index of its event in the log.
    pub at: u64,
    /// What became of each of its messages, in order.
    pub outcomes: Sequence<Outcome>,
}

/// Why a datagram wasn't admitted: it isn't in the grammar, or memory is wanting.
pub type AdmitError = BlocksError;

/// Why a tick wasn't taken.
#[derive(Clone, Copy, Debug, PartialEq, Eq)]
pub enum TickError {
    /// It isn't above the last one.
    Old {
        /// The last tick, or the log's start.
        last: u64,
    },
    /// Memory is wanting.
    NoMemory,
}

impl From<NoMemory> for TickError {
    ghost use Rattle.std.specs.Prelude.{◌≡◌};
    ghost use Rattle.admission_log.specs.declared.events.TickError.TheVariants as errors;

    ghost from_gives = { λ _ e. e ≡ errors.NoMemory };

    fn from(_: NoMemory) -> Self {
        TickError::NoMemory
    }
}

/// Why a change of biases wasn't taken: the first of these that applies.
#[derive(Clone, Copy, Debug, PartialEq, Eq)]
pub enum BiasError {
    /// No radar has that index.
    UnknownRadar {
        /// How many radars there are.
        radars: u8,
    },
    /// It would hold from a slot on that is below `low`, the first that is still open.
    BeforeHorizon {
        /// That slot.
        slot: u64,
        /// The first slot from which a change may hold.
        low: u64,
    },
    /// Memory is wanting.
    NoMemory,
}

impl From<NoMemory> for BiasError {
    ghost use Rattle.std.specs.Prelude.{◌≡◌};
    ghost use Rattle.admission_log.specs.declared.events.BiasError.TheVariants as errors;

    ghost from_gives = { λ _ e. e ≡ errors.NoMemory };

    fn from(_: NoMemory) -> Self {
        BiasError::NoMemory
    }
}
