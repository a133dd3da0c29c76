// What the threads share: the log with its newest edition.
use admission_log::{Log, Settings};
use edition_form::Edition;
use std::alloc::Global;
use std::marker::Model;
use std::sync::Arc;

mod history;
mod turns;

/// Under which settings a station's log goes, and from which time on, in 1/128 s. No value of it is
/// made.
pub struct Base {
    /// The settings under which plots are judged.
    pub settings: Settings,
    /// When the log starts, in 1/128 s.
    pub start: u64,
}

/// The log, the settings under which its plots are judged, and the newest edition of it.
#[derive(Drop)]
pub struct SharedLog {
    alloc: Global,
    settings: Arc<Settings>,
    log: Log,
    newest: Option<Arc<Edition>>,
}

impl Model for SharedLog {
    ghost use Rattle.std.specs.Option.{option_map};
    ghost use Rattle.std.specs.Arc.{arc_value};
    ghost use Rattle.station.specs.Newest.{Shared, StandsFor};

    ghost Value = { Shared };

    ghost view = { λ s. record { settings = arc_value s.settings; log = s.log; newest = option_map arc_value s.newest } };

    ghost invariant = { λ s. StandsFor (arc_value s.settings) s.log (option_map arc_value s.newest) };
}
