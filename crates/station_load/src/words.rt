// The words of a load.
ghost use Rattle.std.specs.Prelude.{◌≤◌};

/// The most threads that a load has: a feed for each.
pub const THREADS_LIMIT: u8 = 16;

/// The most datagrams of a thread.
pub const TURNS_LIMIT: u32 = 10_000_000;

/// The most plots of a datagram.
pub const PLOTS_LIMIT: u16 = 1_000;

/// What is done: each thread takes the same datagram so often.
#[derive(Clone, Copy, Debug, PartialEq, Eq)]
pub struct Load {
    /// How many threads there are.
    pub threads: u8,
    /// How often each of them takes the datagram.
    pub turns: u32,
    /// How many plots the datagram has.
    pub plots: u16,
    /// Whether it is admitted, at a turn, or only read.
    pub admitted: bool,
    pub ghost some_threads: { 1 ≤ threads },
    pub ghost few_threads: { threads ≤ 16 },
    pub ghost few_turns: { turns ≤ 10000000 },
    pub ghost few_plots: { plots ≤ 1000 },
}

// Whether datagrams are admitted.
fn admitted_of(word: &str) -> Option<bool> {
    match word {
        "admit" => Some(true),
        "read" => Some(false),
        _ => None,
    }
}

/// The load of the words `THREADS TURNS PLOTS admit|read`.
pub fn load_of(words: &[String]) -> Option<Load> {
    let [threads, turns, plots, kind] = words else {
        return None;
    };
    let threads = threads.parse::<u8>().ok()?;
    let turns = turns.parse::<u32>().ok()?;
    let plots = plots.parse::<u16>().ok()?;
    let admitted = admitted_of(kind)?;
    if threads == 0 || threads > THREADS_LIMIT || turns > TURNS_LIMIT || plots > PLOTS_LIMIT {
        return None;
    }
    Some(Load {
        threads,
        turns,
        plots,
        admitted,
    })
}
