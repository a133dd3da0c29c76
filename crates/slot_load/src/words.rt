// The words of a load.
ghost use Rattle.std.specs.Prelude.{◌≤◌};

/// The most tracks that a load has.
pub const TRACKS_LIMIT: u32 = 10_000;

/// The most slots that follow the first one.
pub const SLOTS_LIMIT: u32 = 1_000_000;

/// What a load is: so many aircraft that fly nowhere, all seen in a first slot, and then so many
/// slots in each of which another twelfth of them is seen.
#[derive(Clone, Copy, Debug, PartialEq, Eq)]
pub struct Load {
    /// How many aircraft there are.
    pub tracks: u32,
    /// How many slots follow the first one.
    pub slots: u32,
    /// Whether plots have an address (I048/220), or nothing but a position.
    pub addressed: bool,
    pub ghost few_tracks: { tracks ≤ 10000 },
    pub ghost few_slots: { slots ≤ 1000000 },
}

// Whether plots have an address.
fn addressed_of(word: &str) -> Option<bool> {
    match word {
        "addressed" => Some(true),
        "primary" => Some(false),
        _ => None,
    }
}

/// The load of the words `TRACKS SLOTS addressed|primary`.
pub fn load_of(words: &[String]) -> Option<Load> {
    let [tracks, slots, kind] = words else {
        return None;
    };
    let tracks = tracks.parse::<u32>().ok()?;
    let slots = slots.parse::<u32>().ok()?;
    let addressed = addressed_of(kind)?;
    if tracks > TRACKS_LIMIT || slots > SLOTS_LIMIT {
        return None;
    }
    Some(Load {
        tracks,
        slots,
        addressed,
    })
}
