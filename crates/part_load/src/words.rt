// The words of a load.
ghost use Rattle.std.specs.Prelude.{◌≤◌};

/// The most aircraft that a load has.
pub const AIRCRAFT_LIMIT: u32 = 10_000;

/// The most slots that a span has.
pub const SLOTS_LIMIT: u32 = 1_000;

/// The most parts that are wished for.
pub const WISH_LIMIT: u8 = 16;

/// What the aircraft of a load tell of themselves.
#[derive(Clone, Copy, Debug, PartialEq, Eq)]
pub enum Telling {
    /// All tell an address (I048/220) and a code (I048/070).
    Addressed,
    /// All tell a code, and none an address.
    Coded,
    /// None tells anything.
    Primary,
    /// Of ten, six tell an address and a code, two a code, one the code 7000, and one nothing.
    Mixed,
    /// All tell an address and a code, but each tenth plot tells nothing.
    Lossy,
}

/// What is counted: how a span of so many slots falls into parts, over so many aircraft.
#[derive(Clone, Copy, Debug, PartialEq, Eq)]
pub struct Load {
    /// How many aircraft there are.
    pub aircraft: u32,
    /// How many slots of half a second the span has.
    pub slots: u32,
    /// How many parts are wished for.
    pub wish: u8,
    /// What the aircraft tell.
    pub telling: Telling,
    pub ghost few_aircraft: { aircraft ≤ 10000 },
    pub ghost few_slots: { slots ≤ 1000 },
    pub ghost wished: { (1 ≤ wish) × (wish ≤ 16) },
}

// What aircraft tell, by its word.
fn telling_of(word: &str) -> Option<Telling> {
    match word {
        "addressed" => Some(Telling::Addressed),
        "coded" => Some(Telling::Coded),
        "primary" => Some(Telling::Primary),
        "mixed" => Some(Telling::Mixed),
        "lossy" => Some(Telling::Lossy),
        _ => None,
    }
}

/// The load of the words `AIRCRAFT SLOTS WISH addressed|coded|primary|mixed|lossy`.
pub fn load_of(words: &[String]) -> Option<Load> {
    let [aircraft, slots, wish, telling] = words else {
        return None;
    };
    let aircraft = aircraft.parse::<u32>().ok()?;
    let slots = slots.parse::<u32>().ok()?;
    let wish = wish.parse::<u8>().ok()?;
    let telling = telling_of(telling)?;
    if aircraft > AIRCRAFT_LIMIT || slots > SLOTS_LIMIT || wish == 0 || wish > WISH_LIMIT {
        return None;
    }
    Some(Load {
        aircraft,
        slots,
        wish,
        telling,
    })
}
