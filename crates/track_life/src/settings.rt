ghost use Rattle.std.specs.Prelude.{◌≤◌};

/// What the settings say of a track's life.
#[derive(Clone, Copy, Debug, PartialEq, Eq)]
pub struct LifeSettings {
    /// With how many plots a track is confirmed, from 1 to 8.
    pub hits: u8,
    /// For how many seconds a track that isn't confirmed is kept without a plot, from 1 to 60.
    pub keep_tentative: u8,
    /// For how many seconds a confirmed track is kept without a plot, from 1 to 60.
    pub keep_confirmed: u8,
    pub ghost hits_range: { (1 ≤ hits) × (hits ≤ 8) },
    pub ghost keep_tentative_range: { (1 ≤ keep_tentative) × (keep_tentative ≤ 60) },
    pub ghost keep_confirmed_range: { (1 ≤ keep_confirmed) × (keep_confirmed ≤ 60) },
}
