// The radars of every scene.

/// A radar of a scene.
#[derive(Clone, Copy, Debug, PartialEq, Eq)]
pub struct SceneRadar {
    /// The feed of its datagrams, which is its index in the settings of a scene.
    pub feed: u8,
    /// System identification code.
    pub sic: u8,
    /// The position to the east, in m.
    pub x: i32,
    /// The position to the north, in m.
    pub y: i32,
    /// How long a turn of the antenna takes, in 1/128 s.
    pub period: u32,
}

/// The radars of every scene, by their feeds.
pub const RADARS: [SceneRadar; 3] = [
    SceneRadar {
        feed: 0,
        sic: 1,
        x: 0,
        y: 0,
        period: 512,
    },
    SceneRadar {
        feed: 1,
        sic: 2,
        x: 80_000,
        y: 0,
        period: 640,
    },
    SceneRadar {
        feed: 2,
        sic: 3,
        x: 0,
        y: 90_000,
        period: 1_280,
    },
];
