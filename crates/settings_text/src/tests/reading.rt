// Documents without a fault, and the values that they give.
use super::{RADAR, SYSTEM, joined};
use crate::read_settings;
use admission_log::Settings;
use plot_geometry::RadarSettings;
use std::alloc::{AllocError, Global};

// The parts of a text with one radar, and the values of keys 1 to 7 and 8 to 19.
const READ: [(&[&str], [i64; 7], [i64; 12]); 5] = [
    (
        &[SYSTEM, RADAR],
        [1, 99, 1, 32, 1, 15, 30],
        [1, 1, 0, 0, 0, 0, 0, 0, 0, 0, 50, 12],
    ),
    // a track is confirmed by three plots where nothing else is said
    (
        &["[system]\nsac = 1\nsic = 99\nservice = 1\n", RADAR],
        [1, 99, 1, 32, 3, 15, 30],
        [1, 1, 0, 0, 0, 0, 0, 0, 0, 0, 50, 12],
    ),
    // all keys, in no order
    (
        &[
            "[[radar]]\nazimuth_sigma = 200\nrange_sigma = 1_000\ntime_bias = 1_280\n",
            "azimuth_bias = -1_000\nrange_bias = 1_000\nrange_gain = -10_000\nnorth = 0xFFFF\n",
            "height = -500\ny = 1_000_000\nx = -1_000_000\nsic = 3\nsac = 2\n",
            "[system]\nkeep_confirmed = 1\nkeep_tentative = 60\nhits = 8\nwindow = 120\n",
            "service = 7\nsic = 0\nsac = 255\n",
        ],
        [255, 0, 7, 120, 8, 60, 1],
        [
            2, 3, -1_000_000, 1_000_000, -500, 65_535, -10_000, 1_000, -1_000, 1_280, 1_000, 200,
        ],
    ),
    // tables may be inline, and the radars an array of them
    (
        &[
            "radar = [{ sac = 1, sic = 0, x = 0, y = 0, range_sigma = 50, azimuth_sigma = 12 }]\n",
            "system = { sac = 1, sic = 99, service = 1, hits = 1 }\n",
        ],
        [1, 99, 1, 32, 1, 15, 30],
        [1, 0, 0, 0, 0, 0, 0, 0, 0, 0, 50, 12],
    ),
    // and their keys dotted
    (
        &[
            "system.sac = 1\nsystem.sic = 99\nsystem.service = 1\n",
            RADAR,
        ],
        [1, 99, 1, 32, 3, 15, 30],
        [1, 1, 0, 0, 0, 0, 0, 0, 0, 0, 50, 12],
    ),
];

// The values of keys 1 to 7.
fn system_values(settings: &Settings) -> [i64; 7] {
    [
        i64::from(settings.sac),
        i64::from(settings.sic),
        i64::from(settings.service),
        i64::from(settings.window),
        i64::from(settings.life.hits),
        i64::from(settings.life.keep_tentative),
        i64::from(settings.life.keep_confirmed),
    ]
}

// The values of keys 8 to 19.
fn radar_values(radar: &RadarSettings) -> [i64; 12] {
    [
        i64::from(radar.sac),
        i64::from(radar.sic),
        i64::from(radar.x),
        i64::from(radar.y),
        i64::from(radar.height),
        i64::from(radar.north),
        i64::from(radar.range_gain),
        i64::from(radar.range_bias),
        i64::from(radar.azimuth_bias),
        i64::from(radar.time_bias),
        i64::from(radar.range_sigma),
        i64::from(radar.azimuth_sigma),
    ]
}

// Whether a text has settings with these values and one radar.
fn gives(alloc: Global, text: &str, system: &[i64; 7], radar: &[i64; 12]) -> bool {
    let Ok(settings) = read_settings(alloc, text.as_bytes()) else {
        return false;
    };
    let [one] = settings.radars.as_slice() else {
        return false;
    };
    system_values(&settings) == *system && radar_values(one) == *radar
}

#[test]
fn reads_numbers_and_defaults(rt: HostRuntime) -> Result<(), AllocError> {
    for (parts, system, radar) in READ {
        let text = joined(rt.alloc(), parts)?;
        assert!(rt; gives(rt.alloc(), text.as_str(), &system, &radar));
    }
    Ok(())
}
