// The datagram that is taken, and the settings under which its plots are judged.
ghost use Rattle.std.specs.Prelude.{◌≤◌, ◌<◌, length, IfOk};

use admission_log::Settings;
use plot_geometry::RadarSettings;
use std::alloc::Global;
use track_life::LifeSettings;
use trk_base::{NoMemory, Sequence};

// The category of target reports (ASTERIX, Part 4).
const REPORTS: u8 = 48;

// A report of the radar (1, 1) at ten in the morning, one nautical mile away: items 010, 140, 020 and
// 040. Each has an azimuth of its own.
fn report(index: u16) -> [u8; 11]
    requires { index < 1000 }
{
    let [high, low] = (64 * index).to_be_bytes();
    [0xF0, 1, 1, 0x46, 0x50, 0, 0xA0, 1, 0, high, low]
}

/// A datagram of so many plots. With none it has no octets.
pub fn datagram(alloc: Global, plots: u16) -> Result<Vec<u8>, NoMemory>
    requires { plots ≤ 1000 }
    ensures { IfOk result (λ octets. length octets.items ≤ 65535) }
{
    let mut octets = Vec::new(alloc);
    if plots == 0 {
        return Ok(octets);
    }
    let [high, low] = (3 + 11 * plots).to_be_bytes();
    octets.extend_from_slice(&[REPORTS, high, low])?;
    for index in 0..plots {
        octets.extend_from_slice(&report(index))?;
    }
    Ok(octets)
}

/// Settings of one radar (1, 1) at the plane's origin.
pub fn one_radar(alloc: Global) -> Result<Settings, NoMemory> {
    let mut radars = Sequence::new(alloc);
    radars.push(RadarSettings {
        sac: 1,
        sic: 1,
        x: 0,
        y: 0,
        height: 0,
        north: 0,
        range_gain: 0,
        range_bias: 0,
        azimuth_bias: 0,
        time_bias: 0,
        range_sigma: 50,
        azimuth_sigma: 12,
    })?;
    Ok(Settings {
        sac: 1,
        sic: 99,
        service: 1,
        window: 32,
        life: LifeSettings {
            hits: 1,
            keep_tentative: 15,
            keep_confirmed: 30,
        },
        radars,
    })
}
