// What radars send, as items of a recording.
ghost use Rattle.std.specs.Prelude.{◌≡◌};
ghost use Rattle.recording.specs.Items.{item_octets};
ghost use Rattle.scene_gen.specs.Datagrams.{north_marker, plot_of, tod_octets};

use crate::fleet::Aircraft;
use crate::radars::SceneRadar;
use crate::sightings::Polar;
use trk_base::DAY;

/// Units of time, of 1/128 s, in a second.
pub(crate) const SECOND: u32 = 128;

/// When a scene starts, in 1/128 s: at 10:00:00.
pub(crate) const START: u64 = 4_608_000;

/// The octets of a plot as an item of a recording.
pub(crate) type PlotOctets = [u8; 26];

// The time of day at a time since the start, both in 1/128 s, in three octets.
fn tod_octets(time: u32) -> [u8; 3]
    ensures { result ≡ tod_octets time }
{
    let tod = (START + u64::from(time)) % u64::from(DAY);
    let [_, _, _, _, _, a, b, c] = tod.to_be_bytes();
    [a, b, c]
}

/// A plot of an aircraft at a time in 1/128 s since the start: a datagram of the radar's feed, with
/// one block of one record of CAT048. The record has I048/010 source, /140 time of day, /020 a
/// Mode S roll-call, /040 position, /070 code, /090 flight level and /220 address.
pub(crate) fn plot_octets(
    radar: &SceneRadar,
    aircraft: &Aircraft,
    time: u32,
    polar: Polar,
) -> PlotOctets
    ensures { result ≡ item_octets (plot_of radar.now aircraft.now time (polar.rho, polar.theta)) }
{
    let [t, u, v] = tod_octets(time);
    let [rho, o] = polar.rho.to_be_bytes();
    let [theta, p] = polar.theta.to_be_bytes();
    let [code, q] = aircraft.code.to_be_bytes();
    let [level, r] = aircraft.level.to_be_bytes();
    let [_, a, b, c] = aircraft.address.to_be_bytes();
    [
        2, radar.feed, 0, 22, 48, 0, 22, 0xFD, 0x80, 1, radar.sic, t, u, v, 0xA0, rho, o, theta, p,
        code, q, level, r, a, b, c,
    ]
}

/// A radar's north marker at a time in 1/128 s since the start: a datagram of the radar's feed, with
/// one block of one record of CAT034. The record has I034/010 source, /000 message type 1 and /030
/// time of day.
pub(crate) fn north_octets(radar: &SceneRadar, time: u32) -> [u8; 14]
    ensures { result ≡ item_octets (north_marker time radar.now) }
{
    let [t, u, v] = tod_octets(time);
    [
        2, radar.feed, 0, 10, 34, 0, 10, 0xE0, 1, radar.sic, 1, t, u, v,
    ]
}
