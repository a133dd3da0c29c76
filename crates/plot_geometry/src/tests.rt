use crate::plane::{azimuth, ground_range, height_above, slant_range};
use crate::turns::half_angle;
use crate::*;
use trk_base::{Key, RawPlot};

// A radar at the plane's origin without biases.
fn radar() -> RadarSettings {
    RadarSettings {
        sac: 1,
        sic: 1,
        x: 0,
        y: 0,
        height: 0,
        north: 0,
        range_gain: 0,
        range_bias: 0,
        azimuth_bias: 0,
        time_bias: 0,
        range_sigma: 50,
        azimuth_sigma: 12,
    }
}

// A Mode S plot at 1 NM to the north, with neither code nor level.
fn plot() -> RawPlot {
    RawPlot {
        sac: 1,
        sic: 1,
        tod: 4_608_010,
        rho: 256,
        theta: 0,
        kind: 5,
        spi: false,
        code: None,
        level: None,
        address: None,
    }
}

// The key of that plot.
fn key() -> Key {
    Key {
        slot: 72_000,
        radar: 0,
        time: 4_608_010,
        arrival: 0,
    }
}

#[test]
fn turns_by_quarters_and_eighths(rt: HostRuntime) {
    assert_eq!(rt; half_angle(13), (777_472_127_993, 777_472_127_995));
    assert_eq!(rt; rotate(0x0000, 118_528), (0, 118_528));
    assert_eq!(rt; rotate(0x2000, 118_528), (83_812, 83_812));
    assert_eq!(rt; rotate(0x4000, 118_528), (118_528, 0));
    assert_eq!(rt; rotate(0x8000, 118_528), (0, -118_528));
    assert_eq!(rt; rotate(0xC000, 118_528), (-118_528, 0));
    assert_eq!(rt; rotate(0x1234, -1_000_000), (-432_057, -901_847));
    assert_eq!(rt;
        rotate(0xFFFF, 1_099_511_627_775),
        (-105_414_352, 1_099_511_622_715)
    );
    assert_eq!(rt;
        rotate(0x9ABC, -1_099_511_627_775),
        (670_788_945_929, 871_187_700_568)
    );
}

#[test]
fn takes_ranges(rt: HostRuntime) {
    assert_eq!(rt; slant_range(2_560, 0, 0), 1_185_280);
    assert_eq!(rt; height_above(400, 0), 195_072);
    assert_eq!(rt; ground_range(1_185_280, Some(400), 0), 1_169_117);
    assert_eq!(rt; ground_range(1_185_280, None, 0), 1_185_280);
    assert_eq!(rt; ground_range(195_071, Some(400), 0), 0);
    assert_eq!(rt; slant_range(256, 2, 1_000), 115_521);
    assert_eq!(rt; slant_range(1, 1_000, 10_000), 0);
    assert_eq!(rt; azimuth(0, 1, 0), 65_535);
    assert_eq!(rt; azimuth(65_535, -1, 1), 1);
}

#[test]
fn places_a_plot_to_the_north(rt: HostRuntime) {
    let placed = to_plane(&radar(), &plot(), key());
    assert_eq!(rt; placed.key, key());
    assert_eq!(rt; (placed.x, placed.y), (0, 118_528));
    assert_eq!(rt; (placed.rx, placed.ry), (18_496, 10_240_000));
    assert_eq!(rt; (placed.kind, placed.spi), (5, false));
    assert_eq!(rt;
        (placed.code, placed.level, placed.address),
        (None, None, None)
    );
}

// The numbers of these plots are those of a program in another language.
#[test]
fn places_other_plots(rt: HostRuntime) {
    let mut radar = radar();
    radar.x = 1_000;
    radar.y = -2_000;
    radar.height = 100;
    radar.north = 100;
    radar.range_gain = -250;
    radar.range_bias = 3;
    radar.azimuth_bias = -20;
    radar.range_sigma = 75;
    radar.azimuth_sigma = 33;
    let mut plot = plot();
    plot.rho = 12_345;
    plot.theta = 0x5A5A;
    plot.kind = 7;
    plot.spi = true;
    plot.code = Some(0o7_777);
    plot.level = Some(200);
    plot.address = Some(0xFF_FFFF);
    let placed = to_plane(&radar, &plot, key());
    assert_eq!(rt; (placed.x, placed.y), (4_593_998, -3_631_210));
    assert_eq!(rt; (placed.rx, placed.ry), (137_265_356, 214_036_568));
    assert_eq!(rt; (placed.kind, placed.spi), (7, true));
    assert_eq!(rt; (placed.code, placed.level), (Some(4_095), Some(200)));
    assert_eq!(rt; placed.address, Some(16_777_215));
}

// As far from the origin as settings and plots can be, and as unsure.
#[test]
fn places_the_farthest_plot(rt: HostRuntime) {
    let mut radar = radar();
    radar.x = -1_000_000;
    radar.y = 1_000_000;
    radar.height = 9_000;
    radar.north = 65_535;
    radar.range_gain = -10_000;
    radar.range_bias = -1_000;
    radar.azimuth_bias = 1_000;
    radar.range_sigma = 1_000;
    radar.azimuth_sigma = 200;
    let mut plot = plot();
    plot.rho = 65_535;
    plot.theta = 0xE000;
    let placed = to_plane(&radar, &plot, key());
    assert_eq!(rt; (placed.x, placed.y), (-90_808_040, 86_099_898));
    assert_eq!(rt; (placed.rx, placed.ry), (182_011_418_257, 265_892_365_464));
}

#[test]
fn frees_a_plot_of_other_biases(rt: HostRuntime) {
    let bias = Bias {
        gain: 1_000,
        range: 2,
        azimuth: 0,
    };
    assert_eq!(rt; radar().biased(bias).bias(), bias);
    let placed = to_plane(&radar().biased(bias), &plot(), key());
    assert_eq!(rt; (placed.x, placed.y), (0, 115_521));
    let own = radar().biased(bias).biased(radar().bias());
    assert_eq!(rt; own, radar());
    let less = Bias {
        gain: 1_000,
        range: 1,
        azimuth: 1_000,
    };
    assert!(rt; less < bias);
}

#[test]
fn orders_plots_by_key_first(rt: HostRuntime) {
    let near = to_plane(&radar(), &plot(), key());
    let mut later = key();
    later.arrival = 1;
    let mut west = radar();
    west.x = -5;
    assert!(rt; near < to_plane(&west, &plot(), later));
    assert!(rt; to_plane(&west, &plot(), key()) < near);
}
