// The settings under which a scene is replayed: those of `examples/scene.toml`.
ghost use Rattle.std.specs.Prelude.{◌≡◌, ◌≤◌, IfOk, length, map, unsigned_abs};
ghost use Rattle.scene_gen.specs.Radars.{radars};
ghost use Rattle.settings_text.specs.Numbers.{radar_numbers};
ghost use Rattle.tracker_session.specs.SceneSettings.{AreSceneSettings, scene_radar};

use admission_log::Settings;
use plot_geometry::RadarSettings;
use scene_gen::{RADARS, SceneRadar};
use std::alloc::Global;
use track_life::LifeSettings;
use trk_base::{NoMemory, Sequence};

/// The settings of a scene: its three radars, and a track is confirmed by three plots.
pub fn scene_settings(alloc: Global) -> Result<Settings, NoMemory>
    ensures { IfOk result AreSceneSettings }
{
    let radars = scene_radars(alloc)?;
    Ok(Settings {
        sac: 1,
        sic: 99,
        service: 1,
        window: 32,
        life: LifeSettings {
            hits: 3,
            keep_tentative: 15,
            keep_confirmed: 30,
        },
        radars: Sequence::of(radars),
    })
}

// The radars of a scene, as settings.
fn scene_radars(alloc: Global) -> Result<Vec<RadarSettings>, NoMemory>
    ensures { IfOk result (λ v. map radar_numbers v.items ≡ map scene_radar radars) }
{
    let mut all = Vec::with_capacity(alloc, RADARS.len())?;
    for radar in &RADARS {
        all.push(scene_radar(radar))?;
    }
    Ok(all)
}

// A radar of a scene, as settings.
fn scene_radar(radar: &SceneRadar) -> RadarSettings
    requires x { unsigned_abs radar.now.x ≤ 1000000 }
    requires y { unsigned_abs radar.now.y ≤ 1000000 }
    ensures { radar_numbers result ≡ scene_radar radar.now }
{
    RadarSettings {
        sac: 1,
        sic: radar.sic,
        x: radar.x,
        y: radar.y,
        height: 0,
        north: 0,
        range_gain: 0,
        range_bias: 0,
        azimuth_bias: 0,
        time_bias: 0,
        range_sigma: 50,
        azimuth_sigma: 12,
    }
}
