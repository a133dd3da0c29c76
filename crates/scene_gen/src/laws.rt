// What holds of the definition, and that the program's radars are those of it.
ghost use Rattle.std.specs.Prelude.{◌≡◌, ◌<◌, ◌≤◌, ◌^◌, ℕ, Some, None};
ghost use Rattle.std.specs.List.{All};
ghost use Rattle.recording.specs.Readings.{IsReading};
ghost use Rattle.recording.specs.declared.header.Header.{Header};
ghost use Rattle.scene_gen.specs.Datagrams.{start};
ghost use Rattle.scene_gen.specs.Radars.{radars};
ghost use Rattle.scene_gen.specs.Scenes.{coming, items, last_tick, scene};
ghost use Rattle.scene_gen.specs.declared.radars.TheConstants.{RADARS};

/// The radars of every scene are those of the definition: feed, code, place and period.
pub fn one_list_of_radars()
    ensures { RADARS ≡ radars }
{}

/// No plot comes after the last tick, so a scene's recording has all of them.
pub fn all_come()
    ensures { (seed aircraft seconds late : ℕ) → All (λ p. p.time ≤ last_tick seconds) (coming seed aircraft seconds late) }
{}

/// A scene is a recording of its items, and has no fault.
pub fn one_recording()
    ensures { (seed aircraft seconds late : ℕ) → seconds < 2 ^ 16 → IsReading (scene seed aircraft seconds late) (Some Header.First) start (items (coming seed aircraft seconds late) seconds) None }
{}
