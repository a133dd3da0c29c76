// What is so written has one reading, and reads back.
ghost use Rattle.std.specs.Prelude.{◌≡◌, ◌⊎◌, [], ◌∷◌, ℕ, List, map};
ghost use Rattle.std.specs.List.{AllByRecursion, concat};
ghost use Rattle.asterix_frame.specs.declared.block.Block.{Block};
ghost use Rattle.cat062_out.specs.declared.error.ProfileError.{ProfileError};
ghost use Rattle.cat062_out.specs.Tracks.{Stamp, IsStamp};
ghost use Rattle.status_out.specs.declared.service_line.Line065.{Line065};
ghost use Rattle.status_out.specs.RadarLines.{RadarLine, IsRadarLine};
ghost use Rattle.status_out.specs.SensorRecords.{Message, AreSensorMessages, IsSensorRefusal, sensor_record};
ghost use Rattle.status_out.specs.ServiceRecords.{IsLine065, AreServiceMessages, IsServiceRefusal, service_record};

/// What `write063` writes reads back as the states that were written. A block of category 63 has
/// exactly one reading: as states, or as a first refusal.
pub fn one_sensor_reading()
    ensures written { (stamp : Stamp) (radars : List RadarLine) → IsStamp stamp → AllByRecursion IsRadarLine radars → AreSensorMessages (concat (map (λ line. sensor_record (stamp, line)) radars)) (map (λ line. (stamp, line)) radars) }
    ensures some { (block : Block) → ((messages : List Message) × AreSensorMessages block.body.now messages) ⊎ ((e : ProfileError) × IsSensorRefusal block e) }
    ensures one_list { (body : List ℕ) (messages others : List Message) → AreSensorMessages body messages → AreSensorMessages body others → messages ≡ others }
    ensures one_refusal { (block : Block) (e other : ProfileError) → IsSensorRefusal block e → IsSensorRefusal block other → e ≡ other }
    ensures not_both { (block : Block) (messages : List Message) (e : ProfileError) → AreSensorMessages block.body.now messages → IsSensorRefusal block e → ⊥ }
{}

/// What `write065_status` and `write065_end` write reads back as the line that was written. A block of
/// category 65 has exactly one reading: as lines, or as a first refusal.
pub fn one_service_reading()
    ensures written { (line : Line065) → IsLine065 line → AreServiceMessages (concat (service_record line ∷ [])) (line ∷ []) }
    ensures some { (block : Block) → ((lines : List Line065) × AreServiceMessages block.body.now lines) ⊎ ((e : ProfileError) × IsServiceRefusal block e) }
    ensures one_list { (body : List ℕ) (lines others : List Line065) → AreServiceMessages body lines → AreServiceMessages body others → lines ≡ others }
    ensures one_refusal { (block : Block) (e other : ProfileError) → IsServiceRefusal block e → IsServiceRefusal block other → e ≡ other }
    ensures not_both { (block : Block) (lines : List Line065) (e : ProfileError) → AreServiceMessages block.body.now lines → IsServiceRefusal block e → ⊥ }
{}
