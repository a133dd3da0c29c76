// Laws of the definitions that the top call's clauses cite.
ghost use Rattle.std.specs.Prelude.{◌≡◌, ◌<◌, ◌≤◌, ◌-◌, ◌^◌, ℕ, List, All, Option, Some, None, count_by, length, take};
ghost use Rattle.io_traits.specs.Places.{place_limit};
ghost use Rattle.io_traits.specs.declared.host.Place.{Place};
ghost use Rattle.session_script.specs.Scripts.{Binding, End};
ghost use Rattle.tracker_session.specs.Commands.{CommandGives};
ghost use Rattle.tracker_session.specs.Words.{Line};
ghost use Rattle.admission_log.specs.declared.settings.Settings.{Settings};
ghost use Rattle.recording.specs.declared.header.Header.{Header};
ghost use Rattle.recording.specs.Items.{Item};
ghost use Rattle.tracker_session.specs.Checking.{Checks, HasVerdict, Verdict};
ghost use Rattle.tracker_session.specs.Inputs.{HasInput, IsInput};
ghost use Rattle.admission_log.specs.Histories.{History};
ghost use Rattle.scene_gen.specs.Scenes.{scene};
ghost use Rattle.tracker_session.specs.Counting.{counted, is_datagram, is_delivery};
ghost use Rattle.tracker_session.specs.Exercise.{IsExercise};
ghost use Rattle.tracker_session.specs.Faulty.{HaveFaults};
ghost use Rattle.tracker_session.specs.ReplayGives.{ReplaysPartly};
ghost use Rattle.tracker_session.specs.Replay.{HasReplay, IsReplayLog, Replays};
ghost use Rattle.tracker_session.specs.SceneSettings.{AreSceneSettings};
ghost use Rattle.tracker_session.specs.declared.counts.Counts.{Counts};
ghost use Rattle.tracker_session.specs.declared.totals.Totals.{Totals};

/// An input has exactly one reading, whether or not it passes the limit.
pub fn one_input()
    ensures some { (octets : List ℕ) → All (λ octet. octet < 256) octets → HasInput octets }
    ensures one { (octets : List ℕ) (g h : Option Header) (s t : ℕ) (xs ys : List Item) (f k : Option ℕ) → IsInput octets g s xs f → IsInput octets h t ys k → (g ≡ h) × (s ≡ t) × (xs ≡ ys) × (f ≡ k) }
{}

/// Under settings octets have exactly one replay: one output, one list of counts, and one fault or none.
pub fn one_replay()
    ensures some { (settings : Settings) (octets : List ℕ) → All (λ octet. octet < 256) octets → HasReplay settings octets }
    ensures one { (settings : Settings) (octets a b : List ℕ) (c d : Counts) (f g : Option ℕ) → Replays settings octets a c f → Replays settings octets b d g → (a ≡ b) × (c ≡ d) × (f ≡ g) }
{}

/// What Output got where a replay broke off is a prefix of its output.
pub fn prefix_of_replay()
    ensures { (settings : Settings) (octets part prices output : List ℕ) (counts : Counts) (fault : Option ℕ) → ReplaysPartly settings octets part prices → Replays settings octets output counts fault → (n : ℕ) × (n ≤ length output) × (part ≡ take n output) }
{}

/// An exercise tells what a replay of the scene's recording under the settings of a scene tells: the same counts, as
/// many octets as its output has, and no fault.
pub fn exercise_as_replayed()
    ensures { (seed aircraft seconds late : ℕ) (told counts : Counts) (totals : Totals) (settings : Settings) (output : List ℕ) (fault : Option ℕ) → seconds < 2 ^ 16 → length (scene seed aircraft seconds late) ≤ place_limit → IsExercise seed aircraft seconds late told totals → AreSceneSettings settings
        → Replays settings (scene seed aircraft seconds late) output counts fault → (told ≡ counts) × (totals.octets ≡ counted (length output)) × (fault ≡ None) }
{}

/// The datagrams of a replay that aren't in its log, which are counted as malformed, are those with a fault.
pub fn malformed_datagrams()
    ensures { (settings : Settings) (start : ℕ) (items : List Item) (log : History) → IsReplayLog settings start items log → HaveFaults items (count_by is_datagram items - count_by is_delivery log.events) }
{}

/// Octets have exactly one verdict as a price file: so many certificates, all of which prove; or one that is the first that doesn't; or one fault.
pub fn one_check()
    ensures some { (octets : List ℕ) → All (λ octet. octet < 256) octets → HasVerdict octets }
    ensures one { (octets : List ℕ) (v w : Verdict) → Checks octets v → Checks octets w → v ≡ w }
{}

/// On what the places hold a line of words has one end, binds the same places, and Output gets one thing.
pub fn one_end()
    ensures { (line : Line) (held : Place → List ℕ) (bound bound' : List Binding) (gets gets' : Place → List ℕ) (end end' : End) → CommandGives line (λ p octets. octets ≡ held p) bound gets (Some end) → CommandGives line (λ p octets. octets ≡ held p) bound' gets' (Some end') → (end ≡ end') × (bound ≡ bound') × (gets Place.Output ≡ gets' Place.Output) }
{}
