//! Laws of track numbers.

ghost use Rattle.std.specs.Prelude.{◌≡◌, ◌==◌, ℕ, true, List, map, None};
ghost use Rattle.std.specs.List.{AllByRecursion, IsDistinct};
ghost use Rattle.track_life.specs.Tracks.{TrackState};
ghost use Rattle.track_life.specs.Numbers.{IsNumber, with_number, held, is_among, is_waiting, assigned};

/// Giving numbers changes nothing else: without their numbers, the tracks are the same.
pub fn numbers_alone()
    ensures { (ts : List TrackState) → map (with_number None) (assigned ts) ≡ map (with_number None) ts }
{}

/// No number is given twice: where no two tracks hold one number, none do afterwards. And what is
/// given is from 1 to 65,535.
pub fn numbers_differ()
    ensures differ { (ts : List TrackState) → IsDistinct ◌==◌ (held ts) → IsDistinct ◌==◌ (held (assigned ts)) }
    ensures range { (ts : List TrackState) → AllByRecursion IsNumber (held ts) → AllByRecursion IsNumber (held (assigned ts)) }
{}

/// A confirmed track is left without a number only where all 65,535 are held, so giving numbers
/// again changes nothing.
pub fn numbers_left()
    ensures again { (ts : List TrackState) → assigned (assigned ts) ≡ assigned ts }
    ensures left { (ts : List TrackState) → AllByRecursion (λ t. is_waiting t ≡ true → (n : ℕ) → IsNumber n → is_among (held (assigned ts)) n ≡ true) (assigned ts) }
{}
