// What holds of the records of tracks, whoever writes or reads them.
ghost use Rattle.std.specs.Prelude.{◌≡◌, ◌⊎◌, ◌++◌, ℕ, List};
ghost use Rattle.asterix_frame.specs.declared.block.Block.{Block};
ghost use Rattle.asterix_frame.specs.declared.tables.Uap.TheVariants.{Cat062};
ghost use Rattle.asterix_frame.specs.Encoding.{record_of};
ghost use Rattle.asterix_frame.specs.DataRecords.{IsDataRecord};
ghost use Rattle.cat062_out.specs.declared.error.ProfileError.{ProfileError};
ghost use Rattle.cat062_out.specs.Tracks.{Stamp, TrackLine};
ghost use Rattle.cat062_out.specs.TrackRecords.{IsTrack, items_of, track_record, track_limit};
ghost use Rattle.cat062_out.specs.Profile.{written, AreWritten, IsRefusal};

use crate::TRACK_ROOM;

/// The record of a track is a record of category 62, of which the track is read whatever octets
/// follow it.
pub fn one_track()
    ensures octets { (s : Stamp) (l : TrackLine) → track_record s l ≡ written items_of (s, l) }
    ensures is_record { (t : Stamp × TrackLine) → IsTrack t → IsDataRecord Cat062 (record_of (items_of t)) }
    ensures one { (t u : Stamp × TrackLine) (x y : List ℕ) → IsTrack t → IsTrack u → written items_of t ++ x ≡ written items_of u ++ y → (t ≡ u) × (x ≡ y) }
    ensures room { TRACK_ROOM ≡ track_limit }
{}

/// A block of category 62 has exactly one reading: as records of tracks, or as a first refusal.
pub fn one_reading()
    ensures some { (block : Block) → ((ts : List (Stamp × TrackLine)) × AreWritten IsTrack items_of block.body.now ts) ⊎ ((e : ProfileError) × IsRefusal Cat062 IsTrack items_of block e) }
    ensures one_list { (body : List ℕ) (ts us : List (Stamp × TrackLine)) → AreWritten IsTrack items_of body ts → AreWritten IsTrack items_of body us → ts ≡ us }
    ensures one_refusal { (block : Block) (e e' : ProfileError) → IsRefusal Cat062 IsTrack items_of block e → IsRefusal Cat062 IsTrack items_of block e' → e ≡ e' }
    ensures not_both { (block : Block) (ts : List (Stamp × TrackLine)) (e : ProfileError) → AreWritten IsTrack items_of block.body.now ts → IsRefusal Cat062 IsTrack items_of block e → ⊥ }
{}
