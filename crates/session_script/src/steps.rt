// The steps of a script, one call each.
ghost use Rattle.std.specs.Prelude.{◌≡◌, ◌≢◌, ◌∷◌, [], None, IfErr, IfOk, OnOk, string_bytes};
ghost use Rattle.io_traits.specs.Host.{IsBoundFor};
ghost use Rattle.io_traits.specs.Touching.{Touches};
ghost use Rattle.io_traits.specs.declared.host.Place.{Place};
ghost use Rattle.io_traits.specs.declared.host.Way.{Way};
ghost use Rattle.session_script.specs.Steps.{OpeningBroke, PlaceOpened, PlaceRead, PlaceWritten, ReadingBroke, WritingBroke};

use crate::status::{Status, spot_of};
use io_traits::{Failed, Host, Place, ReadError, Way, read_place, write_all};
use std::alloc::Global;

/// Binds a place to a name, and reads it to its end or past the limit.
///
/// `Read` comes only where the place failed, `Memory` where memory is wanting.
pub fn read_file<H: Host>(
    alloc: Global,
    place: Place,
    name: String,
    host: &mut H,
) -> Result<Vec<u8>, Status>
    requires file { place ≢ Place.Screen }
    requires unbound { (H.state host.old).bound place ≡ None }
    ensures read { IfOk result (λ v. PlaceRead place (string_bytes name) v.items (H.state host.old) (H.state host.new)) }
    ensures broke { IfErr result (λ s. ReadingBroke place (string_bytes name) s (H.state host.old) (H.state host.new)) }
    ensures touches { Touches (place ∷ []) (place ∷ []) [] (H.state host.old) (H.state host.new) }
{
    match read_place(alloc, host, place, name) {
        Ok(octets) => Ok(octets),
        Err(ReadError::Failed) => Err(Status::Read(spot_of(place))),
        Err(ReadError::NoMemory) => Err(Status::Memory),
    }
}

/// Binds a place to a name, to be written.
///
/// `Write` comes only where the place failed.
pub fn open_file<H: Host>(place: Place, name: String, host: &mut H) -> Result<(), Status>
    requires file { place ≢ Place.Screen }
    requires unbound { (H.state host.old).bound place ≡ None }
    ensures opened { OnOk result (PlaceOpened place (string_bytes name) (H.state host.old) (H.state host.new)) }
    ensures broke { IfErr result (λ s. OpeningBroke place (string_bytes name) s (H.state host.old) (H.state host.new)) }
    ensures bound { IsBoundFor Way.Write (H.state host.new) place }
    ensures touches { Touches (place ∷ []) [] [] (H.state host.old) (H.state host.new) }
{
    match host.bind(place, Way::Write, name) {
        Ok(()) => Ok(()),
        Err(Failed) => Err(Status::Write(spot_of(place))),
    }
}

/// Writes octets to a place that is open.
///
/// `Write` comes only where the place failed. It then got a prefix of them.
pub fn write_file<H: Host>(place: Place, octets: &[u8], host: &mut H) -> Result<(), Status>
    requires { IsBoundFor Way.Write (H.state host.old) place }
    ensures written { OnOk result (PlaceWritten place octets.now (H.state host.old) (H.state host.new)) }
    ensures broke { IfErr result (λ s. WritingBroke place octets.now s (H.state host.old) (H.state host.new)) }
    ensures touches { Touches [] [] (place ∷ []) (H.state host.old) (H.state host.new) }
{
    match write_all(host, place, octets) {
        Ok(()) => Ok(()),
        Err(Failed) => Err(Status::Write(spot_of(place))),
    }
}
