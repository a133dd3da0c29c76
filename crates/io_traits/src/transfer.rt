// A place read to its end, and octets written whole.
ghost use Rattle.std.specs.Prelude.{◌≡◌, ◌≢◌, ◌∷◌, [], List, length, None, Some, IfOk, OnOk, OnErr, IsErrOf, string_bytes};
ghost use Rattle.io_traits.specs.Faults.{HasCause};
ghost use Rattle.io_traits.specs.Host.{IsBoundFor};
ghost use Rattle.io_traits.specs.Places.{Got, GotPrefix, HasFailed, WasRead};
ghost use Rattle.io_traits.specs.Touching.{Touches};
ghost use Rattle.io_traits.specs.declared.host.Place.{Place};
ghost use Rattle.io_traits.specs.declared.host.Way.{Way};

use crate::{Failed, Host, Place, Way};
use std::alloc::{AllocError, Global};

/// How many octets are read of a place. One more is read where there are more.
pub const PLACE_LIMIT: usize = 1_073_741_824;

/// The octets that are asked for at a time.
const PIECE: usize = 65_536;

/// Why a place wasn't read.
#[derive(Clone, Copy, Debug, PartialEq, Eq)]
pub enum ReadError {
    /// The place has failed.
    Failed,
    /// Memory is wanting.
    NoMemory,
}

impl From<Failed> for ReadError {
    ghost use Rattle.io_traits.specs.declared.transfer.ReadError.TheVariants as errors;

    ghost from_gives = { λ _ e. e ≡ errors.Failed };

    fn from(_error: Failed) -> ReadError {
        ReadError::Failed
    }
}

impl From<AllocError> for ReadError {
    ghost use Rattle.io_traits.specs.declared.transfer.ReadError.TheVariants as errors;

    ghost from_gives = { λ _ e. e ≡ errors.NoMemory };

    fn from(_error: AllocError) -> ReadError {
        ReadError::NoMemory
    }
}

// Reads a place to its end, or one octet past the limit.
fn read_all<H: Host>(alloc: Global, host: &mut H, place: Place) -> Result<Vec<u8>, ReadError>
    requires { IsBoundFor Way.Read (H.state host.old) place }
    ensures read { IfOk result (λ v. WasRead place v.items (H.state host.old) (H.state host.new)) }
    ensures failed { IsErrOf result ReadError.Failed → HasFailed place (H.state host.old) (H.state host.new) }
    ensures touches { Touches [] (place ∷ []) [] (H.state host.old) (H.state host.new) }
{
    let mut octets = Vec::new(alloc);
    let mut piece = [0u8; PIECE];
    'pieces: while octets.len() <= PLACE_LIMIT {
        let wanted = PIECE.min(PLACE_LIMIT + 1 - octets.len());
        let count = host.read(place, &mut piece[..wanted])?;
        if count == 0 {
            return Ok(octets);
        }
        octets.extend_from_slice(&piece[..count])?;
    }
    Ok(octets)
}

/// Binds a place to a name, and reads it to its end, or one octet past the limit. The place has
/// this binding also where it fails or memory is wanting.
pub fn read_place<H: Host>(
    alloc: Global,
    host: &mut H,
    place: Place,
    name: String,
) -> Result<Vec<u8>, ReadError>
    requires file { place ≢ Place.Screen }
    requires unbound { (H.state host.old).bound place ≡ None }
    ensures read { IfOk result (λ v. WasRead place v.items (H.state host.old) (H.state host.new)) }
    ensures failed { IsErrOf result ReadError.Failed → HasFailed place (H.state host.old) (H.state host.new) }
    ensures bound { (H.state host.new).bound place ≡ Some (Way.Read, string_bytes name) }
    ensures touches { Touches (place ∷ []) (place ∷ []) [] (H.state host.old) (H.state host.new) }
{
    host.bind(place, Way::Read, name)?;
    read_all(alloc, host, place)
}

/// Writes octets to a place. Where it fails, the place got a prefix of them.
pub fn write_all<H: Host>(host: &mut H, place: Place, octets: &[u8]) -> Result<(), Failed>
    requires { place ≢ Place.Screen → IsBoundFor Way.Write (H.state host.old) place }
    ensures all { OnOk result (Got place (H.state host.old) (H.state host.new) octets.now) }
    ensures prefix { OnErr result (GotPrefix place (H.state host.old) (H.state host.new) octets.now) }
    ensures cause { HasCause ((H.state host.old).faults place) ((H.state host.new).faults place) result }
    ensures touches { Touches [] [] (place ∷ []) (H.state host.old) (H.state host.new) }
{
    let mut written = 0;
    while written < octets.len() {
        written += host.write(place, &octets[written..])?;
    }
    Ok(())
}
