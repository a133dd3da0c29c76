// How the end of a command is told.
ghost use Rattle.std.specs.Prelude.{◌≡◌, ◌⊎◌, ◌∷◌, []};
ghost use Rattle.io_traits.specs.Touching.{Touches};
ghost use Rattle.io_traits.specs.declared.host.Place.{Place};
ghost use Rattle.session_script.specs.Screen.{status_line};
ghost use Rattle.session_script.specs.Scripts.{end_of};
ghost use Rattle.session_script.specs.Telling.{Says, Told};
ghost use Rattle.session_script.specs.declared.status.Status.{Status};

use crate::screen::status_line;
use crate::status::{Spot, Status};
use io_traits::{Failed, Host, Place, write_all};
use std::alloc::Global;

/// The line of want of memory, which needs no memory itself.
const NO_MEMORY: &[u8] = b"no memory\n";

/// The line of a screen that failed.
const SCREEN_FAILED: &[u8] = b"write: Screen\n";

/// Tells Screen the end of a command: the text of one that was done, or of the status. Where the text of
/// one that was done can't be written, the status is that Screen failed, and is told too.
pub fn tell<H: Host>(alloc: Global, end: Result<String, Status>, host: &mut H) -> Status
    ensures says { Says (end_of end) result (H.state host.old) (H.state host.new) }
    ensures touches { Touches [] [] (Place.Screen ∷ []) (H.state host.old) (H.state host.new) }
{
    let text = match end {
        Ok(text) => text,
        Err(status) => return tell_status(alloc, status, host),
    };
    match write_all(host, Place::Screen, text.as_bytes()) {
        Ok(()) => Status::Done,
        Err(Failed) => {
            let _ = write_all(host, Place::Screen, SCREEN_FAILED);
            Status::Write(Spot::Screen)
        }
    }
}

// Writes the text of a status to Screen. A text that can't be written leaves the status.
fn tell_status<H: Host>(alloc: Global, status: Status, host: &mut H) -> Status
    ensures status { (result ≡ status) ⊎ (result ≡ Status.Memory) }
    ensures told { Told (status_line result) (H.state host.old) (H.state host.new) }
    ensures touches { Touches [] [] (Place.Screen ∷ []) (H.state host.old) (H.state host.new) }
{
    match status_line(alloc, &status) {
        Ok(line) => {
            let _ = write_all(host, Place::Screen, line.as_bytes());
            status
        }
        Err(_) => {
            let _ = write_all(host, Place::Screen, NO_MEMORY);
            Status::Memory
        }
    }
}
