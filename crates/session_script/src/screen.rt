// The text of each way to end.
ghost use Rattle.std.specs.Prelude.{◌≡◌, IfOk, string_bytes};
ghost use Rattle.session_script.specs.Screen.{status_line};

use crate::status::{Spot, Status};
use std::alloc::{AllocError, Global};
use std::fmt;

/// What can fail, as an answer names it.
impl fmt::Display for Spot {
    ghost use Rattle.std.specs.Prelude.{Some};
    ghost use Rattle.session_script.specs.Screen.{spot_text};

    ghost output = { λ spot. Some (spot_text spot) };

    fn fmt<W: fmt::Write>(&self, f: &mut fmt::Formatter<W>) -> fmt::Result {
        match self {
            Spot::Settings => write!(f, "Settings"),
            Spot::Input => write!(f, "Input"),
            Spot::Output => write!(f, "Output"),
            Spot::Prices => write!(f, "Prices"),
            Spot::Screen => write!(f, "Screen"),
            Spot::Feed(number) => write!(f, "feed {number}"),
            Spot::Outlet(number) => write!(f, "outlet {number}"),
            Spot::Clock => write!(f, "Clock"),
        }
    }
}

/// One line, without its end.
impl fmt::Display for Status {
    ghost use Rattle.std.specs.Prelude.{Some};
    ghost use Rattle.session_script.specs.Screen.{status_text};

    ghost output = { λ status. Some (status_text status) };

    fn fmt<W: fmt::Write>(&self, f: &mut fmt::Formatter<W>) -> fmt::Result {
        match self {
            Status::Done => write!(f, "done"),
            Status::Usage => write!(f, "usage: tracker replay, check, scene, exercise or serve"),
            Status::Settings(fault) => write!(f, "{fault}"),
            Status::Input { offset } => write!(f, "input: offset {offset}"),
            Status::Read(spot) => write!(f, "read: {spot}"),
            Status::Write(spot) => write!(f, "write: {spot}"),
            Status::Memory => write!(f, "no memory"),
            Status::NotProved { index, offset } => {
                write!(f, "not proved: certificate {index} at offset {offset}")
            }
        }
    }
}

/// The line that tells how a command ended. Where all was done there is none.
pub fn status_line(alloc: Global, status: &Status) -> Result<String, AllocError>
    ensures { IfOk result (λ s. string_bytes s ≡ status_line status.now) }
{
    match status {
        Status::Done => Ok(String::new(alloc)),
        _ => format!(in alloc; "{status}\n"),
    }
}
