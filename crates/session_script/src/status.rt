// How a command ends.
ghost use Rattle.std.specs.Prelude.{◌≡◌};
ghost use Rattle.session_script.specs.Status.{spot_of};

use io_traits::Place;
use settings_text::SettingsFault;
use std::alloc::AllocError;
use trk_base::NoMemory;

/// Something outside the program that can fail.
#[derive(Clone, Copy, Debug, PartialEq, Eq)]
pub enum Spot {
    /// The document of the settings.
    Settings,
    /// What a replay reads.
    Input,
    /// What gets the editions of a replay, or a scene's recording.
    Output,
    /// The price file, which a replay writes and a check reads.
    Prices,
    /// The standard output.
    Screen,
    /// The feed with this number, from 0.
    Feed(u8),
    /// The outlet with this number, from 0.
    Outlet(u8),
    /// The clock.
    Clock,
}

/// How a command ended.
#[derive(Clone, Copy, Debug, PartialEq, Eq)]
pub enum Status {
    /// All was done.
    Done,
    /// The words are no command.
    Usage,
    /// The settings have this fault.
    Settings(SettingsFault),
    /// The input, or the price file of a check, has a fault at this offset, in octets from 0.
    Input { offset: usize },
    /// Something couldn't be opened or read.
    Read(Spot),
    /// Something couldn't be opened or written.
    Write(Spot),
    /// Memory is wanting.
    Memory,
    /// A certificate doesn't prove its pairing: the first such, counted from 0, and the offset of
    /// its record's first octet in the price file.
    NotProved { index: u64, offset: usize },
}

impl Status {
    ghost use Rattle.session_script.specs.Status.{exit_code};

    /// The exit status of the program: from 0 to 6, or 8.
    pub fn code(&self) -> u8
        ensures { result ≡ exit_code self.now }
    {
        match self {
            Status::Done => 0,
            Status::Usage => 1,
            Status::Settings(_) => 2,
            Status::Input { .. } => 3,
            Status::Read(_) => 4,
            Status::Write(_) => 5,
            Status::Memory => 6,
            Status::NotProved { .. } => 8,
        }
    }
}

impl From<AllocError> for Status {
    ghost use Rattle.session_script.specs.declared.status.Status.TheVariants.{Memory};

    ghost from_gives = { λ _ s. s ≡ Memory };

    fn from(_error: AllocError) -> Status {
        Status::Memory
    }
}

impl From<NoMemory> for Status {
    ghost use Rattle.session_script.specs.declared.status.Status.TheVariants.{Memory};

    ghost from_gives = { λ _ s. s ≡ Memory };

    fn from(_error: NoMemory) -> Status {
        Status::Memory
    }
}

/// How a place is told.
pub fn spot_of(place: Place) -> Spot
    ensures { result ≡ spot_of place }
{
    match place {
        Place::Settings => Spot::Settings,
        Place::Input => Spot::Input,
        Place::Output => Spot::Output,
        Place::Prices => Spot::Prices,
        Place::Screen => Spot::Screen,
    }
}
