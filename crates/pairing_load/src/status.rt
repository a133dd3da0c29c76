// How a load ended.
ghost use Rattle.std.specs.Prelude.{◌≡◌};

use io_traits::Place;

/// How a load ended.
#[derive(Clone, Copy, Debug, PartialEq, Eq)]
pub enum Status {
    /// All was done.
    Done,
    /// The words are those of no load.
    Usage,
    /// This place couldn't be opened or written.
    Write(Place),
    /// Memory is wanting.
    Memory,
}

impl Status {
    ghost use Rattle.pairing_load.specs.Status.{exit_code, status_line};

    /// The exit status of the program.
    pub fn code(&self) -> u8
        ensures { result ≡ exit_code self.now }
    {
        match self {
            Status::Done => 0,
            Status::Usage => 1,
            Status::Write(_) => 5,
            Status::Memory => 6,
        }
    }

    /// What the standard error is told: a line, or nothing where all was done.
    pub fn line(&self) -> &'static str
        ensures { result.now ≡ status_line self.now }
    {
        match self {
            Status::Done => "",
            Status::Usage => {
                "usage: pairing_load pairings COUNT SIZE random|equal SEED, or pairing_load prices COUNT SEED OUTPUT\n"
            }
            Status::Write(Place::Screen) => {
                "pairing_load: the standard output couldn't be written\n"
            }
            Status::Write(_) => "pairing_load: the price file couldn't be opened or written\n",
            Status::Memory => "pairing_load: no memory\n",
        }
    }
}
