// The places of the outside over real files and the standard output.
ghost use Rattle.std.specs.Prelude.{◌≡◌, ◌≤◌, length};

mod port;

use crate::{Failed, Host, Place, Way};
use port::Port;
use std::rt::Files;

/// The places of the outside over real files, and the standard output as Screen. What is read and written goes straight
/// to the file, with no buffer between. It tells its counts and bindings; no contract says what a real file holds.
#[derive(Drop)]
pub struct FileHost<R: Files + Print + Drop> {
    rt: R,
    settings: Port<R::File>,
    input: Port<R::File>,
    output: Port<R::File>,
    prices: Port<R::File>,
    screen_faults: u64,
}

impl<R: Files + Print + Drop> FileHost<R> {
    ghost use Rattle.std.specs.Prelude.{None};
    ghost use Rattle.io_traits.specs.Faults.{HasCause};
    ghost use Rattle.io_traits.specs.Host.{Writes};
    ghost use Rattle.io_traits.specs.declared.host.Place.{Place};

    /// A host over the files and the standard output of a runtime. No place is bound, and none has failed.
    pub fn new(rt: R) -> Self
        ensures bound { (p : Place) → (⟦<FileHost<R> as Host>⟧.state result).bound p ≡ None }
        ensures faults { (p : Place) → (⟦<FileHost<R> as Host>⟧.state result).faults p ≡ 0 }
    {
        FileHost {
            rt,
            settings: Port::unbound(),
            input: Port::unbound(),
            output: Port::unbound(),
            prices: Port::unbound(),
            screen_faults: 0,
        }
    }

    fn print(&mut self, piece: &[u8]) -> Result<usize, Failed>
        ensures written { Writes result piece.now None None }
        ensures cause { HasCause self.old.screen_faults self.new.screen_faults result }
        ensures later { self.old.screen_faults ≤ self.new.screen_faults }
        ensures settings { self.new.settings ≡ self.old.settings }
        ensures input { self.new.input ≡ self.old.input }
        ensures output { self.new.output ≡ self.old.output }
        ensures prices { self.new.prices ≡ self.old.prices }
    {
        match self.rt.write_some(piece) {
            Ok(0) | Err(_) => {
                self.screen_faults = self.screen_faults.saturating_add(1);
                Err(Failed)
            }
            Ok(count) => Ok(count),
        }
    }
}

impl<R: Files + Print + Drop> Host for FileHost<R> {
    ghost use Rattle.io_traits.specs.FileHost.{state_of};

    ghost state = { λ host. state_of host.settings.state host.input.state host.output.state host.prices.state host.screen_faults };

    ghost unbound_is_empty = { λ host place file unbound. tt };

    fn bind(&mut self, place: Place, way: Way, name: String) -> Result<(), Failed> {
        match place {
            Place::Settings => self.settings.bind(&self.rt, way, name),
            Place::Input => self.input.bind(&self.rt, way, name),
            Place::Output => self.output.bind(&self.rt, way, name),
            Place::Prices => self.prices.bind(&self.rt, way, name),
            Place::Screen => unreachable!(),
        }
    }

    fn read(&mut self, place: Place, piece: &mut [u8]) -> Result<usize, Failed> {
        match place {
            Place::Settings => self.settings.read(piece),
            Place::Input => self.input.read(piece),
            Place::Output => self.output.read(piece),
            Place::Prices => self.prices.read(piece),
            Place::Screen => unreachable!(),
        }
    }

    fn write(&mut self, place: Place, piece: &[u8]) -> Result<usize, Failed> {
        match place {
            Place::Settings => self.settings.write(piece),
            Place::Input => self.input.write(piece),
            Place::Output => self.output.write(piece),
            Place::Prices => self.prices.write(piece),
            Place::Screen => self.print(piece),
        }
    }
}
