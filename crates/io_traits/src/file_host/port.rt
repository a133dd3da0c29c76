// A place over a real file.
ghost use Rattle.std.specs.Prelude.{◌≡◌, ◌<◌, ◌≤◌, ℕ, List, length, Option, option_map, string_bytes};

use crate::{Failed, Way};
use std::fs;
use std::io::{Read, Write};
use std::rt::Files;

/// What a place over a real file tells.
#[derive(Drop)]
pub(crate) struct PortState {
    bound: Option<(Way, String)>,
    faults: u64,
}

/// A place over a real file, which is open where binding it went well.
#[derive(Drop)]
pub(crate) struct Port<F: Drop> {
    file: Option<F>,
    state: PortState,
}

impl<F: Drop + Read + Write> Port<F> {
    ghost use Rattle.std.specs.Prelude.{None, Some};
    ghost use Rattle.io_traits.specs.Faults.{HasCause, Rose};
    ghost use Rattle.io_traits.specs.Host.{Writes, Reads};
    ghost use Rattle.io_traits.specs.FileHost.{bound_of};

    pub(crate) fn unbound() -> Self
        ensures bound { bound_of result.state ≡ None }
        ensures faults { result.state.faults ≡ 0 }
    {
        Port {
            file: None,
            state: PortState {
                bound: None,
                faults: 0,
            },
        }
    }

    fn fail(&mut self) -> Failed
        ensures bound { self.new.state.bound ≡ self.old.state.bound }
        ensures later { self.old.state.faults ≤ self.new.state.faults }
        ensures rose { Rose self.old.state.faults self.new.state.faults }
    {
        self.state.faults = self.state.faults.saturating_add(1);
        Failed
    }

    pub(crate) fn bind<R: Files<File = F>>(
        &mut self,
        rt: &R,
        way: Way,
        name: String,
    ) -> Result<(), Failed>
        ensures bound { bound_of self.new.state ≡ Some (way, string_bytes name) }
        ensures cause { HasCause self.old.state.faults self.new.state.faults result }
        ensures later { self.old.state.faults ≤ self.new.state.faults }
    {
        let opened = match way {
            Way::Read => fs::open(rt, name.as_str()),
            Way::Write => fs::create(rt, name.as_str()),
        };
        self.state.bound = Some((way, name));
        match opened {
            Ok(file) => {
                self.file = Some(file);
                Ok(())
            }
            Err(_) => Err(self.fail()),
        }
    }

    pub(crate) fn read(&mut self, piece: &mut [u8]) -> Result<usize, Failed>
        requires { 0 < length piece.old }
        ensures read { Reads result piece.new None None }
        ensures bound { self.new.state.bound ≡ self.old.state.bound }
        ensures cause { HasCause self.old.state.faults self.new.state.faults result }
        ensures later { self.old.state.faults ≤ self.new.state.faults }
    {
        let read = match &mut self.file {
            Some(file) => file.read(piece),
            None => return Err(self.fail()),
        };
        match read {
            Ok(count) => Ok(count),
            Err(_) => Err(self.fail()),
        }
    }

    pub(crate) fn write(&mut self, piece: &[u8]) -> Result<usize, Failed>
        requires { 0 < length piece.now }
        ensures written { Writes result piece.now None None }
        ensures bound { self.new.state.bound ≡ self.old.state.bound }
        ensures cause { HasCause self.old.state.faults self.new.state.faults result }
        ensures later { self.old.state.faults ≤ self.new.state.faults }
    {
        let written = match &mut self.file {
            Some(file) => file.write(piece),
            None => return Err(self.fail()),
        };
        match written {
            Ok(0) | Err(_) => Err(self.fail()),
            Ok(count) => Ok(count),
        }
    }
}
