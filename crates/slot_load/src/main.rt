//! Makes a load for measuring: the steps of slots over a table of many tracks.
//!
//! The program takes no time by itself. Whoever measures runs it under a clock.
#![tactic(auto)]

mod folding;
mod words;

use folding::fold;
use std::alloc::Global;
use std::marker::Brand;
use std::process::ExitCode;
use std::rt::Env;
use std::sync::ledger::Blank;
use std::{env, io};
use trk_base::NoMemory;
use words::{Load, load_of};

const USAGE: &str = "usage: slot_load TRACKS SLOTS addressed|primary\n";

// The words after the program's name. One that isn't UTF-8 is in no load, as no words are none.
fn words_of<R: Env + Alloc<A = Global>>(rt: &R) -> Result<Vec<String>, NoMemory> {
    match env::args(rt) {
        Ok(arguments) => Ok(arguments.skip(1).collect(rt.alloc())?),
        Err(error) if error.kind() == io::ErrorKind::InvalidData => Ok(Vec::new(rt.alloc())),
        Err(_) => Err(NoMemory),
    }
}

// The line that is told.
fn line_of(alloc: Global, load: Load) -> Result<String, NoMemory> {
    let Some(folded) = fold::<Brand>(alloc, load, Blank::new(1))? else {
        return Ok(String::from_str(alloc, "plots out of order\n")?);
    };
    let slots = load.slots;
    let tracks = folded.table.tracks().len();
    let certs = folded.certs;
    Ok(format!(in alloc; "slots {slots} tracks {tracks} certificates {certs}\n")?)
}

fn main(rt: HostRuntime) -> ExitCode {
    let Ok(words) = words_of(&rt) else {
        return ExitCode::from(6);
    };
    let Some(load) = load_of(&words) else {
        let _ = eprint!(rt; "{USAGE}");
        return ExitCode::from(1);
    };
    let Ok(line) = line_of(rt.alloc(), load) else {
        return ExitCode::from(6);
    };
    match print!(rt; "{line}") {
        Ok(()) => ExitCode::from(0),
        Err(_) => ExitCode::from(5),
    }
}
