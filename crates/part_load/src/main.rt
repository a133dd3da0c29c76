//! Counts how a span of plots falls into parts: how many items each part has, and which parts cross.
#![tactic(auto)]

mod parting;
mod skies;
mod words;

use parting::count_parts;
use std::alloc::Global;
use std::marker::Brand;
use std::process::ExitCode;
use std::rt::Env;
use std::sync::ledger::Blank;
use std::{env, io};
use trk_base::NoMemory;
use words::{Load, load_of};

const USAGE: &str = "usage: part_load AIRCRAFT SLOTS WISH addressed|coded|primary|mixed|lossy\n";

// The words after the program's name. One that isn't UTF-8 is in no load, as no words are none.
fn words_of<R: Env + Alloc<A = Global>>(rt: &R) -> Result<Vec<String>, NoMemory> {
    match env::args(rt) {
        Ok(arguments) => Ok(arguments.skip(1).collect(rt.alloc())?),
        Err(error) if error.kind() == io::ErrorKind::InvalidData => Ok(Vec::new(rt.alloc())),
        Err(_) => Err(NoMemory),
    }
}

// The line that is told.
fn line_of(alloc: Global, load: Load) -> Result<String, NoMemory> {
    let Some(parted) = count_parts::<Brand>(alloc, load, Blank::new(1))? else {
        return Ok(String::from_str(alloc, "plots out of order\n")?);
    };
    let tracks = parted.tracks;
    let plots = parted.plots;
    let crossings = parted.crossings;
    let sizes = sizes_text(alloc, &parted.sizes)?;
    Ok(format!(in alloc; "tracks {tracks} plots {plots} crossings {crossings} parts{sizes}\n")?)
}

// The tracks and plots of each part.
fn sizes_text(alloc: Global, sizes: &[(usize, usize)]) -> Result<String, NoMemory> {
    let mut text = String::new(alloc);
    for (tracks, plots) in sizes {
        text.push_str(&format!(in alloc; " {tracks}+{plots}")?)?;
    }
    Ok(text)
}

fn main(rt: HostRuntime) -> ExitCode {
    let Ok(words) = words_of(&rt) else {
        return ExitCode::from(6);
    };
    let Some(load) = load_of(&words) else {
        let _ = eprint!(rt; "{USAGE}");
        return ExitCode::from(1);
    };
    let Ok(line) = line_of(rt.alloc(), load) else {
        return ExitCode::from(6);
    };
    match print!(rt; "{line}") {
        Ok(()) => ExitCode::from(0),
        Err(_) => ExitCode::from(5),
    }
}
