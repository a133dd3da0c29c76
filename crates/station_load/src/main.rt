//! Makes a load for measuring: turns at a station that threads share.
//!
//! The program takes no time by itself. Whoever measures runs it under a clock.
#![tactic(auto)]

mod datagrams;
mod feeding;
mod words;

use feeding::{Fed, feed};
use std::alloc::Global;
use std::process::ExitCode;
use std::rt::Env;
use std::sync::Wait;
use std::thread::Threads;
use std::{env, io};
use trk_base::NoMemory;
use words::{Load, load_of};

const USAGE: &str = "usage: station_load THREADS TURNS PLOTS admit|read\n";

// The words after the program's name. One that isn't UTF-8 is in no load, as no words are none.
fn words_of<R: Env + Alloc<A = Global>>(rt: &R) -> Result<Vec<String>, NoMemory> {
    match env::args(rt) {
        Ok(arguments) => Ok(arguments.skip(1).collect(rt.alloc())?),
        Err(error) if error.kind() == io::ErrorKind::InvalidData => Ok(Vec::new(rt.alloc())),
        Err(_) => Err(NoMemory),
    }
}

// The line that is told.
fn line_of<R: Threads + Wait + Sync>(
    rt: &R,
    alloc: Global,
    load: Load,
) -> Result<String, NoMemory> {
    let Fed {
        datagrams,
        plots,
        events,
    } = feed(rt, alloc, load)?;
    Ok(format!(in alloc; "datagrams {datagrams} plots {plots} events {events}\n")?)
}

fn main(rt: HostRuntime) -> ExitCode {
    let Ok(words) = words_of(&rt) else {
        return ExitCode::from(6);
    };
    let Some(load) = load_of(&words) else {
        let _ = eprint!(rt; "{USAGE}");
        return ExitCode::from(1);
    };
    let Ok(line) = line_of(&rt, rt.alloc(), load) else {
        return ExitCode::from(6);
    };
    match print!(rt; "{line}") {
        Ok(()) => ExitCode::from(0),
        Err(_) => ExitCode::from(5),
    }
}
