//! Makes loads for measuring: assignment problems that are solved, and price files.
//!
//! The program takes no time by itself. Whoever measures runs it under a clock.
#![tactic(auto)]

mod certificates;
mod price_file;
mod problems;
mod run;
mod solving;
mod status;
#[cfg(test)]
mod tests;
mod words;

use io_traits::FileHost;
use run::run_load;
use status::Status;
use std::alloc::{AllocError, Global};
use std::process::ExitCode;
use std::rt::Env;
use std::{env, io};

// The words after the program's name. One that isn't UTF-8 is in no load, as no words are none.
fn words_of<R: Env + Alloc<A = Global>>(rt: &R) -> Result<Vec<String>, Status> {
    match env::args(rt) {
        Ok(arguments) => match arguments.skip(1).collect(rt.alloc()) {
            Ok(words) => Ok(words),
            Err(_) => Err(Status::Memory),
        },
        Err(error) if error.kind() == io::ErrorKind::InvalidData => Ok(Vec::new(rt.alloc())),
        Err(_) => Err(Status::Memory),
    }
}

// Carries out the words over the real files.
fn run_words(rt: &HostRuntime) -> Result<Status, AllocError> {
    match words_of(rt) {
        Ok(words) => Ok(run_load(rt.alloc(), &words, &mut FileHost::new(rt.clone()?))),
        Err(status) => Ok(status),
    }
}

fn main(rt: HostRuntime) -> ExitCode {
    let status = match run_words(&rt) {
        Ok(status) => status,
        Err(_) => Status::Memory,
    };
    // Where the standard error can't be written the status is all that is told.
    let _ = eprint!(rt; "{}", status.line());
    ExitCode::from(status.code())
}
