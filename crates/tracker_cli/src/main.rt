//! The tracker's program: the words of its command line, carried out over real files.
#![tactic(auto)]

ghost use Rattle.std.specs.Prelude.{◌≡◌, None};
ghost use Rattle.io_traits.specs.declared.host.Place.{Place};

use cluster_pool::{Inline, MapPool};
use io_traits::{FileHost, Host, Place};
use std::alloc::Global;
use std::marker::Brand;
use std::process::ExitCode;
use std::rt::{Env, Files};
use std::sync::ledger::{Blank, Ledger};
use std::thread::Threads;
use std::{env, io};
use tracker_session::{Status, parse_words, run_batch};
use trk_base::Steps;

/// The line of want of memory, which needs no memory itself.
const NO_MEMORY: &[u8] = b"no memory\n";

/// How much room is asked for and given back at the start, in octets. It is never touched, so it takes
/// no memory.
const LARGEST_ROOM: usize = 32_000_000;

// Has the allocator of the C library keep what is given back to it. It learns from the largest room
// that came back whole: of up to twice as much at the end of the heap it returns nothing to the
// system (mallopt(3), M_MMAP_THRESHOLD). Else it returns, after each tick, the tables of the slots
// that late plots reopened, and has to be given them anew, page by page.
fn keep_returned_memory(alloc: Global) {
    drop(Vec::<u8>::with_capacity(alloc, LARGEST_ROOM));
}

// The words behind the program's name. One that isn't UTF-8 is in no command, as no words are none.
fn words<R: Env + Alloc<A = Global>>(rt: &R) -> Result<Vec<String>, Status> {
    match env::args(rt) {
        Ok(arguments) => match arguments.skip(1).collect(rt.alloc()) {
            Ok(words) => Ok(words),
            Err(_) => Err(Status::Memory),
        },
        Err(error) if error.kind() == io::ErrorKind::InvalidData => Ok(Vec::new(rt.alloc())),
        Err(_) => Err(Status::Memory),
    }
}

// How many workers the words ask for. Words that are no command are told so by one.
fn workers_of(alloc: Global, words: &[String]) -> u8 {
    match parse_words(alloc, words) {
        Ok(command) => command.workers(),
        Err(_) => 1,
    }
}

// Carries the words out over files. Where one worker does all, and where no handle is left for more, no
// thread is started for the tracks.
fn carry_out<R: Files + Print + Threads + Sync + Clone + Drop + Alloc<A = Global>, L: Ledger>(
    rt: &R,
    words: &[String],
    files: R,
    blank: Blank,
) -> Status
    requires name { blank.name ≡ L.name }
    requires parts { blank.parts ≡ L.parts }
    requires one { blank.parts ≡ 1 }
{
    let alloc = rt.alloc();
    let mut host = FileHost::new(files);
    let mut steps = Steps::<L>::new(blank);
    if workers_of(alloc, words) > 1 {
        if let Ok(threads) = rt.clone() {
            let mut pool = MapPool::new(threads);
            return run_batch(rt, alloc, words, &mut host, &mut pool, &mut steps);
        }
    }
    let mut pool = Inline::<R>::new();
    run_batch(rt, alloc, words, &mut host, &mut pool, &mut steps)
}

// Tells want of memory where there is no command yet. A line that can't be written leaves the status.
fn tell_no_memory<R: Files + Print + Clone + Drop>(rt: R) -> Status {
    let _ = FileHost::new(rt).write(Place::Screen, NO_MEMORY);
    Status::Memory
}

fn main(rt: HostRuntime) -> ExitCode {
    keep_returned_memory(rt.alloc());
    let status = match words(&rt) {
        Ok(words) => match rt.clone() {
            Ok(files) => carry_out::<HostRuntime, Brand>(&rt, &words, files, Blank::new(1)),
            Err(_) => tell_no_memory(rt),
        },
        Err(_) => tell_no_memory(rt),
    };
    ExitCode::from(status.code())
}
