// Runs of the two hosts: pieces, faults, room, whole places, and a real file.
ghost use Rattle.std.specs.Prelude.{◌≡◌, ◌≢◌, ◌∷◌, [], None, IfOk};
ghost use Rattle.io_traits.specs.Host.{IsBoundFor};
ghost use Rattle.io_traits.specs.MemHost.{state_of};
ghost use Rattle.io_traits.specs.Touching.{Touches};
ghost use Rattle.io_traits.specs.declared.host.Place.{Place};
ghost use Rattle.io_traits.specs.declared.host.Way.{Way};

use crate::{Failed, FileHost, Host, MemHost, Place, ReadError, Way, read_place, write_all};
use std::alloc::{AllocError, Global};
use std::process::Abort;
use std::test::Fail;
use std::{env, fs, process};

fn text(alloc: Global, name: &str) -> Result<String, AllocError> {
    String::from_str(alloc, name)
}

// Reads a place into a piece of four octets, turn after turn: what each call answers, and what the
// piece then holds.
fn reads<H: Host>(
    rt: &impl Abort,
    host: &mut H,
    place: Place,
    turns: &[(Result<usize, Failed>, [u8; 4])],
)
    requires { IsBoundFor Way.Read (H.state host.old) place }
    ensures { Touches [] (place ∷ []) [] (H.state host.old) (H.state host.new) }
{
    let mut piece = [0u8; 4];
    for (answer, octets) in turns {
        assert_eq!(rt; host.read(place, &mut piece), *answer);
        assert_eq!(rt; piece, *octets);
    }
}

// Writes pieces of three octets to a place, turn after turn: what each call answers.
fn writes<H: Host>(
    rt: &impl Abort,
    host: &mut H,
    place: Place,
    turns: &[([u8; 3], Result<usize, Failed>)],
)
    requires { place ≢ Place.Screen → IsBoundFor Way.Write (H.state host.old) place }
{
    for (piece, answer) in turns {
        assert_eq!(rt; host.write(place, piece), *answer);
    }
}

// Input holds six octets, and Output has room for five.
fn reads_and_writes<H: Host>(rt: &impl Abort, host: &mut H, input: String, output: String)
    requires { (p : Place) → (H.state host.old).bound p ≡ None }
{
    assert_eq!(rt; host.bind(Place::Input, Way::Read, input), Ok(()));
    let turns = [(Ok(4), *b"octe"), (Ok(2), *b"tste"), (Ok(0), *b"tste")];
    reads(rt, host, Place::Input, &turns);
    assert_eq!(rt; host.bind(Place::Output, Way::Write, output), Ok(()));
    let turns = [(*b"abc", Ok(3)), (*b"def", Ok(2)), (*b"ghi", Err(Failed))];
    writes(rt, host, Place::Output, &turns);
}

// The first call fails, the third, and the sixth. Settings holds six octets.
fn goes_on_after_faults<H: Host>(
    rt: &impl Abort,
    alloc: Global,
    host: &mut H,
    settings: String,
    input: String,
)
    requires { (p : Place) → (H.state host.old).bound p ≡ None }
{
    assert_eq!(rt;
        host.bind(Place::Settings, Way::Read, settings),
        Err(Failed)
    );
    let turns = [
        (Ok(4), *b"octe"),
        (Err(Failed), *b"octe"),
        (Ok(2), *b"tste"),
    ];
    reads(rt, host, Place::Settings, &turns);
    let read = read_place(alloc, host, Place::Input, input);
    assert!(rt; matches!(read, Err(ReadError::Failed)));
}

// Output is a new file, which Input reads.
fn reads_what_it_wrote<H: Host>(
    rt: &impl Abort,
    alloc: Global,
    host: &mut H,
    output: String,
    input: String,
)
    requires { (p : Place) → (H.state host.old).bound p ≡ None }
{
    assert_eq!(rt; host.bind(Place::Output, Way::Write, output), Ok(()));
    assert_eq!(rt; write_all(host, Place::Output, b"octets"), Ok(()));
    match read_place(alloc, host, Place::Input, input) {
        Ok(octets) => assert_eq!(rt; octets.as_slice(), b"octets".as_slice()),
        Err(error) => assert_eq!(rt; error, ReadError::NoMemory),
    }
    assert_eq!(rt; write_all(host, Place::Screen, b"octets\n"), Ok(()));
}

// The file of Settings is missing.
fn fails_without_a_file<H: Host>(rt: &impl Abort, host: &mut H, missing: String)
    requires { (p : Place) → (H.state host.old).bound p ≡ None }
{
    let mut piece = [0u8; 4];
    assert_eq!(rt; host.bind(Place::Settings, Way::Read, missing), Err(Failed));
    assert_eq!(rt; host.read(Place::Settings, &mut piece), Err(Failed));
}

// A host in memory where a place holds six octets, Output has room for five, and these calls fail.
fn memory(alloc: Global, place: Place, fails: &[u64]) -> Result<MemHost, Fail>
    ensures { IfOk result (λ host. (p : Place) → (state_of host).bound p ≡ None) }
{
    let left = vec![in alloc; (place, b"octets".to_vec(alloc)?)]?;
    let room = vec![in alloc; (Place::Output, 5usize), (Place::Screen, 1usize)]?;
    let fails = Vec::from_slice(alloc, fails)?;
    Ok(MemHost::new(alloc, left, room, fails)?)
}

// Whether a place of a host is bound so, has nothing left, has got these octets, and has failed so
// often.
fn is_so(host: &MemHost, place: Place, bound: (Way, &str), got: &[u8], faults: u64) -> bool {
    host.bound(place) == Some(bound)
        && host.left(place).is_empty()
        && host.got(place) == got
        && host.faults(place) == faults
}

#[test]
fn memory_is_read_in_pieces_and_written_up_to_the_room(rt: HostRuntime) -> Result<(), Fail> {
    let alloc = rt.alloc();
    let input = text(alloc, "in")?;
    let output = text(alloc, "out")?;
    let mut host = memory(alloc, Place::Input, &[])?;
    reads_and_writes(&rt, &mut host, input, output);
    assert!(rt; is_so(&host, Place::Input, (Way::Read, "in"), b"", 0));
    assert!(rt; is_so(&host, Place::Output, (Way::Write, "out"), b"abcde", 1));
    Ok(())
}

#[test]
fn memory_fails_where_it_is_told_to(rt: HostRuntime) -> Result<(), Fail> {
    let alloc = rt.alloc();
    let settings = text(alloc, "missing")?;
    let input = text(alloc, "in")?;
    let mut host = memory(alloc, Place::Settings, &[0, 2, 5])?;
    goes_on_after_faults(&rt, alloc, &mut host, settings, input);
    assert!(rt; is_so(&host, Place::Settings, (Way::Read, "missing"), b"", 2));
    assert!(rt; is_so(&host, Place::Input, (Way::Read, "in"), b"", 1));
    Ok(())
}

#[test]
fn a_real_file_holds_what_was_written(rt: HostRuntime) -> Result<(), Fail> {
    let alloc = rt.alloc();
    let folder = env::temp_dir(&rt)?;
    let name = format!(in alloc; "io_traits_{}", process::id(rt.process()))?;
    let path = folder.join(alloc, name.as_str())?;
    let output = text(alloc, path.as_str())?;
    let input = text(alloc, path.as_str())?;
    let missing = text(alloc, path.as_str())?;
    reads_what_it_wrote(&rt, alloc, &mut FileHost::new(rt.clone()?), output, input);
    fs::remove_file(&rt, path.as_str())?;
    fails_without_a_file(&rt, &mut FileHost::new(rt.clone()?), missing);
    Ok(())
}
