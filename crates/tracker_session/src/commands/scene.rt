// `scene`: writes the recording of a scene.
ghost use Rattle.std.specs.Prelude.{◌≡◌, None, IfOk, string_bytes};
ghost use Rattle.io_traits.specs.declared.host.Place.{Place};
ghost use Rattle.session_script.specs.Scripts.{Follows, end_of};
ghost use Rattle.tracker_session.specs.Scene.{scene_line, scene_script};

use io_traits::{Host, Place};
use session_script::{Status, open_file, write_file};
use std::alloc::{AllocError, Global};

/// Makes the recording of a scene, and writes it to Output.
pub fn scene<H: Host>(
    alloc: Global,
    seed: u64,
    aircraft: u16,
    seconds: u16,
    late: u8,
    output: String,
    host: &mut H,
) -> Result<String, Status>
    requires { (H.state host.old).bound Place.Output ≡ None }
    ensures { Follows (scene_script seed aircraft seconds late (string_bytes output)) (end_of result) (H.state host.old) (H.state host.new) }
{
    let octets = scene_gen::scene(alloc, seed, aircraft, seconds, late)?;
    open_file(Place::Output, output, host)?;
    write_file(Place::Output, &octets, host)?;
    Ok(scene_line(alloc, octets.len())?)
}

// The line of a recording of so many octets.
fn scene_line(alloc: Global, count: usize) -> Result<String, AllocError>
    ensures { IfOk result (λ s. string_bytes s ≡ scene_line count) }
{
    format!(in alloc; "octets {count}\n")
}
