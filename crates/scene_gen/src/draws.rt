// The numbers that a scene is drawn from.
ghost use Rattle.std.specs.Prelude.{◌≡◌, ◌<◌};
ghost use Rattle.scene_gen.specs.Draws.{after, drawn, generator_of};

use rand_core::utils::NextWord;
use rand_pcg::Pcg32;

// The stream of the generator of a scene.
const STREAM: u64 = 1;

/// The generator of a seed.
pub(crate) fn generator_of(seed: u64) -> Pcg32
    ensures { result ≡ generator_of seed }
{
    Pcg32::new(seed, STREAM)
}

/// A number below a limit, by the generator's next word.
pub(crate) fn draw(limit: u32, generator: &mut Pcg32) -> u32
    requires { 0 < limit }
    ensures drawn { result ≡ drawn limit generator.old }
    ensures range { result < limit }
    ensures after { generator.new ≡ after 1 generator.old }
{
    generator.next_word() % limit
}
