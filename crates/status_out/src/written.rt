// A record that was read, compared with what this system writes.
ghost use Rattle.std.specs.Prelude.{◌≡◌, ◌≤◌, ◌-◌, MatchBool, length, take, drop};

// Whether the octets of a body from an offset up to another are these.
pub(crate) fn stand_there(written: &[u8], body: &[u8], from: usize, next: usize) -> bool
    requires begins { from ≤ next }
    requires within { next ≤ length body.now }
    ensures { MatchBool result (written.now ≡ take (next - from) (drop from body.now)) (written.now ≡ take (next - from) (drop from body.now) → ⊥) }
{
    written == &body[from..next]
}
