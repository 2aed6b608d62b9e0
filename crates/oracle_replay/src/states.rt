// The state of an engine as bytes in a lent buffer, for the comparison with the Rust alone.
ghost use Rattle.std.specs.Prelude.{◌≡◌};
ghost use Rattle.text.specs.Put.{place_of, buffer_of};
ghost use Rattle.oracle_replay.specs.State.{state_bytes};

use crate::written;
use state::Engine;

// 14,184 bytes from a place on, and the place after them. Where they do not fit none is written, and
// the place is past the buffer's end.
pub fn put_state(out: &mut [u8], at: usize, engine: Engine) -> usize
    ensures { (result ≡ place_of out.old at (state_bytes engine)) × (out.new ≡ buffer_of out.old at (state_bytes engine)) }
{
    if out.len() < at {
        return out.len() + 1;
    }
    if out.len() - at < 14184 {
        return out.len() + 1;
    }
    written::put_engine(out, at, engine)
}
