// The tally of births: one more that was dropped; or one more that was born and holds a place, and the
// hash of decisions.
ghost use Rattle.std.specs.Prelude.{◌≡◌};
ghost use Rattle.state.specs.Tallies.{dropped_one, particle_word, hash_of, born_one};

use crate::Tally;
use pool::Particle;

pub fn drop_one(tally: Tally) -> Tally
    ensures { result ≡ dropped_one tally }
{
    let dropped = tally.dropped.wrapping_add(1);
    let mut out = tally;
    out.dropped = dropped;
    out
}

fn word(a: u8, b: u8, c: u8) -> u64
    ensures { result ≡ particle_word a b c }
{
    a as u64 + b as u64 * 256 + c as u64 * 65536
}

fn hash(before: u64, index: u64, sample: u64, p: Particle) -> u64
    ensures { result ≡ hash_of before index sample p }
{
    let partials = p.partials;
    let turned = floats::rotate_left(sample, 19);
    let bits = floats::bits(p.frequency_hz) as u64;
    let word = word(partials[0], partials[1], partials[2]);
    draws::mix(before ^ index ^ turned ^ bits ^ word)
}

pub fn bear_one(tally: Tally, index: u64, sample: u64, p: Particle) -> Tally
    ensures { result ≡ born_one tally index sample p }
{
    let births = tally.births.wrapping_add(1);
    let held = std::num::wrapping_add_usize(tally.held, 1);
    let decision_hash = hash(tally.decision_hash, index, sample, p);
    let mut out = tally;
    out.births = births;
    out.decision_hash = decision_hash;
    out.held = held;
    out
}
