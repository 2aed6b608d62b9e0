// Sprinkle's octave: a register from 20 to 4186 Hz that lies whole octaves from the root. Low ones
// are rarer, and the direction tilts the choice.
ghost use Rattle.std.specs.Prelude.{◌≡◌};
ghost use Rattle.elementary.specs.Log2.{log2_of};
ghost use Rattle.pitch.specs.Octave.{upward_of, tilt_of, last_octave, span_of, weight_of, total_of, octave_chosen, first_octave, octave_drawn, octave_of, register_of};

use crate::registers;
use settings::Direction;

pub const SPRINKLE_MAX_HZ: f32 = 4186.01;

// log2 of 4186.01: what `elementary::log2` gives.
const LOG_OF_MAX_HZ: f32 = 12.03136;

// Where a note of this root sounds: so many octaves from it, and how strongly.
#[derive(Clone, Copy)]
pub struct Register {
    pub octave: f32,
    pub strength: f32,
}

fn upward(direction: Direction, index: u64) -> bool
    ensures { result ≡ upward_of direction index }
{
    match direction {
        Direction::Forward => true,
        Direction::Reverse => false,
        Direction::Alternate => index % 2 == 0,
    }
}

fn tilt(upward: bool, position: f32) -> f32
    ensures { result ≡ tilt_of upward position }
{
    floats::pick(upward, 0.5 + position, 1.5 - position)
}

// One less, which wraps: 6 or 7 inside the limits, and 2^32 - 1 where there is no octave.
fn last(count: u32) -> u32
    ensures { result ≡ last_octave count }
{
    std::num::wrapping_add_u32(count, 4294967295)
}

// The count of steps from the first octave to the last.
fn span(count: u32) -> f32
    ensures { result ≡ span_of count }
{
    std::num::nearest_u32_to_f32(last(count))
}

// How often the i-th octave is chosen; `low` is the logarithm of the first one's frequency.
fn weight(low: f32, span: f32, upward: bool, i: u32) -> f32
    ensures { result ≡ weight_of low span upward i }
{
    let step = std::num::nearest_u32_to_f32(i);
    let tilt = tilt(upward, step / span);
    registers::register_probability(low + step) * tilt
}

fn total(low: f32, span: f32, upward: bool, count: u32) -> f32
    ensures { result ≡ total_of low span upward count }
{
    (0..count).map(|i| weight(low, span, upward, i)).sum()
}

// The octave whose weight takes the target below 0, or the last one.
fn chosen(low: f32, span: f32, upward: bool, count: u32, target: f32) -> u32
    ensures { result ≡ octave_chosen low span upward count target }
{
    let mut left = target;
    for i in 0..count {
        left = left - weight(low, span, upward, i);
        if left < 0.0 {
            return i;
        }
    }
    last(count)
}

// log2 of the range's upper end, which is 4186.01 Hz at all but the lowest lawful rates.
fn log_of_upper(hz: f32) -> f32
    ensures { result ≡ log2_of hz }
{
    if floats::bits(hz) == 0x4582_d014 {
        return LOG_OF_MAX_HZ;
    }
    elementary::log2(hz)
}

// The lowest whole octave from the root that is at 20 Hz or above.
fn first(root_log: f32) -> f32
    ensures { result ≡ first_octave root_log }
{
    floats::ceil(registers::LOG_OF_MIN_HZ - root_log)
}

// Which of the octaves is drawn; `low` is the logarithm of the first one's frequency.
fn drawn(index: u64, low: f32, upward: bool, count: u32) -> u32
    ensures { result ≡ octave_drawn index low upward count }
{
    let span = span(count);
    let target = draws::random(index, draws::REGISTER) * total(low, span, upward, count);
    chosen(low, span, upward, count, target)
}

// Inside the limits the count is 7 or 8, for every root above 0 and finite.
fn octave(index: u64, root_log: f32, upper: f32, upward: bool) -> f32
    ensures { result ≡ octave_of index root_log upper upward }
{
    let first = first(root_log);
    let last = floats::floor(log_of_upper(upper) - root_log);
    let count = floats::to_u32(last - first + 1.0);
    let chosen = drawn(index, root_log + first, upward, count);
    first + std::num::nearest_u32_to_f32(chosen)
}

pub fn sprinkle_register(index: u64, root_hz: f32, max_hz: f32, direction: Direction) -> Register
    ensures { result ≡ register_of index root_hz max_hz direction }
{
    let upward = upward(direction, index);
    let upper = floats::min(SPRINKLE_MAX_HZ, max_hz);
    let root_log = elementary::log2(root_hz);
    let octave = octave(index, root_log, upper, upward);
    Register {
        octave,
        strength: registers::register_strength(root_log + octave),
    }
}
