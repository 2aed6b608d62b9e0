// The free Cloud's frequency: a density that rises in a line with the logarithm up to 440 Hz and is
// flat above, inverted directly.
ghost use Rattle.std.specs.Prelude.{◌≡◌};
ghost use Rattle.pitch.specs.Cloud.{ramp_of, slope_of, mass_of, in_ramp, offset_of, frequency_of};

use crate::registers;

// log2 of 440: what `elementary::log2` gives.
const LOG_OF_FULL_OPENING_HZ: f32 = 8.78136;

// Octaves from the lower end to 440 Hz.
fn ramp(lower: f32) -> f32
    ensures { result ≡ ramp_of lower }
{
    LOG_OF_FULL_OPENING_HZ - lower
}

fn slope(ramp: f32) -> f32
    ensures { result ≡ slope_of ramp }
{
    (1.0 - registers::PARTICLE_LOW_PROBABILITY) / ramp
}

// What lies below the end of the ramp.
fn mass(slope: f32, end: f32) -> f32
    ensures { result ≡ mass_of slope end }
{
    registers::PARTICLE_LOW_PROBABILITY * end + 0.5 * slope * end * end
}

// Where the density's integral reaches the target within the ramp.
fn in_ramp(slope: f32, target: f32) -> f32
    ensures { result ≡ in_ramp slope target }
{
    let low = registers::PARTICLE_LOW_PROBABILITY;
    let root = elementary::sqrt(low * low + 2.0 * slope * target);
    2.0 * target / (low + root)
}

fn offset(slope: f32, ramp: f32, mass: f32, target: f32) -> f32
    ensures { result ≡ offset_of slope ramp mass target }
{
    if target <= mass {
        return in_ramp(slope, target);
    }
    ramp + target - mass
}

// Inside the limits the range, `span` octaves from 20 Hz, goes on past the ramp.
pub fn free_cloud_frequency(index: u64, max_hz: f32) -> f32
    ensures { result ≡ frequency_of index max_hz }
{
    let lower = registers::LOG_OF_MIN_HZ;
    let span = elementary::log2(max_hz) - lower;
    let ramp = ramp(lower);
    let slope = slope(ramp);
    let mass = mass(slope, ramp);
    let draw = draws::random(index, draws::SOURCE);
    let target = draw * (mass + (span - ramp));
    let offset = offset(slope, ramp, mass, target);
    elementary::exp2(lower + offset)
}
