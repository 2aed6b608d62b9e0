// A birth, handed on; and what it makes: a new particle, from the settings, the clock and the voice at
// its birth.
#![tactic(auto)]

ghost use Rattle.std.specs.Prelude.{◌≡◌};
ghost use Rattle.births.specs.Births.{register_by, width_of, opening_of, strength_of, ratio_of, partials_by, power_by, newborn_of};

use pitch::Register;
use pool::Particle;
use settings::{Config, Direction, MAX_PARTIALS, Shape};
use voices::Voice;

mod arrivals;
mod voices;

pub use arrivals::{bear, birth};

pub const SPRINKLE_DECAY_POWER: u32 = 3;

pub const SPRINKLE_WIDTH_RANGE: [f32; 2] = [0.65, 1.25];

// The window's opening varies, never the background's attenuation.
pub const SPRINKLE_OPENING_RANGE: [f32; 2] = [0.85, 1.0];

// A Cloud's particle stays at its pitch.
fn register(shape: Shape, index: u64, hz: f32, max_hz: f32, direction: Direction) -> Register
    ensures { result ≡ register_by shape index hz max_hz direction }
{
    match shape {
        Shape::Sprinkle => pitch::sprinkle_register(index, hz, max_hz, direction),
        Shape::Cloud => {
            let strength = pitch::register_strength(elementary::log2(hz));
            Register {
                octave: 0.0,
                strength,
            }
        }
    }
}

fn width(shape: Shape, size: f32, index: u64) -> f32
    ensures { result ≡ width_of shape size index }
{
    match shape {
        Shape::Sprinkle => {
            let range = SPRINKLE_WIDTH_RANGE;
            size * 0.5 * (range[0] + (range[1] - range[0]) * draws::random(index, draws::WIDTH))
        }
        Shape::Cloud => size * 0.5 * 1.0,
    }
}

fn opening(shape: Shape, index: u64) -> f32
    ensures { result ≡ opening_of shape index }
{
    match shape {
        Shape::Sprinkle => {
            let range = SPRINKLE_OPENING_RANGE;
            range[0] + (range[1] - range[0]) * draws::random(index, draws::OPENING)
        }
        Shape::Cloud => 1.0,
    }
}

fn strength(shape: Shape, given: f32, register: f32, index: u64) -> f32
    ensures { result ≡ strength_of shape given register index }
{
    given * register * opening(shape, index)
}

// Which multiple of the particle's pitch is `max_hz`.
fn ratio(hz: f32, octave: f32, max_hz: f32) -> f32
    ensures { result ≡ ratio_of hz octave max_hz }
{
    max_hz / elementary::exp2(elementary::log2(hz) + octave)
}

fn partials(
    shape: Shape,
    index: u64,
    weights: [f32; MAX_PARTIALS],
    limit: usize,
    hz: f32,
    octave: f32,
    max_hz: f32,
) -> [u8; 3]
    ensures { result ≡ partials_by shape index weights limit hz octave max_hz }
{
    match shape {
        Shape::Sprinkle => pitch::select_partials(index, weights, limit, ratio(hz, octave, max_hz)),
        Shape::Cloud => [1u8, 0u8, 0u8],
    }
}

fn decay_power(shape: Shape) -> u32
    ensures { result ≡ power_by shape }
{
    match shape {
        Shape::Sprinkle => SPRINKLE_DECAY_POWER,
        Shape::Cloud => 1,
    }
}

pub fn newborn(
    index: u64,
    voice: Voice,
    config: Config,
    sample_rate: f64,
    sample: u64,
    weights: [f32; MAX_PARTIALS],
) -> Particle
    ensures { result ≡ newborn_of index voice config sample_rate sample weights }
{
    let shape = config.shape;
    let direction = config.direction;
    let hz = voice.frequency_hz;
    let max_hz = pitch::max_hz(sample_rate);
    let contour = settings::envelope(config, index, floats::f64_to_f32(sample_rate));
    let register = register(shape, index, hz, max_hz, direction);
    let width = width(shape, config.size_octaves, index);
    let strength = strength(shape, voice.strength, register.strength, index);
    let partials = partials(
        shape,
        index,
        weights,
        config.partials,
        hz,
        register.octave,
        max_hz,
    );
    Particle {
        active: true,
        source: voice.slot,
        birth: sample,
        lifetime: f64::from(contour.lifetime),
        frequency_hz: hz,
        octave: register.octave,
        width,
        strength,
        attack: contour.attack,
        decay_power: decay_power(shape),
        partials,
        retirement: None,
    }
}
