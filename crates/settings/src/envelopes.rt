// The envelope of one new particle, from the settings at its birth.
ghost use Rattle.std.specs.Prelude.{◌≡◌};
ghost use Rattle.settings.specs.Envelope.{hop_floor_of, onset_of, release_of, sprinkle_contour, raw_of, cloud_lifetime_of, cloud_attack_of, cloud_contour, contour_of};

use crate::{Config, Direction, Shape};

pub const LIFETIME_BASE: f32 = 0.2;

pub const LIFETIME_SIZE: f32 = 0.3;

pub const LIFETIME_VARIATION: f32 = 0.15;

pub const SPRINKLE_MIN_STAGE_SECONDS: f32 = 0.002;

pub const CLOUD_ATTACK: f32 = 0.5;

pub const REVERSE_ATTACK: f32 = 0.85;

pub const CLOUD_LIFETIME_SCALE: f32 = 2.0;

// What a new particle captures: its duration in seconds, and the fraction of it before the peak.
#[derive(Clone, Copy)]
pub struct Contour {
    pub lifetime: f32,
    pub attack: f32,
}

fn hop_floor(hop_samples: usize, sample_rate: f32) -> f32
    ensures { result ≡ hop_floor_of hop_samples sample_rate }
{
    2.0 * floats::u64_to_f32(hop_samples as u64) / sample_rate
}

fn onset(attack_ms: f32) -> f32
    ensures { result ≡ onset_of attack_ms }
{
    floats::max(attack_ms * 0.001, SPRINKLE_MIN_STAGE_SECONDS)
}

fn release(release_ms: f32, hop_floor: f32, onset: f32) -> f32
    ensures { result ≡ release_of release_ms hop_floor onset }
{
    let stage = floats::max(release_ms * 0.001, SPRINKLE_MIN_STAGE_SECONDS);
    floats::max(stage, hop_floor - onset)
}

// The milliseconds own the contour: neither Rate nor Size rescales a stage.
fn sprinkle(attack_ms: f32, release_ms: f32, hop_floor: f32) -> Contour
    ensures { result ≡ sprinkle_contour attack_ms release_ms hop_floor }
{
    let onset = onset(attack_ms);
    let release = release(release_ms, hop_floor, onset);
    let lifetime = onset + release;
    Contour {
        lifetime,
        attack: onset / lifetime,
    }
}

// Before it is held to its range.
fn raw(size: f32, rate: f32, index: u64) -> f32
    ensures { result ≡ raw_of size rate index }
{
    let draw = draws::random(index, draws::LIFETIME);
    let variation = 1.0 + LIFETIME_VARIATION * (2.0 * draw - 1.0);
    let base = LIFETIME_BASE + LIFETIME_SIZE * elementary::sqrt(size);
    CLOUD_LIFETIME_SCALE * base / elementary::sqrt(rate) * variation
}

fn cloud_lifetime(size: f32, rate: f32, index: u64, hop_floor: f32) -> f32
    ensures { result ≡ cloud_lifetime_of size rate index hop_floor }
{
    let minimum = floats::max(0.06, hop_floor);
    floats::clamp(raw(size, rate, index), minimum, floats::max(4.0, minimum))
}

fn cloud_attack(direction: Direction, index: u64) -> f32
    ensures { result ≡ cloud_attack_of direction index }
{
    match direction {
        Direction::Forward => CLOUD_ATTACK,
        Direction::Reverse => REVERSE_ATTACK,
        Direction::Alternate => {
            if index % 2 == 0 {
                CLOUD_ATTACK
            } else {
                REVERSE_ATTACK
            }
        }
    }
}

fn cloud(config: Config, index: u64, hop_floor: f32) -> Contour
    ensures { result ≡ cloud_contour config index hop_floor }
{
    let direction = config.direction;
    Contour {
        lifetime: cloud_lifetime(config.size_octaves, config.rate_hz, index, hop_floor),
        attack: cloud_attack(direction, index),
    }
}

pub fn envelope(config: Config, index: u64, sample_rate: f32) -> Contour
    ensures { result ≡ contour_of config index sample_rate }
{
    let shape = config.shape;
    let hop_floor = hop_floor(config.hop_samples, sample_rate);
    match shape {
        Shape::Sprinkle => sprinkle(config.attack_ms, config.release_ms, hop_floor),
        Shape::Cloud => cloud(config, index, hop_floor),
    }
}
