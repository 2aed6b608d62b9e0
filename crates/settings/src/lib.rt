// The settings: what may be asked for, its default, the hop and the sample rates that are refused; their
// mending, and the envelope of a birth; shapes and directions by their numbers.
#![tactic(auto)]

ghost use Rattle.std.specs.Prelude.{◌≡◌};
ghost use Rattle.settings.specs.Settings.{is_sprinkle, default_config, checked_of, lawful_rate};

use refusals::Refusal;

mod by_number;
mod envelopes;
mod mending;

pub use envelopes::{Contour, envelope};
pub use mending::{MAX_PARTIALS, mended};

// Added by 01: a larger hop is refused.
pub const MAX_HOP_SAMPLES: usize = 16384;

#[derive(Clone, Copy, PartialEq, Eq)]
pub enum Shape {
    Sprinkle,
    Cloud,
}

#[derive(Clone, Copy, PartialEq, Eq)]
pub enum Direction {
    Forward,
    Reverse,
    Alternate,
}

#[derive(Clone, Copy)]
pub struct Config {
    pub enabled: bool,
    pub shape: Shape,
    pub direction: Direction,
    pub rate_hz: f32,
    pub size_octaves: f32,
    // The offset of the Rate cycle, in cycles. Changes glide rather than jump.
    pub phase: f32,
    // Where false, the Rate clock holds and scheduled births stop; triggers still give particles.
    pub scheduled: bool,
    // Puts Sprinkle's starts on quarters of the Rate cycle.
    pub sync: bool,
    pub hop_samples: usize,
    pub partials: usize,
    pub partial_rolloff_db: f32,
    // Sprinkle's onset, and its decay after the peak, captured at birth.
    pub attack_ms: f32,
    pub release_ms: f32,
}

pub fn is_sprinkle(shape: Shape) -> bool
    ensures { result ≡ is_sprinkle shape }
{
    shape == Shape::Sprinkle
}

impl Default for Config {
    ghost is_default = { λ x. x ≡ default_config };

    fn default() -> Config {
        Config {
            enabled: true,
            shape: Shape::Sprinkle,
            direction: Direction::Forward,
            rate_hz: 1.0,
            size_octaves: 1.0,
            phase: 0.0,
            scheduled: true,
            sync: false,
            hop_samples: 2048,
            partials: 1,
            partial_rolloff_db: 6.0,
            attack_ms: 0.0,
            release_ms: 70.0,
        }
    }
}

pub fn checked(config: Config) -> Result<(), Refusal>
    ensures { result ≡ checked_of config }
{
    if config.hop_samples > MAX_HOP_SAMPLES {
        Err(Refusal::Size)
    } else {
        Ok(())
    }
}

// Added by 01: any other sample rate is refused.
pub const MIN_RATE: f32 = 8000.0;

pub const MAX_RATE: f32 = 384000.0;

pub fn lawful_rate(sample_rate: f32) -> bool
    ensures { result ≡ lawful_rate sample_rate }
{
    floats::is_finite(sample_rate) && sample_rate >= MIN_RATE && sample_rate <= MAX_RATE
}
