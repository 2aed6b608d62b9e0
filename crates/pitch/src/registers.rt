// How a register counts by its height between 20 and 440 Hz, on a scale of octaves. Low ones are
// weighed down, never cut off.
ghost use Rattle.std.specs.Prelude.{◌≡◌};
ghost use Rattle.pitch.specs.Register.{height_of, register_strength, probability_of};

pub const PARTICLE_LOW_OPENING: f32 = 0.1;

pub const PARTICLE_LOW_PROBABILITY: f32 = 0.15;

// log2 of 20, and of 440 / 20 = 22: what `elementary::log2` gives.
pub const LOG_OF_MIN_HZ: f32 = 4.321928;

const LOG_OF_RANGE: f32 = 4.4594316;

pub fn register_height(log_hz: f32) -> f32
    ensures { result ≡ height_of log_hz }
{
    floats::clamp((log_hz - LOG_OF_MIN_HZ) / LOG_OF_RANGE, 0.0, 1.0)
}

pub fn register_strength(log_hz: f32) -> f32
    ensures { result ≡ register_strength log_hz }
{
    let height = register_height(log_hz);
    PARTICLE_LOW_OPENING + (1.0 - PARTICLE_LOW_OPENING) * height * height
}

pub fn register_probability(log_hz: f32) -> f32
    ensures { result ≡ probability_of log_hz }
{
    let height = register_height(log_hz);
    PARTICLE_LOW_PROBABILITY + (1.0 - PARTICLE_LOW_PROBABILITY) * height
}
