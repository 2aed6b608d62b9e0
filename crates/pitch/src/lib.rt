// Where a new particle sounds: how often and how strongly a register is chosen, the free Cloud's
// frequency, Sprinkle's octave, the harmonics of one particle, and the highest frequency of a rate.
#![tactic(auto)]

ghost use Rattle.std.specs.Prelude.{◌≡◌};
ghost use Rattle.pitch.specs.Highest.{max_hz_of};

mod cloud;
mod harmonics;
mod octaves;
mod registers;

pub use cloud::free_cloud_frequency;
pub use harmonics::select_partials;
pub use octaves::{Register, sprinkle_register};
pub use registers::{register_height, register_probability, register_strength};

// Nothing sounds from here up.
pub fn max_hz(sample_rate: f64) -> f32
    ensures { result ≡ max_hz_of sample_rate }
{
    floats::min(floats::f64_to_f32(sample_rate) * 0.5, 20000.0)
}
