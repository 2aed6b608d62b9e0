// What a frame shows: 192 windows over the logarithm of frequency, how far each opens a place there,
// and what a frame leaves of a frequency.
#![tactic(auto)]

ghost use Rattle.std.specs.Prelude.{◌≡◌};
ghost use Rattle.windows.specs.Opening.{cubic, taper_of, openness_of, empty_window, empty_frame};

mod attenuation;

pub use attenuation::attenuation_db;

// One harmonic of one particle.
#[derive(Clone, Copy)]
pub struct Window {
    pub center_log2_hz: f32,
    pub radius_octaves: f32,
    pub amplitude: f32,
}

#[derive(Clone, Copy)]
pub struct Frame {
    pub windows: [Window; 192],
    pub activity: f32,
}

impl Default for Window {
    ghost is_default = { λ x. x ≡ empty_window };

    fn default() -> Window {
        Window {
            center_log2_hz: 0.0,
            radius_octaves: 0.0,
            amplitude: 0.0,
        }
    }
}

impl Default for Frame {
    ghost is_default = { λ x. x ≡ empty_frame };

    fn default() -> Frame {
        Frame {
            windows: [Window::default(); 192],
            activity: 0.0,
        }
    }
}

fn bent(x: f32) -> f32
    ensures { result ≡ cubic x }
{
    x * x * (3.0 - 2.0 * x)
}

pub fn taper(x: f32) -> f32
    ensures { result ≡ taper_of x }
{
    bent(floats::clamp(x, 0.0, 1.0))
}

// What is taken from 1 is never negative, so of the Rust's two clamps one test is left.
pub fn openness(w: Window, log2_hz: f32) -> f32
    ensures { result ≡ openness_of w log2_hz }
{
    if w.radius_octaves <= 0.0 {
        return 0.0;
    }
    let x = 1.0 - floats::abs(log2_hz - w.center_log2_hz) / w.radius_octaves;
    w.amplitude * bent(floats::pick(x < 0.0, 0.0, x))
}
