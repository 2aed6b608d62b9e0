// The places at a frame: which are freed, and what the particles in the others show.
ghost use Rattle.std.specs.Prelude.{◌≡◌, ◌&&◌};
ghost use Rattle.frame.specs.Freed.{seconds_of, retirement_of, due_of};
ghost use Rattle.frame.specs.Shown.{power_of, envelope_of, fade_of, amplitude_of, nothing, shown_of};

use pool::Particle;

pub const RETIRE_SECONDS: f64 = 0.02;

// What a particle shows: its root on the scale of octaves, and how strong and wide its windows are.
#[derive(Clone, Copy)]
pub struct Shown {
    pub root_log: f32,
    pub amplitude: f32,
    pub width: f32,
    pub partials: [u8; 3],
}

// Below 2^32 samples, a day at 48 kHz, one instruction makes the float.
fn seconds(since: u64, sample: u64, rate: f64) -> f64
    ensures { result ≡ seconds_of since sample rate }
{
    let elapsed = sample.wrapping_sub(since);
    if elapsed < 4294967296 {
        return (elapsed as f64) / rate;
    }
    std::num::nearest_u64_to_f64(elapsed) / rate
}

fn retirement(k: Option<u64>, sample: u64, rate: f64) -> f64
    ensures { result ≡ retirement_of k sample rate }
{
    match k {
        None => 0.0,
        Some(at) => seconds(at, sample, rate) / RETIRE_SECONDS,
    }
}

fn due(p: Particle, sample: u64, rate: f64) -> bool
    ensures { result ≡ due_of sample rate p }
{
    let k = p.retirement;
    if seconds(p.birth, sample, rate) >= p.lifetime {
        return true;
    }
    retirement(k, sample, rate) >= 1.0
}

// Whether a frame frees the place.
pub fn freed(p: Particle, sample: u64, rate: f64) -> bool
    ensures { result ≡ (p.active && due_of sample rate p) }
{
    if p.active {
        return due(p, sample, rate);
    }
    false
}

fn powered(x: f32, power: u32) -> f32
    ensures { result ≡ power_of x power }
{
    if power == 3 {
        return x * x * x;
    }
    x
}

fn envelope(x: f32, attack: f32, decay_power: u32) -> f32
    ensures { result ≡ envelope_of x attack decay_power }
{
    if x < attack {
        return windows::taper(x / attack);
    }
    powered(windows::taper((1.0 - x) / (1.0 - attack)), decay_power)
}

// A particle that isn't retired shows in full.
fn fade(p: Particle, sample: u64, rate: f64) -> f32
    ensures { result ≡ fade_of sample rate p }
{
    let k = p.retirement;
    match k {
        None => 1.0,
        Some(_) => windows::taper(1.0 - floats::f64_to_f32(retirement(k, sample, rate))),
    }
}

fn amplitude(p: Particle, sample: u64, rate: f64) -> f32
    ensures { result ≡ amplitude_of sample rate p }
{
    let x = floats::f64_to_f32(seconds(p.birth, sample, rate) / p.lifetime);
    p.strength * envelope(x, p.attack, p.decay_power) * fade(p, sample, rate)
}

pub fn nothing_shown() -> Shown
    ensures { result ≡ nothing }
{
    Shown {
        root_log: 0.0,
        amplitude: 0.0,
        width: 0.0,
        partials: [0u8; 3],
    }
}

// A free place shows nothing.
pub fn show(p: Particle, sample: u64, rate: f64) -> Shown
    ensures { result ≡ shown_of sample rate p }
{
    if p.active {
        let partials = p.partials;
        let root_log = elementary::log2(p.frequency_hz) + p.octave;
        let amplitude = amplitude(p, sample, rate);
        return Shown {
            root_log,
            amplitude,
            width: p.width,
            partials,
        };
    }
    nothing_shown()
}
