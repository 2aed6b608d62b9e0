// A frame: frees the places that are due, and shows every particle that holds one.
#![tactic(auto)]

ghost use Rattle.std.specs.Prelude.{◌≡◌, map};
ghost use Rattle.sequences.specs.Walk.{count};
ghost use Rattle.frame.specs.Frame.{activity_of, accepted};
ghost use Rattle.frame.specs.Freed.{is_freed, sweep_one};
ghost use Rattle.frame.specs.Shown.{shown_of};
ghost use Rattle.frame.specs.Call.{renewed_of, taken_of, framed_of, shown_by};

use places::Shown;
use pool::{MAX_PARTICLES, Particle};
use refusals::Refusal;
use state::Engine;
use windows::Frame;

mod partials;
mod places;

pub const TRANSITION_SECONDS: f32 = 0.05;

// What the definitions have of a frame's call: the engine after it, the frame, empty where it is refused,
// and the answer.
#[derive(Clone, Copy)]
pub struct Framed {
    pub engine: Engine,
    pub frame: Frame,
    pub answer: Result<(), Refusal>,
}

// The background comes and goes over 0.05 s; below 1e-6 a disabled one is gone.
fn activity(before: f32, enabled: bool, elapsed_seconds: f32) -> f32
    ensures { result ≡ activity_of before enabled elapsed_seconds }
{
    let target = floats::pick(enabled, 1.0, 0.0);
    let step = 1.0 - elementary::exp(-elapsed_seconds / TRANSITION_SECONDS);
    let after = before + (target - before) * step;
    if enabled {
        return after;
    }
    floats::pick(after < 0.000001, 0.0, after)
}

fn accepts(elapsed_seconds: f32) -> bool
    ensures { result ≡ accepted elapsed_seconds }
{
    if floats::is_finite(elapsed_seconds) {
        elapsed_seconds >= 0.0
    } else {
        false
    }
}

// The engine after a frame: the number of the places freed taken off, and the attempts renewed.
fn renew(engine: &mut Engine, freed: usize, activity: f32)
    ensures { engine.new ≡ renewed_of engine.old engine.old.particles freed activity }
{
    engine.activity = activity;
    engine.tally.attempts = 0;
    engine.tally.held = std::num::wrapping_sub_usize(engine.tally.held, freed);
}

// One pass over the places frees and counts those that are due, and works out what the others show.
// A place is stored only where it is freed, so that the others aren't copied.
fn sweep(
    particles: &mut [Particle; MAX_PARTICLES],
    shown: &mut [Shown; MAX_PARTICLES],
    sample: u64,
    rate: f64,
) -> usize
    ensures freed { result ≡ count (is_freed sample rate) particles.old }
    ensures held { particles.new ≡ map (sweep_one sample rate) particles.old }
    ensures shown { shown.new ≡ map (shown_of sample rate) particles.new }
{
    let mut freed: usize = 0;
    for (i, p) in particles.iter_mut().enumerate() {
        if places::freed(*p, sample, rate) {
            *p = Particle::default();
            shown[i] = places::nothing_shown();
            freed += 1;
        } else {
            shown[i] = places::show(*p, sample, rate);
        }
    }
    freed
}

// The frame of seconds that are accepted.
fn take(engine: &mut Engine, bin_hz: f32, elapsed_seconds: f32) -> Frame
    ensures frame { result ≡ (taken_of engine.old bin_hz elapsed_seconds).frame }
    ensures engine { engine.new ≡ (taken_of engine.old bin_hz elapsed_seconds).engine }
{
    let sample = engine.clock.sample;
    let rate = engine.prepared.sample_rate;
    let mut shown = [places::nothing_shown(); MAX_PARTICLES];
    let freed = sweep(&mut engine.particles, &mut shown, sample, rate);
    let logs = engine.prepared.partial_logs;
    let windows = partials::windows(shown, logs, bin_hz, pitch::max_hz(rate));
    let activity = activity(engine.activity, engine.config.enabled, elapsed_seconds);
    renew(engine, freed, activity);
    Frame { windows, activity }
}

// Evaluated once at the spectral boundary; it renews the attempts. The frame stands beside the answer and
// not in its `Ok`, since 01 has refusal 7 answer an empty one.
pub fn take_frame(
    engine: &mut Engine,
    bin_hz: f32,
    elapsed_seconds: f32,
) -> (Frame, Result<(), Refusal>)
    ensures answer { result ≡ shown_by (framed_of engine.old bin_hz elapsed_seconds) }
    ensures engine { engine.new ≡ (framed_of engine.old bin_hz elapsed_seconds).engine }
{
    if !accepts(elapsed_seconds) {
        return (Frame::default(), Err(Refusal::Seconds));
    }
    (take(engine, bin_hz, elapsed_seconds), Ok(()))
}
