// The samples at which nothing is due: only the clock moves, and no engine is touched.
ghost use Rattle.std.specs.Prelude.{◌≡◌, ◌==◌, to_bits};
ghost use Rattle.std.specs.Float.{binary64};
ghost use Rattle.engine_samples.specs.Sample.{glided_of};
ghost use Rattle.engine_samples.specs.Waiting.{starts_at, starts_of, nothing_due, tempo_of, clock_after, waited_of, Underway};

use crate::sample;
use settings::{Config, Shape};
use state::Clock;
use timing::{SPRINKLE_STREAMS, SprinkleStream};

// The next starts, in cycles of the Rate clock: one for each lane, or three times the Cloud's.
#[derive(Clone, Copy)]
pub struct Starts {
    pub first: f64,
    pub second: f64,
    pub third: f64,
}

// What moves the clock in a sample.
#[derive(Clone, Copy)]
pub struct Tempo {
    pub scheduled: bool,
    pub step: f64,
    pub phase: f32,
    pub alpha: f64,
}

// The clock after so many samples.
#[derive(Clone, Copy)]
pub struct Waited {
    pub clock: Clock,
    pub count: u64,
}

fn starts_at(first: f64, second: f64, third: f64) -> Starts
    ensures { result ≡ starts_at first second third }
{
    Starts {
        first,
        second,
        third,
    }
}

// Where no birth is scheduled no start is ever due.
pub fn next_starts(
    config: Config,
    streams: [SprinkleStream; SPRINKLE_STREAMS],
    opportunity: u64,
) -> Starts
    ensures { result ≡ starts_of config.scheduled config.shape streams opportunity }
{
    let shape = config.shape;
    if config.scheduled {
        return match shape {
            Shape::Sprinkle => {
                let first = streams[0];
                let second = streams[1];
                let third = streams[2];
                starts_at(first.next, second.next, third.next)
            }
            Shape::Cloud => {
                let next = timing::timing_reference(opportunity);
                starts_at(next, next, next)
            }
        };
    }
    let never = floats::of_bits(0x7ff0_0000_0000_0000);
    starts_at(never, never, never)
}

pub fn tempo_of(config: Config, sample_rate: f64, phase_alpha: f64) -> Tempo
    ensures { result ≡ tempo_of config sample_rate phase_alpha }
{
    Tempo {
        scheduled: config.scheduled,
        step: f64::from(config.rate_hz) / sample_rate,
        phase: config.phase,
        alpha: phase_alpha,
    }
}

// The clock after a sample: the phase, only when births are scheduled, the offset and the count.
pub fn clock_after(clock: Clock, tempo: Tempo) -> Clock
    ensures { result ≡ clock_after tempo clock }
{
    let sample = clock.sample.wrapping_add(1);
    let phase = floats::pick(tempo.scheduled, clock.phase + tempo.step, clock.phase);
    let phase_offset = sample::glide(clock.phase_offset, tempo.phase, tempo.alpha);
    Clock {
        sample,
        phase,
        phase_offset,
    }
}

// Before every start.
fn nothing_due(reference: f64, starts: Starts) -> bool
    ensures { result ≡ nothing_due starts reference }
{
    if reference < starts.first {
        if reference < starts.second {
            reference < starts.third
        } else {
            false
        }
    } else {
        false
    }
}

// The zeros differ, and a NaN is itself.
fn same_bits(a: f64, b: f64) -> bool
    ensures { result ≡ (to_bits binary64 a == to_bits binary64 b) }
{
    floats::bits(a) == floats::bits(b)
}

// With an offset that stays: two sums a sample, for the reference and for the phase.
fn wait_at_rest(clock: Clock, starts: Starts, tempo: Tempo, n: u64) -> Waited
    requires { glided_of clock.phase_offset tempo.phase tempo.alpha ≡ clock.phase_offset }
    ensures { result ≡ waited_of starts tempo n clock }
{
    let phase_offset = clock.phase_offset;
    let mut sample = clock.sample;
    let mut phase = clock.phase;
    let mut count: u64 = 0;
    // Counts what it answers: the samples until something is due.
    while count < n {
        if nothing_due(phase + phase_offset, starts) {} else {
            break;
        }
        sample = sample.wrapping_add(1);
        phase = floats::pick(tempo.scheduled, phase + tempo.step, phase);
        count = count + 1;
    }
    let clock = Clock {
        sample,
        phase,
        phase_offset,
    };
    Waited { clock, count }
}

// With an offset that glides, as far as three operations a sample give the bits of `glide`, which has
// five that wait for one another. `quick` is `glide` without the half that comes and goes, and with the
// whole cycles taken off once for all; nearly always the two are the same. A sample goes on with
// `quick`, so that the processor, which foresees the branch, works out `glide` beside the samples that
// follow; a choice of one of the two would wait for both. It ends early where they differ, and where
// the offset stays.
fn wait_gliding(clock: Clock, starts: Starts, tempo: Tempo, n: u64) -> Waited
    ensures { Underway starts tempo n clock result.count result.clock }
{
    let mut sample = clock.sample;
    let mut phase = clock.phase;
    let mut phase_offset = clock.phase_offset;
    let setting = f64::from(tempo.phase);
    let aim = setting - floats::floor(setting - phase_offset + 0.5);
    let mut count: u64 = 0;
    // Counts what it answers: the samples until something is due.
    while count < n {
        if nothing_due(phase + phase_offset, starts) {} else {
            break;
        }
        let quick = phase_offset + (aim - phase_offset) * tempo.alpha;
        let later = sample::glide(phase_offset, tempo.phase, tempo.alpha);
        if same_bits(quick, later) {} else {
            break;
        }
        if same_bits(quick, phase_offset) {
            break;
        }
        sample = sample.wrapping_add(1);
        phase = floats::pick(tempo.scheduled, phase + tempo.step, phase);
        phase_offset = quick;
        count = count + 1;
    }
    let clock = Clock {
        sample,
        phase,
        phase_offset,
    };
    Waited { clock, count }
}

// At most n samples, up to the first at which something is due.
pub fn wait(clock: Clock, starts: Starts, tempo: Tempo, n: u64) -> Waited
    ensures { result ≡ waited_of starts tempo n clock }
{
    let mut sample = clock.sample;
    let mut phase = clock.phase;
    let mut phase_offset = clock.phase_offset;
    let mut count: u64 = 0;
    // Counts what it answers: the samples until something is due.
    while count < n {
        if nothing_due(phase + phase_offset, starts) {} else {
            break;
        }
        let later = sample::glide(phase_offset, tempo.phase, tempo.alpha);
        if same_bits(later, phase_offset) {
            let here = Clock {
                sample,
                phase,
                phase_offset,
            };
            let more = wait_at_rest(here, starts, tempo, n - count);
            let clock = more.clock;
            return Waited {
                clock,
                count: count + more.count,
            };
        }
        let here = Clock {
            sample: sample.wrapping_add(1),
            phase: floats::pick(tempo.scheduled, phase + tempo.step, phase),
            phase_offset: later,
        };
        count = count + 1;
        let more = wait_gliding(here, starts, tempo, n - count);
        sample = more.clock.sample;
        phase = more.clock.phase;
        phase_offset = more.clock.phase_offset;
        count = count + more.count;
    }
    let clock = Clock {
        sample,
        phase,
        phase_offset,
    };
    Waited { clock, count }
}
