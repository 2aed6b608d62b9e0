// What follows from the sample rate, and an engine as it starts.
ghost use Rattle.std.specs.Prelude.{◌≡◌};
ghost use Rattle.state.specs.Make.{partial_logs_of, weights_of, alpha_of, prepared_of, new_on};

use crate::{Clock, Engine, Next, Prepared, Tally};
use pool::Particle;
use settings::{Config, MAX_PARTIALS};
use sources::Source;

fn partial_logs() -> [f32; MAX_PARTIALS]
    ensures { result ≡ partial_logs_of }
{
    std::array::from_fn(|i| elementary::log2(floats::u64_to_f32(i as u64 + 1)))
}

// How likely each harmonic is, at so many decibels an octave.
pub fn weights(partial_logs: [f32; MAX_PARTIALS], rolloff_db: f32) -> [f32; MAX_PARTIALS]
    ensures { result ≡ weights_of partial_logs rolloff_db }
{
    let mut out = [0.0; MAX_PARTIALS];
    // The library's `map`, and `iter_mut`, were tried: a change of settings took 6.6 and 4.4 us, this 3.7.
    for i in 0..MAX_PARTIALS {
        out[i] = elementary::db_to_gain(-rolloff_db * partial_logs[i]);
    }
    out
}

// How far the offset glides in a sample.
fn alpha(rate: f64) -> f64
    ensures { result ≡ alpha_of rate }
{
    1.0 - elementary::exp64(-1.0 / (0.05 * rate))
}

pub fn prepare(sample_rate: f32) -> Prepared
    ensures { result ≡ prepared_of sample_rate }
{
    let rate = f64::from(sample_rate);
    let partial_logs = partial_logs();
    let default_partial_weights = weights(partial_logs, 6.0);
    Prepared {
        sample_rate: rate,
        phase_alpha: alpha(rate),
        partial_logs,
        default_partial_weights,
    }
}

pub fn from_prepared(prepared: Prepared) -> Engine
    ensures { result ≡ new_on prepared }
{
    let partial_weights = prepared.default_partial_weights;
    let streams = [
        timing::new_stream(0, false),
        timing::new_stream(1, false),
        timing::new_stream(2, false),
    ];
    let config = Config::default();
    let free = Particle::default();
    let none = Source::default();
    let clock = Clock {
        sample: 0,
        phase: 0.0,
        phase_offset: 0.0,
    };
    let next = Next {
        opportunity: 0,
        immediate_index: 0,
        last_source: None,
        note_input_present: false,
    };
    let tally = Tally {
        attempts: 0,
        births: 0,
        dropped: 0,
        decision_hash: 0,
        held: 0,
    };
    Engine {
        particles: [free; pool::MAX_PARTICLES],
        sources: [none; sources::MAX_SOURCES],
        prepared,
        clock,
        next,
        streams,
        partial_weights,
        tally,
        config,
        activity: 0.0,
    }
}
