// What the line of an accepted frame says of the engine.
ghost use Rattle.std.specs.Prelude.{◌≡◌};
ghost use Rattle.script_steps.specs.Values.{milliseconds_of, values_of};

use state::Engine;

#[derive(Clone, Copy)]
pub struct Values {
    pub sample: u64,
    pub ms: u64,
    pub active: u64,
    pub births: u64,
    pub dropped: u64,
    pub hash: u64,
    pub activity: u32,
}

// Samples * 1000 / rate, rounded down, at every count and lawful rate. Such a rate is a whole number of
// 2,048ths, since it is an f32 above 4,096; the samples are divided before they are multiplied, so that
// no product passes 64 bits.
fn milliseconds(samples: u64, rate: f32) -> u64
    ensures { result ≡ milliseconds_of samples rate }
{
    if settings::lawful_rate(rate) {
        let parts = floats::to_u64(f64::from(rate) * 2048.0);
        samples / parts * 2048000 + samples % parts * 2048000 / parts
    } else {
        0
    }
}

pub fn values_of(engine: &Engine, activity: f32) -> Values
    ensures { result ≡ values_of engine.now activity }
{
    let sample = engine::elapsed_samples(engine);
    Values {
        sample,
        ms: milliseconds(sample, floats::f64_to_f32(engine.prepared.sample_rate)),
        active: engine::active_count(engine) as u64,
        births: engine.tally.births,
        dropped: engine.tally.dropped,
        hash: engine.tally.decision_hash,
        activity: floats::bits(activity),
    }
}
