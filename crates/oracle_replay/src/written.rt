// The state as bytes in a lent buffer: 8 for each number, the highest first.
ghost use Rattle.text.specs.Put.{Put};
ghost use Rattle.big_endian.specs.Bytes.{bytes64};
ghost use Rattle.oracle_replay.specs.State.{words_bytes, harmonics_bytes, streams_bytes, sources_bytes, particles_bytes, state_bytes};

use pool::{MAX_PARTICLES, Particle};
use sources::{MAX_SOURCES, Source};
use state::Engine;
use timing::{SPRINKLE_STREAMS, SprinkleStream};

fn put_word(out: &mut [u8], at: usize, n: u64) -> usize
    ensures { Put out.old out.new at result (bytes64 n) }
{
    let bytes = big_endian::bytes64(n);
    text::put(out, at, &bytes)
}

fn put_words(out: &mut [u8], at: usize, words: &[u64]) -> usize
    ensures { Put out.old out.new at result (words_bytes words.now) }
{
    let mut at = at;
    for word in words {
        at = put_word(out, at, *word);
    }
    at
}

fn put_harmonics(
    out: &mut [u8],
    at: usize,
    logs: [f32; 24],
    defaults: [f32; 24],
    weights: [f32; 24],
) -> usize
    ensures { Put out.old out.new at result (harmonics_bytes logs defaults weights) }
{
    let mut at = at;
    // Three arrays are read at one place: zipped they would be nested pairs, no plainer.
    for i in 0..24 {
        let words = crate::numbers::harmonic(logs[i], defaults[i], weights[i]);
        at = put_words(out, at, &words);
    }
    at
}

fn put_streams(out: &mut [u8], at: usize, streams: [SprinkleStream; SPRINKLE_STREAMS]) -> usize
    ensures { Put out.old out.new at result (streams_bytes streams) }
{
    let mut at = at;
    for stream in &streams {
        let words = crate::numbers::stream(*stream);
        at = put_words(out, at, &words);
    }
    at
}

fn put_sources(out: &mut [u8], at: usize, sources: [Source; MAX_SOURCES]) -> usize
    ensures { Put out.old out.new at result (sources_bytes sources) }
{
    let mut at = at;
    for source in &sources {
        let words = crate::numbers::source(*source);
        at = put_words(out, at, &words);
    }
    at
}

fn put_particles(out: &mut [u8], at: usize, particles: [Particle; MAX_PARTICLES]) -> usize
    ensures { Put out.old out.new at result (particles_bytes particles) }
{
    let mut at = at;
    for particle in &particles {
        let words = crate::numbers::particle(*particle);
        at = put_words(out, at, &words);
    }
    at
}

// 1,773 numbers, in the order of `oracle state`.
pub fn put_engine(out: &mut [u8], at: usize, engine: Engine) -> usize
    ensures { Put out.old out.new at result (state_bytes engine) }
{
    let config = engine.config;
    let prepared = engine.prepared;
    let weights = engine.partial_weights;
    let streams = engine.streams;
    let sources = engine.sources;
    let particles = engine.particles;
    let counted = crate::numbers::counts(engine);
    let a = put_words(out, at, &counted);
    let chosen = crate::numbers::config(config);
    let a = put_words(out, a, &chosen);
    let rates = crate::numbers::prepared(prepared);
    let a = put_words(out, a, &rates);
    let logs = prepared.partial_logs;
    let defaults = prepared.default_partial_weights;
    let a = put_harmonics(out, a, logs, defaults, weights);
    let a = put_streams(out, a, streams);
    let a = put_sources(out, a, sources);
    put_particles(out, a, particles)
}
