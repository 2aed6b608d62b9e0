// The parts of the state as numbers: floats by their bits, flags and choices as 0, 1, 2, and "none" as
// all ones.
ghost use Rattle.std.specs.Prelude.{◌≡◌};
ghost use Rattle.std.specs.Float.{binary32};
ghost use Rattle.std.specs.Float.Ieee.{to_bits};
ghost use Rattle.big_endian.specs.Bytes.{flag_of};
ghost use Rattle.settings.specs.ByNumber.{shape_number, direction_number};
ghost use Rattle.oracle_replay.specs.Numbers.{slot_of, retired_word, counts_of, config_words, prepared_words, harmonic_words, stream_words, source_words, particle_of};

use pool::Particle;
use settings::{Config, Direction, Shape};
use sources::Source;
use state::{Engine, Prepared};
use timing::SprinkleStream;

const NONE: u64 = 18446744073709551615;

fn flag(b: bool) -> u64
    ensures { result ≡ flag_of b }
{
    big_endian::flag(b) as u64
}

fn slot(n: Option<usize>) -> u64
    ensures { result ≡ slot_of n }
{
    match n {
        None => NONE,
        Some(slot) => slot as u64,
    }
}

fn retired(r: Option<u64>) -> u64
    ensures { result ≡ retired_word r }
{
    match r {
        None => NONE,
        Some(sample) => sample,
    }
}

fn shape(s: Shape) -> u64
    ensures { result ≡ shape_number s }
{
    u8::from(s) as u64
}

fn direction(d: Direction) -> u64
    ensures { result ≡ direction_number d }
{
    u8::from(d) as u64
}

fn single(x: f32) -> u64
    ensures { result ≡ to_bits binary32 x }
{
    floats::bits(x) as u64
}

fn wide(x: u8) -> u64
    ensures { result ≡ x }
{
    x as u64
}

pub fn counts(e: Engine) -> [u64; 13]
    ensures { result ≡ counts_of e }
{
    [
        e.clock.sample,
        floats::bits(e.clock.phase),
        floats::bits(e.clock.phase_offset),
        e.next.opportunity,
        e.next.immediate_index,
        slot(e.next.last_source),
        flag(e.next.note_input_present),
        e.tally.attempts,
        single(e.activity),
        e.tally.births,
        e.tally.dropped,
        e.tally.decision_hash,
        e.tally.held as u64,
    ]
}

pub fn config(c: Config) -> [u64; 13]
    ensures { result ≡ config_words c }
{
    let kind = c.shape;
    let way = c.direction;
    [
        flag(c.enabled),
        shape(kind),
        direction(way),
        single(c.rate_hz),
        single(c.size_octaves),
        single(c.phase),
        flag(c.scheduled),
        flag(c.sync),
        c.hop_samples as u64,
        c.partials as u64,
        single(c.partial_rolloff_db),
        single(c.attack_ms),
        single(c.release_ms),
    ]
}

pub fn prepared(p: Prepared) -> [u64; 2]
    ensures { result ≡ prepared_words p }
{
    [floats::bits(p.sample_rate), floats::bits(p.phase_alpha)]
}

pub fn harmonic(log: f32, default_weight: f32, weight: f32) -> [u64; 3]
    ensures { result ≡ harmonic_words log default_weight weight }
{
    [single(log), single(default_weight), single(weight)]
}

pub fn stream(s: SprinkleStream) -> [u64; 3]
    ensures { result ≡ stream_words s }
{
    [s.index, floats::bits(s.next), flag(s.emit)]
}

pub fn source(s: Source) -> [u64; 3]
    ensures { result ≡ source_words s }
{
    [single(s.frequency_hz), single(s.strength), flag(s.eligible)]
}

pub fn particle(p: Particle) -> [u64; 14]
    ensures { result ≡ particle_of p }
{
    let harmonics = p.partials;
    let at = p.retirement;
    [
        flag(p.active),
        slot(p.source),
        p.birth,
        floats::bits(p.lifetime),
        single(p.frequency_hz),
        single(p.octave),
        single(p.width),
        single(p.strength),
        single(p.attack),
        p.decay_power as u64,
        wide(harmonics[0]),
        wide(harmonics[1]),
        wide(harmonics[2]),
        retired(at),
    ]
}
