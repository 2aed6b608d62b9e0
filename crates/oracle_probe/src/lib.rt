// Single layers handed over on numbers, for the comparison with the Rust and the measurements alone.
#![tactic(auto)]

ghost use Rattle.draws.specs.Draws.{key_of, mix_of, random_of, stream_of};
ghost use Rattle.floats.specs.Choose.{max, min, clamp, abs};
ghost use Rattle.floats.specs.Convert.{convert};
ghost use Rattle.floats.specs.Remainder.{rem_euclid};
ghost use Rattle.floats.specs.Whole.{floor, ceil};
ghost use Rattle.floats.specs.Names.{f32};
ghost use Rattle.floats.specs.Word.{product, rotated};
ghost use Rattle.std.specs.Float.Ieee.Scale.{finite};
ghost use Rattle.std.specs.Float.{binary32, binary64};
ghost use Rattle.std.specs.Float.Ieee.{of_int, to_unsigned, rem};
ghost use Rattle.std.specs.Prelude.{◌≡◌, ◌<◌, pos, from_bits, to_bits};
ghost use Rattle.settings.specs.ByNumber.{direction_from};
ghost use Rattle.oracle_probe.specs.Numbers.{probed_config, sampled_of, weight_from, weights_from, packed_of};
ghost use Rattle.pitch.specs.Register.{height_of, register_strength, probability_of};
ghost use Rattle.pitch.specs.Cloud.{frequency_of};
ghost use Rattle.pitch.specs.Octave.{register_of};
ghost use Rattle.pitch.specs.Partials.{partials_of as partials_by};
ghost use Rattle.settings.specs.Mending.{attack_of, release_ms_of, partials_held, rolloff_of, rate_held, size_held, phase_of, mended_of};
ghost use Rattle.settings.specs.Envelope.{contour_of};
ghost use Rattle.timing.specs.Streams.{prepared_stream, aligned_of, reference_of};

use settings::{Config, Direction, Shape};
use timing::SprinkleStream;

mod counts;
mod frames;
mod records;

pub use counts::rk_probe_active_counts;
pub use frames::{
    rk_probe_attenuation_db, rk_probe_bin_table, rk_probe_gains, rk_probe_openness, rk_probe_taper,
};
pub use records::{rk_probe_entry, rk_probe_read_record, rk_probe_tenths, rk_probe_write_record};

#[unsafe(no_mangle)]
pub extern "C" fn rk_probe_floor32(x: f32) -> f32
    ensures { result ≡ floor binary32 x }
{
    floats::floor(x)
}

#[unsafe(no_mangle)]
pub extern "C" fn rk_probe_ceil32(x: f32) -> f32
    ensures { result ≡ ceil binary32 x }
{
    floats::ceil::<f32>(x)
}

#[unsafe(no_mangle)]
pub extern "C" fn rk_probe_floor64(x: f64) -> f64
    ensures { result ≡ floor binary64 x }
{
    floats::floor(x)
}

#[unsafe(no_mangle)]
pub extern "C" fn rk_probe_ceil64(x: f64) -> f64
    ensures { result ≡ ceil binary64 x }
{
    floats::ceil(x)
}

#[unsafe(no_mangle)]
pub extern "C" fn rk_probe_max32(x: f32, y: f32) -> f32
    ensures { result ≡ max x y }
{
    floats::max(x, y)
}

#[unsafe(no_mangle)]
pub extern "C" fn rk_probe_min32(x: f32, y: f32) -> f32
    ensures { result ≡ min x y }
{
    floats::min(x, y)
}

#[unsafe(no_mangle)]
pub extern "C" fn rk_probe_max64(x: f64, y: f64) -> f64
    ensures { result ≡ max x y }
{
    floats::max(x, y)
}

#[unsafe(no_mangle)]
pub extern "C" fn rk_probe_clamp32(x: f32, a: f32, b: f32) -> f32
    ensures { result ≡ clamp x a b }
{
    floats::clamp(x, a, b)
}

#[unsafe(no_mangle)]
pub extern "C" fn rk_probe_abs32(x: f32) -> f32
    ensures { result ≡ abs x }
{
    floats::abs(x)
}

#[unsafe(no_mangle)]
pub extern "C" fn rk_probe_is_finite32(x: f32) -> bool
    ensures { result ≡ finite x }
{
    floats::is_finite(x)
}

#[unsafe(no_mangle)]
pub extern "C" fn rk_probe_is_finite64(x: f64) -> bool
    ensures { result ≡ finite x }
{
    floats::is_finite(x)
}

#[unsafe(no_mangle)]
pub extern "C" fn rk_probe_f64_to_u64(x: f64) -> u64
    ensures { result ≡ to_unsigned 64 x }
{
    floats::to_u64(x)
}

#[unsafe(no_mangle)]
pub extern "C" fn rk_probe_f64_to_u32(x: f64) -> u32
    ensures { result ≡ to_unsigned 32 x }
{
    floats::to_u32(x)
}

#[unsafe(no_mangle)]
pub extern "C" fn rk_probe_f32_to_u64(x: f32) -> u64
    ensures { result ≡ to_unsigned 64 x }
{
    floats::to_u64(x)
}

#[unsafe(no_mangle)]
pub extern "C" fn rk_probe_f32_to_u32(x: f32) -> u32
    ensures { result ≡ to_unsigned 32 x }
{
    floats::to_u32(x)
}

#[unsafe(no_mangle)]
pub extern "C" fn rk_probe_f32_to_f64(x: f32) -> f64
    ensures { result ≡ x }
{
    f64::from(x)
}

#[unsafe(no_mangle)]
pub extern "C" fn rk_probe_f64_to_f32(x: f64) -> f32
    ensures { result ≡ convert binary32 x }
{
    floats::f64_to_f32(x)
}

#[unsafe(no_mangle)]
pub extern "C" fn rk_probe_u64_to_f32(n: u64) -> f32
    ensures { result ≡ of_int binary32 (pos n) }
{
    floats::u64_to_f32(n)
}

#[unsafe(no_mangle)]
pub extern "C" fn rk_probe_bits32(x: f32) -> u32
    ensures { result ≡ to_bits binary32 x }
{
    floats::bits(x)
}

#[unsafe(no_mangle)]
pub extern "C" fn rk_probe_bits64(x: f64) -> u64
    ensures { result ≡ to_bits binary64 x }
{
    floats::bits(x)
}

#[unsafe(no_mangle)]
pub extern "C" fn rk_probe_of_bits32(b: u32) -> f32
    ensures { result ≡ from_bits binary32 b }
{
    floats::of_bits(b)
}

#[unsafe(no_mangle)]
pub extern "C" fn rk_probe_of_bits64(b: u64) -> f64
    ensures { result ≡ from_bits binary64 b }
{
    floats::of_bits(b)
}

#[unsafe(no_mangle)]
pub extern "C" fn rk_probe_rem32(x: f32, m: f32) -> f32
    ensures { result ≡ rem binary32 x m }
{
    floats::rem(x, m)
}

#[unsafe(no_mangle)]
pub extern "C" fn rk_probe_rem64(x: f64, m: f64) -> f64
    ensures { result ≡ rem binary64 x m }
{
    floats::rem(x, m)
}

#[unsafe(no_mangle)]
pub extern "C" fn rk_probe_rem_euclid32(x: f32, m: f32) -> f32
    ensures { result ≡ rem_euclid binary32 x m }
{
    floats::rem_euclid(x, m)
}

#[unsafe(no_mangle)]
pub extern "C" fn rk_probe_rem_euclid64(x: f64, m: f64) -> f64
    ensures { result ≡ rem_euclid binary64 x m }
{
    floats::rem_euclid(x, m)
}

#[unsafe(no_mangle)]
pub extern "C" fn rk_probe_wrapping_mul(a: u64, b: u64) -> u64
    ensures { result ≡ product a b }
{
    floats::wrapping_mul(a, b)
}

#[unsafe(no_mangle)]
pub extern "C" fn rk_probe_rotate_left(x: u64, n: u32) -> u64
    ensures { result ≡ rotated x n }
{
    floats::rotate_left(x, n)
}

#[unsafe(no_mangle)]
pub extern "C" fn rk_probe_mix(x: u64) -> u64
    ensures { result ≡ mix_of x }
{
    draws::mix(x)
}

#[unsafe(no_mangle)]
pub extern "C" fn rk_probe_random(index: u64, stream: u64) -> f32
    ensures { result ≡ random_of index stream }
{
    draws::random(index, stream)
}

#[unsafe(no_mangle)]
pub extern "C" fn rk_probe_stream(place: u64) -> u64
    ensures { result ≡ stream_of place }
{
    draws::stream(place)
}

#[unsafe(no_mangle)]
pub extern "C" fn rk_probe_sprinkle_key(lane: u64, index: u64) -> u64
    ensures { result ≡ key_of lane index }
{
    draws::sprinkle_key(lane as usize, index)
}

fn config_of(
    kind: u32,
    way: u32,
    rate: f32,
    size: f32,
    turn: f32,
    hop: u32,
    count: u32,
    rolloff: f32,
    attack: f32,
    release: f32,
) -> Config
    ensures { result ≡ probed_config kind way rate size turn hop count rolloff attack release }
{
    let shape = Shape::from(kind);
    let direction = Direction::from(way);
    Config {
        enabled: true,
        shape,
        direction,
        rate_hz: rate,
        size_octaves: size,
        phase: turn,
        scheduled: true,
        sync: false,
        hop_samples: hop as usize,
        partials: count as usize,
        partial_rolloff_db: rolloff,
        attack_ms: attack,
        release_ms: release,
    }
}

// Mended settings, a field at a time.
#[unsafe(no_mangle)]
pub extern "C" fn rk_probe_mended_rate(x: f32) -> f32
    ensures { result ≡ rate_held x }
{
    let mended = settings::mended(config_of(0, 0, x, 1.0, 0.0, 0, 1, 6.0, 0.0, 70.0));
    mended.rate_hz
}

#[unsafe(no_mangle)]
pub extern "C" fn rk_probe_mended_size(x: f32) -> f32
    ensures { result ≡ size_held x }
{
    let mended = settings::mended(config_of(0, 0, 1.0, x, 0.0, 0, 1, 6.0, 0.0, 70.0));
    mended.size_octaves
}

#[unsafe(no_mangle)]
pub extern "C" fn rk_probe_mended_phase(x: f32) -> f32
    ensures { result ≡ phase_of x }
{
    let mended = settings::mended(config_of(0, 0, 1.0, 1.0, x, 0, 1, 6.0, 0.0, 70.0));
    mended.phase
}

#[unsafe(no_mangle)]
pub extern "C" fn rk_probe_mended_rolloff(x: f32) -> f32
    ensures { result ≡ rolloff_of x }
{
    let mended = settings::mended(config_of(0, 0, 1.0, 1.0, 0.0, 0, 1, x, 0.0, 70.0));
    mended.partial_rolloff_db
}

#[unsafe(no_mangle)]
pub extern "C" fn rk_probe_mended_attack(x: f32) -> f32
    ensures { result ≡ attack_of x }
{
    let mended = settings::mended(config_of(0, 0, 1.0, 1.0, 0.0, 0, 1, 6.0, x, 70.0));
    mended.attack_ms
}

#[unsafe(no_mangle)]
pub extern "C" fn rk_probe_mended_release(x: f32) -> f32
    ensures { result ≡ release_ms_of x }
{
    let mended = settings::mended(config_of(0, 0, 1.0, 1.0, 0.0, 0, 1, 6.0, 0.0, x));
    mended.release_ms
}

#[unsafe(no_mangle)]
pub extern "C" fn rk_probe_mended_partials(n: u32) -> u64
    ensures { result ≡ partials_held n }
{
    let mended = settings::mended(config_of(0, 0, 1.0, 1.0, 0.0, 0, n, 6.0, 0.0, 70.0));
    mended.partials as u64
}

// The envelope of mended settings.
#[unsafe(no_mangle)]
pub extern "C" fn rk_probe_lifetime(
    kind: u32,
    way: u32,
    rate: f32,
    size: f32,
    hop: u32,
    attack: f32,
    release: f32,
    index: u64,
    sample_rate: f32,
) -> f32
    ensures { result ≡ (contour_of (mended_of (probed_config kind way rate size (f32 0) hop 1 (f32 0x40c00000) attack release)) index sample_rate).lifetime }
{
    let config = config_of(kind, way, rate, size, 0.0, hop, 1, 6.0, attack, release);
    let contour = settings::envelope(settings::mended(config), index, sample_rate);
    contour.lifetime
}

#[unsafe(no_mangle)]
pub extern "C" fn rk_probe_attack(
    kind: u32,
    way: u32,
    rate: f32,
    size: f32,
    hop: u32,
    attack: f32,
    release: f32,
    index: u64,
    sample_rate: f32,
) -> f32
    ensures { result ≡ (contour_of (mended_of (probed_config kind way rate size (f32 0) hop 1 (f32 0x40c00000) attack release)) index sample_rate).attack }
{
    let config = config_of(kind, way, rate, size, 0.0, hop, 1, 6.0, attack, release);
    let contour = settings::envelope(settings::mended(config), index, sample_rate);
    contour.attack
}

fn prepared(index: u64, lane: u32, sync: bool) -> SprinkleStream
    ensures { result ≡ prepared_stream index lane sync }
{
    let stream = SprinkleStream {
        index,
        next: 0.0,
        emit: false,
    };
    timing::prepare(stream, lane as usize, sync)
}

// A stream at an index: when it starts, and whether it sounds.
#[unsafe(no_mangle)]
pub extern "C" fn rk_probe_prepared_next(index: u64, lane: u32, sync: bool) -> f64
    ensures { result ≡ (prepared_stream index lane sync).next }
{
    let stream = prepared(index, lane, sync);
    stream.next
}

#[unsafe(no_mangle)]
pub extern "C" fn rk_probe_prepared_emit(index: u64, lane: u32, sync: bool) -> bool
    ensures { result ≡ (prepared_stream index lane sync).emit }
{
    let stream = prepared(index, lane, sync);
    stream.emit
}

fn sampled(index: u64, lane: u32, reference: f64, sync: bool) -> SprinkleStream
    ensures { result ≡ sampled_of index lane reference sync }
{
    let due = SprinkleStream {
        index,
        next: 0.0,
        emit: false,
    };
    let once = timing::move_on(due, lane as usize, reference, sync);
    if reference < once.next {
        return once;
    }
    timing::move_on(once, lane as usize, reference, sync)
}

// The index of a due stream after one sample.
#[unsafe(no_mangle)]
pub extern "C" fn rk_probe_sampled_index(index: u64, lane: u32, reference: f64, sync: bool) -> u64
    ensures { result ≡ (sampled_of index lane reference sync).index }
{
    let stream = sampled(index, lane, reference, sync);
    stream.index
}

// The indices of the streams that are aligned to a reference.
#[unsafe(no_mangle)]
pub extern "C" fn rk_probe_aligned_first(reference: f64, sync: bool) -> u64
    ensures { result ≡ (aligned_of 0 reference sync).index }
{
    let all = timing::align_streams(reference, sync);
    let stream = all[0];
    stream.index
}

#[unsafe(no_mangle)]
pub extern "C" fn rk_probe_aligned_third(reference: f64, sync: bool) -> u64
    ensures { result ≡ (aligned_of 2 reference sync).index }
{
    let all = timing::align_streams(reference, sync);
    let stream = all[2];
    stream.index
}

#[unsafe(no_mangle)]
pub extern "C" fn rk_probe_timing_reference(opportunity: u64) -> f64
    ensures { result ≡ reference_of opportunity }
{
    timing::timing_reference(opportunity)
}

#[unsafe(no_mangle)]
pub extern "C" fn rk_probe_register_height(log_hz: f32) -> f32
    ensures { result ≡ height_of log_hz }
{
    pitch::register_height(log_hz)
}

#[unsafe(no_mangle)]
pub extern "C" fn rk_probe_register_strength(log_hz: f32) -> f32
    ensures { result ≡ register_strength log_hz }
{
    pitch::register_strength(log_hz)
}

#[unsafe(no_mangle)]
pub extern "C" fn rk_probe_register_probability(log_hz: f32) -> f32
    ensures { result ≡ probability_of log_hz }
{
    pitch::register_probability(log_hz)
}

#[unsafe(no_mangle)]
pub extern "C" fn rk_probe_free_cloud_frequency(index: u64, max_hz: f32) -> f32
    ensures { result ≡ frequency_of index max_hz }
{
    pitch::free_cloud_frequency(index, max_hz)
}

#[unsafe(no_mangle)]
pub extern "C" fn rk_probe_octave(index: u64, root_hz: f32, max_hz: f32, way: u32) -> f32
    ensures { result ≡ (register_of index root_hz max_hz (direction_from way)).octave }
{
    let register = pitch::sprinkle_register(index, root_hz, max_hz, Direction::from(way));
    register.octave
}

#[unsafe(no_mangle)]
pub extern "C" fn rk_probe_strength(index: u64, root_hz: f32, max_hz: f32, way: u32) -> f32
    ensures { result ≡ (register_of index root_hz max_hz (direction_from way)).strength }
{
    let register = pitch::sprinkle_register(index, root_hz, max_hz, Direction::from(way));
    register.strength
}

fn weight_of(seed: u64, i: u64) -> f32
    ensures { result ≡ weight_from seed i }
{
    let word = draws::mix(seed.wrapping_add(i));
    floats::of_bits((word % 4294967296) as u32)
}

fn weights_of(seed: u64) -> [f32; 24]
    ensures { result ≡ weights_from seed }
{
    std::array::from_fn(|i| weight_of(seed, i as u64))
}

fn wide(x: u8) -> u32
    ensures { (result ≡ x) × (result < 256) }
{
    x as u32
}

fn packed(picks: [u8; 3]) -> u32
    ensures { result ≡ packed_of picks }
{
    wide(picks[0]) + wide(picks[1]) * 256 + wide(picks[2]) * 65536
}

// The harmonics of weights that a seed gives, of every kind of float.
#[unsafe(no_mangle)]
pub extern "C" fn rk_probe_select_partials(index: u64, seed: u64, limit: u64, max_ratio: f32) -> u32
    ensures { result ≡ packed_of (partials_by index (weights_from seed) limit max_ratio) }
{
    let weights = weights_of(seed);
    packed(pitch::select_partials(index, weights, limit as usize, max_ratio))
}
