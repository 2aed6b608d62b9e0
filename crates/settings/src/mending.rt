// How `configure` mends the settings: every float may be anything, and each number is brought into
// its range.
ghost use Rattle.std.specs.Prelude.{◌≡◌};
ghost use Rattle.settings.specs.Mending.{finite_or, held_to, phase_of, partials_held, mended_of};

use crate::Config;

pub const MAX_PARTIALS: usize = 24;

pub fn finite(x: f32, fallback: f32) -> f32
    ensures { result ≡ finite_or x fallback }
{
    floats::pick(floats::is_finite(x), x, fallback)
}

// x, or the fallback where it is not finite, held to the range.
fn held(x: f32, fallback: f32, least: f32, most: f32) -> f32
    ensures { result ≡ held_to x fallback least most }
{
    floats::clamp(finite(x, fallback), least, most)
}

// In cycles, wrapped.
fn phase(x: f32) -> f32
    ensures { result ≡ phase_of x }
{
    floats::rem_euclid(finite(x, 0.0), 1.0)
}

fn partials(n: usize) -> usize
    ensures { result ≡ partials_held n }
{
    if n < 1 {
        return 1;
    }
    if n > MAX_PARTIALS {
        return MAX_PARTIALS;
    }
    n
}

// What comes back is in range. A hop is left as it is: `checked` speaks of it.
pub fn mended(config: Config) -> Config
    ensures { result ≡ mended_of config }
{
    let attack_ms = held(config.attack_ms, 0.0, 0.0, 5000.0);
    let release_ms = held(config.release_ms, 70.0, 0.0, 5000.0);
    let partials = partials(config.partials);
    let partial_rolloff_db = held(config.partial_rolloff_db, 6.0, 0.0, 24.0);
    let rate_hz = held(config.rate_hz, 1.0, 0.01, 32.0);
    let size_octaves = held(config.size_octaves, 1.0, 0.125, 8.0);
    let phase = phase(config.phase);
    let mut out = config;
    out.attack_ms = attack_ms;
    out.release_ms = release_ms;
    out.partials = partials;
    out.partial_rolloff_db = partial_rolloff_db;
    out.rate_hz = rate_hz;
    out.size_octaves = size_octaves;
    out.phase = phase;
    out
}
