// The value of a configure field: when it is lawful, and what it says.
ghost use Rattle.std.specs.Prelude.{◌≡◌};
ghost use Rattle.script.specs.Table.{config_of, lawful_config};

use big_endian::{be32_at, byte, f32_at, flag_at, up_to};
use settings::{Config, Direction, Shape};

pub fn config_of(v: &[u8]) -> Config
    ensures { result ≡ config_of v.now }
{
    Config {
        enabled: flag_at(v, 0),
        shape: Shape::from(byte(v, 1) as u32),
        direction: Direction::from(byte(v, 2) as u32),
        rate_hz: f32_at(v, 3),
        size_octaves: f32_at(v, 7),
        phase: f32_at(v, 11),
        scheduled: flag_at(v, 15),
        sync: flag_at(v, 16),
        hop_samples: be32_at(v, 17) as usize,
        partials: be32_at(v, 21) as usize,
        partial_rolloff_db: f32_at(v, 25),
        attack_ms: f32_at(v, 29),
        release_ms: f32_at(v, 33),
    }
}

pub fn is_lawful_config(v: &[u8]) -> bool
    ensures { result ≡ lawful_config v.now }
{
    let flags = up_to(v, 15, 1) & up_to(v, 16, 1);
    let kinds = up_to(v, 1, 1) & up_to(v, 2, 2);
    up_to(v, 0, 1) & (kinds & flags)
}
