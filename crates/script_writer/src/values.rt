// The values of the events that hold more than one number.
ghost use Rattle.std.specs.Prelude.{◌≡◌, ◌++◌};
ghost use Rattle.big_endian.specs.Bytes.{bytes16, bytes64, single, flag};
ghost use Rattle.script_writer.specs.Encoded.{held32, config_bytes};

use big_endian::{bytes16, bytes32, bytes64, flag, single};
use settings::Config;

// A number of the form: what it cannot hold is written as the greatest that it can.
fn held(n: usize) -> u32
    ensures { result ≡ held32 n }
{
    if n < 4294967296 { n as u32 } else { 4294967295 }
}

pub fn config_value(c: Config) -> [u8; 37]
    ensures { result ≡ config_bytes c }
{
    let shape = c.shape;
    let direction = c.direction;
    let rate = single(c.rate_hz);
    let size = single(c.size_octaves);
    let phase = single(c.phase);
    let hop = bytes32(held(c.hop_samples));
    let partials = bytes32(held(c.partials));
    let rolloff = single(c.partial_rolloff_db);
    let attack = single(c.attack_ms);
    let release = single(c.release_ms);
    [
        flag(c.enabled),
        u8::from(shape),
        u8::from(direction),
        rate[0],
        rate[1],
        rate[2],
        rate[3],
        size[0],
        size[1],
        size[2],
        size[3],
        phase[0],
        phase[1],
        phase[2],
        phase[3],
        flag(c.scheduled),
        flag(c.sync),
        hop[0],
        hop[1],
        hop[2],
        hop[3],
        partials[0],
        partials[1],
        partials[2],
        partials[3],
        rolloff[0],
        rolloff[1],
        rolloff[2],
        rolloff[3],
        attack[0],
        attack[1],
        attack[2],
        attack[3],
        release[0],
        release[1],
        release[2],
        release[3],
    ]
}

pub fn source_value(slot: u16, frequency: f32, strength: f32, eligible: bool) -> [u8; 11]
    ensures { result ≡ bytes16 slot ++ single frequency ++ single strength ++ flag eligible }
{
    let s = bytes16(slot);
    let f = single(frequency);
    let g = single(strength);
    [
        s[0],
        s[1],
        f[0],
        f[1],
        f[2],
        f[3],
        g[0],
        g[1],
        g[2],
        g[3],
        flag(eligible),
    ]
}

pub fn frame_value(bin: f32, seconds: f32) -> [u8; 8]
    ensures { result ≡ single bin ++ single seconds }
{
    let b = single(bin);
    let s = single(seconds);
    [b[0], b[1], b[2], b[3], s[0], s[1], s[2], s[3]]
}

pub fn reserved_value(slot: u16, index: u64) -> [u8; 10]
    ensures { result ≡ bytes16 slot ++ bytes64 index }
{
    let s = bytes16(slot);
    let i = bytes64(index);
    [s[0], s[1], i[0], i[1], i[2], i[3], i[4], i[5], i[6], i[7]]
}
