// 2^x, e^x, 8^x and 10^x at f32, for every argument: at worst 0.672 of a spacing from the true value.
// Where the answer is a normal number, it takes a product and a sum in f64 and one cell's curve.
ghost use Rattle.std.specs.Prelude.{◌≡◌, ◌+◌, ◌*◌, ◌/◌, ◌<◌, ◌≤◌, T, from_bits};
ghost use Rattle.std.specs.Float.{binary32};
ghost use Rattle.std.specs.Float.Ieee.Scale.{finite};
ghost use Rattle.powers.specs.Placed.{placed32};
ghost use Rattle.powers.specs.Power as Power;

use super::power_cells::cell_of;

fn bent(b: u64, r: u64) -> u64
    requires { (b < 8388608) × (r < 67108864) }
    ensures { (result ≡ b * r / 67108864) × (result ≤ b) }
{
    b * r / 67108864
}

fn part(r: u64, q: u64) -> u64
    requires { (r < 67108864) × (q < 4294967296) }
    ensures { result ≡ r * q }
{
    r * q
}

// 2^62 * 2^(f / 2^32), nearly.
fn mantissa(f: u64) -> u64
    requires { f < 4294967296 }
    ensures { (result ≡ Power.mantissa f) × (result < 9223372036854775808) }
{
    let p = cell_of(f / 67108864);
    let r = f % 67108864;
    p.start + part(r, p.slope + bent(p.bend, r))
}

// The answer with the exponent's field k + 1, from 1 to 254.
fn normal(k: u64, m: u64) -> f32
    requires { (k < 254) × (m < 9223372036854775808) }
    ensures { result ≡ from_bits binary32 (placed32 (0x41380001 + k) m) }
{
    f32::from_bits((k * 8388608 + (m + 274877906944) / 549755813888) as u32)
}

// The answer where no such field is: the infinity, a subnormal number or 0.
fn extreme(n: u64, m: u64) -> f32
    requires { (0x41380001 ≤ n → 0x413800ff ≤ n) × (4611686018427387904 ≤ m) × (m < 9223372036854775808) }
    ensures { result ≡ from_bits binary32 (placed32 n m) }
{
    if 0x4138_0001 <= n {
        f32::from_bits(0x7f80_0000)
    } else {
        let j = 0x4138_0001 - n;
        if j < 64 {
            f32::from_bits((((m >> j) + 274877906944) / 549755813888) as u32)
        } else {
            0.0
        }
    }
}

// The answer to the bits of z.
fn placed_at(w: u64) -> f32
    ensures { result ≡ from_bits binary32 (Power.power_bits w) }
{
    let n = w / 4294967296;
    let m = mantissa(w % 4294967296);
    let k = n.wrapping_sub(0x4138_0001);
    if k < 254 { normal(k, m) } else { extreme(n, m) }
}

fn power(x: f32, c: f64) -> f32
    requires { T (finite c) }
    ensures { result ≡ Power.power c x }
{
    if x < 1024.0 {
        if x > -1024.0 {
            let z = (x as f64) * c + 1572991.0;
            placed_at(f64::to_bits(z))
        } else {
            0.0
        }
    } else if x != x {
        x
    } else {
        f32::from_bits(0x7f80_0000)
    }
}

pub fn exp2(x: f32) -> f32
    ensures { result ≡ Power.exp2 x }
{
    power(x, 1.0)
}

pub fn exp(x: f32) -> f32
    ensures { result ≡ Power.exp x }
{
    power(x, 1.4426950408889634)
}

pub fn pow8(x: f32) -> f32
    ensures { result ≡ Power.pow8 x }
{
    power(x, 3.0)
}

pub fn pow10(x: f32) -> f32
    ensures { result ≡ Power.pow10 x }
{
    power(x, 3.321928094887362)
}

// 002's `db_to_gain`.
pub fn db_to_gain(db: f32) -> f32
    ensures { result ≡ Power.db_to_gain db }
{
    pow10(db / 20.0)
}
