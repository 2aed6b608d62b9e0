// log2 of an f32: a parabola of 64 for the digits, then the exponent. Operation for operation as
// specs/Log2.antt lists it. Proved: it never falls, and it is exact at the powers of two. Measured
// over every argument: its error is at most 0.67 of the larger of two spacings and 2^-22.
ghost use Rattle.std.specs.Prelude.{◌≡◌, ◌<◌};
ghost use Rattle.elementary.specs.Log2.{fraction_of, joined_of, log2_of};

use super::log_cells::cell_of;
use super::rung::{digits, rung};

// log2 (1 + p / 2^23) in units of 2^-24.
fn fraction(p: u64) -> u64
    requires { p < 8388608 }
    ensures { (result ≡ fraction_of p) × (result < 16777216) }
{
    let c = cell_of(p / 131072);
    let t = 131071 - p % 131072;
    (c.top - t * (c.slope + c.bend * t)) / 274877906944
}

fn joined(j: u16, p: u64) -> f32
    requires { p < 8388608 }
    ensures { result ≡ joined_of j (fraction_of p) }
{
    let f = fraction(p) as u32;
    (f as f32) * 0.000000059604644775390625 + ((j as f32) - 149.0)
}

// All but the normal numbers above zero, and these too.
fn rare(x: f32) -> f32
    ensures { result ≡ log2_of x }
{
    if x != x {
        return 0.0 / 0.0;
    }
    if x < 0.0 {
        return 0.0 / 0.0;
    }
    if x == 0.0 {
        return -1.0 / 0.0;
    }
    if x == 1.0 / 0.0 {
        return 1.0 / 0.0;
    }
    let b = f32::to_bits(x);
    joined(rung(b) as u16, digits(b) - 8388608)
}

// The normal numbers above zero come first: two tests of the pattern.
pub fn log2(x: f32) -> f32
    ensures { result ≡ log2_of x }
{
    if x == x {
        let b = f32::to_bits(x);
        if 8388608 <= b {
            if b < 2139095040 {
                return joined((b / 8388608 + 22) as u16, (b % 8388608) as u64);
            }
        }
    }
    rare(x)
}
