// Rust's `as` between floats and unsigned integers, and between the two formats, at every input.
ghost use Rattle.std.specs.Prelude.{◌≡◌, ◌+◌, ◌*◌, ◌^◌, ◌<◌, ◌≤◌, min, pos, from_bits};
ghost use Rattle.std.specs.Float.{binary32, binary64};
ghost use Rattle.std.specs.Float.Ieee.{of_int, to_unsigned};
ghost use Rattle.std.specs.Float.Ieee.Nearest.{closest};
ghost use Rattle.floats.specs.Convert.{convert};

use crate::real::Real;

// Toward zero, to the nearer end of the range, and 0 for a NaN.
pub fn to_u64<T: Real>(x: T) -> u64
    ensures { result ≡ to_unsigned 64 (T.value x) }
{
    std::num::saturating_f64_to_u64(x.wide())
}

pub fn to_u32<T: Real>(x: T) -> u32
    ensures { result ≡ to_unsigned 32 (T.value x) }
{
    std::num::saturating_f64_to_u32(x.wide())
}

pub fn to_usize<T: Real>(x: T) -> usize
    ensures { result ≡ to_unsigned 64 (T.value x) }
{
    std::num::saturating_f64_to_usize(x.wide())
}

// n / u to the nearest whole number, a tie to the even one.
fn nearest_part(n: u64, u: u64) -> u64
    requires two_or_more { 2 ≤ u }
    requires divisor_fits { u ≤ 2 ^ 62 }
    ensures { result ≡ closest n u }
{
    let q = n / u;
    let r = (n % u) * 2;
    if r < u {
        q
    } else if r == u {
        q + q % 2
    } else {
        q + 1
    }
}

// The f32 that drops k digits and keeps q. A carry runs from the digits into the exponent's field,
// and what passes the largest float is the infinity.
fn pack32(k: u64, q: u64) -> f32
    requires exponent_fits { k < 2 ^ 32 }
    requires digits_fit { q ≤ 2 ^ 63 }
    ensures { result ≡ from_bits binary32 (min (k * 8388608 + q) 2139095040) }
{
    let p = k * 8388608 + q;
    if p < 2139095040 {
        f32::from_bits(p as u32)
    } else {
        f32::from_bits(2139095040)
    }
}

// The f64 with the pattern b, which has no sign and is no NaN's, as an f32. An f32's exponent field
// is 896 less; below 1 it is subnormal and drops more digits, below -26 all of them.
fn narrowed(b: u64) -> f32
    requires { b ≤ 0x7ff0_0000_0000_0000 }
    ensures { result ≡ convert binary32 (from_bits binary64 b) }
{
    let x = b / 4503599627370496;
    let n = b % 4503599627370496 + 4503599627370496;
    if x < 870 {
        0.0
    } else if x < 897 {
        pack32(0, nearest_part(n, 1u64 << (926 - x)))
    } else {
        pack32(x - 897, nearest_part(n, 536870912))
    }
}

// To the nearest, a tie to the even one. The library's `nearest_f64_to_f32_with_nan`, tried, took half as long again.
pub fn f64_to_f32(x: f64) -> f32
    ensures { result ≡ convert binary32 x }
{
    if x != x {
        0.0 / 0.0
    } else {
        let b = x.to_bits();
        if b < 9223372036854775808 {
            narrowed(b)
        } else {
            -narrowed(b - 9223372036854775808)
        }
    }
}

// To the nearest, a tie to the even one. By way of an f64 it would round twice. The
// library's `nearest_u64_to_f32`, tried, took half as long again.
pub fn u64_to_f32(n: u64) -> f32
    ensures { result ≡ of_int binary32 (pos n) }
{
    if n < 4294967296 {
        std::num::nearest_u32_to_f32(n as u32)
    } else {
        let z = n.leading_zeros() as u64;
        pack32(189 - z, nearest_part(n, 1u64 << (40 - z)))
    }
}
