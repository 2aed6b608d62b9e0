// The remainder of any two f64 by integers on their bits: no maths library is called. A finite f64
// is q * 2^k of the smallest one, 2^-1074, where q has at most 53 digits, and its pattern is
// k * 2^52 + q. So the remainder is that of the two counts, by long division.
ghost use Rattle.std.specs.Prelude.{◌≡◌, ◌-◌, ◌*◌, ◌/◌, ◌%◌, ◌^◌, ◌<◌, ◌≤◌, false};
ghost use Rattle.std.specs.Float.{binary64};
ghost use Rattle.std.specs.Float.Ieee.{rem, round};

use crate::choices::pick;

// How far the digits of the pattern p, which has no sign, are shifted up: its k.
fn shift(p: u64) -> u64
    ensures { result ≡ p / 4503599627370496 - 1 }
{
    let field = p / 4503599627370496;
    if field == 0 { 0 } else { field - 1 }
}

// a moved up by s places, none of which it has digits in.
fn moved(a: u64, s: u64) -> u64
    requires { (s < 64) × (a * 2 ^ s < 2 ^ 64) }
    ensures { result ≡ a * 2 ^ s }
{
    a << s
}

// a * 2^d modulo n, eleven digits a turn: below 2^53 they are as many as a word has left.
fn scaled_rem(a: u64, d: u64, n: u64) -> u64
    requires not_zero { 0 < n }
    requires in_53_digits { n ≤ 2 ^ 53 }
    ensures { result ≡ a * 2 ^ d % n }
{
    let mut r = a % n;
    let mut left = d;
    while left > 11 {
        if r == 0 {
            return 0;
        }
        r = r * 2048 % n;
        left -= 11;
    }
    moved(r, left) % n
}

// The f64 that is r * 2^k smallest ones: r is moved up to 53 digits as far as k allows.
fn assembled(r: u64, k: u64) -> f64
    requires in_53_digits { r < 2 ^ 53 }
    requires exponent_fits { k < 2046 }
    ensures { result ≡ round binary64 false (r * 2 ^ k) (2 ^ 1074) }
{
    if r == 0 {
        return 0.0;
    }
    let z = r.leading_zeros() as u64 - 11;
    if k < z {
        return f64::from_bits(moved(r, k));
    }
    f64::from_bits((k - z) * 4503599627370496 + moved(r, z))
}

// A NaN where x is not finite, or m is a NaN or zero. A dividend with the lesser shift is its own
// remainder, also of an infinity. The sign is the dividend's.
// Inlined, so that a divisor that a caller writes out is folded: the engine's is 1.
#[inline]
pub fn divided(x: f64, m: f64) -> f64
    ensures { result ≡ rem binary64 x m }
{
    let p = std::num::f64_to_bits_with_nan(x);
    let a = p % 9223372036854775808;
    let b = std::num::f64_to_bits_with_nan(m) % 9223372036854775808;
    if a >= 9218868437227405312 {
        return 0.0 / 0.0;
    }
    if b > 9218868437227405312 {
        return 0.0 / 0.0;
    }
    let i = shift(a);
    let j = shift(b);
    if i < j {
        return x;
    }
    if b == 0 {
        return 0.0 / 0.0;
    }
    let r = scaled_rem(a - i * 4503599627370496, i - j, b - j * 4503599627370496);
    let v = assembled(r, j);
    pick(p >= 9223372036854775808, -v, v)
}

// A number from 0 up to below the divisor is its own remainder, and up to below its double the
// difference; any other goes the long way.
#[inline]
pub fn remainder(x: f64, m: f64) -> f64
    ensures { result ≡ rem binary64 x m }
{
    if x >= 0.0 {
        if m > x {
            return x;
        }
        if m > 0.0 {
            let rest = x - m;
            if m > rest {
                return rest;
            }
        }
    }
    divided(x, m)
}
