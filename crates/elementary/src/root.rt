// The square root of an f32, correctly rounded: the whole root of the digits, by Newton's steps and
// two loops that settle it. Operation for operation as specs/Sqrt.antt lists it, but for the way to
// the whole root.
ghost use Rattle.std.specs.Prelude.{◌≡◌, ◌<◌, ◌≤◌, ◌+◌, ◌*◌};
ghost use Rattle.elementary.specs.Sqrt.{nearest_root, scaled_of, sqrt_of};

use super::rung::{digits, rung};

// The tangent of the root in the middle of n's half of the range: at most 2% too large.
fn guess(n: u64) -> u64
    requires { n < 281474976710656 }
    ensures { (4194304 ≤ result) × (result < 1073741824) }
{
    if n < 140737488355328 {
        n / 19951586 + 4987896
    } else {
        n / 28215802 + 7053950
    }
}

// A step of Newton's method, to the nearest whole number: the loops below then seldom turn.
fn step(n: u64, g: u64) -> u64
    requires { (n < 281474976710656) × (1048576 ≤ g) × (g < 1073741824) }
    ensures { (2 * result ≤ g + 268435457) × (g ≤ 2 * result) }
{
    (g + n / g + 1) / 2
}

// The guess is right or next to it; the loops make it right: r * (r - 1) < n <= r * (r + 1).
fn nearest_root(n: u64) -> u64
    requires { (0 < n) × (n < 281474976710656) }
    ensures { result ≡ nearest_root n }
{
    // The loops go over nothing: q and r settle by their own squares.
    let mut q = step(n, step(n, guess(n)));
    while n <= q * (q - 1) {
        q = q - 1;
    }
    let mut r = q;
    while r * (r + 1) < n {
        r = r + 1;
    }
    r
}

fn scaled(b: u32) -> u64
    requires { (0 < b) × (b < 2139095040) }
    ensures { result ≡ scaled_of b }
{
    let m = digits(b);
    if rung(b) % 2 == 1 {
        m * 8388608
    } else {
        m * 16777216
    }
}

pub fn sqrt(x: f32) -> f32
    ensures { result ≡ sqrt_of x }
{
    if x != x {
        return 0.0 / 0.0;
    }
    if x < 0.0 {
        return 0.0 / 0.0;
    }
    if x == 0.0 {
        return x;
    }
    if x == 1.0 / 0.0 {
        return x;
    }
    let b = f32::to_bits(x);
    let h = (rung(b) as u64 + 1) / 2 + 51;
    f32::from_bits((h * 8388608 + nearest_root(scaled(b))) as u32)
}
