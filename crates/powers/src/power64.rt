// e^x at f64, for every argument, in 64-bit fixed point with products by halves: within 1.5 spacings of the true value.
ghost use Rattle.std.specs.Prelude.{◌≡◌, ◌+◌, ◌*◌, ◌/◌, ◌%◌, ◌<◌, ◌≤◌};
ghost use Rattle.powers.specs.Placed.{placed64};
ghost use Rattle.powers.specs.Exp64 as Exp64;

// The upper half of a product: a * b / 2^64, rounded down.
fn high(a: u64, b: u64) -> u64
    ensures { (result ≡ Exp64.high a b) × (result ≤ b) }
{
    let a1 = a / 4294967296;
    let a0 = a % 4294967296;
    let b1 = b / 4294967296;
    let b0 = b % 4294967296;
    let m1 = a1 * b0 + a0 * b0 / 4294967296;
    let m2 = a0 * b1 + m1 % 4294967296;
    a1 * b1 + m1 / 4294967296 + m2 / 4294967296
}

// 2^63 * 2^(f / 2^64), nearly.
fn mantissa(f: u64) -> u64
    ensures { (result ≡ Exp64.exp_mantissa f) × (9223372036854775808 ≤ result) }
{
    let a10 = 121001960384 + high(f, 11554055366);
    let a9 = 1891383853468 + high(f, a10);
    let a8 = 24365137105993 + high(f, a9);
    let a7 = 281371416557637 + high(f, a8);
    let a6 = 2841446494121437 + high(f, a7);
    let a5 = 24596074363141346 + high(f, a6);
    let a4 = 177423165967312138 + high(f, a5);
    let a3 = 1023870087593729323 + high(f, a4);
    let a2 = 4431396893595047327 + high(f, a3);
    let a1 = 12786308645202667078 + high(f, a2);
    9223372036854775808 + high(f, a1) / 2
}

// |x| * log2(e) in units of 2^-52, from the pattern of |x|, which is below 1024.
fn scaled(p: u64) -> u64
    requires { p < 4652218415073722368 }
    ensures { (result ≡ Exp64.scaled p) × (result < 9223372036854775808) }
{
    let s = 1032 - p / 4503599627370496;
    if s < 64 {
        let m = (p % 4503599627370496 + 4503599627370496) * 2048;
        ((high(m, 13306513097844322492) >> s) + 1) / 2
    } else {
        0
    }
}

fn sided(b: u64) -> u64
    requires { b % 9223372036854775808 < 4652218415073722368 }
    ensures { result ≡ Exp64.sided b }
{
    let t = scaled(b % 9223372036854775808);
    if b < 9223372036854775808 {
        9223372036854775808 + t
    } else {
        9223372036854775808 - t
    }
}

// The pattern of m under the exponent n, rounded once.
fn pattern(n: u64, m: u64) -> u64
    requires { 9223372036854775808 ≤ m }
    ensures { result ≡ placed64 n m }
{
    if 3072 <= n {
        return 0x7ff0_0000_0000_0000;
    }
    if 1026 <= n {
        return (n - 1026) * 4503599627370496 + (m / 1024 + 1) / 2;
    }
    let j = 1026 - n;
    if j < 64 {
        return ((m >> j) / 1024 + 1) / 2;
    }
    0
}

pub fn exp64(x: f64) -> f64
    ensures { result ≡ Exp64.exp64 x }
{
    if x < 1024.0 {
        if x > -1024.0 {
            let w = sided(f64::to_bits(x));
            let m = mantissa(w % 4503599627370496 * 4096);
            f64::from_bits(pattern(w / 4503599627370496, m))
        } else {
            0.0
        }
    } else if x != x {
        x
    } else {
        f64::from_bits(0x7ff0_0000_0000_0000)
    }
}
