// A word's operations and a float's bits. All NaNs count as one: each is written with one pattern,
// and each NaN pattern is read as the NaN.
ghost use Rattle.std.specs.Prelude.{◌≡◌, to_bits, from_bits};
ghost use Rattle.floats.specs.Word.{product, rotated};

use crate::real::Real;

pub fn bits<T: Real>(x: T) -> T::Bits
    ensures { result ≡ T.of_number (to_bits T.format (T.value x)) }
{
    x.bits()
}

pub fn of_bits<T: Real>(b: T::Bits) -> T
    ensures { result ≡ T.of (from_bits T.format (T.number b)) }
{
    T::of_bits(b)
}

pub fn wrapping_mul(a: u64, b: u64) -> u64
    ensures { result ≡ product a b }
{
    a.wrapping_mul(b)
}

pub fn rotate_left(x: u64, n: u32) -> u64
    ensures { result ≡ rotated x n }
{
    x.rotate_left(n)
}
