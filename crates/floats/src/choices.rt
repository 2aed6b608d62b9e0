// Choosing: one of two values, the larger, the smaller, one held to a range; a size, whether one is
// finite; a step. 01 settles what Rust leaves open: of two zeros `max` and `min` give the first.
ghost use Rattle.std.specs.Prelude.{◌≡◌, ◌≤◌, if◌then◌else◌};
ghost use Rattle.std.specs.Float.Ieee.Scale.{finite};
ghost use Rattle.floats.specs.Choose.{max, min, clamp, abs};

use crate::real::Real;

// a where t holds, else b: straight code, which compiles to a select.
pub fn pick<T: Copy>(t: bool, a: T, b: T) -> T
    ensures { result ≡ (if t then a else b) }
{
    if t { a } else { b }
}

// The step of a search by halves: h where t holds, else none.
pub fn step_if(t: bool, h: usize) -> usize
    ensures { (result ≡ (if t then h else 0)) × (result ≤ h) }
{
    pick(t, h, 0)
}

// Rust's `max`: a NaN counts as absent.
pub fn max<T: Real>(x: T, y: T) -> T
    ensures { result ≡ T.of (max (T.value x) (T.value y)) }
{
    pick(x != x, y, pick(x < y, y, x))
}

// Rust's `min`: a NaN counts as absent.
pub fn min<T: Real>(x: T, y: T) -> T
    ensures { result ≡ T.of (min (T.value x) (T.value y)) }
{
    pick(x != x, y, pick(y < x, y, x))
}

// Rust's `clamp`: a NaN stays one, and so does minus zero at a bound of 0. Rust panics where a is
// above b or either is a NaN; here the second test then decides.
pub fn clamp<T: Real>(x: T, a: T, b: T) -> T
    ensures { result ≡ T.of (clamp (T.value x) (T.value a) (T.value b)) }
{
    let y = pick(x < a, a, x);
    pick(b < y, b, y)
}

// The size of x.
pub fn abs<T: Real>(x: T) -> T
    ensures { result ≡ T.of (abs (T.value x)) }
{
    x.abs()
}

// Neither an infinity nor a NaN.
pub fn is_finite<T: Real>(x: T) -> bool
    ensures { result ≡ finite (T.value x) }
{
    x.is_finite()
}
