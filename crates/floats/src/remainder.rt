// Rust's `%` on floats and its `rem_euclid`, with no call of C's `fmod`, which `%` compiles to.
ghost use Rattle.std.specs.Prelude.{◌≡◌};
ghost use Rattle.std.specs.Float.Ieee.{rem};
ghost use Rattle.floats.specs.Remainder.{rem_euclid};

use crate::choices::{abs, pick};
use crate::real::Real;

pub fn rem<T: Real>(x: T, m: T) -> T
    ensures { result ≡ T.of (rem T.format (T.value x) (T.value m)) }
{
    x.rem(m)
}

// The remainder brought up where it is negative. A tiny negative one rounds to the divisor itself.
pub fn rem_euclid<T: Real>(x: T, m: T) -> T
    ensures { result ≡ T.of (rem_euclid T.format (T.value x) (T.value m)) }
{
    let r = rem(x, m);
    pick(r.wide() < 0.0, r + abs(m), r)
}
