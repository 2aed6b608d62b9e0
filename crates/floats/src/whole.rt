// Rounding to a whole number, down and up: IEEE 754's roundToIntegral toward minus and plus
// infinity. Minus zero, an infinity and a NaN stay as they are.
ghost use Rattle.std.specs.Prelude.{◌≡◌};
ghost use Rattle.floats.specs.Whole.{floor, ceil};

use crate::real::Real;

pub fn floor<T: Real>(x: T) -> T
    ensures { result ≡ T.of (floor T.format (T.value x)) }
{
    x.floor()
}

pub fn ceil<T: Real>(x: T) -> T
    ensures { result ≡ T.of (ceil T.format (T.value x)) }
{
    x.ceil()
}
