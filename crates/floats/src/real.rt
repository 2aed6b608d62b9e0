// f32 and f64 as one kind of number: what a function over either of them goes by, so that it is
// written once. What differs between the two formats stands in the two impls.
ghost use Rattle.std.specs.Prelude.{◌≡◌, ℕ, to_bits, from_bits, refl};
ghost use Rattle.std.specs.Float.{Float, Format, binary32, binary64};
ghost use Rattle.std.specs.Float.Ieee.{lt, eq, add, rem};
ghost use Rattle.std.specs.Float.Ieee.Scale.{finite};
ghost use Rattle.std.specs.Ordering.{partial_lt};
ghost use Rattle.floats.specs.Choose.{abs};
ghost use Rattle.floats.specs.Whole.{floor, ceil};
ghost use Rattle.floats.specs.Real.{float_below};

use crate::modulo::{divided, remainder};
use std::ops::Add;

pub trait Real: Copy + PartialOrd + Add<Output = Self> {
    // The unsigned integer that holds its bits.
    type Bits;

    ghost format: { Format };

    // A value as the definitions have floats, and back; its bits as a number, and back.
    ghost value: { Self → Float };

    ghost of: { Float → Self };

    ghost number: { Self.Bits → ℕ };

    ghost of_number: { ℕ → Self.Bits };

    // The same number in the wider format.
    fn wide(self) -> f64
        ensures { result ≡ value self };

    fn abs(self) -> Self
        ensures { result ≡ of (abs (value self)) };

    fn floor(self) -> Self
        ensures { result ≡ of (floor format (value self)) };

    fn ceil(self) -> Self
        ensures { result ≡ of (ceil format (value self)) };

    fn rem(self, m: Self) -> Self
        ensures { result ≡ of (rem format (value self) (value m)) };

    fn is_finite(self) -> bool
        ensures { result ≡ finite (value self) };

    fn bits(self) -> Self::Bits
        ensures { result ≡ of_number (to_bits format (value self)) };

    fn of_bits(b: Self::Bits) -> Self
        ensures { result ≡ of (from_bits format (number b)) };

    // What generic code knows of the operators, and of the two formats.
    ghost own: { (x : Self) → of (value x) ≡ x };

    ghost stands: { (x : Float) → value (of x) ≡ x };

    ghost below: { (x y : Self) → partial_lt Self.partial_cmp x y ≡ lt (value x) (value y) };

    ghost level: { (x y : Self) → Self.eq x y ≡ eq (value x) (value y) };

    ghost may_add: { (x y : Self) → Self.can_add x y };

    ghost adds: { (x y r : Self) → Self.add_gives x y r → r ≡ of (add format (value x) (value y)) };
}

impl Real for f32 {
    type Bits = u32;

    ghost format = { binary32 };

    ghost value = { λ x. x };

    ghost of = { λ x. x };

    ghost number = { λ b. b };

    ghost of_number = { λ b. b };

    fn wide(self) -> f64 {
        f64::from(self)
    }

    // By its bits: one instruction where the library's tests and negation are four.
    fn abs(self) -> f32 {
        if self != self {
            self
        } else {
            f32::from_bits(self.to_bits() % 0x8000_0000)
        }
    }

    fn floor(self) -> f32 {
        self.floor()
    }

    fn ceil(self) -> f32 {
        self.ceil()
    }

    // As `remainder` has it, the early answers in f32 itself: through f64 they took twice the time. The
    // remainder is exact, so it is the same number in both formats.
    fn rem(self, m: f32) -> f32 {
        if self >= 0.0 {
            if m > self {
                return self;
            }
            if m > 0.0 {
                let rest = self - m;
                if m > rest {
                    return rest;
                }
            }
        }
        let r = divided(self.wide(), m.wide());
        if r != r { 0.0 / 0.0 } else { r as f32 }
    }

    fn is_finite(self) -> bool {
        self.is_finite()
    }

    fn bits(self) -> u32 {
        std::num::f32_to_bits_with_nan(self)
    }

    fn of_bits(b: u32) -> f32 {
        std::num::f32_from_bits_with_nan(b)
    }

    ghost own = { λ x. refl };

    ghost stands = { λ x. refl };

    ghost below = { float_below };

    ghost level = { λ x y. refl };

    ghost may_add = { λ x y. tt };

    ghost adds = { λ x y r h. h };
}

impl Real for f64 {
    type Bits = u64;

    ghost format = { binary64 };

    ghost value = { λ x. x };

    ghost of = { λ x. x };

    ghost number = { λ b. b };

    ghost of_number = { λ b. b };

    fn wide(self) -> f64 {
        self
    }

    fn abs(self) -> f64 {
        if self != self {
            self
        } else {
            f64::from_bits(self.to_bits() % 0x8000_0000_0000_0000)
        }
    }

    fn floor(self) -> f64 {
        self.floor()
    }

    fn ceil(self) -> f64 {
        self.ceil()
    }

    fn rem(self, m: f64) -> f64 {
        remainder(self, m)
    }

    fn is_finite(self) -> bool {
        self.is_finite()
    }

    fn bits(self) -> u64 {
        std::num::f64_to_bits_with_nan(self)
    }

    fn of_bits(b: u64) -> f64 {
        std::num::f64_from_bits_with_nan(b)
    }

    ghost own = { λ x. refl };

    ghost stands = { λ x. refl };

    ghost below = { float_below };

    ghost level = { λ x y. refl };

    ghost may_add = { λ x y. tt };

    ghost adds = { λ x y r h. h };
}
