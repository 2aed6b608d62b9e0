// Shapes and directions by their numbers.
ghost use Rattle.std.specs.Prelude.{◌≡◌};
ghost use Rattle.settings.specs.ByNumber.{shape_number, direction_number, shape_from, direction_from};

use crate::{Direction, Shape};

impl From<Shape> for u8 {
    ghost from_gives = { λ s n. n ≡ shape_number s };

    fn from(s: Shape) -> u8 {
        match s {
            Shape::Sprinkle => 0,
            Shape::Cloud => 1,
        }
    }
}

impl From<Direction> for u8 {
    ghost from_gives = { λ d n. n ≡ direction_number d };

    fn from(d: Direction) -> u8 {
        match d {
            Direction::Forward => 0,
            Direction::Reverse => 1,
            Direction::Alternate => 2,
        }
    }
}

// 0 is Sprinkle, all else Cloud.
impl From<u32> for Shape {
    ghost from_gives = { λ n s. s ≡ shape_from n };

    fn from(n: u32) -> Shape {
        match n {
            0 => Shape::Sprinkle,
            _ => Shape::Cloud,
        }
    }
}

// 0 is forward, 1 reverse, all else alternate.
impl From<u32> for Direction {
    ghost from_gives = { λ n d. d ≡ direction_from n };

    fn from(n: u32) -> Direction {
        match n {
            0 => Direction::Forward,
            1 => Direction::Reverse,
            _ => Direction::Alternate,
        }
    }
}
