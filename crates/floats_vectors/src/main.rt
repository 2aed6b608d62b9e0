// Runs the float helpers on the stored cases of `stdin`, whose answers Rust gave
// (tests/vectors/floats.rs), and says how many differ.
#![tactic(auto)]

use vectors::{Cases, answer, first, operation, second, third};

fn f32_of(w: u64) -> f32 {
    floats::of_bits((w % 4294967296) as u32)
}

fn f64_of(w: u64) -> f64 {
    floats::of_bits(w)
}

fn of_f32(x: f32) -> u64 {
    floats::bits(x) as u64
}

fn of_f64(x: f64) -> u64 {
    floats::bits(x)
}

fn result(op: u64, a: u64, b: u64, c: u64) -> u64 {
    match op {
        0 => of_f32(floats::floor(f32_of(a))),
        1 => of_f64(floats::floor(f64_of(a))),
        2 => of_f32(floats::ceil(f32_of(a))),
        3 => of_f64(floats::ceil(f64_of(a))),
        4 => of_f32(floats::max(f32_of(a), f32_of(b))),
        5 => of_f64(floats::max(f64_of(a), f64_of(b))),
        6 => of_f32(floats::min(f32_of(a), f32_of(b))),
        7 => of_f32(floats::clamp(f32_of(a), f32_of(b), f32_of(c))),
        8 => of_f32(floats::abs(f32_of(a))),
        9 => u64::from(floats::is_finite(f32_of(a))),
        10 => u64::from(floats::is_finite(f64_of(a))),
        11 => floats::to_u32(f32_of(a)) as u64,
        12 => floats::to_u64(f32_of(a)),
        13 => floats::to_usize(f32_of(a)) as u64,
        14 => floats::to_u32(f64_of(a)) as u64,
        15 => floats::to_u64(f64_of(a)),
        16 => floats::to_usize(f64_of(a)) as u64,
        17 => of_f64(f64::from(f32_of(a))),
        18 => of_f32(floats::f64_to_f32(f64_of(a))),
        19 => of_f32(floats::u64_to_f32(a)),
        20 => of_f32(f32_of(a)),
        21 => of_f64(f64_of(a)),
        22 => of_f32(floats::rem(f32_of(a), f32_of(b))),
        23 => of_f64(floats::rem(f64_of(a), f64_of(b))),
        24 => of_f32(floats::rem_euclid(f32_of(a), f32_of(b))),
        25 => of_f64(floats::rem_euclid(f64_of(a), f64_of(b))),
        26 => floats::wrapping_mul(a, b),
        _ => floats::rotate_left(a, (b % 4294967296) as u32),
    }
}

struct Floats;

impl Cases for Floats {
    fn differs(line: &[u8; 84]) -> bool {
        let r = result(operation(line), first(line), second(line), third(line));
        r != answer(line)
    }
}

fn main() {
    vectors::run::<Floats>();
}
