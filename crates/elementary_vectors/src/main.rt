// Runs the elementary functions on stored cases, answered by a plain implementation of
// docs/FUNCTIONS.md (tests/vectors/elementary.rs), and says how many differ.
#![tactic(auto)]

use vectors::{Cases, answer, first, operation};

fn bits_of(op: u64, x: f32) -> u64 {
    let r = match op {
        0 => elementary::log2(x),
        1 => elementary::exp2(x),
        2 => elementary::exp(x),
        3 => elementary::pow8(x),
        4 => elementary::pow10(x),
        5 => elementary::sqrt(x),
        _ => elementary::db_to_gain(x),
    };
    floats::bits(r) as u64
}

struct Elementary;

impl Cases for Elementary {
    fn differs(line: &[u8; 84]) -> bool {
        let op = operation(line);
        let a = first(line);
        if op == 7 {
            return floats::bits(elementary::exp64(floats::of_bits(a))) != answer(line);
        }
        bits_of(op, floats::of_bits((a % 4294967296) as u32)) != answer(line)
    }
}

fn main() {
    vectors::run::<Elementary>();
}
