// Runs the draws on stored cases (tests/vectors/draws.rs): SplitMix64's published outputs, worked
// examples and the original's own answers. Says how many differ.
#![tactic(auto)]

use vectors::{Cases, answer, first, operation, second};

struct Draws;

impl Cases for Draws {
    fn differs(line: &[u8; 84]) -> bool {
        let a = first(line);
        let b = second(line);
        match operation(line) {
            0 => draws::mix(a) != answer(line),
            1 => draws::sprinkle_key(a as usize, b) != answer(line),
            _ => (floats::bits(draws::random(a, b)) as u64) != answer(line),
        }
    }
}

fn main() {
    vectors::run::<Draws>();
}
