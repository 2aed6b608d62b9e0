// The float and word operations of the Rust that Rattle has no operator for. Each is total, with
// the meaning that a release build of Rust gives it; 01 settles what Rust leaves open.
#![tactic(auto)]

mod cast;
mod choices;
mod modulo;
mod real;
mod remainder;
mod whole;
mod word;

pub use cast::{f64_to_f32, to_u32, to_u64, to_usize, u64_to_f32};
pub use choices::{abs, clamp, is_finite, max, min, pick, step_if};
pub use remainder::{rem, rem_euclid};
pub use whole::{ceil, floor};
pub use word::{bits, of_bits, rotate_left, wrapping_mul};
