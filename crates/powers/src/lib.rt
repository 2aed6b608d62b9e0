// 2^x, e^x, 8^x and 10^x at f32 by one text over the base's logarithm, the gain of a level, and e^x at
// f64.
#![tactic(auto)]

mod power;
mod power64;
mod power_cells;

pub use power::{db_to_gain, exp, exp2, pow8, pow10};
pub use power64::exp64;
