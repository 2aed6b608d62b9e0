// Elementary functions of floats: each is a fixed order of IEEE and integer operations, the same on
// every machine, and total.
#![tactic(auto)]

mod log_cells;
mod logarithm;
mod root;
mod rung;

pub use logarithm::log2;
pub use powers::{db_to_gain, exp, exp2, exp64, pow8, pow10};
pub use root::sqrt;
