// What a sample delivers, and the samples at which nothing is due.
#![tactic(auto)]

mod sample;
mod waiting;

pub use sample::{cloud, lanes};
pub use waiting::{clock_after, next_starts, tempo_of, wait};
