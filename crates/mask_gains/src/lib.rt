// The mask: what a frame leaves of each bin.
#![tactic(auto)]

mod bins;
mod gain;
mod logs;
mod search;
mod touch;

pub use bins::{MAX_FFT_SIZE, bin_table};
pub use gain::{gains, level, quiet};
pub use logs::lawful;
pub use touch::open_bins;
