// Masks as files for the mixing stage: one record a frame, written to and read from lent bytes.
#![tactic(auto)]

mod decibels;
mod entry;
mod place;
mod reading;
mod search;
mod write;

pub use decibels::{table, tenths};
pub use reading::read_record;
pub use write::write_record;

// What the reader finds at the start of bytes: the frame's sample, the count of bins, and how many bytes
// the record takes.
#[derive(Clone, Copy)]
pub struct Found {
    pub sample: u64,
    pub count: usize,
    pub size: usize,
}
