// The mask file of a whole script: a record for each accepted frame, one behind the other.
#![tactic(auto)]

use listing::Line;
use refusals::Refusal;
use script_steps::Run;

mod file;
mod frames;
mod rate;

pub use file::masks;
pub use frames::{next_record, start};
pub use rate::prepare;

// Where a walk over a script stands: before field n, which stands at `at`, with what the fields
// before it left.
#[derive(Clone, Copy)]
pub struct Walk {
    pub run: Run,
    pub n: u64,
    pub at: usize,
}

// What a step comes to: the place after a frame's record; the number of a frame's field, and why it
// has no record; or the script's last line.
#[derive(Clone, Copy)]
pub enum Made {
    Record(usize),
    Refused(u64, Refusal),
    Last(Line),
}

// The walk behind the field that a step reached.
#[derive(Clone, Copy)]
pub struct Step {
    pub walk: Walk,
    pub made: Made,
}
