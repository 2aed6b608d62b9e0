// The engine's calls, all but `frame`: a new engine, a reset one, two counts and `advance`; the others are
// handed on.
#![tactic(auto)]

mod counts;
mod make;
mod time;

pub use counts::{active_count, elapsed_samples};
pub use engine_changes::{configure, seek, set_note_input_present};
pub use engine_sources::{release_source, retire_source, set_source};
pub use engine_triggers::{Outcome, reserve_trigger, trigger, trigger_reserved};
pub use make::{new_engine, reset};
pub use time::advance;

// Added by 01: the clock goes no further.
pub const MAX_ELAPSED_SAMPLES: u64 = 1099511627776;
