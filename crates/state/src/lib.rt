// The engine's state, in groups of what changes together. Each call is lent it, and changes it where it
// stands.
#![tactic(auto)]

ghost use Rattle.std.specs.Prelude.{◌≡◌};
ghost use Rattle.state.specs.State.{taken, refused};

use pool::{MAX_PARTICLES, Particle};
use refusals::Refusal;
use settings::{Config, MAX_PARTIALS};
use sources::{MAX_SOURCES, Source};
use timing::{SPRINKLE_STREAMS, SprinkleStream};

mod make;
mod tallies;

pub use make::{from_prepared, prepare, weights};
pub use tallies::{bear_one, drop_one};

// What follows from the sample rate, kept across resets.
#[derive(Clone, Copy)]
pub struct Prepared {
    pub sample_rate: f64,
    pub phase_alpha: f64,
    pub partial_logs: [f32; MAX_PARTIALS],
    pub default_partial_weights: [f32; MAX_PARTIALS],
}

#[derive(Clone, Copy)]
pub struct Clock {
    pub sample: u64,
    pub phase: f64,
    pub phase_offset: f64,
}

// What the next births take: the Cloud's opportunity, a trigger's index, the slot that the last birth
// chose (`None` for none), and whether note input is present.
#[derive(Clone, Copy)]
pub struct Next {
    pub opportunity: u64,
    pub immediate_index: u64,
    pub last_source: Option<usize>,
    pub note_input_present: bool,
}

// Decisions only, and how many places are held: no sound follows from the last four.
#[derive(Clone, Copy)]
pub struct Tally {
    pub attempts: u64,
    pub births: u64,
    pub dropped: u64,
    pub decision_hash: u64,
    pub held: usize,
}

#[derive(Clone, Copy)]
pub struct Engine {
    pub particles: [Particle; MAX_PARTICLES],
    pub sources: [Source; MAX_SOURCES],
    pub prepared: Prepared,
    pub clock: Clock,
    pub next: Next,
    pub streams: [SprinkleStream; SPRINKLE_STREAMS],
    pub partial_weights: [f32; MAX_PARTIALS],
    pub tally: Tally,
    pub config: Config,
    pub activity: f32,
}

// What the definitions have of a call: the engine after it, and what it answers. A new engine is handed
// out so, refused or not. The engine stands first: behind a small enum its copies would begin at an odd
// place.
#[derive(Clone, Copy)]
pub struct Done {
    pub engine: Engine,
    pub answer: Result<(), Refusal>,
}

pub fn take(engine: Engine) -> Done
    ensures { result ≡ taken engine }
{
    Done {
        answer: Ok(()),
        engine,
    }
}

pub fn refuse(engine: Engine, refusal: Refusal) -> Done
    ensures { result ≡ refused refusal engine }
{
    Done {
        answer: Err(refusal),
        engine,
    }
}
