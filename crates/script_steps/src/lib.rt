// The run of a script, what a field comes to, and what the line of an accepted frame says.
#![tactic(auto)]

ghost use Rattle.std.specs.Prelude.{◌≡◌};
ghost use Rattle.script_steps.specs.Steps as Steps;
ghost use Rattle.script_steps.specs.Replies.{reply_of};

use refusals::Refusal;
use state::Engine;
use windows::Frame;

mod values;

pub use values::{Values, values_of};

// The engine, and the last frame that it accepted, empty before the first.
#[derive(Clone, Copy)]
pub struct Run {
    pub engine: Engine,
    pub frame: Frame,
}

// The run after a field, and what the field comes to: a refusal, the values of an accepted frame, or
// nothing to print.
#[derive(Clone, Copy)]
pub struct Stepped {
    pub run: Run,
    pub reply: Result<Option<Values>, Refusal>,
}

// Before the first field; the rate replaces the engine.
pub fn fresh() -> Run
    ensures { result ≡ Steps.fresh }
{
    let made = engine::new_engine(48000.0);
    Run {
        engine: made.engine,
        frame: Frame::default(),
    }
}

// Only a refusal is printed: neither that a call took what it was given, nor what a trigger came to.
pub fn answered<T: Drop>(answer: Result<T, Refusal>) -> Result<Option<Values>, Refusal>
    ensures { result ≡ reply_of answer }
{
    match answer {
        Ok(_) => Ok(None),
        Err(refusal) => Err(refusal),
    }
}
