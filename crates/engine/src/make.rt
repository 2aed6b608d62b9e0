// A new engine, and a reset one.
ghost use Rattle.std.specs.Prelude.{◌≡◌};
ghost use Rattle.engine.specs.New.{new_engine_of, reset_of};

use refusals::Refusal;
use state::{Done, Engine};

pub fn new_engine(sample_rate: f32) -> Done
    ensures { result ≡ new_engine_of sample_rate }
{
    if settings::lawful_rate(sample_rate) {
        return state::take(state::from_prepared(state::prepare(sample_rate)));
    }
    let engine = state::from_prepared(state::prepare(48000.0));
    state::refuse(engine, Refusal::Rate)
}

pub fn reset(engine: &mut Engine)
    ensures { engine.new ≡ reset_of engine.old }
{
    *engine = state::from_prepared(engine.prepared);
}
