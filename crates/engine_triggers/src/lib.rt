// Births that a note asks for at once.
#![tactic(auto)]

ghost use Rattle.std.specs.Prelude.{◌≡◌, Ok};
ghost use Rattle.engine_triggers.specs.Triggers.{reserved_of, triggered_by, triggered_of};
ghost use Rattle.engine_triggers.specs.Firing.{permits, became_of};

use refusals::Refusal;
use settings::Config;
use sources::Source;
use state::Engine;

// What a trigger comes to where it is not refused.
#[derive(Clone, Copy)]
pub enum Outcome {
    Born,
    NotEligible,
    Dropped,
}

// What the definitions have of a trigger: the engine after it, and what it comes to.
#[derive(Clone, Copy)]
pub struct Triggered {
    pub engine: Engine,
    pub outcome: Result<Outcome, Refusal>,
}

// What the definitions have of a reservation: the index, and the engine after it.
#[derive(Clone, Copy)]
pub struct Reserved {
    pub index: u64,
    pub engine: Engine,
}

// An index is reserved when the note arrives, whatever becomes of it: overflow must not shift what
// later notes draw.
pub fn reserve_trigger(engine: &mut Engine) -> u64
    ensures index { result ≡ (reserved_of engine.old).index }
    ensures engine { engine.new ≡ (reserved_of engine.old).engine }
{
    let index = engine.next.immediate_index;
    engine.next.immediate_index = index.wrapping_add(1);
    index
}

fn permitted(config: Config, source: Source) -> bool
    ensures { result ≡ permits config source }
{
    config.enabled && settings::is_sprinkle(config.shape) && sources::eligible(source)
}

// A birth that was dropped has made `dropped` grow.
fn became(before: u64, after: u64) -> Outcome
    ensures { Ok result ≡ became_of before after }
{
    if after == before {
        Outcome::Born
    } else {
        Outcome::Dropped
    }
}

pub fn trigger_reserved(engine: &mut Engine, slot: usize, index: u64) -> Result<Outcome, Refusal>
    ensures outcome { result ≡ (triggered_by engine.old slot index).outcome }
    ensures engine { engine.new ≡ (triggered_by engine.old slot index).engine }
{
    if slot >= sources::MAX_SOURCES {
        return Err(Refusal::Slot);
    }
    if !permitted(engine.config, engine.sources[slot]) {
        return Ok(Outcome::NotEligible);
    }
    let dropped = engine.tally.dropped;
    births::bear(engine, index ^ 9223372036854775808, Some(slot));
    Ok(became(dropped, engine.tally.dropped))
}

pub fn trigger(engine: &mut Engine, slot: usize) -> Result<Outcome, Refusal>
    ensures outcome { result ≡ (triggered_of engine.old slot).outcome }
    ensures engine { engine.new ≡ (triggered_of engine.old slot).engine }
{
    let index = reserve_trigger(engine);
    trigger_reserved(engine, slot, index)
}
