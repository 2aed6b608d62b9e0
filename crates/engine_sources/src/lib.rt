// The calls on one of the source slots.
#![tactic(auto)]

ghost use Rattle.std.specs.Prelude.{◌≡◌, ◌<◌};
ghost use Rattle.sources.specs.Sources.{max_sources};
ghost use Rattle.engine_sources.specs.Slots.{supplied_of, set_source_of, retire_source_of, release_source_of};

use refusals::Refusal;
use sources::{MAX_SOURCES, Source};
use state::Engine;

fn place_source(engine: &mut Engine, slot: usize, source: Source)
    requires { slot < max_sources }
    ensures { engine.new ≡ supplied_of engine.old slot source }
{
    engine.sources[slot] = source;
    if sources::pitched(source.frequency_hz) {
        engine.particles = pool::retune(engine.particles, slot, source.frequency_hz);
    }
}

pub fn set_source(engine: &mut Engine, slot: usize, source: Source) -> Result<(), Refusal>
    ensures answer { result ≡ (set_source_of engine.old slot source).answer }
    ensures engine { engine.new ≡ (set_source_of engine.old slot source).engine }
{
    if slot >= MAX_SOURCES {
        return Err(Refusal::Slot);
    }
    if !sources::same(engine.sources[slot], source) {
        place_source(engine, slot, source);
    }
    Ok(())
}

// Clears the slot and retires those who follow it.
pub fn retire_source(engine: &mut Engine, slot: usize) -> Result<(), Refusal>
    ensures answer { result ≡ (retire_source_of engine.old slot).answer }
    ensures engine { engine.new ≡ (retire_source_of engine.old slot).engine }
{
    if slot >= MAX_SOURCES {
        return Err(Refusal::Slot);
    }
    engine.sources[slot] = Source::default();
    engine.particles = pool::retire_bound(engine.particles, slot, engine.clock.sample);
    Ok(())
}

// The source supplies no more births; its windows finish at their last pitch.
pub fn release_source(engine: &mut Engine, slot: usize) -> Result<(), Refusal>
    ensures answer { result ≡ (release_source_of engine.old slot).answer }
    ensures engine { engine.new ≡ (release_source_of engine.old slot).engine }
{
    if slot >= MAX_SOURCES {
        return Err(Refusal::Slot);
    }
    engine.sources[slot] = sources::released(engine.sources[slot]);
    Ok(())
}
