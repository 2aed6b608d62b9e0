// The calls that change settings, the note input and the place in the film.
#![tactic(auto)]

ghost use Rattle.std.specs.Prelude.{◌≡◌};
ghost use Rattle.engine_changes.specs.Changes.{retired_all, aligned, reweighed, same_kind, switched, offset, enters, prepared_all, restarted, configured_of, notes_of, sought_phase, sought_opportunity, sought_of};

use refusals::Refusal;
use settings::{Config, Shape};
use state::Engine;
use timing::{SPRINKLE_STREAMS, SprinkleStream};

fn retire_all(engine: &mut Engine)
    ensures { engine.new ≡ retired_all engine.old }
{
    engine.particles = pool::retire_all(engine.particles, engine.clock.sample);
}

fn reweigh(engine: &mut Engine, config: Config)
    ensures { engine.new ≡ reweighed engine.old config }
{
    if config.partial_rolloff_db != engine.config.partial_rolloff_db {
        let logs = engine.prepared.partial_logs;
        engine.partial_weights = state::weights(logs, config.partial_rolloff_db);
    }
}

fn same_kind(before: Config, after: Config) -> bool
    ensures { result ≡ same_kind before after }
{
    before.shape == after.shape && before.enabled == after.enabled
}

// Another shape, or on in place of off or the other way round, retires every particle.
fn switch(engine: &mut Engine, config: Config)
    ensures { engine.new ≡ switched engine.old config }
{
    if !same_kind(engine.config, config) {
        retire_all(engine);
    }
}

// Only before the first sample does the offset jump.
fn offset(engine: &mut Engine, phase: f32)
    ensures { engine.new ≡ offset engine.old phase }
{
    if engine.clock.sample == 0 {
        engine.clock.phase_offset = f64::from(phase);
    }
}

fn enters_sprinkle(before: Config, after: Config) -> bool
    ensures { result ≡ enters before after }
{
    after.shape == Shape::Sprinkle
        && (before.shape != after.shape || (!before.enabled && after.enabled))
}

fn prepare_streams(
    streams: [SprinkleStream; SPRINKLE_STREAMS],
    sync: bool,
) -> [SprinkleStream; SPRINKLE_STREAMS]
    ensures { result ≡ prepared_all streams sync }
{
    let a = streams[0];
    let b = streams[1];
    let c = streams[2];
    let first = timing::prepare(a, 0, sync);
    let second = timing::prepare(b, 1, sync);
    let third = timing::prepare(c, 2, sync);
    [first, second, third]
}

fn align_streams(engine: &mut Engine)
    ensures { engine.new ≡ aligned engine.old }
{
    let reference = engine.clock.phase + engine.clock.phase_offset;
    engine.streams = timing::align_streams(reference, engine.config.sync);
}

// Entering Sprinkle begins its streams anew where the clock stands; a change of sync alone puts the
// same starts on the grid or off it.
fn restart(engine: &mut Engine, before: Config)
    ensures { engine.new ≡ restarted engine.old before }
{
    let after = engine.config;
    if enters_sprinkle(before, after) {
        align_streams(engine);
    } else if before.sync != after.sync {
        engine.streams = prepare_streams(engine.streams, after.sync);
    }
}

pub fn configure(engine: &mut Engine, config: Config) -> Result<(), Refusal>
    ensures answer { result ≡ (configured_of engine.old config).answer }
    ensures engine { engine.new ≡ (configured_of engine.old config).engine }
{
    settings::checked(config)?;
    let config = settings::mended(config);
    let before = engine.config;
    reweigh(engine, config);
    switch(engine, config);
    offset(engine, config.phase);
    engine.config = config;
    restart(engine, before);
    Ok(())
}

// Presence counts muted and unmapped notes: they must not let free particles in.
pub fn set_note_input_present(engine: &mut Engine, present: bool)
    ensures { engine.new ≡ notes_of engine.old present }
{
    engine.next.note_input_present = present;
}

fn sought_phase(cycles: f64) -> f64
    ensures { result ≡ sought_phase cycles }
{
    if floats::is_finite(cycles) {
        return floats::rem_euclid(cycles, 1000000000.0);
    }
    0.0
}

// The opportunity of the phase's cycle, or the next one where the reference has come to it.
fn sought_opportunity(phase: f64, reference: f64) -> u64
    ensures { result ≡ sought_opportunity phase reference }
{
    let opportunity = floats::to_u64(floats::floor(phase));
    if timing::timing_reference(opportunity) <= reference {
        return opportunity.wrapping_add(1);
    }
    opportunity
}

// Starts anew at the destination; what was missed is never made up for.
pub fn seek(engine: &mut Engine, cycles: f64)
    ensures { engine.new ≡ sought_of engine.old cycles }
{
    retire_all(engine);
    let phase = sought_phase(cycles);
    let phase_offset = f64::from(engine.config.phase);
    engine.clock.phase = phase;
    engine.clock.phase_offset = phase_offset;
    engine.next.opportunity = sought_opportunity(phase, phase + phase_offset);
    engine.next.immediate_index = 0;
    engine.next.last_source = None;
    align_streams(engine);
}
