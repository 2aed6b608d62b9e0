// One birth: its source, the attempt, the place; and what it stores.
ghost use Rattle.std.specs.Prelude.{◌≡◌, ◌<◌, IfSome};
ghost use Rattle.births.specs.Birth.{voice_by, chosen_by, tried_one, is_barred, born_of};
ghost use Rattle.births.specs.Arrival.{turned_away, arrival_of};

use crate::voices;
use crate::voices::Voice;
use pool::Particle;
use settings::Shape;
use sources::{MAX_SOURCES, Source};
use state::{Engine, Tally};

pub const MAX_BIRTH_ATTEMPTS: u64 = 64;

// What a birth stores in the engine: the slot that it chose, the tally, and the particle at its place.
#[derive(Clone, Copy)]
pub struct Arrival {
    pub particle: Particle,
    pub tally: Tally,
    pub slot: Option<usize>,
    pub place: Option<usize>,
}

fn try_one(tally: Tally) -> Tally
    ensures { result ≡ tried_one tally }
{
    let attempts = tally.attempts.wrapping_add(1);
    let mut out = tally;
    out.attempts = attempts;
    out
}

fn voice(
    sources: [Source; MAX_SOURCES],
    shape: Shape,
    phase: f64,
    sample_rate: f64,
    index: u64,
    slot: Option<usize>,
) -> Voice
    ensures { result ≡ voice_by sources shape phase sample_rate index slot }
{
    match slot {
        Some(slot) if slot < MAX_SOURCES => voices::source_voice(slot, sources[slot]),
        _ => voices::free_voice(shape, index, phase, sample_rate),
    }
}

// No source was found while notes are held.
fn barred(slot: Option<usize>, note_input_present: bool) -> bool
    ensures { result ≡ is_barred slot note_input_present }
{
    slot.is_none() && note_input_present
}

// A trigger's own slot, or one of the eligible sources by the draw.
fn choose(
    sources: [Source; MAX_SOURCES],
    last: Option<usize>,
    index: u64,
    own: Option<usize>,
) -> Option<usize>
    ensures { result ≡ chosen_by sources last index own }
{
    match own {
        Some(_) => own,
        None => sources::choose(sources, last, draws::random(index, draws::SOURCE)),
    }
}

// A birth that takes no place.
pub fn turned_away(slot: Option<usize>, tally: Tally) -> Arrival
    ensures { result ≡ turned_away slot tally }
{
    let particle = Particle::default();
    Arrival {
        particle,
        tally,
        slot,
        place: None,
    }
}

// The lowest free place is taken; where there is none, the birth is dropped. The choice is among what
// is to be stored whatever else comes of it: a birth that is turned away leaves the sequence of sources
// as it would have been.
pub fn birth(engine: &Engine, index: u64, own: Option<usize>) -> Arrival
    ensures is { result ≡ arrival_of engine.now index own }
    ensures placed { IfSome result.place (λ i. i < 64) }
{
    let sources = engine.sources;
    let tally = engine.tally;
    let slot = choose(sources, engine.next.last_source, index, own);
    if tally.attempts == MAX_BIRTH_ATTEMPTS {
        return turned_away(slot, state::drop_one(tally));
    }
    let tried = try_one(tally);
    if barred(slot, engine.next.note_input_present) {
        return turned_away(slot, tried);
    }
    let particles = engine.particles;
    let Some(place) = pool::free_place(particles) else {
        return turned_away(slot, state::drop_one(tried));
    };
    let config = engine.config;
    let shape = config.shape;
    let weights = engine.partial_weights;
    let voice = voice(
        sources,
        shape,
        engine.clock.phase,
        engine.prepared.sample_rate,
        index,
        slot,
    );
    let particle = crate::newborn(
        index,
        voice,
        config,
        engine.prepared.sample_rate,
        engine.clock.sample,
        weights,
    );
    let tally = state::bear_one(tried, index, engine.clock.sample, particle);
    Arrival {
        particle,
        tally,
        slot,
        place: Some(place),
    }
}

// The birth, and what it stores.
pub fn bear(engine: &mut Engine, index: u64, own: Option<usize>)
    ensures { engine.new ≡ born_of engine.old index own }
{
    let arrival = birth(engine, index, own);
    engine.next.last_source = arrival.slot;
    engine.tally = arrival.tally;
    if let Some(place) = arrival.place {
        engine.particles[place] = arrival.particle;
    }
}
