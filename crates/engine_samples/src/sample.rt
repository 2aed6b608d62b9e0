// One sample: the births that it delivers, and how the offset moves.
ghost use Rattle.std.specs.Prelude.{◌≡◌, false};
ghost use Rattle.std.specs.Float.{binary64};
ghost use Rattle.sequences.specs.Pick.{pick};
ghost use Rattle.floats.specs.Names.{f64};
ghost use Rattle.floats.specs.Remainder.{rem_euclid};
ghost use Rattle.engine_samples.specs.Sample.{lanes_of, opportunity_after, cloud_of, glided_of};

use state::Engine;

// Whether a stream's start is heard.
fn sounds(emit: bool, enabled: bool) -> bool
    ensures { result ≡ pick emit enabled false }
{
    if emit { enabled } else { false }
}

// Each lane twice: a pair may start together; no backlog is kept. A stream is moved on before its birth,
// which draws by the old index.
pub fn lanes(engine: &mut Engine, reference: f64)
    ensures { engine.new ≡ lanes_of engine.old reference }
{
    for k in 0..6 {
        let lane = k / 2;
        let stream = engine.streams[lane];
        if reference < stream.next {} else {
            let moved = timing::move_on(stream, lane, reference, engine.config.sync);
            engine.streams[lane] = moved;
            if sounds(stream.emit, engine.config.enabled) {
                births::bear(engine, draws::sprinkle_key(lane, stream.index), None);
            }
        }
    }
}

fn opportunity_after(opportunity: u64, reference: f64) -> u64
    ensures { result ≡ opportunity_after opportunity reference }
{
    let after = opportunity.wrapping_add(1);
    let whole = floats::to_u64(floats::max(floats::floor(reference), 0.0));
    if after < whole {
        return whole;
    }
    after
}

pub fn cloud(engine: &mut Engine, reference: f64)
    ensures { engine.new ≡ cloud_of engine.old reference }
{
    let index = engine.next.opportunity;
    if reference >= timing::timing_reference(index) {
        engine.next.opportunity = opportunity_after(index, reference);
        if engine.config.enabled {
            births::bear(engine, index, None);
        }
    }
}

// Whole cycles taken off. While an offset glides it has nearly always none, and this no remainder.
fn within_a_cycle(x: f64) -> f64
    ensures { result ≡ rem_euclid binary64 x (f64 0x3ff0000000000000) }
{
    if x >= 0.0 {
        if x < 1.0 {
            return x;
        }
    }
    floats::rem_euclid(x, 1.0)
}

// The offset glides to the setting by the shorter way.
pub fn glide(phase_offset: f64, phase: f32, alpha: f64) -> f64
    ensures { result ≡ glided_of phase_offset phase alpha }
{
    let to = f64::from(phase) - phase_offset + 0.5;
    let difference = within_a_cycle(to) - 0.5;
    phase_offset + difference * alpha
}
