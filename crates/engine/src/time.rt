// `advance`: up to the next start only the clock moves; a sample at which something is due is a whole one.
ghost use Rattle.std.specs.Prelude.{◌≡◌};
ghost use Rattle.engine.specs.Advance.{advanced_of};

use refusals::Refusal;
use settings::Shape;
use state::Engine;

pub fn advance(engine: &mut Engine, samples: u64) -> Result<(), Refusal>
    ensures answer { result ≡ (advanced_of engine.old samples).answer }
    ensures engine { engine.new ≡ (advanced_of engine.old samples).engine }
{
    if samples > crate::MAX_ELAPSED_SAMPLES {
        return Err(Refusal::Elapsed);
    }
    if engine.clock.sample > crate::MAX_ELAPSED_SAMPLES - samples {
        return Err(Refusal::Elapsed);
    }
    let mut i: u64 = 0;
    loop {
        let config = engine.config;
        let starts = engine_samples::next_starts(config, engine.streams, engine.next.opportunity);
        let tempo = engine_samples::tempo_of(
            config,
            engine.prepared.sample_rate,
            engine.prepared.phase_alpha,
        );
        let waited = engine_samples::wait(engine.clock, starts, tempo, samples - i);
        engine.clock = waited.clock;
        i += waited.count;
        if i == samples {
            return Ok(());
        }
        // Something may be due: what it delivers comes first, and then the clock.
        if config.scheduled {
            let reference = engine.clock.phase + engine.clock.phase_offset;
            match config.shape {
                Shape::Sprinkle => engine_samples::lanes(engine, reference),
                Shape::Cloud => engine_samples::cloud(engine, reference),
            }
        }
        engine.clock = engine_samples::clock_after(engine.clock, tempo);
        i += 1;
    }
}
