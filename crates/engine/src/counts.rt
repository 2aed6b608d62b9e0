// The engine's two counts: samples that have gone by, and places that are held.
ghost use Rattle.std.specs.Prelude.{◌≡◌};

use state::Engine;

pub fn elapsed_samples(engine: &Engine) -> u64
    ensures { result ≡ engine.now.clock.sample }
{
    engine.clock.sample
}

// The number that the engine holds, which births and frames keep true.
pub fn active_count(engine: &Engine) -> usize
    ensures { result ≡ engine.now.tally.held }
{
    engine.tally.held
}
