// `active_count`, asked after each of many events.
ghost use Rattle.std.specs.Prelude.{◌≡◌};
ghost use Rattle.oracle_probe.specs.Counts.{sounding, asked_of};

use sources::Source;
use state::Engine;

// A new engine with one source, in slot 0.
fn sounding_engine() -> Engine
    ensures { result ≡ sounding }
{
    let done = engine::new_engine(48000.0);
    let mut engine = done.engine;
    let source = Source {
        frequency_hz: 440.0,
        strength: 1.0,
        eligible: true,
    };
    let _ = engine::set_source(&mut engine, 0, source);
    engine
}

// The sum of the answers after each of so many triggers; 0 where none is asked for, so that two times
// differ by what the questions take.
#[unsafe(no_mangle)]
pub extern "C" fn rk_probe_active_counts(events: u64, asked: bool) -> u64
    ensures { result ≡ asked_of asked events }
{
    let mut engine = sounding_engine();
    let mut sum: u64 = 0;
    for _ in 0..events {
        let _ = engine::trigger(&mut engine, 0);
        if asked {
            sum = sum.wrapping_add(engine::active_count(&engine) as u64);
        }
    }
    sum
}
