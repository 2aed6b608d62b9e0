// Writes events for a host, one call for each: 0 and the count behind `at` moved on, or 13 and all as it
// was.
ghost use Rattle.std.specs.Prelude.{◌≡◌};
ghost use Rattle.script.specs.declared.fields.Field.TheVariants as F;
ghost use Rattle.refusals.specs.Numbers.{answer_of};
ghost use Rattle.host.specs.Write.{config_from, written_at};

use refusals::Refusal;
use settings::{Config, Direction, Shape};

// The count after a write goes behind `at`; the answer, by its number, comes back.
fn told(written: (usize, Result<(), Refusal>), at: &mut u64) -> u32
    ensures { (result ≡ answer_of written.1) × (at.new ≡ written.0) }
{
    let (count, answer) = written;
    *at = count as u64;
    refusals::answer_number(answer) as u32
}

#[unsafe(no_mangle)]
pub extern "C" fn rk_write_rate(rate: f32, out: &mut [u8], at: &mut u64) -> u32
    ensures { (result, at.new, out.new) ≡ written_at out.old at.old (F.Rate rate) }
{
    let written = script_writer::write_rate(rate, out, *at as usize);
    told(written, at)
}

#[unsafe(no_mangle)]
pub extern "C" fn rk_write_configure(
    enabled: bool,
    shape: u8,
    direction: u8,
    rate_hz: f32,
    size_octaves: f32,
    phase: f32,
    scheduled: bool,
    sync: bool,
    hop_samples: usize,
    partials: usize,
    partial_rolloff_db: f32,
    attack_ms: f32,
    release_ms: f32,
    out: &mut [u8],
    at: &mut u64,
) -> u32
    ensures { (result, at.new, out.new) ≡ written_at out.old at.old (F.Configure (config_from enabled shape direction rate_hz size_octaves phase scheduled sync hop_samples partials partial_rolloff_db attack_ms release_ms)) }
{
    let config = Config {
        enabled,
        shape: Shape::from(shape as u32),
        direction: Direction::from(direction as u32),
        rate_hz,
        size_octaves,
        phase,
        scheduled,
        sync,
        hop_samples,
        partials,
        partial_rolloff_db,
        attack_ms,
        release_ms,
    };
    let written = script_writer::write_configure(config, out, *at as usize);
    told(written, at)
}

#[unsafe(no_mangle)]
pub extern "C" fn rk_write_source(
    slot: u16,
    frequency_hz: f32,
    strength: f32,
    eligible: bool,
    out: &mut [u8],
    at: &mut u64,
) -> u32
    ensures { (result, at.new, out.new) ≡ written_at out.old at.old (F.Source slot frequency_hz strength eligible) }
{
    let written = script_writer::write_source(
        slot,
        frequency_hz,
        strength,
        eligible,
        out,
        *at as usize,
    );
    told(written, at)
}

#[unsafe(no_mangle)]
pub extern "C" fn rk_write_retire(slot: u16, out: &mut [u8], at: &mut u64) -> u32
    ensures { (result, at.new, out.new) ≡ written_at out.old at.old (F.Retire slot) }
{
    let written = script_writer::write_retire(slot, out, *at as usize);
    told(written, at)
}

#[unsafe(no_mangle)]
pub extern "C" fn rk_write_release(slot: u16, out: &mut [u8], at: &mut u64) -> u32
    ensures { (result, at.new, out.new) ≡ written_at out.old at.old (F.Release slot) }
{
    let written = script_writer::write_release(slot, out, *at as usize);
    told(written, at)
}

#[unsafe(no_mangle)]
pub extern "C" fn rk_write_trigger(slot: u16, out: &mut [u8], at: &mut u64) -> u32
    ensures { (result, at.new, out.new) ≡ written_at out.old at.old (F.Trigger slot) }
{
    let written = script_writer::write_trigger(slot, out, *at as usize);
    told(written, at)
}

#[unsafe(no_mangle)]
pub extern "C" fn rk_write_seek(cycles: f64, out: &mut [u8], at: &mut u64) -> u32
    ensures { (result, at.new, out.new) ≡ written_at out.old at.old (F.Seek cycles) }
{
    let written = script_writer::write_seek(cycles, out, *at as usize);
    told(written, at)
}

#[unsafe(no_mangle)]
pub extern "C" fn rk_write_advance(samples: u32, out: &mut [u8], at: &mut u64) -> u32
    ensures { (result, at.new, out.new) ≡ written_at out.old at.old (F.Advance samples) }
{
    let written = script_writer::write_advance(samples, out, *at as usize);
    told(written, at)
}

#[unsafe(no_mangle)]
pub extern "C" fn rk_write_frame(bin_hz: f32, elapsed: f32, out: &mut [u8], at: &mut u64) -> u32
    ensures { (result, at.new, out.new) ≡ written_at out.old at.old (F.Frame bin_hz elapsed) }
{
    let written = script_writer::write_frame(bin_hz, elapsed, out, *at as usize);
    told(written, at)
}

#[unsafe(no_mangle)]
pub extern "C" fn rk_write_note_input(present: bool, out: &mut [u8], at: &mut u64) -> u32
    ensures { (result, at.new, out.new) ≡ written_at out.old at.old (F.NoteInput present) }
{
    let written = script_writer::write_note_input(present, out, *at as usize);
    told(written, at)
}

#[unsafe(no_mangle)]
pub extern "C" fn rk_write_reset(out: &mut [u8], at: &mut u64) -> u32
    ensures { (result, at.new, out.new) ≡ written_at out.old at.old F.Reset }
{
    let written = script_writer::write_reset(out, *at as usize);
    told(written, at)
}

#[unsafe(no_mangle)]
pub extern "C" fn rk_write_reserve(out: &mut [u8], at: &mut u64) -> u32
    ensures { (result, at.new, out.new) ≡ written_at out.old at.old F.Reserve }
{
    let written = script_writer::write_reserve(out, *at as usize);
    told(written, at)
}

#[unsafe(no_mangle)]
pub extern "C" fn rk_write_reserved_trigger(
    slot: u16,
    index: u64,
    out: &mut [u8],
    at: &mut u64,
) -> u32
    ensures { (result, at.new, out.new) ≡ written_at out.old at.old (F.ReservedTrigger slot index) }
{
    let written = script_writer::write_reserved_trigger(slot, index, out, *at as usize);
    told(written, at)
}
