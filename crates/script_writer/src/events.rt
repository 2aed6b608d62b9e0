// Each event: its tag and its value.
ghost use Rattle.std.specs.Prelude.{◌≡◌, length};
ghost use Rattle.text.specs.Put.{buffer_of};
ghost use Rattle.script.specs.declared.fields.Field.TheVariants as F;
ghost use Rattle.script_writer.specs.Encoded.{encoded};
ghost use Rattle.script_writer.specs.Written.{written_of};

use crate::tagged::write_tagged;
use crate::values::{config_value, frame_value, reserved_value, source_value};
use big_endian::{bytes16, bytes32, double, flag, single};
use refusals::Refusal;
use settings::Config;

pub fn write_rate(rate: f32, out: &mut [u8], at: usize) -> (usize, Result<(), Refusal>)
    ensures { (result ≡ written_of (length out.old) at (encoded (F.Rate rate))) × (out.new ≡ buffer_of out.old at (encoded (F.Rate rate))) }
{
    write_tagged(1, &single(rate), out, at)
}

pub fn write_configure(config: Config, out: &mut [u8], at: usize) -> (usize, Result<(), Refusal>)
    ensures { (result ≡ written_of (length out.old) at (encoded (F.Configure config))) × (out.new ≡ buffer_of out.old at (encoded (F.Configure config))) }
{
    write_tagged(2, &config_value(config), out, at)
}

pub fn write_source(
    slot: u16,
    frequency_hz: f32,
    strength: f32,
    eligible: bool,
    out: &mut [u8],
    at: usize,
) -> (usize, Result<(), Refusal>)
    ensures { (result ≡ written_of (length out.old) at (encoded (F.Source slot frequency_hz strength eligible))) × (out.new ≡ buffer_of out.old at (encoded (F.Source slot frequency_hz strength eligible))) }
{
    write_tagged(
        3,
        &source_value(slot, frequency_hz, strength, eligible),
        out,
        at,
    )
}

pub fn write_retire(slot: u16, out: &mut [u8], at: usize) -> (usize, Result<(), Refusal>)
    ensures { (result ≡ written_of (length out.old) at (encoded (F.Retire slot))) × (out.new ≡ buffer_of out.old at (encoded (F.Retire slot))) }
{
    write_tagged(4, &bytes16(slot), out, at)
}

pub fn write_release(slot: u16, out: &mut [u8], at: usize) -> (usize, Result<(), Refusal>)
    ensures { (result ≡ written_of (length out.old) at (encoded (F.Release slot))) × (out.new ≡ buffer_of out.old at (encoded (F.Release slot))) }
{
    write_tagged(5, &bytes16(slot), out, at)
}

pub fn write_trigger(slot: u16, out: &mut [u8], at: usize) -> (usize, Result<(), Refusal>)
    ensures { (result ≡ written_of (length out.old) at (encoded (F.Trigger slot))) × (out.new ≡ buffer_of out.old at (encoded (F.Trigger slot))) }
{
    write_tagged(6, &bytes16(slot), out, at)
}

pub fn write_seek(cycles: f64, out: &mut [u8], at: usize) -> (usize, Result<(), Refusal>)
    ensures { (result ≡ written_of (length out.old) at (encoded (F.Seek cycles))) × (out.new ≡ buffer_of out.old at (encoded (F.Seek cycles))) }
{
    write_tagged(7, &double(cycles), out, at)
}

pub fn write_advance(samples: u32, out: &mut [u8], at: usize) -> (usize, Result<(), Refusal>)
    ensures { (result ≡ written_of (length out.old) at (encoded (F.Advance samples))) × (out.new ≡ buffer_of out.old at (encoded (F.Advance samples))) }
{
    write_tagged(8, &bytes32(samples), out, at)
}

pub fn write_frame(
    bin_hz: f32,
    elapsed: f32,
    out: &mut [u8],
    at: usize,
) -> (usize, Result<(), Refusal>)
    ensures { (result ≡ written_of (length out.old) at (encoded (F.Frame bin_hz elapsed))) × (out.new ≡ buffer_of out.old at (encoded (F.Frame bin_hz elapsed))) }
{
    write_tagged(9, &frame_value(bin_hz, elapsed), out, at)
}

pub fn write_note_input(present: bool, out: &mut [u8], at: usize) -> (usize, Result<(), Refusal>)
    ensures { (result ≡ written_of (length out.old) at (encoded (F.NoteInput present))) × (out.new ≡ buffer_of out.old at (encoded (F.NoteInput present))) }
{
    write_tagged(10, &[flag(present)], out, at)
}

pub fn write_reset(out: &mut [u8], at: usize) -> (usize, Result<(), Refusal>)
    ensures { (result ≡ written_of (length out.old) at (encoded F.Reset)) × (out.new ≡ buffer_of out.old at (encoded F.Reset)) }
{
    write_tagged(11, &[], out, at)
}

pub fn write_reserve(out: &mut [u8], at: usize) -> (usize, Result<(), Refusal>)
    ensures { (result ≡ written_of (length out.old) at (encoded F.Reserve)) × (out.new ≡ buffer_of out.old at (encoded F.Reserve)) }
{
    write_tagged(12, &[], out, at)
}

pub fn write_reserved_trigger(
    slot: u16,
    index: u64,
    out: &mut [u8],
    at: usize,
) -> (usize, Result<(), Refusal>)
    ensures { (result ≡ written_of (length out.old) at (encoded (F.ReservedTrigger slot index))) × (out.new ≡ buffer_of out.old at (encoded (F.ReservedTrigger slot index))) }
{
    write_tagged(13, &reserved_value(slot, index), out, at)
}
