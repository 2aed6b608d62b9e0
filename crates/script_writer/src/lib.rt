// Writes events into a lent buffer, one encoding for each: any event, or each by a call of its own.
#![tactic(auto)]

ghost use Rattle.std.specs.Prelude.{◌≡◌, length};
ghost use Rattle.text.specs.Put.{buffer_of};
ghost use Rattle.script_writer.specs.Encoded.{encoded};
ghost use Rattle.script_writer.specs.Written.{written_of};

use refusals::Refusal;
use script::Field;

mod events;
mod tagged;
mod values;

pub use events::{
    write_advance, write_configure, write_frame, write_note_input, write_rate, write_release,
    write_reserve, write_reserved_trigger, write_reset, write_retire, write_seek, write_source,
    write_trigger,
};

// The field behind the `at` bytes that `out` holds, and how many it holds then. Where it does not fit,
// nothing is written.
pub fn write_field(field: Field, out: &mut [u8], at: usize) -> (usize, Result<(), Refusal>)
    ensures { (result ≡ written_of (length out.old) at (encoded field)) × (out.new ≡ buffer_of out.old at (encoded field)) }
{
    match field {
        Field::Rate(rate) => write_rate(rate, out, at),
        Field::Configure(config) => write_configure(config, out, at),
        Field::Source(slot, frequency_hz, strength, eligible) => write_source(
            slot,
            frequency_hz,
            strength,
            eligible,
            out,
            at,
        ),
        Field::Retire(slot) => write_retire(slot, out, at),
        Field::Release(slot) => write_release(slot, out, at),
        Field::Trigger(slot) => write_trigger(slot, out, at),
        Field::Seek(cycles) => write_seek(cycles, out, at),
        Field::Advance(samples) => write_advance(samples, out, at),
        Field::Frame(bin_hz, elapsed) => write_frame(bin_hz, elapsed, out, at),
        Field::NoteInput(present) => write_note_input(present, out, at),
        Field::Reset => write_reset(out, at),
        Field::Reserve => write_reserve(out, at),
        Field::ReservedTrigger(slot, index) => write_reserved_trigger(slot, index, out, at),
    }
}
