// The bins of a script's masks: their logarithms go by the rate that its first field gives.
ghost use Rattle.std.specs.Prelude.{◌≡◌};
ghost use Rattle.mask_gains.specs.Bins.{bin_table_of};
ghost use Rattle.mask_files.specs.Masks.{rate_in, script_rate};

use refusals::Refusal;
use script::Field;

fn rate_in(field: Field) -> f32
    ensures { result ≡ rate_in field }
{
    match field {
        Field::Rate(rate) => {
            if settings::lawful_rate(rate) {
                rate
            } else {
                48000.0
            }
        }
        Field::Configure(_) => 48000.0,
        Field::Source(_, _, _, _) => 48000.0,
        Field::Retire(_) => 48000.0,
        Field::Release(_) => 48000.0,
        Field::Trigger(_) => 48000.0,
        Field::Seek(_) => 48000.0,
        Field::Advance(_) => 48000.0,
        Field::Frame(_, _) => 48000.0,
        Field::NoteInput(_) => 48000.0,
        Field::Reset => 48000.0,
        Field::Reserve => 48000.0,
        Field::ReservedTrigger(_, _) => 48000.0,
    }
}

// Without a lawful rate a script has no frame, and any will do.
fn rate(script: &[u8]) -> f32
    ensures { result ≡ script_rate script.now }
{
    match script::read_field(script, true) {
        Ok(Some((field, _))) => rate_in(field),
        Ok(None) | Err(_) => 48000.0,
    }
}

// The bins' logarithms, as a walk over the script takes them: one more place than half the size.
pub fn prepare(script: &[u8], fft_size: usize, logs: &mut [f32]) -> Result<(), Refusal>
    ensures { (result, logs.new) ≡ bin_table_of (script_rate script.now) fft_size logs.old }
{
    mask_gains::bin_table(rate(script), fft_size, logs)
}
