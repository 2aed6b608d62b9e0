// The table of the bins' logarithms.
ghost use Rattle.std.specs.Prelude.{◌≡◌, length};
ghost use Rattle.mask_gains.specs.Bins.{log_at, logs_of, bin_table_of};

use refusals::Refusal;

// Added by 01: a larger size is refused.
pub const MAX_FFT_SIZE: usize = 16384;

// Bin 0 has no logarithm: its place holds 0.0.
fn log_at(bin_hz: f32, bin: usize) -> f32
    ensures { result ≡ log_at bin_hz bin }
{
    if bin == 0 {
        return 0.0;
    }
    elementary::log2(floats::u64_to_f32(bin as u64) * bin_hz)
}

fn fill(bin_hz: f32, table: &mut [f32])
    ensures { table.new ≡ logs_of bin_hz (length table.old) }
{
    for (bin, log) in table.iter_mut().enumerate() {
        *log = log_at(bin_hz, bin);
    }
}

// The table that the Rust's `MaskWorkspace::prepare` fills, in lent places; 01 adds the refusals.
pub fn bin_table(sample_rate: f32, fft_size: usize, table: &mut [f32]) -> Result<(), Refusal>
    ensures { (result, table.new) ≡ bin_table_of sample_rate fft_size table.old }
{
    if settings::lawful_rate(sample_rate) {
        if fft_size < 1 {
            return Err(Refusal::Size);
        }
        if fft_size > MAX_FFT_SIZE {
            return Err(Refusal::Size);
        }
        if table.len() == fft_size / 2 + 1 {
            fill(sample_rate / floats::u64_to_f32(fft_size as u64), table);
            return Ok(());
        }
        return Err(Refusal::Lengths);
    }
    Err(Refusal::Rate)
}
