// The entry of each bin.
ghost use Rattle.std.specs.Prelude.{◌≡◌, length, get_or};
ghost use Rattle.std.specs.Float.{nan};
ghost use Rattle.sequences.specs.All.{all};
ghost use Rattle.sequences.specs.Table.{table};
ghost use Rattle.mask_records.specs.Decibels.{entries};
ghost use Rattle.mask_records.specs.Entries.{entry_attenuation, is_number, entry_for};

use crate::decibels;

pub fn attenuation(level: f32, openness: f32) -> f32
    ensures { result ≡ entry_attenuation level openness }
{
    -(level * (1.0 - openness))
}

fn is_number(a: f32) -> bool
    ensures { result ≡ is_number a }
{
    a == a
}

// Refusal 18 hangs on any bin, bin 0 too.
pub fn all_numbers(level: f32, opened: &[f32]) -> bool
    ensures { result ≡ all (λ i. is_number (entry_attenuation level (get_or opened.now i nan))) (length opened.now) }
{
    let mut ok = true;
    for openness in opened {
        ok = ok & is_number(attenuation(level, *openness));
    }
    ok
}

fn entry_for(gains: &[u16; 601], attenuation: f32) -> u16
    requires { gains.now ≡ entries }
    ensures { result ≡ entry_for attenuation }
{
    let n = decibels::tenths(attenuation);
    gains[n]
}

// The table is lent: it would be built anew at each bin.
pub fn fill(gains: &[u16; 601], level: f32, opened: &[f32], out: &mut [u16])
    requires { (gains.now ≡ entries) × (length out.old ≡ length opened.now) }
    ensures { out.new ≡ table (length opened.now) (λ i. entry_for (entry_attenuation level (get_or opened.now i nan))) }
{
    for (i, openness) in opened.iter().enumerate() {
        out[i] = entry_for(gains, attenuation(level, *openness));
    }
}

// No attenuation at any bin.
pub fn fill_ones(out: &mut [u16])
    ensures { out.new ≡ table (length out.old) (λ i. 32768) }
{
    out.fill(32768);
}

// Scratch gets the openness.
pub fn hand_over(opened: &[f32], scratch: &mut [f32])
    requires { length scratch.old ≡ length opened.now }
    ensures { scratch.new ≡ opened.now }
{
    scratch.copy_from_slice(opened);
}
