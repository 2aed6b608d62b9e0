// Records of mask files, written and read, and the numbers that they are made of.
ghost use Rattle.std.specs.Prelude.{◌≡◌};
ghost use Rattle.mask_records.specs.Decibels.{entry_of};
ghost use Rattle.mask_records.specs.Tenths.{tenths_of};
ghost use Rattle.mask_records.specs.Written.{record_written};
ghost use Rattle.mask_records.specs.Found.{record_read};
ghost use Rattle.oracle_probe.specs.Frames.{flat_frame};
ghost use Rattle.oracle_probe.specs.Records.{told_place, told_record, told_numbers, found_of};

use mask_records::Found;
use refusals::Refusal;

#[unsafe(no_mangle)]
pub extern "C" fn rk_probe_tenths(attenuation_db: f32) -> u64
    ensures { result ≡ tenths_of attenuation_db }
{
    mask_records::tenths(attenuation_db) as u64
}

// 0 past the table's end.
#[unsafe(no_mangle)]
pub extern "C" fn rk_probe_entry(n: u64) -> u64
    ensures { result ≡ entry_of n }
{
    if n < 601 {
        let gains = mask_records::table();
        return gains[n as usize] as u64;
    }
    0
}

// The place after the record goes behind `at`; a refusal leaves it.
fn told(written: Result<usize, Refusal>, at: &mut u64) -> u64
    ensures { (result, at.new) ≡ told_place at.old written }
{
    match written {
        Ok(after) => {
            *at = after as u64;
            0
        }
        Err(refusal) => u64::from(refusal),
    }
}

#[unsafe(no_mangle)]
pub extern "C" fn rk_probe_write_record(
    sample: u64,
    flat: &[f32],
    activity: f32,
    depth_db: f32,
    logs: &[f32],
    scratch: &mut [f32],
    out: &mut [u8],
    at: &mut u64,
) -> u64
    ensures { (result, at.new, scratch.new, out.new) ≡ told_record at.old (record_written sample (flat_frame flat.now activity) depth_db logs.now scratch.old out.old at.old) }
{
    let frame = crate::frames::frame_of(flat, activity);
    let written = mask_records::write_record(
        sample,
        frame,
        depth_db,
        logs,
        scratch,
        out,
        *at as usize,
    );
    told(written, at)
}

// 255 stands for the end. Sample, count and size are left but by a record that is found.
fn told_found(
    read: Result<Option<Found>, Refusal>,
    sample: &mut u64,
    count: &mut u64,
    taken: &mut u64,
) -> u64
    ensures { (result, sample.new, count.new, taken.new) ≡ told_numbers sample.old count.old taken.old read }
{
    match read {
        Ok(None) => 255,
        Ok(Some(found)) => {
            *sample = found.sample;
            *count = found.count as u64;
            *taken = found.size as u64;
            0
        }
        Err(refusal) => u64::from(refusal),
    }
}

#[unsafe(no_mangle)]
pub extern "C" fn rk_probe_read_record(
    bytes: &[u8],
    entries: &mut [u16],
    sample: &mut u64,
    count: &mut u64,
    taken: &mut u64,
) -> u64
    ensures { (result, sample.new, count.new, taken.new, entries.new) ≡ found_of sample.old count.old taken.old (record_read bytes.now entries.old) }
{
    let read = mask_records::read_record(bytes, entries);
    told_found(read, sample, count, taken)
}
