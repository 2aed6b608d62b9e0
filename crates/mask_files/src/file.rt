// All records of a script in a lent buffer. A refusal leaves the buffer as it was, so that the script
// is gone through twice: to see how it ends and how many bytes there are, and then to write them.
ghost use Rattle.std.specs.Prelude.{◌≡◌, ◌+◌, ◌≤◌, true, length};
ghost use Rattle.text.specs.Put.{splice};
ghost use Rattle.mask_gains.specs.Logs.{lawful_logs};
ghost use Rattle.listing.specs.Turns.{turns_of};
ghost use Rattle.mask_records.specs.Placed.{record_size};
ghost use Rattle.mask_files.specs.Records.{filed_of};
ghost use Rattle.mask_files.specs.Masks.{bins_of, logs_for, filed_into, masks_of};
ghost use Rattle.mask_files.specs.Walk.{measured_of};

use crate::Made;
use crate::frames::{next_record, start};
use refusals::Refusal;

// Each record goes to the start of the same bytes.
fn measure(
    script: &[u8],
    depth_db: f32,
    logs: &[f32],
    scratch: &mut [f32],
    lent: &mut [u8],
) -> Result<usize, Refusal>
    requires script_fits { length script.now ≤ 60000 }
    requires logs_lawful { (1 ≤ length logs.now) × (length logs.now ≤ 8193) × (lawful_logs logs.now ≡ true) × (length scratch.old ≡ length logs.now) }
    requires lent_fits { record_size (length logs.now) ≤ length lent.old }
    ensures { result ≡ measured_of (filed_of depth_db logs.now (turns_of script.now)) }
{
    let mut walk = start();
    let mut bytes: usize = 0;
    loop {
        let step = next_record(walk, script, depth_db, logs, scratch, lent, 0);
        let made = step.made;
        match made {
            Made::Record(after) => {
                bytes = bytes + after;
                let next = step.walk;
                walk = next;
            }
            Made::Refused(_, refusal) => {
                return Err(refusal);
            }
            Made::Last(line) => {
                listing::bad_of(line)?;
                return Ok(bytes);
            }
        }
    }
}

// The place after the records, of a script that is known to have them all and a buffer with room.
fn write_records(
    script: &[u8],
    depth_db: f32,
    logs: &[f32],
    scratch: &mut [f32],
    out: &mut [u8],
    at: usize,
) -> usize
    requires script_fits { length script.now ≤ 60000 }
    requires logs_lawful { (1 ≤ length logs.now) × (length logs.now ≤ 8193) × (lawful_logs logs.now ≡ true) × (length scratch.old ≡ length logs.now) }
    requires taken_with_room { ((filed_of depth_db logs.now (turns_of script.now)).1 ≡ Ok tt) × (at + length (filed_of depth_db logs.now (turns_of script.now)).0 ≤ length out.old) }
    ensures { (result ≡ at + length (filed_of depth_db logs.now (turns_of script.now)).0) × (out.new ≡ splice out.old at (filed_of depth_db logs.now (turns_of script.now)).0) }
{
    let mut walk = start();
    let mut at = at;
    loop {
        let step = next_record(walk, script, depth_db, logs, scratch, out, at);
        let made = step.made;
        match made {
            Made::Record(after) => {
                at = after;
                let next = step.walk;
                walk = next;
            }
            Made::Refused(_, _) => {
                return at;
            }
            Made::Last(_) => {
                return at;
            }
        }
    }
}

// The records, into a buffer that may have no room for them.
fn place(
    script: &[u8],
    depth_db: f32,
    logs: &[f32],
    scratch: &mut [f32],
    lent: &mut [u8],
    out: &mut [u8],
    at: usize,
) -> Result<usize, Refusal>
    requires script_fits { length script.now ≤ 60000 }
    requires logs_lawful { (1 ≤ length logs.now) × (length logs.now ≤ 8193) × (lawful_logs logs.now ≡ true) × (length scratch.old ≡ length logs.now) }
    requires lent_fits { record_size (length logs.now) ≤ length lent.old }
    ensures { (result, out.new) ≡ filed_into (filed_of depth_db logs.now (turns_of script.now)) out.old at }
{
    let bytes = measure(script, depth_db, logs, scratch, lent)?;
    if out.len() < at {
        return Err(Refusal::Room);
    }
    if out.len() - at < bytes {
        return Err(Refusal::Room);
    }
    Ok(write_records(script, depth_db, logs, scratch, out, at))
}

// The records, with the bins' logarithms filled first.
fn file(
    script: &[u8],
    fft_size: usize,
    depth_db: f32,
    logs: &mut [f32],
    scratch: &mut [f32],
    lent: &mut [u8],
    out: &mut [u8],
    at: usize,
) -> Result<usize, Refusal>
    requires sizes_fit { (1 ≤ fft_size) × (fft_size ≤ 16384) × (length script.now ≤ 60000) }
    requires lengths_agree { (length logs.old ≡ bins_of fft_size) × (length scratch.old ≡ bins_of fft_size) × (length lent.old ≡ 16402) }
    ensures { (result, out.new) ≡ filed_into (filed_of depth_db (logs_for script.now fft_size) (turns_of script.now)) out.old at }
{
    // The size is lawful, and the logarithms are as many as it asks for: it does not refuse.
    let _ = crate::rate::prepare(script, fft_size, logs);
    place(script, depth_db, logs, scratch, lent, out, at)
}

// Arrays of which a mask uses the first places.
fn bins() -> [f32; 8193]
    ensures { length result ≡ 8193 }
{
    [0.0; 8193]
}

fn longest_record() -> [u8; 16402]
    ensures { length result ≡ 16402 }
{
    [0; 16402]
}

// The records of a script's accepted frames behind the first `at` bytes of `out`. A refusal leaves
// `out` as it was.
pub fn masks(
    script: &[u8],
    fft_size: usize,
    depth_db: f32,
    out: &mut [u8],
    at: usize,
) -> Result<usize, Refusal>
    ensures { (result, out.new) ≡ masks_of script.now fft_size depth_db out.old at }
{
    if fft_size < 1 {
        return Err(Refusal::Size);
    }
    if fft_size > mask_gains::MAX_FFT_SIZE {
        return Err(Refusal::Size);
    }
    if script.len() > script::MAX_SCRIPT_BYTES {
        return Err(Refusal::Script);
    }
    let n = fft_size / 2 + 1;
    let mut logs = bins();
    let mut scratch = bins();
    let mut lent = longest_record();
    file(
        script,
        fft_size,
        depth_db,
        &mut logs[..n],
        &mut scratch[..n],
        &mut lent,
        out,
        at,
    )
}
