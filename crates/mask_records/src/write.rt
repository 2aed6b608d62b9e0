// The record of a frame. Nothing lent is changed by a refusal: the openness stands in an array of
// its own until the record is written.
ghost use Rattle.std.specs.Prelude.{◌≡◌, true, ◌≤◌, length};
ghost use Rattle.sequences.specs.Table.{table};
ghost use Rattle.mask_gains.specs.Logs.{lawful_logs};
ghost use Rattle.mask_gains.specs.Opened.{open_at};
ghost use Rattle.mask_records.specs.Placed.{placed_of};
ghost use Rattle.mask_records.specs.Finished.{finished_of};
ghost use Rattle.mask_records.specs.Written.{record_written};

use crate::decibels;
use refusals::Refusal;
use windows::{Frame, Window};

// The record of what is open, and scratch where it was written.
fn finish(
    sample: u64,
    level: f32,
    opened: &[f32],
    entries: &mut [u16],
    scratch: &mut [f32],
    out: &mut [u8],
    at: usize,
) -> Result<usize, Refusal>
    requires { (length opened.now ≤ 8193) × (length entries.old ≡ length opened.now) × (length scratch.old ≡ length opened.now) }
    ensures { (result, scratch.new, out.new) ≡ finished_of sample level opened.now scratch.old out.old at }
{
    if crate::entry::all_numbers(level, opened) {
        let gains = decibels::table();
        crate::entry::fill(&gains, level, opened, entries);
        let after = crate::place::put_record(sample, entries, out, at)?;
        crate::entry::hand_over(opened, scratch);
        return Ok(after);
    }
    Err(Refusal::Attenuation)
}

// A whole array of its own, of which a record uses the first places.
fn places() -> [f32; 8193]
    ensures { length result ≡ 8193 }
{
    [0.0; 8193]
}

fn entry_places() -> [u16; 8193]
    ensures { length result ≡ 8193 }
{
    [0; 8193]
}

// The openness, in places that a refusal may leave changed.
fn shape(
    sample: u64,
    windows: [Window; 192],
    level: f32,
    logs: &[f32],
    opened: &mut [f32],
    entries: &mut [u16],
    scratch: &mut [f32],
    out: &mut [u8],
    at: usize,
) -> Result<usize, Refusal>
    requires { (length logs.now ≤ 8193) × (length opened.old ≡ length logs.now) × (length entries.old ≡ length logs.now) × (length scratch.old ≡ length logs.now) × (lawful_logs logs.now ≡ true) }
    ensures { (result, scratch.new, out.new) ≡ finished_of sample level (table (length logs.now) (open_at windows logs.now)) scratch.old out.old at }
{
    // Of one length and lawful: it does not refuse.
    let _ = mask_gains::open_bins(windows, logs, opened);
    finish(sample, level, opened, entries, scratch, out, at)
}

fn loud(
    sample: u64,
    windows: [Window; 192],
    level: f32,
    logs: &[f32],
    scratch: &mut [f32],
    out: &mut [u8],
    at: usize,
) -> Result<usize, Refusal>
    requires { (length logs.now ≤ 8193) × (length scratch.old ≡ length logs.now) × (lawful_logs logs.now ≡ true) }
    ensures { (result, scratch.new, out.new) ≡ finished_of sample level (table (length logs.now) (open_at windows logs.now)) scratch.old out.old at }
{
    let n = logs.len();
    let mut opened = places();
    let mut entries = entry_places();
    shape(
        sample,
        windows,
        level,
        logs,
        &mut opened[..n],
        &mut entries[..n],
        scratch,
        out,
        at,
    )
}

fn ones(sample: u64, entries: &mut [u16], out: &mut [u8], at: usize) -> Result<usize, Refusal>
    requires { length entries.old ≤ 8193 }
    ensures { (result, out.new) ≡ placed_of sample (table (length entries.old) (λ i. 32768)) out.old at }
{
    crate::entry::fill_ones(entries);
    crate::place::put_record(sample, entries, out, at)
}

// Nothing to attenuate: scratch is not touched, as by the mask call.
fn quiet(sample: u64, n: usize, out: &mut [u8], at: usize) -> Result<usize, Refusal>
    requires { n ≤ 8193 }
    ensures { (result, out.new) ≡ placed_of sample (table n (λ i. 32768)) out.old at }
{
    let mut entries = entry_places();
    ones(sample, &mut entries[..n], out, at)
}

pub fn write_record(
    sample: u64,
    frame: Frame,
    depth_db: f32,
    logs: &[f32],
    scratch: &mut [f32],
    out: &mut [u8],
    at: usize,
) -> Result<usize, Refusal>
    ensures { (result, scratch.new, out.new) ≡ record_written sample frame depth_db logs.now scratch.old out.old at }
{
    if scratch.len() != logs.len() {
        return Err(Refusal::Lengths);
    }
    if mask_gains::lawful(logs) {
        if logs.len() < 1 {
            return Err(Refusal::Record);
        }
        if logs.len() > 8193 {
            return Err(Refusal::Record);
        }
        if mask_gains::quiet(depth_db, frame.activity) {
            return quiet(sample, logs.len(), out, at);
        }
        let windows = frame.windows;
        return loud(
            sample,
            windows,
            mask_gains::level(depth_db, frame.activity),
            logs,
            scratch,
            out,
            at,
        );
    }
    Err(Refusal::Logs)
}
