// What the windows open: each raises the bins in its range, and no others.
ghost use Rattle.std.specs.Prelude.{◌≡◌, ◌≤◌, length};
ghost use Rattle.sequences.specs.Table.{table};
ghost use Rattle.floats.specs.Names.{zero32};
ghost use Rattle.mask_gains.specs.Opened.{open_at, opened_of};
ghost use Rattle.mask_gains.specs.Walk.{Numbers, Part, Raised, Sorted};

use crate::logs;
use refusals::Refusal;
use windows::Window;

// Nothing in scratch is ever a NaN, so that the Rust's `max` is one test.
fn raise(w: Window, logs: &[f32], scratch: &mut [f32], start: usize, end: usize)
    requires { (length logs.now ≡ length scratch.old) × (start ≤ end) × (end ≤ length logs.now) × Numbers scratch.old }
    ensures { Part w logs.now scratch.old start end scratch.new }
{
    // Reads and writes the bins of a range in two slices: over one of them i would be counted all the same.
    for i in start..end {
        let o = scratch[i];
        let v = windows::openness(w, logs[i]);
        scratch[i] = floats::pick(o < v, v, o);
    }
}

fn touch(w: Window, logs: &[f32], scratch: &mut [f32])
    requires { (length logs.now ≡ length scratch.old) × Sorted logs.now × Numbers scratch.old }
    ensures { Raised w logs.now scratch.old scratch.new }
{
    if w.amplitude <= 0.0 {
        return;
    }
    // Bin 0 alone has no range to search.
    if logs.len() < 2 {
        return;
    }
    let start = crate::search::first_from(logs, w.center_log2_hz - w.radius_octaves);
    let end = crate::search::first_past(logs, w.center_log2_hz + w.radius_octaves);
    if start < end {
        raise(w, logs, scratch, start, end);
    }
}

fn walk(windows: [Window; 192], logs: &[f32], scratch: &mut [f32])
    requires { (scratch.old ≡ table (length logs.now) (λ i. zero32)) × Sorted logs.now }
    ensures { scratch.new ≡ table (length logs.now) (open_at windows logs.now) }
{
    for w in &windows {
        touch(*w, logs, scratch);
    }
}

// Every bin shut.
fn clear(scratch: &mut [f32])
    ensures { scratch.new ≡ table (length scratch.old) (λ i. zero32) }
{
    scratch.fill(0.0);
}

// The openness of each bin under the windows. A refusal leaves scratch as it was.
pub fn open_bins(windows: [Window; 192], logs: &[f32], scratch: &mut [f32]) -> Result<(), Refusal>
    ensures { (result, scratch.new) ≡ opened_of windows logs.now scratch.old }
{
    if scratch.len() != logs.len() {
        return Err(Refusal::Lengths);
    }
    if logs::lawful(logs) {
        clear(scratch);
        walk(windows, logs, scratch);
        return Ok(());
    }
    Err(Refusal::Logs)
}
