// The gains of the bins under a frame.
ghost use Rattle.std.specs.Prelude.{◌≡◌, length, get_or};
ghost use Rattle.std.specs.Float.{nan};
ghost use Rattle.sequences.specs.Table.{table};
ghost use Rattle.floats.specs.Names.{zero32, one};
ghost use Rattle.mask_gains.specs.Gains.{level_of, gain_of, quiet_of, ones_of, shaped_of, gains_of};

use crate::{logs, touch};
use refusals::Refusal;
use windows::{Frame, Window};

// What a shut bin is brought to, in decibels.
pub fn level(depth_db: f32, activity: f32) -> f32
    ensures { result ≡ level_of depth_db activity }
{
    -floats::clamp(depth_db, 0.0, 60.0) * activity
}

fn gain_at(level: f32, openness: f32) -> f32
    ensures { result ≡ gain_of level openness }
{
    elementary::db_to_gain(level * (1.0 - openness))
}

// Bins that are shut share one power.
fn gain(level: f32, shut: f32, openness: f32) -> f32
    requires { shut ≡ gain_of level zero32 }
    ensures { result ≡ gain_of level openness }
{
    if openness == 0.0 {
        return shut;
    }
    gain_at(level, openness)
}

fn finish(level: f32, shut: f32, scratch: &[f32], output: &mut [f32])
    requires { (length scratch.now ≡ length output.old) × (shut ≡ gain_of level zero32) }
    ensures { output.new ≡ table (length scratch.now) (λ i. gain_of level (get_or scratch.now i nan)) }
{
    // `output.iter_mut().zip(scratch)` was tried: no invariant can name what such a loop has written.
    for (i, openness) in scratch.iter().enumerate() {
        output[i] = gain(level, shut, *openness);
    }
}

// The openness of each bin, and from it the gains.
fn shape(
    windows: [Window; 192],
    level: f32,
    logs: &[f32],
    scratch: &mut [f32],
    output: &mut [f32],
) -> Result<(), Refusal>
    requires { (length output.old ≡ length scratch.old) × (length output.old ≡ length logs.now) }
    ensures { (result, scratch.new, output.new) ≡ shaped_of windows level logs.now scratch.old output.old }
{
    touch::open_bins(windows, logs, scratch)?;
    finish(level, gain_at(level, 0.0), scratch, output);
    Ok(())
}

// Nothing to attenuate.
pub fn quiet(depth_db: f32, activity: f32) -> bool
    ensures { result ≡ quiet_of depth_db activity }
{
    if depth_db <= 0.0 {
        return true;
    }
    activity == 0.0
}

fn fill_ones(output: &mut [f32])
    ensures { output.new ≡ table (length output.old) (λ i. one) }
{
    output.fill(1.0);
}

// Refusal 6 comes before the ones.
fn ones(logs: &[f32], output: &mut [f32]) -> Result<(), Refusal>
    ensures { (result, output.new) ≡ ones_of logs.now output.old }
{
    if logs::lawful(logs) {
        fill_ones(output);
        return Ok(());
    }
    Err(Refusal::Logs)
}

// The Rust's `Mask::gains`, with its panics as refusals. Scratch holds the openness of each bin.
pub fn gains(
    frame: Frame,
    depth_db: f32,
    logs: &[f32],
    scratch: &mut [f32],
    output: &mut [f32],
) -> Result<(), Refusal>
    ensures { (result, scratch.new, output.new) ≡ gains_of frame depth_db logs.now scratch.old output.old }
{
    if output.len() != scratch.len() {
        return Err(Refusal::Lengths);
    }
    if output.len() != logs.len() {
        return Err(Refusal::Lengths);
    }
    if quiet(depth_db, frame.activity) {
        return ones(logs, output);
    }
    let windows = frame.windows;
    shape(
        windows,
        level(depth_db, frame.activity),
        logs,
        scratch,
        output,
    )
}
