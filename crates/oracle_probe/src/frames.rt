// Frames of lent floats, and the calls that take one.
ghost use Rattle.std.specs.Prelude.{◌≡◌, ◌<◌, slice_index_or};
ghost use Rattle.floats.specs.Names.{zero32};
ghost use Rattle.windows.specs.Opening.{taper_of, openness_of};
ghost use Rattle.windows.specs.Attenuation.{attenuation_of};
ghost use Rattle.mask_gains.specs.Bins.{bin_table_of};
ghost use Rattle.mask_gains.specs.Gains.{gains_of};
ghost use Rattle.oracle_probe.specs.Frames.{flat_window, flat_frame, numbered, numbered_both};

use windows::{Frame, Window};

// 0.0 past the end.
fn float_at(flat: &[f32], i: usize) -> f32
    ensures { result ≡ slice_index_or flat.now i zero32 }
{
    if i < flat.len() {
        return flat[i];
    }
    0.0
}

fn window_at(flat: &[f32], j: usize) -> Window
    requires { j < 192 }
    ensures { result ≡ flat_window flat.now j }
{
    Window {
        center_log2_hz: float_at(flat, 3 * j),
        radius_octaves: float_at(flat, 3 * j + 1),
        amplitude: float_at(flat, 3 * j + 2),
    }
}

pub fn frame_of(flat: &[f32], activity: f32) -> Frame
    ensures { result ≡ flat_frame flat.now activity }
{
    let windows = std::array::from_fn(|j| window_at(flat, j));
    Frame { windows, activity }
}

#[unsafe(no_mangle)]
pub extern "C" fn rk_probe_taper(x: f32) -> f32
    ensures { result ≡ taper_of x }
{
    windows::taper(x)
}

#[unsafe(no_mangle)]
pub extern "C" fn rk_probe_openness(center: f32, radius: f32, amplitude: f32, log2_hz: f32) -> f32
    ensures { result ≡ openness_of (record { center_log2_hz = center; radius_octaves = radius; amplitude = amplitude }) log2_hz }
{
    let w = Window {
        center_log2_hz: center,
        radius_octaves: radius,
        amplitude,
    };
    windows::openness(w, log2_hz)
}

#[unsafe(no_mangle)]
pub extern "C" fn rk_probe_attenuation_db(
    flat: &[f32],
    activity: f32,
    frequency_hz: f32,
    depth_db: f32,
) -> f32
    ensures { result ≡ attenuation_of (flat_frame flat.now activity) frequency_hz depth_db }
{
    let frame = frame_of(flat, activity);
    windows::attenuation_db(frame, frequency_hz, depth_db)
}

#[unsafe(no_mangle)]
pub extern "C" fn rk_probe_bin_table(sample_rate: f32, fft_size: u64, table: &mut [f32]) -> u64
    ensures { (result, table.new) ≡ numbered (bin_table_of sample_rate fft_size table.old) }
{
    refusals::answer_number(mask_gains::bin_table(sample_rate, fft_size as usize, table))
}

#[unsafe(no_mangle)]
pub extern "C" fn rk_probe_gains(
    flat: &[f32],
    activity: f32,
    depth_db: f32,
    logs: &[f32],
    scratch: &mut [f32],
    output: &mut [f32],
) -> u64
    ensures { (result, scratch.new, output.new) ≡ numbered_both (gains_of (flat_frame flat.now activity) depth_db logs.now scratch.old output.old) }
{
    let frame = frame_of(flat, activity);
    refusals::answer_number(mask_gains::gains(frame, depth_db, logs, scratch, output))
}
