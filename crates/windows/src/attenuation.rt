// What a whole frame leaves of a frequency: the widest opening of its 192 windows there, and the
// attenuation in dB.
ghost use Rattle.std.specs.Prelude.{◌≡◌};
ghost use Rattle.windows.specs.Attenuation.{opened_by, attenuation_of};

use crate::{Frame, Window};

// The widest opening that any window gives.
fn opened(windows: [Window; 192], log2_hz: f32) -> f32
    ensures { result ≡ opened_by windows log2_hz }
{
    windows
        .iter()
        .fold(0.0, |o, w| floats::max(o, crate::openness(*w, log2_hz)))
}

pub fn attenuation_db(frame: Frame, frequency_hz: f32, depth_db: f32) -> f32
    ensures { result ≡ attenuation_of frame frequency_hz depth_db }
{
    if depth_db <= 0.0 {
        return 0.0;
    }
    let log = elementary::log2(floats::max(
        frequency_hz,
        0.000000000000000000000000000000000000011754944,
    ));
    let windows = frame.windows;
    let openness = opened(windows, log);
    floats::clamp(depth_db, 0.0, 60.0) * frame.activity * (1.0 - openness)
}
