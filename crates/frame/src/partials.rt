// The windows of a frame: those of the partials that each place shows.
ghost use Rattle.std.specs.Prelude.{◌≡◌, ◌+◌, ◌<◌, ◌≤◌, ◌⊎◌};
ghost use Rattle.frame.specs.Windows.{radius_of, window_by, windows_of};

use crate::places::Shown;
use pool::MAX_PARTICLES;
use settings::MAX_PARTIALS;
use windows::Window;

// Never narrower than a bin.
fn radius(width: f32, bin_hz: f32, hz: f32) -> f32
    ensures { result ≡ radius_of width bin_hz hz }
{
    let bin = floats::max(bin_hz, 0.0) / floats::max(hz, 1.0);
    floats::max(width, elementary::log2(1.0 + bin))
}

// The row of a harmonic in the table of logarithms. For what is none it lies past the table's end: 0,
// which marks an unused window, wraps.
fn row(partial: u8) -> usize
    ensures { (result < 24 → partial ≡ result + 1) × (24 ≤ result → (partial ≡ 0) ⊎ (24 < partial)) }
{
    std::num::wrapping_sub_usize(partial as usize, 1)
}

// The window at the center, or none where that is too high to show.
fn placed(s: Shown, center: f32, bin_hz: f32, max_hz: f32) -> Window
    ensures { result ≡ window_by bin_hz max_hz s center }
{
    let hz = elementary::exp2(center);
    if hz >= max_hz {
        return Window::default();
    }
    let radius = radius(s.width, bin_hz, hz);
    Window {
        center_log2_hz: center,
        radius_octaves: radius,
        amplitude: s.amplitude,
    }
}

// The window of partial w of place p stands at p + 64 w. The table of logarithms is read here, and not
// in a function that would be handed it whole; where nothing shows, the window is none already.
pub fn windows(
    shown: [Shown; MAX_PARTICLES],
    logs: [f32; MAX_PARTIALS],
    bin_hz: f32,
    max_hz: f32,
) -> [Window; 192]
    ensures { result ≡ windows_of logs bin_hz max_hz shown }
{
    let none = Window::default();
    let mut out = [none; 192];
    for (p, s) in shown.iter().enumerate() {
        for (w, partial) in s.partials.iter().enumerate() {
            let row = row(*partial);
            if row < MAX_PARTIALS {
                let center = s.root_log + logs[row];
                out[p + MAX_PARTICLES * w] = placed(*s, center, bin_hz, max_hz);
            }
        }
    }
    out
}
