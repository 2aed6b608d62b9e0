// What a host asks a script for: its last accepted frame, as bytes.
#![tactic(auto)]

ghost use Rattle.std.specs.Prelude.{◌≡◌};
ghost use Rattle.text.specs.Put.{Put, place_of, buffer_of};
ghost use Rattle.entry.specs.Entry.{window_bytes, windows_bytes, frame_bytes, entry_answer, entry_bytes};

use refusals::Refusal;
use windows::{Frame, Window};

pub const FRAME_BYTES: usize = 2308;

// Centre, radius, amplitude.
fn window_bytes(w: Window) -> [u8; 12]
    ensures { result ≡ window_bytes w }
{
    let c = big_endian::single(w.center_log2_hz);
    let r = big_endian::single(w.radius_octaves);
    let a = big_endian::single(w.amplitude);
    [
        c[0], c[1], c[2], c[3], r[0], r[1], r[2], r[3], a[0], a[1], a[2], a[3],
    ]
}

// The windows behind what `out` has before `at`.
fn put_windows(out: &mut [u8], at: usize, windows: [Window; 192]) -> usize
    ensures { Put out.old out.new at result (windows_bytes windows) }
{
    let mut at = at;
    for w in &windows {
        let bytes = window_bytes(*w);
        at = text::put(out, at, &bytes);
    }
    at
}

// A frame's bytes from a place on, and the place after them. Where they do not fit none is written, and
// the place is past the buffer's end.
pub fn put_frame(out: &mut [u8], at: usize, frame: Frame) -> usize
    ensures { (result ≡ place_of out.old at (frame_bytes frame)) × (out.new ≡ buffer_of out.old at (frame_bytes frame)) }
{
    if out.len() < at {
        return out.len() + 1;
    }
    if out.len() - at < FRAME_BYTES {
        return out.len() + 1;
    }
    let windows = frame.windows;
    let at = put_windows(out, at, windows);
    let activity = big_endian::single(frame.activity);
    text::put(out, at, &activity)
}

// The bytes change only where nothing is refused.
pub fn last_frame(script: &[u8], out: &mut [u8]) -> Result<(), Refusal>
    ensures { (result ≡ entry_answer script.now out.old) × (out.new ≡ entry_bytes script.now out.old) }
{
    if out.len() != FRAME_BYTES {
        return Err(Refusal::Lengths);
    }
    let ended = listing::run_script(script);
    ended.answer?;
    put_frame(out, 0, ended.frame);
    Ok(())
}
