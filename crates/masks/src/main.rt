// The mask file of a script. Standard input has the FFT size in five digits, the depth in nine digits
// of tenths of a decibel, and then the script: so nothing but reading and writing is asked of C. Each
// record goes to standard output as it is made, so that the file never stands in memory; how it ended
// goes to standard error.
#![tactic(auto)]

ghost use Rattle.std.specs.Prelude.{◌≡◌, ◌≤◌};
ghost use Rattle.floats.specs.Names.{f32, div32, as_float};
ghost use Rattle.masks.specs.Digits.{digits_held, digits_number};

use listing::Line;
use mask_files::Made;
use refusals::Refusal;

// More than a million says as much as a million: the size is then too large, the depth the deepest.
fn held(n: u64) -> u64
    ensures { (result ≡ digits_held n) × (result ≤ 1000000) }
{
    if n < 1000000 { n } else { 1000000 }
}

// None where anything else stands there.
fn digits(text: &[u8]) -> Option<u64>
    ensures { result ≡ digits_number text.now }
{
    if text.len() == 0 {
        return None;
    }
    let mut n: u64 = 0;
    for c in text {
        if *c < 48 {
            return None;
        }
        if *c > 57 {
            return None;
        }
        n = held(n * 10 + (*c as u64 - 48));
    }
    Some(n)
}

fn next(text: &mut [u8]) -> Option<u64> {
    let n = io::read_full(0, text);
    digits(&text[..n])
}

fn size() -> Option<u64> {
    let mut text = [0u8; 5];
    next(&mut text)
}

fn tenths() -> Option<u64> {
    let mut text = [0u8; 9];
    next(&mut text)
}

// Tenths of a decibel, as the mask takes its depth.
fn depth(tenths: u64) -> f32
    ensures { result ≡ div32 (as_float tenths) (f32 0x41200000) }
{
    floats::u64_to_f32(tenths) / 10.0
}

// A line is at most 204 bytes long.
fn say_line(text: &mut [u8], line: Line) {
    let n = listing::put_line(text, 0, line);
    if n <= text.len() {
        io::write_all(2, &text[..n]);
    }
}

fn say_records(text: &mut [u8], records: u64) {
    let a = text::put(text, 0, b"records ");
    let a = text::put_dec(text, a, records);
    let n = text::put(text, a, b"\n");
    if n <= text.len() {
        io::write_all(2, &text[..n]);
    }
}

// How the script ended: with all its records, or with a bad field.
fn say_end(text: &mut [u8], line: Line, records: u64) {
    match line {
        Line::End(_) => say_records(text, records),
        Line::Nothing => say_line(text, line),
        Line::Frame(_, _) => say_line(text, line),
        Line::Refused(_, _) => say_line(text, line),
        Line::Bad(_, _, _) => say_line(text, line),
    }
}

// A write that fails ends all, and nothing is said.
fn write_masks(
    script: &[u8],
    depth_db: f32,
    logs: &[f32],
    scratch: &mut [f32],
    out: &mut [u8],
    text: &mut [u8],
) {
    let mut walk = mask_files::start();
    let mut records: u64 = 0;
    // A walk of unknown length, each step from where the last one ended: nothing to go over.
    loop {
        let step = mask_files::next_record(walk, script, depth_db, logs, scratch, out, 0);
        let made = step.made;
        match made {
            Made::Record(after) => {
                if after > out.len() {
                    return;
                }
                let sent = io::write_all(1, &out[..after]);
                if sent {
                    records = records.wrapping_add(1);
                    let next = step.walk;
                    walk = next;
                } else {
                    return;
                }
            }
            Made::Refused(n, refusal) => {
                return say_line(text, Line::Refused(n, refusal));
            }
            Made::Last(line) => {
                return say_end(text, line, records);
            }
        }
    }
}

fn file(
    script: &[u8],
    size: usize,
    depth_db: f32,
    logs: &mut [f32],
    scratch: &mut [f32],
    out: &mut [u8],
    text: &mut [u8],
) {
    if script.len() > script::MAX_SCRIPT_BYTES {
        return say_line(text, Line::Bad(0, Refusal::Script, 0));
    }
    // The size is judged, and the logarithms are as many as it asks for: it does not refuse.
    let _ = mask_files::prepare(script, size, logs);
    write_masks(script, depth_db, logs, scratch, out, text)
}

// A size outside 1 to 16,384 is usage, which the caller has judged.
fn sized(
    size: u64,
    tenths: u64,
    script: &mut [u8],
    logs: &mut [f32],
    scratch: &mut [f32],
    out: &mut [u8],
    text: &mut [u8],
) {
    if size < 1 {
        return;
    }
    if size > mask_gains::MAX_FFT_SIZE as u64 {
        return;
    }
    let n = (size / 2 + 1) as usize;
    if logs.len() < n {
        return;
    }
    if scratch.len() < n {
        return;
    }
    let k = io::read_full(0, script);
    file(
        &script[..k],
        size as usize,
        depth(tenths),
        &mut logs[..n],
        &mut scratch[..n],
        out,
        text,
    )
}

// A byte more than a script may have, the most bins, the longest record and the longest line. As
// slices they would ask for a proof of their lengths.
fn lend(
    size: u64,
    tenths: u64,
    script: &mut [u8; 60001],
    logs: &mut [f32; 8193],
    scratch: &mut [f32; 8193],
    out: &mut [u8; 16402],
    text: &mut [u8; 256],
) {
    sized(size, tenths, script, logs, scratch, out, text)
}

fn run(size: u64, tenths: u64) {
    let mut script = [0u8; 60001];
    let mut logs = [0.0f32; 8193];
    let mut scratch = [0.0f32; 8193];
    let mut out = [0u8; 16402];
    let mut text = [0u8; 256];
    lend(
        size,
        tenths,
        &mut script,
        &mut logs,
        &mut scratch,
        &mut out,
        &mut text,
    )
}

fn main() {
    let size = size();
    let tenths = tenths();
    if let (Some(size), Some(tenths)) = (size, tenths) {
        run(size, tenths)
    }
}
