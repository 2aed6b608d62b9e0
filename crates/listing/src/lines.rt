// What a script prints: a line by its values, and its text into a lent buffer.
ghost use Rattle.std.specs.Prelude.{◌≡◌};
ghost use Rattle.text.specs.Put.{place_after, buffer_after};
ghost use Rattle.listing.specs.Lines.{times_pieces, counts_pieces, marks_pieces, frame_pieces, field_pieces, refused_pieces, bad_pieces, end_pieces, pieces_of};

use refusals::Refusal;
use script_steps::Values;
use text::{put, put_dec, put_hex32, put_hex64};

// The number of the field, and what its line says; a bad one has the byte place where the script is
// broken, and the last line has the count of fields.
#[derive(Clone, Copy)]
pub enum Line {
    Nothing,
    Frame(u64, Values),
    Refused(u64, Refusal),
    Bad(u64, Refusal, usize),
    End(u64),
}

// When the frame was, and how many particles hold a place.
fn put_times(out: &mut [u8], at: usize, v: Values) -> usize
    ensures { (result ≡ place_after out.old at (times_pieces v)) × (out.new ≡ buffer_after out.old at (times_pieces v)) }
{
    let a = put(out, at, b" sample ");
    let a = put_dec(out, a, v.sample);
    let a = put(out, a, b" ms ");
    let a = put_dec(out, a, v.ms);
    let a = put(out, a, b" active ");
    put_dec(out, a, v.active)
}

fn put_counts(out: &mut [u8], at: usize, v: Values) -> usize
    ensures { (result ≡ place_after out.old at (counts_pieces v)) × (out.new ≡ buffer_after out.old at (counts_pieces v)) }
{
    let a = put(out, at, b" births ");
    let a = put_dec(out, a, v.births);
    let a = put(out, a, b" dropped ");
    put_dec(out, a, v.dropped)
}

fn put_marks(out: &mut [u8], at: usize, v: Values) -> usize
    ensures { (result ≡ place_after out.old at (marks_pieces v)) × (out.new ≡ buffer_after out.old at (marks_pieces v)) }
{
    let a = put(out, at, b" hash ");
    let a = put_hex64(out, a, v.hash);
    let a = put(out, a, b" activity ");
    put_hex32(out, a, v.activity)
}

fn put_frame(out: &mut [u8], at: usize, n: u64, v: Values) -> usize
    ensures { (result ≡ place_after out.old at (frame_pieces n v)) × (out.new ≡ buffer_after out.old at (frame_pieces n v)) }
{
    let a = put(out, at, b"frame ");
    let a = put_dec(out, a, n);
    let a = put_times(out, a, v);
    let a = put_counts(out, a, v);
    let a = put_marks(out, a, v);
    put(out, a, b"\n")
}

// `field N`, a word and a refusal's number.
fn put_field(out: &mut [u8], at: usize, n: u64, word: &[u8], refusal: Refusal) -> usize
    ensures { (result ≡ place_after out.old at (field_pieces n word.now refusal)) × (out.new ≡ buffer_after out.old at (field_pieces n word.now refusal)) }
{
    let a = put(out, at, b"field ");
    let a = put_dec(out, a, n);
    let a = put(out, a, word);
    put_dec(out, a, u64::from(refusal))
}

fn put_refused(out: &mut [u8], at: usize, n: u64, refusal: Refusal) -> usize
    ensures { (result ≡ place_after out.old at (refused_pieces n refusal)) × (out.new ≡ buffer_after out.old at (refused_pieces n refusal)) }
{
    let a = put_field(out, at, n, b" refused ", refusal);
    put(out, a, b"\n")
}

fn put_bad(out: &mut [u8], at: usize, n: u64, refusal: Refusal, place: usize) -> usize
    ensures { (result ≡ place_after out.old at (bad_pieces n refusal place)) × (out.new ≡ buffer_after out.old at (bad_pieces n refusal place)) }
{
    let a = put_field(out, at, n, b" bad ", refusal);
    let a = put(out, a, b" at ");
    let a = put_dec(out, a, place as u64);
    put(out, a, b"\n")
}

fn put_end(out: &mut [u8], at: usize, n: u64) -> usize
    ensures { (result ≡ place_after out.old at (end_pieces n)) × (out.new ≡ buffer_after out.old at (end_pieces n)) }
{
    let a = put(out, at, b"end ");
    let a = put_dec(out, a, n);
    put(out, a, b"\n")
}

pub fn put_line(out: &mut [u8], at: usize, line: Line) -> usize
    ensures { (result ≡ place_after out.old at (pieces_of line)) × (out.new ≡ buffer_after out.old at (pieces_of line)) }
{
    match line {
        Line::Nothing => at,
        Line::Frame(n, v) => put_frame(out, at, n, v),
        Line::Refused(n, refusal) => put_refused(out, at, n, refusal),
        Line::Bad(n, refusal, place) => put_bad(out, at, n, refusal, place),
        Line::End(n) => put_end(out, at, n),
    }
}
