// Reads a mask file on standard input and prints a line of numbers for each record: its sample, its
// bin count, and the mean entry of each row that the record has in a picture. The last line says how
// many records there were, or which one was refused; nothing is read behind that one.
#![tactic(auto)]

ghost use Rattle.std.specs.Prelude.{◌≡◌, ◌≤◌, ◌<◌, length};

use mask_records::Found;

mod lines;
mod rows;

// The bytes of the next record, as far as they are there: its head, and the entries that it tells of.
// Of a head that tells of too many there is the head alone, and the reader refuses that.
fn next(bytes: &mut [u8]) -> usize
    requires { 16402 ≤ length bytes.old }
    ensures { result ≤ length bytes.new }
{
    let head = io::read_full(0, &mut bytes[..16]);
    if head < 16 {
        return head;
    }
    let count = big_endian::be16_at(bytes, 11) as usize;
    if count > 8193 {
        return 16;
    }
    let end = 16 + 2 * count;
    let more = io::read_full(0, &mut bytes[16..end]);
    16 + more
}

// Whether there is more to read behind the first `before` records.
fn turn(before: u64, bytes: &mut [u8], entries: &mut [u16], line: &mut [u8]) -> bool
    requires { (before < 18446744073709551615) × (16402 ≤ length bytes.old) × (length entries.old ≤ 8193) }
{
    let n = next(bytes);
    match mask_records::read_record(&bytes[..n], entries) {
        Ok(None) => {
            lines::write_end(before, line);
            false
        }
        Err(refusal) => {
            lines::write_bad(before + 1, u64::from(refusal), line);
            false
        }
        Ok(Some(Found { sample, count, .. })) => {
            if count <= entries.len() {
                lines::write_record(sample, &entries[..count], line);
            }
            true
        }
    }
}

fn all_turns(bytes: &mut [u8], entries: &mut [u16], line: &mut [u8])
    requires { (16402 ≤ length bytes.old) × (length entries.old ≤ 8193) }
{
    for before in 0..18446744073709551615 {
        if !turn(before, bytes, entries, line) {
            return;
        }
    }
}

// The longest record.
fn byte_places() -> [u8; 16402]
    ensures { length result ≡ 16402 }
{
    [0; 16402]
}

fn entry_places() -> [u16; 8193]
    ensures { length result ≡ 8193 }
{
    [0; 8193]
}

fn main() {
    let mut bytes = byte_places();
    let mut entries = entry_places();
    let mut line = [0u8; 600];
    all_turns(&mut bytes, &mut entries, &mut line)
}
