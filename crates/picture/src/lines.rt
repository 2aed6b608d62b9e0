// The lines that are printed, each put together in lent bytes and written at once.
ghost use Rattle.std.specs.Prelude.{◌≤◌, ◌<◌, length};

use crate::rows::{ROWS, first_bin, row_mean};
use text::{put, put_dec};

// Nothing where the record has no bin of the row.
fn put_row(entries: &[u16], row: usize, out: &mut [u8], at: usize) -> usize
    requires { (row < 89) × (length entries.now ≤ 8193) }
{
    let first = first_bin(row);
    if first < entries.len() {
        let mean = row_mean(entries, row);
        let after = put(out, at, b" ");
        return put_dec(out, after, mean);
    }
    at
}

fn put_rows(entries: &[u16], out: &mut [u8], at: usize) -> usize
    requires { length entries.now ≤ 8193 }
{
    let mut after = at;
    for row in 0..ROWS {
        after = put_row(entries, row, out, after);
    }
    after
}

// Every line fits: the longest has 20 digits, and 90 numbers of at most five.
fn write_line(out: &mut [u8], at: usize) {
    let end = put(out, at, b"\n");
    if end <= out.len() {
        io::write_all(1, &out[..end]);
    }
}

pub fn write_record(sample: u64, entries: &[u16], out: &mut [u8])
    requires { length entries.now ≤ 8193 }
{
    let after_sample = put_dec(out, 0, sample);
    let before_count = put(out, after_sample, b" ");
    let after_count = put_dec(out, before_count, entries.len() as u64);
    let end = put_rows(entries, out, after_count);
    write_line(out, end)
}

pub fn write_end(records: u64, out: &mut [u8]) {
    let after = put(out, 0, b"records ");
    let end = put_dec(out, after, records);
    write_line(out, end)
}

pub fn write_bad(record: u64, refusal: u64, out: &mut [u8]) {
    let after = put(out, 0, b"record ");
    let after_record = put_dec(out, after, record);
    let before_refusal = put(out, after_record, b" bad ");
    let end = put_dec(out, before_refusal, refusal);
    write_line(out, end)
}
