// A record of given entries at a place of a lent buffer.
ghost use Rattle.std.specs.Prelude.{◌≡◌, ◌+◌, ◌*◌, ◌≤◌, length};
ghost use Rattle.text.specs.Put.{splice};
ghost use Rattle.mask_records.specs.Bytes.{head_of, pairs_of};
ghost use Rattle.mask_records.specs.Placed.{placed_of};

use big_endian::{bytes16, bytes64};
use refusals::Refusal;

fn head(sample: u64, count: u16) -> [u8; 16]
    requires { count ≤ 8193 }
    ensures { result ≡ head_of sample count }
{
    let s = bytes64(sample);
    let n = bytes16(count);
    let size = bytes16(2 * count);
    [
        32, 0, 10, s[0], s[1], s[2], s[3], s[4], s[5], s[6], s[7], n[0], n[1], 33, size[0], size[1],
    ]
}

fn put_pairs(entries: &[u16], out: &mut [u8], at: usize)
    requires { (length entries.now ≤ 8193) × (at + 2 * length entries.now ≤ length out.old) }
    ensures { out.new ≡ splice out.old at (pairs_of entries.now) }
{
    for (i, entry) in entries.iter().enumerate() {
        let pair = bytes16(*entry);
        out[at + 2 * i] = pair[0];
        out[at + (2 * i + 1)] = pair[1];
    }
}

// Refusal 13 leaves the buffer as it was.
pub fn put_record(sample: u64, entries: &[u16], out: &mut [u8], at: usize) -> Result<usize, Refusal>
    requires { length entries.now ≤ 8193 }
    ensures { (result, out.new) ≡ placed_of sample entries.now out.old at }
{
    let n = entries.len();
    if out.len() < at {
        return Err(Refusal::Room);
    }
    if out.len() - at < 16 + 2 * n {
        return Err(Refusal::Room);
    }
    let first = head(sample, n as u16);
    let after = text::put(out, at, &first);
    put_pairs(entries, out, after);
    Ok(at + (16 + 2 * n))
}
