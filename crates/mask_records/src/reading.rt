// A record read from the start of lent bytes. What stands after it is the next one's.
ghost use Rattle.std.specs.Prelude.{◌≡◌, ◌≤◌, length};
ghost use Rattle.sequences.specs.All.{all};
ghost use Rattle.sequences.specs.Table.{table};
ghost use Rattle.mask_records.specs.Decibels.{entries, is_entry};
ghost use Rattle.mask_records.specs.Found.{headed, entry_in, record_read};

use crate::search::is_entry;
use crate::{Found, decibels};
use big_endian::{be16_at, be64_at, byte};
use refusals::Refusal;

fn is_headed(s: &[u8]) -> bool
    ensures { result ≡ headed s.now }
{
    let n = be16_at(s, 11) as usize;
    (byte(s, 0) == 32)
        & (be16_at(s, 1) == 10)
        & ((1 <= n)
            & (n <= 8193)
            & ((byte(s, 13) == 33) & (be16_at(s, 14) as usize == 2 * n) & (16 + 2 * n <= s.len())))
}

fn all_entries(gains: &[u16; 601], s: &[u8], n: usize) -> bool
    requires { (gains.now ≡ entries) × (n ≤ 8193) }
    ensures { result ≡ all (λ i. is_entry (entry_in s.now i)) n }
{
    (0..n).all(|i| is_entry(gains, be16_at(s, 16 + 2 * i)))
}

fn hand_out(s: &[u8], lent: &mut [u16])
    requires { length lent.old ≤ 8193 }
    ensures { lent.new ≡ table (length lent.old) (entry_in s.now) }
{
    for (i, entry) in lent.iter_mut().enumerate() {
        *entry = be16_at(s, 16 + 2 * i);
    }
}

// A refusal leaves the lent entries as they were.
pub fn read_record(s: &[u8], lent: &mut [u16]) -> Result<Option<Found>, Refusal>
    ensures { (result, lent.new) ≡ record_read s.now lent.old }
{
    if s.len() == 0 {
        return Ok(None);
    }
    if is_headed(s) {
        let n = be16_at(s, 11) as usize;
        let gains = decibels::table();
        if all_entries(&gains, s, n) {
            if n <= lent.len() {
                hand_out(s, &mut lent[..n]);
                let found = Found {
                    sample: be64_at(s, 3),
                    count: n,
                    size: 16 + 2 * n,
                };
                return Ok(Some(found));
            }
            return Err(Refusal::Room);
        }
        return Err(Refusal::Record);
    }
    Err(Refusal::Record)
}
