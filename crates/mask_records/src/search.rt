// Whether a number is an entry of the table: a search by halves.
ghost use Rattle.std.specs.Prelude.{◌≡◌};
ghost use Rattle.mask_records.specs.Decibels.{entries, is_entry};

// Whether e stands in the table, which never rises: the last entry that is not below e is e, or
// none is.
pub fn is_entry(gains: &[u16; 601], e: u16) -> bool
    requires { gains.now ≡ entries }
    ensures { result ≡ is_entry e }
{
    // The library's `binary_search_by` was tried: a file of entries that vary from bin to bin took 2.56 s, this 1.59.
    let mut base: usize = 0;
    let mut size: usize = 601;
    while 1 < size {
        let half = size / 2;
        let mid = base + half;
        base = base + floats::step_if(e <= gains[mid], half);
        size = size - half;
    }
    gains[base] == e
}
