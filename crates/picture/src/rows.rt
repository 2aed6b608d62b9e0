// The rows of a picture, from the lowest up: bin 0, then the octaves of bins, each in at most eight
// rows, and what a record's bins come to in one.
ghost use Rattle.std.specs.Prelude.{◌≡◌, ◌≤◌, ◌<◌, min, length};
ghost use Rattle.picture.specs.Rows.{row_width, first_bin, entries_sum, mean_of, row_entries};

// The last row has bin 8,192, and no record has a bin above it.
pub const ROWS: usize = 89;

fn width(row: usize) -> usize
    requires { row < 96 }
    ensures { (result ≡ row_width row) × (result ≤ 1024) }
{
    let widths = [1, 1, 2, 4, 8, 16, 32, 64, 128, 256, 512, 1024];
    widths[row / 8]
}

pub fn first_bin(row: usize) -> usize
    requires { row < 96 }
    ensures { result ≡ first_bin row }
{
    if row < 8 {
        return row;
    }
    (8 + row % 8) * width(row)
}

fn sum(entries: &[u16]) -> u64
    requires { length entries.now ≤ 8193 }
    ensures { result ≡ entries_sum entries.now }
{
    entries.iter().map(|entry| *entry as u64).sum()
}

fn mean(entries: &[u16]) -> u64
    requires { (0 < length entries.now) × (length entries.now ≤ 8193) }
    ensures { result ≡ mean_of entries.now }
{
    sum(entries) / entries.len() as u64
}

fn least(a: usize, b: usize) -> usize
    ensures { result ≡ min a b }
{
    if a < b { a } else { b }
}

// Of a row whose first bin the record has; the top row may have fewer bins than its width.
pub fn row_mean(entries: &[u16], row: usize) -> u64
    requires { (row < 89) × (first_bin row < length entries.now) × (length entries.now ≤ 8193) }
    ensures { result ≡ mean_of (row_entries row entries.now) }
{
    let first = first_bin(row);
    let upto = least(first_bin(row + 1), entries.len());
    mean(&entries[first..upto])
}
