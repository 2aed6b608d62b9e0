// Numbers in bytes, big-endian. A byte past the end counts as 0, so that no place asks for a length.
ghost use Rattle.std.specs.Prelude.{◌≡◌, get_or};
ghost use Rattle.big_endian.specs.Numbers.{be16, be32, be64, f32_at, f64_at, flag_at, up_to};

pub fn byte(s: &[u8], i: usize) -> u8
    ensures { result ≡ get_or s.now i 0 }
{
    s.get(i).copied().unwrap_or(0)
}

// By halves: of `from_be_bytes`, tried, each number takes an instruction or two more.
pub fn be16_at(s: &[u8], i: usize) -> u16
    ensures { result ≡ be16 s.now i }
{
    if i < s.len() {
        return (byte(s, i) as u16) * 256 + (byte(s, i + 1) as u16);
    }
    0
}

pub fn be32_at(s: &[u8], i: usize) -> u32
    ensures { result ≡ be32 s.now i }
{
    if i < s.len() {
        return (be16_at(s, i) as u32) * 65536 + (be16_at(s, i + 2) as u32);
    }
    0
}

pub fn be64_at(s: &[u8], i: usize) -> u64
    ensures { result ≡ be64 s.now i }
{
    if i < s.len() {
        return (be32_at(s, i) as u64) * 4294967296 + (be32_at(s, i + 4) as u64);
    }
    0
}

pub fn f32_at(s: &[u8], i: usize) -> f32
    ensures { result ≡ f32_at s.now i }
{
    floats::of_bits(be32_at(s, i))
}

pub fn f64_at(s: &[u8], i: usize) -> f64
    ensures { result ≡ f64_at s.now i }
{
    floats::of_bits(be64_at(s, i))
}

pub fn flag_at(s: &[u8], i: usize) -> bool
    ensures { result ≡ flag_at s.now i }
{
    byte(s, i) == 1
}

// Whether the byte at i is at most m.
pub fn up_to(v: &[u8], i: usize, m: u8) -> bool
    ensures { result ≡ up_to v.now i m }
{
    byte(v, i) <= m
}
