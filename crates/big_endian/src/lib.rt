// Numbers as bytes, the highest first, written and read; floats by their bits, every NaN by one pattern.
#![tactic(auto)]

ghost use Rattle.std.specs.Prelude.{◌≡◌};
ghost use Rattle.big_endian.specs.Bytes.{bytes16, bytes32, bytes64, single, double, flag_of};

mod numbers;

pub use numbers::{be16_at, be32_at, be64_at, byte, f32_at, f64_at, flag_at, up_to};

pub fn bytes16(n: u16) -> [u8; 2]
    ensures { result ≡ bytes16 n }
{
    u16::to_be_bytes(n)
}

pub fn bytes32(n: u32) -> [u8; 4]
    ensures { result ≡ bytes32 n }
{
    u32::to_be_bytes(n)
}

pub fn bytes64(n: u64) -> [u8; 8]
    ensures { result ≡ bytes64 n }
{
    u64::to_be_bytes(n)
}

pub fn single(x: f32) -> [u8; 4]
    ensures { result ≡ single x }
{
    bytes32(floats::bits(x))
}

pub fn double(x: f64) -> [u8; 8]
    ensures { result ≡ double x }
{
    bytes64(floats::bits(x))
}

pub fn flag(b: bool) -> u8
    ensures { result ≡ flag_of b }
{
    u8::from(b)
}
