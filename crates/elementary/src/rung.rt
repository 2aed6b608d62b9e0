// The two parts of a finite f32 above zero, from its pattern: digits from 2^23 to below 2^24, and
// the rung, which is 149 more than the exponent of the leading digit.
ghost use Rattle.std.specs.Prelude.{◌≡◌, ◌<◌};
ghost use Rattle.elementary.specs.Rung.{rung_of, digits_of};

pub fn rung(b: u32) -> u32
    requires { 0 < b }
    ensures { result ≡ rung_of b }
{
    if 8388608 <= b {
        b / 8388608 + 22
    } else {
        31 - u32::leading_zeros(b)
    }
}

pub fn digits(b: u32) -> u64
    requires { 0 < b }
    ensures { result ≡ digits_of b }
{
    if 8388608 <= b {
        (b % 8388608 + 8388608) as u64
    } else {
        let z = u32::leading_zeros(b);
        let k = z - 8;
        (b as u64) << k
    }
}
