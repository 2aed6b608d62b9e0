// One field into a lent buffer, whole or not at all: its tag, the length of its value, the value.
ghost use Rattle.std.specs.Prelude.{◌≡◌, ◌+◌, ◌<◌, leb, length};
ghost use Rattle.text.specs.Put.{buffer_of};
ghost use Rattle.big_endian.specs.Bytes.{tagged};
ghost use Rattle.script_writer.specs.Written.{written_of};

use big_endian::bytes16;
use refusals::Refusal;

// Whether n bytes more fit behind the `at` bytes of a buffer that has `has`.
fn has_room(has: usize, at: usize, n: usize) -> bool
    ensures { result ≡ leb (at + n) has }
{
    if has < at {
        return false;
    }
    n <= has - at
}

pub fn write_tagged(
    tag: u8,
    value: &[u8],
    out: &mut [u8],
    at: usize,
) -> (usize, Result<(), Refusal>)
    requires { length value.now < 65536 }
    ensures { (result ≡ written_of (length out.old) at (tagged tag value.now)) × (out.new ≡ buffer_of out.old at (tagged tag value.now)) }
{
    let n = 3 + value.len();
    if has_room(out.len(), at, n) {
        let size = bytes16(value.len() as u16);
        let head = [tag, size[0], size[1]];
        let behind = text::put(out, at, &head);
        let end = text::put(out, behind, value);
        return (end, Ok(()));
    }
    (at, Err(Refusal::Room))
}
