// Reads one field of an event script, at the start of the slice that it is handed.
#![tactic(auto)]

ghost use Rattle.std.specs.Prelude.{◌≡◌, ◌<◌, length};
ghost use Rattle.script.specs.Field.{misplaced, unknown, read_of};

use refusals::Refusal;

mod body;
mod fields;
mod tags;
mod values;

pub use fields::Field;

// Added by 01: a longer script is refused.
pub const MAX_SCRIPT_BYTES: usize = 60000;

// The first field is the rate, and no later one is.
fn is_misplaced(tag: u8, first: bool) -> bool
    ensures { result ≡ misplaced tag first }
{
    if first { tag != 1 } else { tag == 1 }
}

fn is_unknown(tag: u8) -> bool
    ensures { result ≡ unknown tag }
{
    if tag == 0 { true } else { tags::LAST_TAG < tag }
}

// The field at the start of bytes: the header, then the body.
fn read_header(script: &[u8], first: bool) -> Result<Option<(Field, usize)>, Refusal>
    requires { 0 < length script.now }
    ensures { result ≡ read_of script.now first }
{
    let tag = script[0];
    let cut = script.len() < 3;
    let misplaced = is_misplaced(tag, first);
    let unknown = is_unknown(tag);
    if cut {
        return Err(Refusal::HeaderCut);
    }
    if misplaced {
        return Err(Refusal::Place);
    }
    if unknown {
        return Err(Refusal::Tag);
    }
    body::body_of(tags::kind_of(tag), script)
}

// The field at the start of `script`, which is a script's first one or a later one, and how many bytes it
// takes; none at the end.
pub fn read_field(script: &[u8], first: bool) -> Result<Option<(Field, usize)>, Refusal>
    ensures { result ≡ read_of script.now first }
{
    if script.len() == 0 {
        return if first { Err(Refusal::Place) } else { Ok(None) };
    }
    read_header(script, first)
}
