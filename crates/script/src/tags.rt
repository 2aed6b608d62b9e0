// 01's table of the tags, a row for each: the length of its value, when that is lawful, and the field
// that it is.
ghost use Rattle.std.specs.Prelude.{◌≡◌};
ghost use Rattle.script.specs.Table.{kind_of, length_of, lawful, field_of};

use crate::fields::Field;
use crate::values::{config_of, is_lawful_config};
use big_endian::{be16_at, be32_at, be64_at, f32_at, f64_at, flag_at, up_to};

// What a tag stands for.
#[derive(Clone, Copy)]
pub enum Kind {
    Unknown,
    Rate,
    Configure,
    Source,
    Retire,
    Release,
    Trigger,
    Seek,
    Advance,
    Frame,
    NoteInput,
    Reset,
    Reserve,
    ReservedTrigger,
}

// The tags are the places of this list, from 1 on.
const KINDS: [Kind; 14] = [
    Kind::Unknown,
    Kind::Rate,
    Kind::Configure,
    Kind::Source,
    Kind::Retire,
    Kind::Release,
    Kind::Trigger,
    Kind::Seek,
    Kind::Advance,
    Kind::Frame,
    Kind::NoteInput,
    Kind::Reset,
    Kind::Reserve,
    Kind::ReservedTrigger,
];

pub const LAST_TAG: u8 = 13;

pub fn kind_of(tag: u8) -> Kind
    ensures { result ≡ kind_of tag }
{
    if tag <= LAST_TAG {
        KINDS[tag as usize]
    } else {
        Kind::Unknown
    }
}

// A row, filled with the bytes of a value.
#[derive(Clone, Copy)]
pub struct FilledRow {
    pub length: usize,
    pub lawful: bool,
    pub field: Field,
}

fn row(length: usize, lawful: bool, field: Field) -> FilledRow
    ensures { (result.length ≡ length) × (result.lawful ≡ lawful) × (result.field ≡ field) }
{
    FilledRow {
        length,
        lawful,
        field,
    }
}

// An unknown tag is refused before its row is asked.
pub fn row_of(kind: Kind, v: &[u8]) -> FilledRow
    ensures { (result.length ≡ length_of kind) × (result.lawful ≡ lawful kind v.now) × (result.field ≡ field_of kind v.now) }
{
    match kind {
        Kind::Unknown => row(0, true, Field::Reset),
        Kind::Rate => row(4, true, Field::Rate(f32_at(v, 0))),
        Kind::Configure => row(37, is_lawful_config(v), Field::Configure(config_of(v))),
        Kind::Source => row(
            11,
            up_to(v, 10, 1),
            Field::Source(be16_at(v, 0), f32_at(v, 2), f32_at(v, 6), flag_at(v, 10)),
        ),
        Kind::Retire => row(2, true, Field::Retire(be16_at(v, 0))),
        Kind::Release => row(2, true, Field::Release(be16_at(v, 0))),
        Kind::Trigger => row(2, true, Field::Trigger(be16_at(v, 0))),
        Kind::Seek => row(8, true, Field::Seek(f64_at(v, 0))),
        Kind::Advance => row(4, true, Field::Advance(be32_at(v, 0))),
        Kind::Frame => row(8, true, Field::Frame(f32_at(v, 0), f32_at(v, 4))),
        Kind::NoteInput => row(1, up_to(v, 0, 1), Field::NoteInput(flag_at(v, 0))),
        Kind::Reset => row(0, true, Field::Reset),
        Kind::Reserve => row(0, true, Field::Reserve),
        Kind::ReservedTrigger => row(
            10,
            true,
            Field::ReservedTrigger(be16_at(v, 0), be64_at(v, 2)),
        ),
    }
}
