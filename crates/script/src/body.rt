// A field from its header on, where its tag is known.
ghost use Rattle.std.specs.Prelude.{◌≡◌, ◌≤◌, length};
ghost use Rattle.script.specs.Field.{body_of};

use crate::fields::Field;
use crate::tags;
use crate::tags::Kind;
use big_endian::be16_at;
use refusals::Refusal;

// The length, the value cut, the value.
pub fn body_of(kind: Kind, s: &[u8]) -> Result<Option<(Field, usize)>, Refusal>
    requires { 3 ≤ length s.now }
    ensures { result ≡ body_of kind s.now }
{
    let v = &s[3..];
    let row = tags::row_of(kind, v);
    let n = row.length;
    let said = be16_at(s, 1) as usize;
    let wrong = said != n;
    let cut = s.len() - 3 < n;
    if wrong {
        return Err(Refusal::WrongLength);
    }
    if cut {
        return Err(Refusal::ValueCut);
    }
    if row.lawful {
        let field = row.field;
        Ok(Some((field, 3 + n)))
    } else {
        Err(Refusal::Value)
    }
}
