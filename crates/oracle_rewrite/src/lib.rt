// The fields of a script read and written again, for the comparison with the oracle's own reading and
// writer alone.
#![tactic(auto)]

ghost use Rattle.std.specs.Prelude.{◌≡◌};
ghost use Rattle.script.specs.Field.{read_of};
ghost use Rattle.script.specs.Reading.{onward, reading_of};
ghost use Rattle.script_writer_laws.specs.Events.{events};
ghost use Rattle.script_writer_laws.specs.InARow.{count_after, bytes_after};
ghost use Rattle.oracle_rewrite.specs.Rewritten.{field_in, taken_by};

#[derive(Clone, Copy)]
struct Rewritten {
    // How many bytes the field takes in the script; 0 where the reader stops.
    taken: usize,
    // How many bytes the buffer holds now.
    count: usize,
}

// The field at the start of `script`, written behind the `at` bytes that `out` holds.
fn rewrite_field(script: &[u8], first: bool, out: &mut [u8], at: usize) -> Rewritten
    ensures { (result.taken ≡ taken_by (read_of script.now first)) × (result.count ≡ count_after out.old at (field_in (read_of script.now first))) × (out.new ≡ bytes_after out.old at (field_in (read_of script.now first))) }
{
    let read = script::read_field(script, first);
    match read {
        Ok(Some((field, taken))) => {
            let (count, _) = script_writer::write_field(field, out, at);
            Rewritten { taken, count }
        }
        Err(_) => Rewritten {
            taken: 0,
            count: at,
        },
        Ok(None) => Rewritten {
            taken: 0,
            count: at,
        },
    }
}

// All fields of a script of lawful size.
fn rewrite_fields(script: &[u8], out: &mut [u8]) -> usize
    ensures { (result ≡ count_after out.old 0 (events (onward 1 0 script.now))) × (out.new ≡ bytes_after out.old 0 (events (onward 1 0 script.now))) }
{
    let mut n: u64 = 1;
    let mut at: usize = 0;
    let mut w: usize = 0;
    loop {
        let one = rewrite_field(&script[at..], n == 1, out, w);
        w = one.count;
        let k = one.taken;
        if k == 0 {
            return w;
        }
        at = at + k;
        n = n + 1;
    }
}

// The fields of a script as far as the reader takes them, each read and written again into `out`, one
// behind the other; how many bytes stand there then.
#[unsafe(no_mangle)]
pub extern "C" fn rk_probe_rewritten(script: &[u8], out: &mut [u8]) -> usize
    ensures { (result ≡ count_after out.old 0 (events (reading_of script.now))) × (out.new ≡ bytes_after out.old 0 (events (reading_of script.now))) }
{
    if script::MAX_SCRIPT_BYTES < script.len() {
        return 0;
    }
    rewrite_fields(script, out)
}
