// Runs a script: its fields go to an engine one after the other, a turn each, and what they print goes
// into a lent buffer; and what a script ends with.
#![tactic(auto)]

ghost use Rattle.std.specs.Prelude.{◌≡◌, ◌+◌, ◌-◌, ◌<◌, ◌≤◌, length};
ghost use Rattle.text.specs.Put.{Put};
ghost use Rattle.listing.specs.Printed.{text_from, printed};
ghost use Rattle.listing.specs.Listed.{room_for, listed_of, left_in};

use refusals::Refusal;
use script_steps::Run;
use turns::next_line;

mod ending;
mod lines;
mod turns;

pub use ending::{Ended, bad_of, run_script};
pub use lines::{Line, put_line};
pub use turns::{Reached, next_frame, one_turn};

// The lines from field n on, which stands at `at`, behind what `out` has before w. Fields that print
// nothing are gone through in one place; the run is handed on from line to line.
fn list_fields(run: Run, n: u64, at: usize, w: usize, script: &[u8], out: &mut [u8]) -> usize
    requires { (at ≤ length script.now) × (0 < n) × (n ≤ at + 1) }
    ensures { Put out.old out.new w result (text_from (length script.now + 2 - n) run n at script.now) }
{
    let mut run = run;
    let mut n = n;
    let mut at = at;
    let mut w = w;
    loop {
        let reached = next_line(run, n, at, script);
        let turn = reached.turn;
        let line = turn.line;
        w = lines::put_line(out, w, line);
        let k = turn.taken;
        if k == 0 {
            return w;
        }
        let next = turn.run;
        run = next;
        at = reached.at + k;
        n = reached.n + 1;
    }
}

fn listing(script: &[u8], out: &mut [u8]) -> usize
    ensures { Put out.old out.new 0 result (printed script.now) }
{
    if script.len() <= script::MAX_SCRIPT_BYTES {
        list_fields(script_steps::fresh(), 1, 0, 0, script, out)
    } else {
        lines::put_line(out, 0, Line::Bad(0, Refusal::Script, 0))
    }
}

// Room for the longest listing of a script of n bytes.
pub fn room(n: usize) -> usize
    ensures { result ≡ room_for n }
{
    if n <= script::MAX_SCRIPT_BYTES {
        68 * n + 204
    } else {
        204
    }
}

// What the script prints, at the start of `out`, and the count of its bytes; 13, and `out` as it was,
// where that has no room for the longest listing of so many bytes of script.
pub fn list_script(script: &[u8], out: &mut [u8]) -> Result<usize, Refusal>
    ensures { (result ≡ listed_of (length out.old) script.now) × (out.new ≡ left_in out.old script.now) }
{
    let needed = room(script.len());
    if out.len() < needed {
        return Err(Refusal::Room);
    }
    let n = listing(script, out);
    Ok(n)
}
