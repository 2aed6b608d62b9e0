// The listing of a script whose engine has counted samples already when its first field makes it, for
// the comparison with the Rust near the limit of samples.
#![tactic(auto)]

ghost use Rattle.std.specs.Prelude.{◌≡◌, ◌+◌, ◌-◌, ◌<◌, ◌≤◌, length};
ghost use Rattle.text.specs.Put.{Put};
ghost use Rattle.oracle_late.specs.Late.{counted_of, run_after, text_late, printed_late, listed_late, left_late};

use listing::Line;
use refusals::Refusal;
use script_steps::Run;

// A new engine has counted 0.
fn counted(run: Run, start: u64) -> Run
    ensures { result ≡ counted_of start run }
{
    let mut out = run;
    if start != 0 {
        out.engine.clock.sample = start;
    }
    out
}

// The run after field n.
pub fn after(start: u64, n: u64, run: Run) -> Run
    ensures { result ≡ run_after start n run }
{
    if n == 1 {
        return counted(run, start);
    }
    run
}

// The lines from field n on, which stands at `at`, behind what `out` has before w.
fn list_fields(
    start: u64,
    run: Run,
    n: u64,
    at: usize,
    w: usize,
    script: &[u8],
    out: &mut [u8],
) -> usize
    requires { (at ≤ length script.now) × (0 < n) × (n ≤ at + 1) }
    ensures { Put out.old out.new w result (text_late start (length script.now + 2 - n) run n at script.now) }
{
    let mut run = run;
    let mut n = n;
    let mut at = at;
    let mut w = w;
    loop {
        let turn = listing::one_turn(run, n, at, script);
        let line = turn.line;
        w = listing::put_line(out, w, line);
        let k = turn.taken;
        if k == 0 {
            return w;
        }
        let next = turn.run;
        run = after(start, n, next);
        at = at + k;
        n = n + 1;
    }
}

fn put_listing(start: u64, script: &[u8], out: &mut [u8]) -> usize
    ensures { Put out.old out.new 0 result (printed_late start script.now) }
{
    if script.len() <= script::MAX_SCRIPT_BYTES {
        list_fields(start, script_steps::fresh(), 1, 0, 0, script, out)
    } else {
        listing::put_line(out, 0, Line::Bad(0, Refusal::Script, 0))
    }
}

pub fn list_script_from(start: u64, script: &[u8], out: &mut [u8]) -> Result<usize, Refusal>
    ensures { (result ≡ listed_late start (length out.old) script.now) × (out.new ≡ left_late start out.old script.now) }
{
    let needed = listing::room(script.len());
    if out.len() < needed {
        return Err(Refusal::Room);
    }
    let n = put_listing(start, script, out);
    Ok(n)
}
