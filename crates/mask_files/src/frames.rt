// A walk over the accepted frames of a script, a record a step.
ghost use Rattle.std.specs.Prelude.{◌≡◌, ◌+◌, ◌^◌, ◌<◌};
ghost use Rattle.mask_files.specs.Walk.{walk_start, walk_after, made_of, walk_step};

use crate::{Made, Step, Walk};
use listing::{Line, Reached};
use refusals::Refusal;

// The walk before a script's first field.
pub fn start() -> Walk
    ensures { result ≡ walk_start }
{
    let run = script_steps::fresh();
    Walk { run, n: 1, at: 0 }
}

// The walk behind the field that was reached.
fn behind(reached: Reached) -> Walk
    requires { reached.at + reached.turn.taken < 2 ^ 64 }
    ensures { result ≡ walk_after reached }
{
    let turn = reached.turn;
    let run = turn.run;
    let n = reached.n.wrapping_add(1);
    Walk {
        run,
        n,
        at: reached.at + turn.taken,
    }
}

fn made(n: u64, written: Result<usize, Refusal>) -> Made
    ensures { result ≡ made_of n written }
{
    match written {
        Ok(after) => Made::Record(after),
        Err(refusal) => Made::Refused(n, refusal),
    }
}

// From where the walk stands to the next accepted frame, whose record goes to a place of `out`; or to
// the script's last line.
pub fn next_record(
    walk: Walk,
    script: &[u8],
    depth_db: f32,
    logs: &[f32],
    scratch: &mut [f32],
    out: &mut [u8],
    at: usize,
) -> Step
    ensures { (result, scratch.new, out.new) ≡ walk_step walk script.now depth_db logs.now scratch.old out.old at }
{
    let run = walk.run;
    let reached = listing::next_frame(run, walk.n, walk.at, script);
    let next = behind(reached);
    let turn = reached.turn;
    let line = turn.line;
    match line {
        Line::Frame(n, values) => {
            let run = turn.run;
            let frame = run.frame;
            let written = mask_records::write_record(
                values.sample,
                frame,
                depth_db,
                logs,
                scratch,
                out,
                at,
            );
            Step {
                walk: next,
                made: made(n, written),
            }
        }
        Line::Nothing => Step {
            walk: next,
            made: Made::Last(Line::Nothing),
        },
        Line::Refused(n, refusal) => Step {
            walk: next,
            made: Made::Last(Line::Refused(n, refusal)),
        },
        Line::Bad(n, refusal, place) => Step {
            walk: next,
            made: Made::Last(Line::Bad(n, refusal, place)),
        },
        Line::End(n) => Step {
            walk: next,
            made: Made::Last(Line::End(n)),
        },
    }
}
