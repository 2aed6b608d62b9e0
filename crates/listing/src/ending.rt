// What a whole script comes to: whether it goes bad, and its last accepted frame.
ghost use Rattle.std.specs.Prelude.{◌≡◌};
ghost use Rattle.listing.specs.Ended.{bad_of, ran_to, ended_of, ran_of};

use crate::lines::Line;
use crate::turns;
use crate::turns::Turn;
use refusals::Refusal;
use script_steps::Run;
use windows::Frame;

// The refusal that the script went bad with, if any, and its last accepted frame.
#[derive(Clone, Copy)]
pub struct Ended {
    pub answer: Result<(), Refusal>,
    pub frame: Frame,
}

fn ran(run: Run, answer: Result<(), Refusal>) -> Ended
    ensures { result ≡ ran_to run answer }
{
    let frame = run.frame;
    Ended { answer, frame }
}

// The refusal that a script which ends with this line went bad with.
pub fn bad_of(line: Line) -> Result<(), Refusal>
    ensures { result ≡ bad_of line }
{
    match line {
        Line::Bad(_, refusal, _) => Err(refusal),
        Line::Nothing => Ok(()),
        Line::Frame(_, _) => Ok(()),
        Line::Refused(_, _) => Ok(()),
        Line::End(_) => Ok(()),
    }
}

fn end_of(turn: Turn) -> Ended
    ensures { result ≡ ended_of turn }
{
    let line = turn.line;
    let run = turn.run;
    ran(run, bad_of(line))
}

// Whether the script goes bad, and the last frame that was accepted.
pub fn run_script(script: &[u8]) -> Ended
    ensures { result ≡ ran_of script.now }
{
    if script.len() <= script::MAX_SCRIPT_BYTES {
        end_of(turns::last_turn(script))
    } else {
        ran(script_steps::fresh(), Err(Refusal::Script))
    }
}
