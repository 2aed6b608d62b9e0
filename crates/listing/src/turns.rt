// The turns of a script: each field goes to the engine, and has a line.
ghost use Rattle.std.specs.Prelude.{◌≡◌, ◌-◌, ◌≤◌, length};
ghost use Rattle.engine.specs.New.{new_engine_of};
ghost use Rattle.frame.specs.Call.{framed_of};
ghost use Rattle.script_steps.specs.Steps.{done_of, framed_step, step_of};
ghost use Rattle.listing.specs.Turns.{told_of, bad_place, turn_of};
ghost use Rattle.listing.specs.Last.{last_turn_of};
ghost use Rattle.listing.specs.Reaching.{is_silent, is_frameless, goes_on_of, reached_at, inside_of, reached_of};
ghost use Rattle.listing.specs.declared.turns.Until.TheVariants as Until;
ghost use Rattle.listing.specs.Saying.{says_of, said_of};

use crate::lines::Line;
use refusals::Refusal;
use script::Field;
use script_steps::{Run, Values};
use sources::Source;

// One turn: the run after it, its line, and how many bytes of script it took, 0 to stop.
#[derive(Clone, Copy)]
pub struct Turn {
    pub run: Run,
    pub line: Line,
    pub taken: usize,
}

// How far turns go: through one field, up to the next line that is printed, up to the next accepted
// frame, or to the end of the run.
#[derive(Clone, Copy)]
pub enum Until {
    Field,
    Line,
    Frame,
    End,
}

// A turn, and where its field stands: its number, and its place.
#[derive(Clone, Copy)]
pub struct Reached {
    pub turn: Turn,
    pub n: u64,
    pub at: usize,
}

// What a turn says beside the run.
#[derive(Clone, Copy)]
struct Said {
    line: Line,
    taken: usize,
}

fn told(run: Run, line: Line, taken: usize) -> Turn
    ensures { result ≡ told_of run line taken }
{
    Turn { run, line, taken }
}

fn says(line: Line, taken: usize) -> Said
    ensures { result ≡ says_of line taken }
{
    Said { line, taken }
}

// A refusal in field 1 is the rate's, and stops the run.
fn replied(n: u64, at: usize, k: usize, reply: Result<Option<Values>, Refusal>) -> Said
    ensures { result ≡ said_of n at k reply }
{
    match reply {
        Ok(None) => says(Line::Nothing, k),
        Err(refusal) => {
            if n == 1 {
                says(Line::Bad(n, refusal, at), 0)
            } else {
                says(Line::Refused(n, refusal), k)
            }
        }
        Ok(Some(values)) => says(Line::Frame(n, values), k),
    }
}

// How many fields stand before field n; the first is 1.
fn before(n: u64) -> u64
    ensures { result ≡ n - 1 }
{
    if n == 0 { 0 } else { n - 1 }
}

// Where the reader's refusal of a field is told to be: at the field's tag, or at the end of the script
// where the header is cut.
fn bad_place(refusal: Refusal, at: usize, script: &[u8]) -> usize
    ensures { result ≡ bad_place refusal at script.now }
{
    match refusal {
        Refusal::HeaderCut => script.len(),
        _ => at,
    }
}

// Whether a line prints nothing.
fn silent(line: Line) -> bool
    ensures { result ≡ is_silent line }
{
    match line {
        Line::Nothing => true,
        Line::Frame(_, _) => false,
        Line::Refused(_, _) => false,
        Line::Bad(_, _, _) => false,
        Line::End(_) => false,
    }
}

// Whether a line is another than an accepted frame's.
fn frameless(line: Line) -> bool
    ensures { result ≡ is_frameless line }
{
    match line {
        Line::Nothing => true,
        Line::Frame(_, _) => false,
        Line::Refused(_, _) => true,
        Line::Bad(_, _, _) => true,
        Line::End(_) => true,
    }
}

// After a field that takes no byte nothing follows.
fn goes_on(until: Until, line: Line, taken: usize) -> bool
    ensures { result ≡ goes_on_of until line taken }
{
    if taken == 0 {
        return false;
    }
    match until {
        Until::Field => false,
        Until::Line => silent(line),
        Until::Frame => frameless(line),
        Until::End => true,
    }
}

fn reach(turn: Turn, n: u64, at: usize) -> Reached
    ensures { result ≡ reached_at turn n at }
{
    Reached { turn, n, at }
}

// A place behind the script's end, where nothing is left of it, is its end.
fn inside(at: usize, script: &[u8]) -> usize
    ensures { result ≡ inside_of at script.now }
{
    if at < script.len() { at } else { script.len() }
}

// The rate's engine in place of the run's. A function of its own, as `show` is: a function clears its
// locals as it begins, and in `step` these would be cleared for every field.
fn make(run: &mut Run, rate: f32) -> Result<Option<Values>, Refusal>
    ensures { record { run = run.new; reply = result } ≡ done_of run.old (new_engine_of rate) }
{
    let done = engine::new_engine(rate);
    run.engine = done.engine;
    script_steps::answered(done.answer)
}

// The frame stays the last one accepted.
fn show(run: &mut Run, bin_hz: f32, elapsed: f32) -> Result<Option<Values>, Refusal>
    ensures { record { run = run.new; reply = result } ≡ framed_step run.old (framed_of run.old.engine bin_hz elapsed) }
{
    let (frame, answer) = frame::take_frame(&mut run.engine, bin_hz, elapsed);
    match answer {
        Ok(()) => {
            run.frame = frame;
            Ok(Some(script_steps::values_of(&run.engine, run.frame.activity)))
        }
        Err(refusal) => Err(refusal),
    }
}

// A field's call, and what is to be said of it.
fn step(run: &mut Run, field: Field) -> Result<Option<Values>, Refusal>
    ensures { record { run = run.new; reply = result } ≡ step_of run.old field }
{
    match field {
        Field::Rate(rate) => make(run, rate),
        Field::Configure(config) => {
            script_steps::answered(engine::configure(&mut run.engine, config))
        }
        Field::Source(slot, frequency_hz, strength, eligible) => {
            let source = Source {
                frequency_hz,
                strength,
                eligible,
            };
            script_steps::answered(engine::set_source(&mut run.engine, slot as usize, source))
        }
        Field::Retire(slot) => {
            script_steps::answered(engine::retire_source(&mut run.engine, slot as usize))
        }
        Field::Release(slot) => {
            script_steps::answered(engine::release_source(&mut run.engine, slot as usize))
        }
        Field::Trigger(slot) => {
            script_steps::answered(engine::trigger(&mut run.engine, slot as usize))
        }
        Field::Seek(cycles) => {
            engine::seek(&mut run.engine, cycles);
            Ok(None)
        }
        Field::Advance(samples) => {
            script_steps::answered(engine::advance(&mut run.engine, samples as u64))
        }
        Field::Frame(bin_hz, elapsed) => show(run, bin_hz, elapsed),
        Field::NoteInput(present) => {
            engine::set_note_input_present(&mut run.engine, present);
            Ok(None)
        }
        Field::Reset => {
            engine::reset(&mut run.engine);
            Ok(None)
        }
        Field::Reserve => {
            engine::reserve_trigger(&mut run.engine);
            Ok(None)
        }
        Field::ReservedTrigger(slot, index) => {
            script_steps::answered(engine::trigger_reserved(&mut run.engine, slot as usize, index))
        }
    }
}

// Field n stands at `at`. One turn after the other, as far as is asked for.
fn take_turns(until: Until, run: Run, n: u64, at: usize, script: &[u8]) -> Reached
    requires { at ≤ length script.now }
    ensures { result ≡ reached_of until run n at script.now }
{
    let mut run = run;
    let mut n = n;
    let mut at = at;
    loop {
        let read = script::read_field(&script[at..], n == 1);
        match read {
            Ok(Some((field, k))) => {
                let reply = step(&mut run, field);
                let said = replied(n, at, k, reply);
                if goes_on(until, said.line, said.taken) {
                    at = at + said.taken;
                    n = n.wrapping_add(1);
                } else {
                    return reach(told(run, said.line, said.taken), n, at);
                }
            }
            Err(refusal) => {
                let place = bad_place(refusal, at, script);
                return reach(told(run, Line::Bad(n, refusal, place), 0), n, at);
            }
            Ok(None) => {
                return reach(told(run, Line::End(before(n)), 0), n, at);
            }
        }
    }
}

// Field n stands at `at`; behind the script's end nothing stands.
pub fn one_turn(run: Run, n: u64, at: usize, script: &[u8]) -> Turn
    ensures { result ≡ turn_of run n (inside_of at script.now) script.now }
{
    let at = inside(at, script);
    let reached = take_turns(Until::Field, run, n, at, script);
    reached.turn
}

// The first turn from field n on that has a line, and where its field stands.
pub fn next_line(run: Run, n: u64, at: usize, script: &[u8]) -> Reached
    requires { at ≤ length script.now }
    ensures { result ≡ reached_of Until.Line run n at script.now }
{
    take_turns(Until::Line, run, n, at, script)
}

// The first turn from field n on that has an accepted frame, or ends the run, and where its field
// stands.
pub fn next_frame(run: Run, n: u64, at: usize, script: &[u8]) -> Reached
    ensures { result ≡ reached_of Until.Frame run n (inside_of at script.now) script.now }
{
    let at = inside(at, script);
    take_turns(Until::Frame, run, n, at, script)
}

// The turn that ends a script.
pub fn last_turn(script: &[u8]) -> Turn
    ensures { result ≡ last_turn_of script.now }
{
    let reached = take_turns(Until::End, script_steps::fresh(), 1, 0, script);
    reached.turn
}
