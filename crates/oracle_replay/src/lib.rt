// Whole scripts handed over for the comparison with the Rust alone: the listing, and what every field
// leaves.
#![tactic(auto)]

ghost use Rattle.std.specs.Prelude.{◌≡◌, ◌+◌, ◌-◌, ◌<◌, ◌≤◌, length};
ghost use Rattle.text.specs.Put.{Put, place_after, buffer_after};
ghost use Rattle.listing.specs.Listed.{listed_of, left_in};
ghost use Rattle.oracle_late.specs.Late.{listed_late, left_late};
ghost use Rattle.oracle_replay.specs.Replay.{count_of, outcome_byte, trigger_of, answer_byte, left_by, left_from, handed_count, handed_in};

use engine::Outcome;
use refusals::Refusal;
use script::Field;
use script_steps::Run;

mod numbers;
mod states;
mod written;

fn count(listed: Result<usize, Refusal>) -> usize
    ensures { result ≡ count_of listed }
{
    match listed {
        Ok(n) => n,
        Err(_) => 0,
    }
}

// The listing's length; 0 and the bytes as they were where the room is not that of the longest listing.
#[unsafe(no_mangle)]
pub extern "C" fn rk_probe_listing(script: &[u8], out: &mut [u8]) -> usize
    ensures { (result ≡ count_of (listed_of (length out.old) script.now)) × (out.new ≡ left_in out.old script.now) }
{
    count(listing::list_script(script, out))
}

// The same on an engine that has counted `start` samples when the script makes it.
#[unsafe(no_mangle)]
pub extern "C" fn rk_probe_listing_from(start: u64, script: &[u8], out: &mut [u8]) -> usize
    ensures { (result ≡ count_of (listed_late start (length out.old) script.now)) × (out.new ≡ left_late start out.old script.now) }
{
    count(oracle_late::list_script_from(start, script, out))
}

fn outcome(fired: Result<Outcome, Refusal>) -> u8
    ensures { result ≡ outcome_byte fired }
{
    match fired {
        Ok(Outcome::Born) => 1,
        Ok(Outcome::NotEligible) => 2,
        Ok(Outcome::Dropped) => 3,
        Err(_) => 0,
    }
}

// What a field's trigger answers, on the run that it meets; a turn of the run tells no outcome.
fn trigger(run: Run, field: Field) -> u8
    ensures { result ≡ trigger_of run field }
{
    let mut engine = run.engine;
    match field {
        Field::Rate(_) => 0,
        Field::Configure(_) => 0,
        Field::Source(_, _, _, _) => 0,
        Field::Retire(_) => 0,
        Field::Release(_) => 0,
        Field::Trigger(slot) => outcome(engine::trigger(&mut engine, slot as usize)),
        Field::Seek(_) => 0,
        Field::Advance(_) => 0,
        Field::Frame(_, _) => 0,
        Field::NoteInput(_) => 0,
        Field::Reset => 0,
        Field::Reserve => 0,
        Field::ReservedTrigger(slot, index) => {
            outcome(engine::trigger_reserved(&mut engine, slot as usize, index))
        }
    }
}

// The same of field n, which stands at the start of s.
fn answer(run: Run, n: u64, s: &[u8]) -> u8
    ensures { result ≡ answer_byte run n s.now }
{
    match script::read_field(s, n == 1) {
        Ok(Some((field, _))) => trigger(run, field),
        Ok(None) | Err(_) => 0,
    }
}

// The state, the last accepted frame, and the trigger's answer.
fn put_field(out: &mut [u8], at: usize, run: Run, answer: u8) -> usize
    ensures { (result ≡ place_after out.old at (left_by run answer)) × (out.new ≡ buffer_after out.old at (left_by run answer)) }
{
    let engine = run.engine;
    let frame = run.frame;
    let at = states::put_state(out, at, engine);
    let at = entry::put_frame(out, at, frame);
    let one = [answer];
    text::put(out, at, &one)
}

// What the fields from n on leave, which stands at `at`, behind what `out` has before w.
fn put_fields(
    start: u64,
    run: Run,
    n: u64,
    at: usize,
    w: usize,
    script: &[u8],
    out: &mut [u8],
) -> usize
    requires { (at ≤ length script.now) × (0 < n) × (n ≤ at + 1) }
    ensures { Put out.old out.new w result (left_from start (length script.now + 2 - n) run n at script.now) }
{
    let mut run = run;
    let mut n = n;
    let mut at = at;
    let mut w = w;
    // A field's length is known when it is read: nothing to go over.
    loop {
        let turn = listing::one_turn(run, n, at, script);
        let k = turn.taken;
        if k == 0 {
            return w;
        }
        let answer = answer(run, n, &script[at..]);
        let next = turn.run;
        run = oracle_late::after(start, n, next);
        w = put_field(out, w, run, answer);
        at = at + k;
        n = n + 1;
    }
}

// What each field leaves, 16,493 bytes each, and the count of all bytes; a field that goes bad leaves
// nothing. 0 and the bytes as they were where the script is too long, or there is no room for as many
// fields as it can have. The engine has counted `start` samples when the first field makes it.
#[unsafe(no_mangle)]
pub extern "C" fn rk_probe_fields_from(start: u64, script: &[u8], out: &mut [u8]) -> usize
    ensures { (result ≡ handed_count start script.now out.old) × (out.new ≡ handed_in start script.now out.old) }
{
    if script::MAX_SCRIPT_BYTES < script.len() {
        return 0;
    }
    if out.len() < 5498 * script.len() {
        return 0;
    }
    put_fields(start, script_steps::fresh(), 1, 0, 0, script, out)
}

#[unsafe(no_mangle)]
pub extern "C" fn rk_probe_fields(script: &[u8], out: &mut [u8]) -> usize
    ensures { (result ≡ handed_count 0 script.now out.old) × (out.new ≡ handed_in 0 script.now out.old) }
{
    rk_probe_fields_from(0, script, out)
}
