// Replays stored scripts (tests/answers/scripts.txt says which, and the oracle answered them): the
// listing byte for byte, or the last frame by its digest. Says how many differ.
#![tactic(auto)]

ghost use Rattle.std.specs.Prelude.{◌≤◌, length};

// Two hexadecimal digits from standard input. What comes from outside no contract can say.
fn pair() -> u8 {
    let mut two = [0u8; 2];
    io::read_full(0, &mut two);
    (vectors::digit(two[0]) * 16 + vectors::digit(two[1])) as u8
}

fn count() -> usize
    ensures { result ≤ 255 }
{
    pair() as usize
}

fn wide(x: u8) -> u64 {
    x as u64
}

// A blank, or a line's end.
fn skip() {
    let mut one = [0u8; 1];
    io::read_full(0, &mut one);
}

// The end of n more places from `at`, or of all.
fn until(at: usize, n: usize, all: usize) -> usize
    ensures { result ≤ all }
{
    if all < at {
        return all;
    }
    if all - at < n {
        return all;
    }
    at + n
}

fn read_bytes(script: &mut [u8], at: usize, n: usize) -> usize
    ensures { result ≤ length script.old }
{
    let end = until(at, n, script.len());
    // Where `at` lies past the end there is no slice to go over.
    for i in at..end {
        script[i] = pair();
    }
    end
}

// The n bytes before `at` again and again, `more` bytes in all.
fn repeat(script: &mut [u8], at: usize, n: usize, more: usize) -> usize
    ensures { result ≤ length script.old }
{
    if at < n {
        return 0;
    }
    let end = until(at, more, script.len());
    // Reads what it has written, so no slice of the one can be held beside the other.
    for i in at..end {
        script[i] = script[i - n];
    }
    end
}

// A line of a script: how many bytes more its bytes give by repetition, how many they are, and they.
// Answers their end.
fn read_line(script: &mut [u8], at: usize) -> usize
    ensures { result ≤ length script.old }
{
    let high = count();
    let more = high * 256 + count();
    skip();
    let n = count();
    skip();
    let first = read_bytes(script, at, n);
    skip();
    repeat(script, first, n, more)
}

// A script of so many bytes; fewer where a line brings none.
fn read_script(script: &mut [u8], size: usize) -> usize
    ensures { result ≤ length script.old }
{
    let mut at: usize = 0;
    // A line says how far it reaches: nothing to go over.
    while at < size {
        let end = read_line(script, at);
        if end <= at {
            return at;
        }
        at = end;
    }
    at
}

fn listing_differs(line: &[u8; 84], script: &mut [u8], want: &mut [u8], out: &mut [u8]) -> bool {
    let n = read_script(script, vectors::second(line) as usize);
    let m = until(0, vectors::third(line) as usize, want.len());
    io::read_full(0, &mut want[..m]);
    let start = vectors::answer(line);
    match oracle_late::list_script_from(start, &script[..n], out) {
        Ok(k) => {
            if k <= out.len() {
                return !vectors::same(&out[..k], &want[..m]);
            }
            true
        }
        Err(_) => true,
    }
}

// The oracle's digest of bytes.
fn digest(bytes: &[u8]) -> u64 {
    bytes.iter().fold(0, |h, byte| {
        let turned = floats::rotate_left(h, 7) ^ wide(*byte);
        draws::mix(turned).wrapping_add(0x9e3779b97f4a7c15)
    })
}

fn frame_differs(line: &[u8; 84], script: &mut [u8]) -> bool {
    let n = read_script(script, vectors::second(line) as usize);
    let mut frame = [0u8; entry::FRAME_BYTES];
    let answer = entry::last_frame(&script[..n], &mut frame);
    if refusals::answer_number(answer) != vectors::third(line) {
        return true;
    }
    digest(&frame) != vectors::answer(line)
}

fn differs(line: &[u8; 84], script: &mut [u8], want: &mut [u8], out: &mut [u8]) -> bool {
    if vectors::operation(line) == 0 {
        return listing_differs(line, script, want, out);
    }
    frame_differs(line, script)
}

fn show(line: &[u8; 84]) {
    io::write_all(1, line);
}

fn replay(script: &mut [u8], want: &mut [u8], out: &mut [u8]) {
    let mut line = [0u8; 84];
    let mut cases: u64 = 0;
    let mut wrong: u64 = 0;
    // The count is said in the end, and input ends the loop.
    while cases < 1000000 {
        if vectors::next(&mut line) < 84 {
            break;
        }
        cases = cases + 1;
        if differs(&line, script, want, out) {
            wrong = wrong + 1;
            show(&line);
        }
    }
    vectors::say(cases, wrong);
}

// A byte more than a script may have, more than the longest stored listing, and room for the longest of
// all.
fn lend(script: &mut [u8; 60001], want: &mut [u8; 65536], out: &mut [u8; 4080204]) {
    replay(script, want, out)
}

fn main() {
    let mut script = [0u8; 60001];
    let mut want = [0u8; 65536];
    let mut out = [0u8; 4080204];
    lend(&mut script, &mut want, &mut out);
}
