// A line of stored cases: the operation's number in two hexadecimal digits, its name, three
// operands and the answer in sixteen each, and the line's end.
#![tactic(auto)]

ghost use Rattle.std.specs.Prelude.{true, ◌↔◌, ◌≡◌, ◌+◌, ◌≤◌, ◌<◌};
ghost use Rattle.vectors.specs.Line.{digit_of, number_at};

// As `char::to_digit` has it, but for the capitals.
pub fn digit(b: u8) -> u64
    ensures { (result ≡ digit_of b) × (result < 16) }
{
    match b {
        b'0'..=b'9' => (b - b'0') as u64,
        b'a'..=b'f' => (b - b'a') as u64 + 10,
        _ => 0,
    }
}

fn number(line: &[u8; 84], at: usize, n: usize) -> u64
    requires within_line { at + n ≤ 84 }
    requires fits_word { n ≤ 16 }
    ensures { result ≡ number_at line.now at n }
{
    let mut w: u64 = 0;
    for b in &line[at..at + n] {
        w = w * 16 + digit(*b);
    }
    w
}

pub fn operation(line: &[u8; 84]) -> u64
    ensures { result ≡ number_at line.now 0 2 }
{
    number(line, 0, 2)
}

pub fn first(line: &[u8; 84]) -> u64
    ensures { result ≡ number_at line.now 16 16 }
{
    number(line, 16, 16)
}

pub fn second(line: &[u8; 84]) -> u64
    ensures { result ≡ number_at line.now 33 16 }
{
    number(line, 33, 16)
}

pub fn third(line: &[u8; 84]) -> u64
    ensures { result ≡ number_at line.now 50 16 }
{
    number(line, 50, 16)
}

pub fn answer(line: &[u8; 84]) -> u64
    ensures { result ≡ number_at line.now 67 16 }
{
    number(line, 67, 16)
}

// Reads the next line from standard input, and answers how many bytes came: 84, or fewer at the end.
// What comes from outside no contract can say.
pub fn next(line: &mut [u8; 84]) -> usize
    ensures { result ≤ 84 }
{
    io::read_full(0, line).min(84)
}

// Writes what came of the cases.
pub fn say(cases: u64, wrong: u64) {
    io::print_decimal(1, cases);
    io::write_all(1, b" cases, ");
    io::print_decimal(1, wrong);
    io::write_all(1, b" differ\n");
}

// A kind of cases: whether the answer of a line is another than the one that comes now. No `impl Fn`,
// whose calls would be a `requires` of `run`.
pub trait Cases {
    fn differs(line: &[u8; 84]) -> bool;
}

// Runs at most a million cases from standard input, and says how many differ.
pub fn run<C: Cases>() {
    let mut line = [0u8; 84];
    let mut cases: u64 = 0;
    let mut wrong: u64 = 0;
    while cases < 1000000 {
        if next(&mut line) < 84 {
            break;
        }
        cases += 1;
        if C::differs(&line) {
            wrong += 1;
        }
    }
    say(cases, wrong);
}

// Whether two texts are one, byte for byte.
pub fn same(a: &[u8], b: &[u8]) -> bool
    ensures { (result ≡ true) ↔ (a.now ≡ b.now) }
{
    a == b
}
