// The random draws: SplitMix64's output function over a key, so that a draw depends on its index and
// its stream alone, and never on the draws before it.
#![tactic(auto)]

ghost use Rattle.std.specs.Prelude.{◌≡◌};
ghost use Rattle.draws.specs.Draws.{mix_of, random_of, key_of, stream_of};

pub const SEED: u64 = 0x7765_6674_7061_7274;

// The streams. Numbers 4, 6 and 9 are not in use. No enum: the weighted draws count on from the last.
pub const TIMING: u64 = 0;

pub const SOURCE: u64 = 1;

pub const REGISTER: u64 = 2;

pub const LIFETIME: u64 = 3;

pub const GROUPING: u64 = 5;

pub const WIDTH: u64 = 7;

pub const FREE_TIMING: u64 = 8;

pub const OPENING: u64 = 10;

pub const FREE_ROOT: u64 = 11;

pub const PARTIAL_COUNT: u64 = 12;

pub const PARTIAL_DRAWS: u64 = 13;

// In the order of the original's heading, but for the last, which is the first of three.
const STREAMS: [u64; 10] = [
    TIMING,
    SOURCE,
    REGISTER,
    LIFETIME,
    GROUPING,
    WIDTH,
    FREE_TIMING,
    OPENING,
    FREE_ROOT,
    PARTIAL_COUNT,
];

// By its place in the original's heading, from 0 on.
pub fn stream(place: u64) -> u64
    ensures { result ≡ stream_of place }
{
    STREAMS
        .get(place as usize)
        .copied()
        .unwrap_or(PARTIAL_DRAWS)
}

pub fn mix(x: u64) -> u64
    ensures { result ≡ mix_of x }
{
    let y = floats::wrapping_mul(x ^ (x >> 30), 0xbf58_476d_1ce4_e5b9);
    let z = floats::wrapping_mul(y ^ (y >> 27), 0x94d0_49bb_1331_11eb);
    z ^ (z >> 31)
}

// From 0 up to below 1, in steps of 2^-24.
pub fn random(index: u64, stream: u64) -> f32
    ensures { result ≡ random_of index stream }
{
    let i = floats::wrapping_mul(index, 0x9e37_79b9_7f4a_7c15);
    let s = floats::wrapping_mul(stream, 0xd1b5_4a32_d192_ed03);
    let n = mix(SEED ^ i ^ s) >> 40;
    floats::u64_to_f32(n) / 16777216.0
}

// Stream-local indices occupy disjoint keys below those of immediate notes.
pub fn sprinkle_key(lane: usize, index: u64) -> u64
    ensures { result ≡ key_of lane index }
{
    4611686018427387904 | ((lane as u64) << 59) | index
}
