// When the starts of Sprinkle's groups fall, and which of them sound. A group has two, in three cycles
// of the Rate clock, and its key draws for both.
ghost use Rattle.std.specs.Prelude.{◌≡◌};
ghost use Rattle.timing.specs.Starts.{starts_drawn, start_of, gap_of, human_of, next_of, emit_of};

pub const SPRINKLE_GROUP_CYCLES: f64 = 3.0;

// How many of a group's two starts sound.
fn count(draw: f32) -> u64
    ensures { result ≡ starts_drawn draw }
{
    if draw < 0.25 {
        0
    } else if draw < 0.75 {
        1
    } else {
        2
    }
}

// The first start lies on a grid of quarters of a cycle.
fn start(key: u64) -> f64
    ensures { result ≡ start_of key }
{
    let step = floats::floor(draws::random(key, draws::TIMING) * 9.0);
    0.25 + f64::from(step) * 0.25
}

// The second comes with the first, or a quarter or half a cycle later.
fn gap(key: u64) -> f64
    ensures { result ≡ gap_of key }
{
    let second = key.wrapping_add(1);
    let step = floats::floor(draws::random(second, draws::TIMING) * 3.0);
    f64::from(step) * 0.25
}

// A small offset of the whole group, unless it keeps to the grid.
fn human(sync: bool, key: u64) -> f64
    ensures { result ≡ human_of sync key }
{
    let draw = draws::random(key, draws::FREE_TIMING);
    let offset = 0.18 * (f64::from(draw) - 0.5);
    floats::pick(sync, 0.0, offset)
}

// When the start falls, in cycles.
pub fn next(index: u64, key: u64, sync: bool) -> f64
    ensures { result ≡ next_of index key sync }
{
    let group = std::num::nearest_u64_to_f64(index / 2);
    let second = std::num::nearest_u64_to_f64(index % 2);
    let start = start(key);
    let gap = gap(key);
    let human = human(sync, key);
    group * SPRINKLE_GROUP_CYCLES + start + second * gap + human
}

// Whether it sounds.
pub fn emit(index: u64, key: u64) -> bool
    ensures { result ≡ emit_of index key }
{
    let n = count(draws::random(key, draws::GROUPING));
    index % 2 < n
}
