// The harmonics of one particle: one to three of 24, drawn by weight and without replacement. The
// weights say how likely a harmonic is, never how loud.
ghost use Rattle.std.specs.Prelude.{◌≡◌, ◌≤◌};
ghost use Rattle.pitch.specs.Partials.{partial_count, kept_of, allowed_of, sum_of, harmonic_of, without_of, partials_drawn, partials_of};

use settings::MAX_PARTIALS;

// A draw below the first gives one harmonic, below the second two, else three.
pub const PARTIAL_COUNT_CUMULATIVE: [f32; 2] = [0.80, 0.97];

// How many harmonics are drawn.
fn count(draw: f32) -> usize
    ensures { result ≡ partial_count draw }
{
    let cumulative = crate::harmonics::PARTIAL_COUNT_CUMULATIVE;
    if draw < cumulative[0] {
        return 1;
    }
    if draw < cumulative[1] {
        return 2;
    }
    3
}

// A harmonic past the number asked for, or not below the ratio limit, is never drawn.
fn kept(i: usize, weight: f32, limit: usize, max_ratio: f32) -> f32
    ensures { result ≡ kept_of limit max_ratio i weight }
{
    if i >= limit {
        return 0.0;
    }
    let harmonic = floats::u64_to_f32(i as u64 + 1);
    floats::pick(harmonic >= max_ratio, 0.0, weight)
}

fn allowed(weights: [f32; MAX_PARTIALS], limit: usize, max_ratio: f32) -> [f32; MAX_PARTIALS]
    ensures { result ≡ allowed_of limit max_ratio weights }
{
    std::array::from_fn(|i| kept(i, weights[i], limit, max_ratio))
}

fn sum(weights: [f32; MAX_PARTIALS]) -> f32
    ensures { result ≡ sum_of weights }
{
    weights.iter().sum()
}

// The harmonic, from 1, whose weight is above what is left of the target, or the last whose weight
// is positive; 0 where none is.
fn harmonic(weights: [f32; MAX_PARTIALS], target: f32) -> u8
    ensures { result ≡ harmonic_of weights target }
{
    // A loop that yields the harmonic by `break`, as 01's list of forms has it.
    let mut left = target;
    let mut chosen: u8 = 0;
    let mut i: usize = 0;
    loop {
        if i == MAX_PARTIALS {
            break chosen;
        }
        let weight = weights[i];
        i = i + 1;
        if weight <= 0.0 {
            continue;
        }
        chosen = i as u8;
        if left < weight {
            break chosen;
        }
        left = left - weight;
    }
}

// The weights without the harmonic that was drawn.
fn without(weights: [f32; MAX_PARTIALS], harmonic: u8) -> [f32; MAX_PARTIALS]
    ensures { result ≡ without_of weights harmonic }
{
    let mut out = weights;
    if harmonic > 0 {
        if harmonic <= 24 {
            out[harmonic as usize - 1] = 0.0;
        }
    }
    out
}

fn drawn(index: u64, weights: [f32; MAX_PARTIALS], count: usize) -> [u8; 3]
    requires { count ≤ 3 }
    ensures { result ≡ partials_drawn index weights count }
{
    let mut left = weights;
    let mut selected = [0u8; 3];
    // The slot is the draw's stream too, and what is left of the weights goes from turn to turn.
    for slot in 0..count {
        let total = sum(left);
        if total <= 0.0 {
            break;
        }
        let target = draws::random(index, draws::PARTIAL_DRAWS + slot as u64) * total;
        let partial = harmonic(left, target);
        selected[slot] = partial;
        let rest = without(left, partial);
        left = rest;
    }
    selected
}

pub fn select_partials(
    index: u64,
    weights: [f32; MAX_PARTIALS],
    limit: usize,
    max_ratio: f32,
) -> [u8; 3]
    ensures { result ≡ partials_of index weights limit max_ratio }
{
    let count = count(draws::random(index, draws::PARTIAL_COUNT));
    drawn(index, allowed(weights, limit, max_ratio), count)
}
