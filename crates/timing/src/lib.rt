// When births are due: Sprinkle's three streams, and the Cloud's timing reference. Times are in
// cycles of the Rate clock.
#![tactic(auto)]

ghost use Rattle.std.specs.Prelude.{◌≡◌};
ghost use Rattle.timing.specs.Streams.{prepared_stream, new_of, group_of, skipped_of, aligned_of, aligned_all, moved_of, reference_of};

mod starts;

pub use starts::SPRINKLE_GROUP_CYCLES;

// Three independent streams share one Rate budget.
// Each has 0, 1 or 2 starts (25, 50, 25 %) in three Rate cycles: on average one a cycle in all.
pub const SPRINKLE_STREAMS: usize = 3;

pub const CLOUD_TIMING_SPREAD: f64 = 0.7;

#[derive(Clone, Copy)]
pub struct SprinkleStream {
    pub index: u64,
    pub next: f64,
    pub emit: bool,
}

pub fn prepare(stream: SprinkleStream, lane: usize, sync: bool) -> SprinkleStream
    ensures { result ≡ prepared_stream stream.index lane sync }
{
    let index = stream.index;
    let key = draws::sprinkle_key(lane, index / 2 * 2);
    SprinkleStream {
        index,
        next: starts::next(index, key, sync),
        emit: starts::emit(index, key),
    }
}

fn at(index: u64, lane: usize, sync: bool) -> SprinkleStream
    ensures { result ≡ prepared_stream index lane sync }
{
    let stream = SprinkleStream {
        index,
        next: 0.0,
        emit: false,
    };
    prepare(stream, lane, sync)
}

pub fn new_stream(lane: usize, sync: bool) -> SprinkleStream
    ensures { result ≡ new_of lane sync }
{
    at(0, lane, sync)
}

// The first index of the group that is under way at the reference.
fn group(reference: f64) -> u64
    ensures { result ≡ group_of reference }
{
    let groups = floats::floor(reference / starts::SPRINKLE_GROUP_CYCLES);
    floats::wrapping_mul(2, floats::to_u64(floats::max(groups, 0.0)))
}

// A start that has passed is left out.
fn skip(stream: SprinkleStream, lane: usize, reference: f64, sync: bool) -> SprinkleStream
    ensures { result ≡ skipped_of stream lane reference sync }
{
    if stream.next <= reference {
        return at(stream.index.wrapping_add(1), lane, sync);
    }
    stream
}

fn align(lane: usize, reference: f64, sync: bool) -> SprinkleStream
    ensures { result ≡ aligned_of lane reference sync }
{
    let stream = at(group(reference), lane, sync);
    let once = skip(stream, lane, reference, sync);
    skip(once, lane, reference, sync)
}

// The streams at a new place of the clock, with no history.
pub fn align_streams(reference: f64, sync: bool) -> [SprinkleStream; SPRINKLE_STREAMS]
    ensures { result ≡ aligned_all reference sync }
{
    // Written out: the proof of `[0, 1, 2].map(|lane| ..)` was tried and did not close.
    [
        align(0, reference, sync),
        align(1, reference, sync),
        align(2, reference, sync),
    ]
}

// Past a start: to the next, or to the group under way where that is later. No backlog is kept.
pub fn move_on(stream: SprinkleStream, lane: usize, reference: f64, sync: bool) -> SprinkleStream
    ensures { result ≡ moved_of stream.index lane reference sync }
{
    let after = stream.index.wrapping_add(1);
    at(after.max(group(reference)), lane, sync)
}

// The Cloud's opportunity falls at the middle of its cycle, 0.35 of a cycle to either side.
pub fn timing_reference(opportunity: u64) -> f64
    ensures { result ≡ reference_of opportunity }
{
    let draw = draws::random(opportunity, draws::TIMING);
    let middle = std::num::nearest_u64_to_f64(opportunity) + 0.5;
    middle + CLOUD_TIMING_SPREAD * (f64::from(draw) - 0.5)
}
