// The choice of a birth's source among the slots, by a draw.
ghost use Rattle.std.specs.Prelude.{◌≡◌, ◌<◌};
ghost use Rattle.sources.specs.Choosing.{is_alternative, alternatives_of, nth_of, choice_of, chosen_of};

use crate::{MAX_SOURCES, Source};

// One that may be chosen after `last`.
fn alternative(i: usize, s: Source, last: Option<usize>) -> bool
    ensures { result ≡ is_alternative last i s }
{
    crate::eligible(s) && Some(i) != last
}

fn alternatives(sources: [Source; MAX_SOURCES], last: Option<usize>) -> usize
    ensures { result ≡ alternatives_of last sources }
{
    sources
        .iter()
        .enumerate()
        .filter(|(i, s)| alternative(*i, **s, last))
        .count()
}

// The slot of the n-th alternative, counted from 0; none where there are no more.
fn nth(sources: [Source; MAX_SOURCES], last: Option<usize>, n: usize) -> Option<usize>
    ensures { result ≡ nth_of last sources n }
{
    let nth = sources
        .iter()
        .enumerate()
        .filter(|(i, s)| alternative(*i, **s, last))
        .nth(n);
    match nth {
        Some((i, _)) => Some(i),
        None => None,
    }
}

// Which of n alternatives a draw takes.
fn choice(draw: f32, n: usize) -> usize
    requires { 0 < n }
    ensures { result ≡ choice_of draw n }
{
    let at = floats::to_u64(draw * floats::u64_to_f32(n as u64));
    if at > n as u64 - 1 {
        return n - 1;
    }
    at as usize
}

// By the draw an eligible source other than the last one, else the first eligible one, else none.
pub fn choose(sources: [Source; MAX_SOURCES], last: Option<usize>, draw: f32) -> Option<usize>
    ensures { result ≡ chosen_of last sources draw }
{
    let n = alternatives(sources, last);
    if n == 0 {
        return nth(sources, None, 0);
    }
    nth(sources, last, choice(draw, n))
}
