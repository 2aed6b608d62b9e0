// The 256 source slots: what a note supplies, and which sources may be chosen.
#![tactic(auto)]

ghost use Rattle.std.specs.Prelude.{◌≡◌};
ghost use Rattle.sources.specs.Sources.{no_source, same, is_eligible, is_pitched, released_of};

mod choice;

pub use choice::choose;

// A slot's number is below this.
pub const MAX_SOURCES: usize = 256;

#[derive(Clone, Copy, PartialEq)]
pub struct Source {
    pub frequency_hz: f32,
    // Resolved velocity sensitivity, bounded to unity at a birth.
    pub strength: f32,
    pub eligible: bool,
}

impl Default for Source {
    ghost is_default = { λ x. x ≡ no_source };

    fn default() -> Source {
        Source {
            frequency_hz: 0.0,
            strength: 0.0,
            eligible: false,
        }
    }
}

// NaN differs from itself, and the zeros are equal.
pub fn same(a: Source, b: Source) -> bool
    ensures { result ≡ same a b }
{
    a == b
}

// Finite and above 0.
pub fn pitched(x: f32) -> bool
    ensures { result ≡ is_pitched x }
{
    floats::is_finite(x) && x > 0.0
}

pub fn eligible(s: Source) -> bool
    ensures { result ≡ is_eligible s }
{
    s.eligible && pitched(s.frequency_hz) && pitched(s.strength)
}

pub fn released(s: Source) -> Source
    ensures { result ≡ released_of s }
{
    Source {
        frequency_hz: s.frequency_hz,
        strength: s.strength,
        eligible: false,
    }
}
