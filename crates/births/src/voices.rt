// What a birth sounds: the pitch and strength of its source, or those of a birth without one.
ghost use Rattle.std.specs.Prelude.{◌≡◌};
ghost use Rattle.births.specs.Voices.{free_root_of, free_hz_of, free_voice_of, source_voice_of};

use settings::Shape;
use sources::Source;

// Free Sprinkle roots span three octaves; octave choices and partials share each root.
pub const FREE_ROOT_MIN_HZ: f32 = 200.0;

// What a birth sounds: the slot it has chosen (`None` for none), and the pitch and strength that it found.
#[derive(Clone, Copy)]
pub struct Voice {
    pub slot: Option<usize>,
    pub frequency_hz: f32,
    pub strength: f32,
}

// One root for three Rate cycles makes a short harmonic phrase. The phase's offset has no part in it.
fn free_root(phase: f64) -> f32
    ensures { result ≡ free_root_of phase }
{
    let phrase = floats::to_u64(floats::floor(phase / timing::SPRINKLE_GROUP_CYCLES));
    FREE_ROOT_MIN_HZ * elementary::pow8(draws::random(phrase, draws::FREE_ROOT))
}

fn free_frequency(shape: Shape, index: u64, phase: f64, max_hz: f32) -> f32
    ensures { result ≡ free_hz_of shape index phase max_hz }
{
    match shape {
        Shape::Sprinkle => free_root(phase),
        Shape::Cloud => pitch::free_cloud_frequency(index, max_hz),
    }
}

// Where no source was chosen.
pub fn free_voice(shape: Shape, index: u64, phase: f64, sample_rate: f64) -> Voice
    ensures { result ≡ free_voice_of shape index phase sample_rate }
{
    let frequency_hz = free_frequency(shape, index, phase, pitch::max_hz(sample_rate));
    Voice {
        slot: None,
        frequency_hz,
        strength: 1.0,
    }
}

pub fn source_voice(slot: usize, source: Source) -> Voice
    ensures { result ≡ source_voice_of slot source }
{
    Voice {
        slot: Some(slot),
        frequency_hz: source.frequency_hz,
        strength: floats::clamp(source.strength, 0.0, 1.0),
    }
}
