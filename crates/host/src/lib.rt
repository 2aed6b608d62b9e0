// What a host may call: the elementary functions on numbers, a script on lent bytes, its mask file, and
// the writer of events.
#![tactic(auto)]

ghost use Rattle.powers.specs.Exp64 as Exp64;
ghost use Rattle.elementary.specs.Log2.{log2_of};
ghost use Rattle.powers.specs.Power as Power;
ghost use Rattle.elementary.specs.Sqrt.{sqrt_of};
ghost use Rattle.entry.specs.Entry.{entry_answer, entry_bytes};
ghost use Rattle.refusals.specs.Numbers.{answer_of};
ghost use Rattle.std.specs.Prelude.{◌≡◌};

mod masks;
mod write;

#[unsafe(no_mangle)]
pub extern "C" fn rk_log2(x: f32) -> f32
    ensures { result ≡ log2_of x }
{
    elementary::log2(x)
}

#[unsafe(no_mangle)]
pub extern "C" fn rk_exp2(x: f32) -> f32
    ensures { result ≡ Power.exp2 x }
{
    elementary::exp2(x)
}

#[unsafe(no_mangle)]
pub extern "C" fn rk_exp(x: f32) -> f32
    ensures { result ≡ Power.exp x }
{
    elementary::exp(x)
}

#[unsafe(no_mangle)]
pub extern "C" fn rk_exp64(x: f64) -> f64
    ensures { result ≡ Exp64.exp64 x }
{
    elementary::exp64(x)
}

#[unsafe(no_mangle)]
pub extern "C" fn rk_pow8(x: f32) -> f32
    ensures { result ≡ Power.pow8 x }
{
    elementary::pow8(x)
}

#[unsafe(no_mangle)]
pub extern "C" fn rk_pow10(x: f32) -> f32
    ensures { result ≡ Power.pow10 x }
{
    elementary::pow10(x)
}

#[unsafe(no_mangle)]
pub extern "C" fn rk_sqrt(x: f32) -> f32
    ensures { result ≡ sqrt_of x }
{
    elementary::sqrt(x)
}

// The last accepted frame of a script, in 2,308 lent bytes. 0, or the number of what was wrong; the
// bytes are then as they were.
#[unsafe(no_mangle)]
pub extern "C" fn rk_script(script: &[u8], out: &mut [u8]) -> u32
    ensures { (result ≡ answer_of (entry_answer script.now out.old)) × (out.new ≡ entry_bytes script.now out.old) }
{
    let answer = entry::last_frame(script, out);
    refusals::answer_number(answer) as u32
}
