// Refusal 6: which logarithms a mask takes.
ghost use Rattle.std.specs.Prelude.{◌≡◌, not, ◌&&◌};
ghost use Rattle.std.specs.Float.Ieee.{lt};
ghost use Rattle.std.specs.Float.Ieee.Scale.{finite};
ghost use Rattle.mask_gains.specs.Logs.{lawful_logs};

fn follows(before: f32, log: f32) -> bool
    ensures { result ≡ (finite log && not (lt log before)) }
{
    floats::is_finite(log) & !(log < before)
}

// Bin 0 is not looked at, and bin 1 has none before it.
pub fn lawful(logs: &[f32]) -> bool
    ensures { result ≡ lawful_logs logs.now }
{
    if logs.len() < 2 {
        return true;
    }
    let mut ok = floats::is_finite(logs[1]);
    // Each turn reads two neighbours: over `windows(2)` they would be `w[0]` and `w[1]`, no plainer.
    for i in 2..logs.len() {
        ok = ok & follows(logs[i - 1], logs[i]);
    }
    ok
}
