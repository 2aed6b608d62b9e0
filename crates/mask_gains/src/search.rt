// The Rust's `partition_point`, over bins 1 up: where a test that holds up to some bin first fails.
ghost use Rattle.std.specs.Prelude.{◌≡◌, ◌≤◌, length, get_or};
ghost use Rattle.std.specs.Float.{nan};
ghost use Rattle.std.specs.Float.Ieee.{lt, le};
ghost use Rattle.mask_gains.specs.Search.{Falls, First};

// The first bin whose log is not below x.
pub fn first_from(logs: &[f32], x: f32) -> usize
    requires { (2 ≤ length logs.now) × Falls (λ i. lt (get_or logs.now i nan) x) (length logs.now) }
    ensures { First (λ i. lt (get_or logs.now i nan) x) (length logs.now) result }
{
    1 + logs[1..].partition_point(|log| *log < x)
}

// The first bin whose log is above x.
pub fn first_past(logs: &[f32], x: f32) -> usize
    requires { (2 ≤ length logs.now) × Falls (λ i. le (get_or logs.now i nan) x) (length logs.now) }
    ensures { First (λ i. le (get_or logs.now i nan) x) (length logs.now) result }
{
    1 + logs[1..].partition_point(|log| *log <= x)
}
