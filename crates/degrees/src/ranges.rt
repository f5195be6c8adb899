// The two ranges that degrees and steps lie in.
ghost use Rattle.std.specs.Prelude.{◌≡◌, ◌&&◌};
ghost use Rattle.std.specs.Float.Ieee.{le, neg};
ghost use Rattle.rules.specs.Degrees.{in_degrees_lem, in_step_lem};

// The furthest that degrees and steps go, either way.
const MOST_DEGREES: f32 = 720.0;

const MOST_STEP: f32 = 8.0;

// Whether x lies in -n to n. No comparison with a NaN holds.
fn within(x: f32, n: f32) -> bool
    ensures { result ≡ (le (neg n) x && le x n) }
{
    -n <= x && x <= n
}

// The two ranges of the rules: each is one call, so that each owes what its rule says.
pub fn in_degrees(x: f32) -> bool
    ensures { result ≡ in_degrees_lem x }
{
    within(x, MOST_DEGREES)
}

pub fn in_step(x: f32) -> bool
    ensures { result ≡ in_step_lem x }
{
    within(x, MOST_STEP)
}
