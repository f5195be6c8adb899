// How far two pixels are from each other: what the checker and the baker of blocks share, and the counts of what an older viewer shows.
ghost use Rattle.std.specs.Prelude.{◌≡◌, ◌<◌, ◌≤◌, max};
ghost use Rattle.rules.specs.Pixel.{alpha_of, red_of, green_of, blue_of};
ghost use Rattle.rules.specs.Checking.{apart as apart_of, near as near_to, differ as differ_of, farthest as farthest_of};

// How far two channels differ. Here and below a channel is read from a pixel by division, since with `to_be_bytes` baking a tile takes a
// third more instructions (docs/PERFORMANCE.md, "Baking a block").
fn apart(a: u32, b: u32) -> u32
    requires { (a < 256) × (b < 256) }
    ensures { (result ≡ apart_of a b) × (result < 256) }
{
    a.abs_diff(b)
}

// How far the reds differ.
fn reds(p: u32, q: u32) -> u32
    ensures { (result ≡ apart_of (red_of p) (red_of q)) × (result < 256) }
{
    apart(p / 65536 % 256, q / 65536 % 256)
}

// How far the greens differ.
fn greens(p: u32, q: u32) -> u32
    ensures { (result ≡ apart_of (green_of p) (green_of q)) × (result < 256) }
{
    apart(p / 256 % 256, q / 256 % 256)
}

// How far the blues differ.
fn blues(p: u32, q: u32) -> u32
    ensures { (result ≡ apart_of (blue_of p) (blue_of q)) × (result < 256) }
{
    apart(p % 256, q % 256)
}

// The sum of the three differences.
#[tactic(auto, unfolding(rules::specs::Checking::differ))]
pub fn differ(p: u32, q: u32) -> u32
    ensures { (result ≡ differ_of p q) × (result ≤ 765) }
{
    reds(p, q) + greens(p, q) + blues(p, q)
}

// Whether each of the three differences is at most the tolerance.
#[tactic(auto, unfolding(rules::specs::Checking::near))]
pub fn near(tolerance: u32, p: u32, q: u32) -> bool
    ensures { result ≡ near_to tolerance p q }
{
    reds(p, q) <= tolerance && greens(p, q) <= tolerance && blues(p, q) <= tolerance
}

// The larger of two numbers.
pub fn larger(a: u32, b: u32) -> u32
    ensures { result ≡ max a b }
{
    a.max(b)
}

// The largest of the three differences.
#[tactic(auto, unfolding(rules::specs::Checking::farthest))]
pub fn farthest(p: u32, q: u32) -> u32
    ensures { result ≡ farthest_of p q }
{
    reds(p, q).max(greens(p, q).max(blues(p, q)))
}

// How far the alphas differ.
pub fn alphas(p: u32, q: u32) -> u32
    ensures { result ≡ apart_of (alpha_of p) (alpha_of q) }
{
    apart(p / 16777216 % 256, q / 16777216 % 256)
}
