// The fields of a BC7 block in front of its endpoints, and the endpoints widened to bytes, by the record of its mode.
ghost use Rattle.std.specs.Prelude.{◌≡◌, cond, ℕ, ◌+◌, ◌*◌, ◌/◌, ◌^◌, ◌<◌, ◌≤◌, eqb, get_or};
ghost use Rattle.rules.specs.Bc7.{colour_place, expand};
ghost use Rattle.bc7.specs.rest.Whole.{whole};
ghost use Rattle.bc7.specs.endpoints.Stages.{Fronted, Ended};

use super::bptc;
use super::rest::{Fields, Rest};
use super::row::Row;

// The fields in front of the endpoints, and what is left.
#[derive(Clone, Copy)]
pub struct Front {
    pub partition: u8,
    pub rotation: u8,
    pub selection: u8,
    pub rest: Rest,
}

// The endpoints of four channels, two for each subset, and what is left. `Ended` and `shaded` (specs/) speak of each channel's list, so
// these are four lists and not one of colours.
#[derive(Clone, Copy)]
pub struct Ends {
    pub red: [u8; 8],
    pub green: [u8; 8],
    pub blue: [u8; 8],
    pub alpha: [u8; 8],
    pub rest: Rest,
}

impl Front {
    // The fields in front, of a block of mode m.
    pub fn read(r: Rest, m: usize, row: Row) -> Front
        requires { m < 8 }
        ensures { Fronted (whole r) m row.mode result }
    {
        let k = row.mode;
        let mut rest = r.past(m + 1);
        let partition = rest.take(k.partition);
        let rotation = rest.take(k.rotation);
        let selection = rest.take(k.selection);
        Front {
            partition,
            rotation,
            selection,
            rest,
        }
    }
}

// Which p-bit endpoint e has: its own, or its subset's.
fn shared_or_own(shared: usize, e: usize) -> usize
    ensures { (result ≡ cond (eqb shared 0) e (e / 2)) × (result ≤ e) }
{
    if shared == 0 {
        return e;
    }
    e / 2
}

// An endpoint of w bits with pb p-bits under them, as a byte.
fn endpoint(v: u8, p: u8, w: usize, pb: usize) -> u8
    requires { (w + pb ≤ 8) × (pb ≤ 1) × (v < 2 ^ w) × (p < 2 ^ pb) }
    ensures { result ≡ expand (w + pb) (v * 2 ^ pb + p) }
{
    bptc::expand(w + pb, (v << pb) + p)
}

// The p-bits of a block: one under each endpoint, or one under both of a subset, or none.
#[derive(Clone, Copy)]
struct PBits {
    bits: Fields,
    shared: usize,
    ghost one: { bits.width ≤ 1 },
}

impl PBits {
    // The p-bit under endpoint e.
    fn under(&self, e: usize) -> u8
        requires { e < 24 }
        ensures bit { result ≡ get_or self.now.bits.values (cond (eqb self.now.shared 0) e (e / 2)) 0 }
        ensures fits { result < 2 ^ self.now.bits.width }
    {
        self.bits.values[shared_or_own(self.shared, e)]
    }
}

// The endpoints of one channel, which stand from `at` on.
fn channel(fields: &Fields, at: usize, count: usize, ps: &PBits) -> [u8; 8]
    requires { (count ≤ 6) × (at ≤ 12) × (fields.now.width + ps.now.bits.width ≤ 8) }
    ensures { (e : ℕ) → e < count → get_or result e 0
        ≡ expand (fields.now.width + ps.now.bits.width)
        (get_or fields.now.values (at + e) 0 * 2 ^ ps.now.bits.width
        + get_or ps.now.bits.values (cond (eqb ps.now.shared 0) e (e / 2)) 0) }
{
    let mut out = [0u8; 8];
    for e in 0..count {
        out[e] = endpoint(
            fields.values[at + e],
            ps.under(e),
            fields.width,
            ps.bits.width,
        );
    }
    out
}

impl Ends {
    // The endpoints of every channel, wherever in a block they stand.
    pub fn read(r: Rest, row: Row) -> Ends
        ensures { (d m : ℕ) → whole r ≡ d / 2 ^ colour_place m row.mode → Ended d m row.mode result }
    {
        let k = row.mode;
        let n = 2 * k.subsets;
        let mut rest = r;
        let colours = rest.several(3 * n, k.colour);
        let alphas = rest.several(n, k.alpha);
        let bits = rest.several(row.p_count(), k.own + k.shared);
        let ps = PBits {
            bits,
            shared: k.shared,
        };
        let red = channel(&colours, 0, n, &ps);
        let green = channel(&colours, n, n, &ps);
        let blue = channel(&colours, 2 * n, n, &ps);
        let alpha = if k.alpha == 0 {
            [255u8; 8]
        } else {
            channel(&alphas, 0, n, &ps)
        };
        Ends {
            red,
            green,
            blue,
            alpha,
            rest,
        }
    }
}
