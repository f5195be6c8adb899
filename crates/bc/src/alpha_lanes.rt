// The alphas of a BC3 block as lanes of vector code: all eight by one formula, in either order of the two.
ghost use Rattle.std.specs.Prelude.{◌≡◌, cond, ℕ, ◌%◌, ◌<◌, ltb, get_or};
ghost use Rattle.rules.specs.Notation.{build};
ghost use Rattle.rules.specs.Desktop.{alphas as alphas_of};
ghost use Rattle.bc.specs.alpha_lanes.Lanes.{fifths as fifths_of, more as more_of, alpha_lane_lem};

use super::bc1;
use std::hint::select_unpredictable;

// Five times alpha k, where it is one of the fifths.
fn fifths(a: u16, b: u16, k: u16) -> u16
    ensures { result ≡ fifths_of a b k }
{
    let x = bc1::pick(k, 3, 3, bc1::pick(k, 4, 2, bc1::pick(k, 5, 1, 0)));
    let y = bc1::pick(k, 3, 2, bc1::pick(k, 4, 3, bc1::pick(k, 5, 4, 0)));
    bc1::weighed(
        a,
        b,
        bc1::pick(k, 0, 5, bc1::pick(k, 2, 4, x)),
        bc1::pick(k, 1, 5, bc1::pick(k, 2, 1, y)),
    )
}

// What seven times alpha k has more than that, where it is one of the sevenths.
fn more(a: u16, b: u16, k: u16) -> u16
    ensures { result ≡ more_of a b k }
{
    let x = bc1::pick(k, 1, 0, bc1::pick(k, 7, 1, 2));
    let y = bc1::pick(k, 1, 2, bc1::pick(k, 6, 5, bc1::pick(k, 7, 6, 0)));
    bc1::weighed(a, b, x, y)
}

// The two alphas and what their order asks for: c and d are a and b where it is sevenths, and else 0; m divides by seven or by five; and g
// goes to the last.
#[derive(Clone, Copy)]
struct Order {
    a: u16,
    b: u16,
    c: u16,
    d: u16,
    m: u16,
    g: u16,
}

impl Order {
    // Alpha k.
    #[tactic(auto, unfolding(crate::specs::alpha_lanes::Lanes::alpha_lane_lem))]
    fn lane(self, k: u16) -> u16
        ensures { result ≡ alpha_lane_lem self.a self.b self.c self.d self.m self.g k }
    {
        let sum = bc1::plus(fifths(self.a, self.b, k), more(self.c, self.d, k));
        bc1::plus(
            bc1::high(sum, self.m),
            bc1::times(self.g, bc1::pick(k, 7, 1, 0)),
        )
    }

    // The eight alphas twice: a loop of eight turns would be unrolled before it becomes vector code, and the second eight are not used.
    fn lanes(self) -> [u16; 16]
        ensures { result ≡ build 16 (λ i. alpha_lane_lem self.a self.b self.c self.d self.m self.g (i % 8)) }
    {
        let mut out = [0u16; 16];
        for i in 0..16 {
            out[i] = self.lane((i % 8) as u16);
        }
        out
    }
}

// The alphas of both orders, by one formula.
pub fn all_alphas(a: u8, b: u8) -> [u16; 16]
    ensures { (k : ℕ) → k < 8 → get_or result k 0 ≡ get_or (alphas_of (ltb b a) a b) k 0 }
{
    let p = u16::from(a);
    let q = u16::from(b);
    let sevenths = a > b;
    let order = Order {
        a: p,
        b: q,
        c: select_unpredictable(sevenths, p, 0),
        d: select_unpredictable(sevenths, q, 0),
        m: select_unpredictable(sevenths, 9363, 13108),
        g: select_unpredictable(sevenths, 0, 255),
    };
    order.lanes()
}
