// T and H of src/etc/etc2.rs, written once for RGB and RGBA1: the four colours that the fields of a block paint.
ghost use Rattle.std.specs.Prelude.{◌≡◌, ◌<◌, ◌≤◌, [], ◌∷◌, length, pos};
ghost use Rattle.rules.specs.Notation.{minus};
ghost use Rattle.rules.specs.Modes.{t_bases, t_distance, t_colours_lem, h_bases, h_distance, h_colours_lem};
ghost use Rattle.etc_colour.specs.shade.Pick.{eight};
ghost use Rattle.etc_colour.specs.shade.Tone.{punched, third_where};

use super::{fields, shade};

// T's four steps, by index. Where a block is not opaque, the one of index 2 leaves nothing. T and H have functions of their own, since one
// for both is no plainer: they differ in fields and in the order of steps and of bases, and in no constant.
fn t_steps(distance: u8, opaque: bool) -> [i16; 4]
    requires { distance < 65 }
    ensures { result ≡ pos 0 ∷ pos distance ∷ third_where opaque (pos 0) ∷ minus distance ∷ [] }
{
    let m = i16::from(distance);
    if opaque {
        [0, m, 0, -m]
    } else {
        [0, m, -512, -m]
    }
}

// H's four steps, by index.
fn h_steps(distance: u8, opaque: bool) -> [i16; 4]
    requires { distance < 65 }
    ensures { result ≡ pos distance ∷ minus distance ∷ third_where opaque (pos distance) ∷ minus distance ∷ [] }
{
    let m = i16::from(distance);
    if opaque {
        [m, -m, m, -m]
    } else {
        [m, -m, -512, -m]
    }
}

// The colours of a T block: the same four for each half. Where it is not opaque, index 2 is transparent.
pub fn t_colours(d: &[u8], opaque: bool) -> [u32; 8]
    requires { 8 ≤ length d.now }
    ensures { result ≡ eight (λ h. punched opaque (t_colours_lem (t_bases d.now) (t_distance d.now))) }
{
    let c = fields::t_fields(d[0], d[1], d[2], d[3]);
    let steps = t_steps(fields::distance(2 * (d[3] / 4 % 4) + d[3] % 2), opaque);
    let four = shade::four_colours([c[0], c[1], c[1], c[1]], &steps, opaque);
    shade::joined(four, four)
}

// The colours of an H block: the same four for each half.
pub fn h_colours(d: &[u8], opaque: bool) -> [u32; 8]
    requires { 8 ≤ length d.now }
    ensures { result ≡ eight (λ h. punched opaque (h_colours_lem (h_bases d.now) (h_distance d.now))) }
{
    let c = fields::h_fields(d[0], d[1], d[2], d[3]);
    let steps = h_steps(fields::distance(fields::h_number(c, d[3])), opaque);
    let four = shade::four_colours([c[0], c[0], c[1], c[1]], &steps, opaque);
    shade::joined(four, four)
}
