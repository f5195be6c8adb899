// Planar of src/etc/etc2.rs, written once for RGB and RGBA1: three base colours of three bytes each, and the plane through them.
ghost use Rattle.std.specs.Prelude.{◌≡◌, ◌/◌, ◌%◌, ◌<◌, ◌≤◌, length};
ghost use Rattle.rules.specs.Places.{tile};
ghost use Rattle.rules.specs.Modes.{six, seven, planar_bases_lem, planar_channel, planar_pixel_lem};
ghost use Rattle.etc_colour.specs.planar.Fields.{planar_fields};

use super::widen::widened;
use pixel::color;

// The first of planar's base colours, O, from bytes 0 to 3.
fn planar_origin(a: u8, b: u8, c: u8, d: u8) -> [u8; 3]
    ensures { result ≡ planar_fields 0 a b c d }
{
    [
        widened::<6>(a / 2 % 64),
        widened::<7>(64 * (a % 2) + b / 2 % 64),
        widened::<6>(32 * (b % 2) + 8 * (c / 8 % 4) + 2 * (c % 4) + d / 128 % 2),
    ]
}

// The second, H, from bytes 3 to 5.
fn planar_right(d: u8, e: u8, f: u8) -> [u8; 3]
    ensures { result ≡ planar_fields 1 d e f 0 }
{
    [
        widened::<6>(2 * (d / 4 % 32) + d % 2),
        widened::<7>(e / 2 % 128),
        widened::<6>(32 * (e % 2) + f / 8 % 32),
    ]
}

// The third, V, from bytes 5 to 7.
fn planar_below(f: u8, g: u8, h: u8) -> [u8; 3]
    ensures { result ≡ planar_fields 2 f g h 0 }
{
    [
        widened::<6>(8 * (f % 8) + g / 32 % 8),
        widened::<7>(4 * (g % 32) + h / 64 % 4),
        widened::<6>(h % 64),
    ]
}

// Planar's base colours.
fn planar_bases(d: &[u8]) -> [[u8; 3]; 3]
    requires { 8 ≤ length d.now }
    ensures { result ≡ planar_bases_lem d.now }
{
    [
        planar_origin(d[0], d[1], d[2], d[3]),
        planar_right(d[3], d[4], d[5]),
        planar_below(d[5], d[6], d[7]),
    ]
}

// One channel, in column x of row y. A signed type of 16 bits holds every sum on the way. Casts and no `i16::from`, which is no plainer:
// eight conversions in one sum would fill two lines.
fn channel(o: u8, h: u8, v: u8, x: u8, y: u8) -> u32
    requires { (x < 4) × (y < 4) }
    ensures { (result ≡ planar_channel o h v x y) × (result < 256) }
{
    let n = x as i16 * (h as i16 - o as i16) + y as i16 * (v as i16 - o as i16) + 4 * o as i16 + 2;
    if n < 0 { 0 } else { color::clamp(n / 4) }
}

// The pixel in column x of row y.
fn planar_pixel(c: [[u8; 3]; 3], x: u8, y: u8) -> u32
    requires { (x < 4) × (y < 4) }
    ensures { result ≡ planar_pixel_lem c x y }
{
    color::color(
        channel(c[0][0], c[1][0], c[2][0], x, y),
        channel(c[0][1], c[1][1], c[2][1], x, y),
        channel(c[0][2], c[1][2], c[2][2], x, y),
        255,
    )
}

// The sixteen pixels of a planar block, row by row.
pub fn planar_block(d: &[u8]) -> [u32; 16]
    requires { 8 ≤ length d.now }
    ensures { result ≡ tile (λ d x y. planar_pixel_lem (planar_bases_lem d) x y) d.entry.now }
{
    let c = planar_bases(d);
    let mut out = [0u32; 16];
    for i in 0..16 {
        out[i] = planar_pixel(c, (i % 4) as u8, (i / 4) as u8);
    }
    out
}
