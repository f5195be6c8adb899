// What eight bytes of a channel hold, and the alpha half: `decode_etc2_a8_block` of src/etc/etc2.rs.
ghost use Rattle.std.specs.Prelude.{◌≡◌, [], ◌/◌, ◌%◌, ◌≤◌, ◌<◌, pos, nat_abs, ◌+ℤ◌, length, get_or};
ghost use Rattle.std.specs.Int.Signed.{mag};
ghost use Rattle.rules.specs.Notation.{byte, build, clamp as clamp_to};
ghost use Rattle.rules.specs.Channels.{alpha_steps_lem, alpha_byte, with_alpha};
ghost use Rattle.laws.specs.Painted.{Painted};
ghost use Rattle.etc_alpha.specs.channel.Alphas.{eight_alphas_lem};

use super::picks;
use pixel::color;
use tables::products;

// A row of the table of steps, in the type that sums are made in. The table is lent: a function that names it stores all of it.
pub fn steps_in(table: &[[i8; 8]; 16], row: usize) -> [i16; 8]
    requires { (row < 16) × (table.now ≡ alpha_steps_lem) }
    ensures { result ≡ get_or alpha_steps_lem row [] }
{
    let mut out = [0i16; 8];
    for i in 0..8 {
        out[i] = i16::from(table[row][i]);
    }
    out
}

// The base moved by a product of multiplier and step, clamped to a byte.
fn alpha(base: u8, product: i16) -> u32
    requires { mag product < 256 }
    ensures { (result ≡ clamp_to 255 (pos base +ℤ product)) × (result < 256) }
{
    color::clamp(i16::from(base) + product)
}

// The eight alphas that the pixels of a block pick from, of its base and its byte of multiplier and row. Nothing is multiplied by the
// multiplier: the eight products of the row are looked up.
pub fn eight_alphas(base: u8, b: u8) -> [i16; 8]
    ensures { result ≡ eight_alphas_lem base b }
{
    let products = products::products_of(b);
    let mut eight = [0i16; 8];
    for i in 0..8 {
        eight[i] = alpha(base, products[i]) as i16;
    }
    eight
}

// A pixel with its top byte replaced; the colour stays.
fn topped(pixel: u32, alpha: i16) -> u32
    requires { (alpha ≡ pos (nat_abs alpha)) × (nat_abs alpha < 256) }
    ensures { result ≡ with_alpha pixel (nat_abs alpha) }
{
    alpha as u32 * 0x1000000 + pixel % 0x1000000
}

// The pixels with their top bytes replaced by the alpha half, whose eight alphas are made already. It has one caller, a loop over
// blocks, so that it stands in that loop; the alpha half alone goes by `a8_over`.
pub fn a8_onto(d: &[u8], eight: [i16; 8], px: [u32; 16]) -> [u32; 16]
    requires { (8 ≤ length d.now) × (eight ≡ eight_alphas_lem (byte d.now 0) (byte d.now 1)) }
    ensures { result ≡ build 16 (λ k. with_alpha (get_or px k 0) (alpha_byte d.now (k % 4) (k / 4))) }
{
    let alphas = picks::picked(d, eight);
    let mut out = px;
    for i in 0..16 {
        out[i] = topped(px[i], alphas[i]);
    }
    out
}

// The same of the elements 0 to 15 of a lent image; the others keep their value.
pub fn a8_over(d: &[u8], image: &mut [u32])
    requires { (8 ≤ length d.now) × (16 ≤ length image.old) }
    ensures { Painted (λ k. k < 16)
        (λ k. with_alpha (get_or image.old k 0) (alpha_byte d.now (k % 4) (k / 4)))
        image.old image.new }
{
    let alphas = picks::picked(d, eight_alphas(d[0], d[1]));
    for i in 0..16 {
        image[i] = topped(image[i], alphas[i]);
    }
}
