// Colour plus step, four colours for each half of a block, and the pick of one of them for each pixel: what ETC1 and every
// kind of ETC2 block but planar share. Colours are made first and picked then, since sixteen sums and clamps take twice as long.
ghost use Rattle.std.specs.Prelude.{◌≡◌, ◌*◌, ◌<◌, ◌≤◌, [], ◌∷◌, length, pos, ◌+ℤ◌, slice_index, slice_index_or};
ghost use Rattle.std.specs.Int.Signed.{mag};
ghost use Rattle.rules.specs.Notation.{build, clamp, minus, bit};
ghost use Rattle.etc_colour.specs.shade.Pick.{second_half_lem, number_at, taken};
ghost use Rattle.etc_colour.specs.shade.Tone.{shaded_with, alphas_where_lem, toned, Steps};

use pixel::color;

// A channel with a step, clamped to a byte. A step of -512 leaves nothing of it.
fn stepped(channel: u8, step: i16) -> u32
    requires { mag step < 1024 }
    ensures { (result ≡ clamp 255 (pos channel +ℤ step)) × (result < 256) × (step ≡ minus 512 → result ≡ 0) }
{
    color::clamp(i16::from(channel) + step)
}

// A base colour with a step, and an alpha.
fn applicate_color(c: [u8; 3], step: i16, alpha: u32) -> u32
    requires { (mag step < 1024) × (alpha < 256) }
    ensures { (result ≡ shaded_with alpha c step) × (step ≡ minus 512 → alpha ≡ 0 → result ≡ 0) }
{
    color::color(
        stepped(c[0], step),
        stepped(c[1], step),
        stepped(c[2], step),
        alpha,
    )
}

// The alpha of each index: of a block that is not opaque, index 2 is transparent.
fn alphas_where(opaque: bool) -> [u32; 4]
    ensures { result ≡ alphas_where_lem opaque }
{
    if opaque { [255; 4] } else { [255, 255, 0, 255] }
}

// Four base colours, each with its step: the one way in which a half, T and H make their colours. Where a block is not opaque, index 2 is
// transparent. That is told by its step and its alpha and not by a choice, so that the compiler makes four colours at once. The steps are
// lent, so that it loads four at once too: a row that is copied out of the table is taken apart.
pub fn four_colours(bases: [[u8; 3]; 4], steps: &[i16; 4], opaque: bool) -> [u32; 4]
    requires { Steps opaque steps.now }
    ensures { result ≡ build 4 (λ k. toned opaque k (slice_index_or bases k []) (slice_index_or steps.now k (pos 0))) }
{
    let alphas = alphas_where(opaque);
    let mut colours = [0u32; 4];
    for i in 0..4 {
        colours[i] = applicate_color(bases[i], steps[i], alphas[i]);
    }
    colours
}

// The colours of the first half, and then those of the second. Written out, since no method joins two arrays into a third.
pub fn joined(a: [u32; 4], b: [u32; 4]) -> [u32; 8]
    ensures { result ≡ slice_index a 0 ∷ slice_index a 1 ∷ slice_index a 2 ∷ slice_index a 3 ∷ slice_index b 0 ∷ slice_index b 1
        ∷ slice_index b 2 ∷ slice_index b 3 ∷ [] }
{
    [a[0], a[1], a[2], a[3], b[0], b[1], b[2], b[3]]
}

// A number where a bit of a word is set, and 0 where it is not.
fn where_set(word: u16, n: u16, value: u16) -> u16
    requires { (n < 16) × (value < 8) }
    ensures { (result ≡ bit n word * value) × (result < 8) }
{
    if (word >> n) % 2 == 1 { value } else { 0 }
}

// The pixels i = 4x + y of the second half, a bit each.
fn second_half(flip: bool) -> u16
    ensures { result ≡ second_half_lem flip }
{
    if flip { 0xCCCC } else { 0xFF00 }
}

// Which of eight colours each pixel takes, row by row: four for its half, two for its high bit and one for its low bit. The bits of all
// pixels are tested at once, since each turn is the same but for the bit's number.
fn numbers(d: &[u8]) -> [u16; 16]
    requires { 8 ≤ length d.now }
    ensures { result ≡ build 16 (number_at d.now) }
{
    let half = second_half(d[3] % 2 == 1);
    let high = u16::from_be_bytes([d[4], d[5]]);
    let low = u16::from_be_bytes([d[6], d[7]]);
    let mut out = [0u16; 16];
    for k in 0..16 {
        let n = k % 4 * 4 + k / 4;
        out[usize::from(k)] = where_set(half, n, 4) + where_set(high, n, 2) + where_set(low, n, 1);
    }
    out
}

// The colour of each pixel, row by row.
pub fn picked(d: &[u8], colours: [u32; 8]) -> [u32; 16]
    requires { 8 ≤ length d.now }
    ensures { result ≡ build 16 (taken d.now colours) }
{
    let number = numbers(d);
    let mut out = [0u32; 16];
    for i in 0..16 {
        out[i] = colours[usize::from(number[i])];
    }
    out
}
