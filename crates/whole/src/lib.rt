// All eleven bits of EAC R and RG, as 16-bit numbers in a lent image: the checks, then every block in its place. A picture with two numbers
// to a pixel is a picture of numbers, twice as wide with twice the pitch, in which a block has two tiles beside each other.
#![tactic(auto)]

mod scale;

ghost use Rattle.std.specs.Prelude.{◌≡◌, ◌+◌, ◌*◌, ◌/◌, ◌<◌, ◌≤◌, length};
ghost use Rattle.rules.specs.Notation.{build};
ghost use Rattle.rules.specs.Places.{across, blocks};
ghost use Rattle.rules.specs.Answers.{limit};
ghost use Rattle.rules.specs.Whole.{whole_picture, ReadsWhole};
ghost use Rattle.checks.specs.Passed.{Passed};
ghost use Rattle.pixel.specs.place.Tile.{Room, PaintsTile};
ghost use Rattle.whole.specs.Lanes.{lanes, twice, paired, Ready, HasWhole, PaintsBlock, PaintsBlocks};

use eac::values;
use pixel::place;
use rules::{Picture, Refusal};
use scale::{Scale, scale_of};
use tables::consts;

// How many numbers a pixel has: red, and green where there is one.
fn lanes_of(green: bool) -> usize
    ensures { (result ≡ lanes green) × (0 < result) × (result ≤ 2) }
{
    if green { 2 } else { 1 }
}

// One of the two tiles of a block with red and green, side by side: of each row, red and green of two pixels.
fn pairs(red: [u16; 16], green: [u16; 16], side: usize) -> [u16; 16]
    requires { side < 2 }
    ensures { result ≡ build 16 (paired red green side) }
{
    let both = [red, green];
    let mut out = [0u16; 16];
    for i in 0..16 {
        out[i] = both[i % 2][i / 4 * 4 + side * 2 + i % 4 / 2];
    }
    out
}

// The picture of numbers: twice as many columns.
fn doubled(pic: Picture) -> Picture
    requires { (pic.width ≤ limit) × (pic.pitch ≤ limit) }
    ensures { result ≡ twice pic }
{
    Picture {
        width: 2 * pic.width,
        height: pic.height,
        pitch: 2 * pic.pitch,
    }
}

// Paints a tile, which the picture has WHOLE or may lack a part of. Whole ones go by themselves, since a tile that may be clipped is
// stored to be loaded again (docs/PERFORMANCE.md).
fn put<const WHOLE: bool>(tile: [u16; 16], bx: usize, by: usize, pic: Picture, image: &mut [u16])
    requires { (bx < 0x100000) × (by < 0x100000) × Room pic (length image.old) × HasWhole WHOLE pic bx by }
    ensures { PaintsTile tile pic bx by image.old image.new }
{
    if WHOLE {
        place::place_whole(tile, bx, by, pic, image);
        return;
    }
    place::place(tile, bx, by, pic, image);
}

// Paints a block of red, in column bx and row by of blocks. The bounds of bx and by stay clauses, here and below: a loop counts the two,
// and a struct of them would owe the bounds at each turn, as its call does now.
fn paint_red<const WHOLE: bool>(
    scale: Scale,
    d: &[u8],
    bx: usize,
    by: usize,
    pic: Picture,
    image: &mut [u16],
)
    requires in_bounds { (8 ≤ length d.now) × Ready 1 pic (length image.old) }
    requires bx_bound { (bx < 0x10000) × (by < 0x10000) × HasWhole WHOLE pic bx by }
    ensures { PaintsBlock 1 scale.entry.span.signed d.now pic bx by image.old image.new }
{
    let span = scale.span;
    let base = values::middle_of(d[0], span.signed);
    let eight = eac::eight_wholes(d, base, span, scale.table);
    put::<WHOLE>(eac::eac_sixteens(d, span, eight), bx, by, pic, image);
}

// Paints a block of red and green. It is not the one above twice: both halves' numbers come before both picks, for speed, and its two tiles
// stand in a picture twice as wide.
fn paint_red_green<const WHOLE: bool>(
    scale: Scale,
    d: &[u8],
    bx: usize,
    by: usize,
    pic: Picture,
    image: &mut [u16],
)
    requires in_bounds { (16 ≤ length d.now) × Ready 2 pic (length image.old) }
    requires bx_bound { (bx < 0x10000) × (by < 0x10000) × HasWhole WHOLE pic bx by }
    ensures { PaintsBlock 2 scale.entry.span.signed d.now pic bx by image.old image.new }
{
    let span = scale.span;
    let half = &d[8..];
    let red_base = values::middle_of(d[0], span.signed);
    let green_base = values::middle_of(half[0], span.signed);
    let red_eight = eac::eight_wholes(d, red_base, span, scale.table);
    let green_eight = eac::eight_wholes(half, green_base, span, scale.table);
    let red = eac::eac_sixteens(d, span, red_eight);
    let green = eac::eac_sixteens(half, span, green_eight);
    let wide = doubled(pic);
    put::<WHOLE>(pairs(red, green, 0), 2 * bx, by, wide, image);
    put::<WHOLE>(pairs(red, green, 1), 2 * bx + 1, by, wide, image);
}

// Paints a block.
fn paint_block<const WHOLE: bool>(
    green: bool,
    scale: Scale,
    d: &[u8],
    bx: usize,
    by: usize,
    pic: Picture,
    image: &mut [u16],
)
    requires green_in_bounds { (lanes green * 8 ≤ length d.now) × Ready (lanes green) pic (length image.old) }
    requires bx_bound { (bx < 0x10000) × (by < 0x10000) × HasWhole WHOLE pic bx by }
    ensures { PaintsBlock (lanes green) scale.entry.span.signed d.now pic bx by image.old image.new }
{
    if green {
        paint_red_green::<WHOLE>(scale, d, bx, by, pic, image);
        return;
    }
    paint_red::<WHOLE>(scale, d, bx, by, pic, image);
}

// How many blocks of row by the picture has whole.
fn whole_in(pic: Picture, by: usize) -> usize
    requires { by < 0x10000 }
    ensures { (result * 4 ≤ pic.width) × (0 < result → by * 4 + 4 ≤ pic.height) }
{
    if pic.height < by * 4 + 4 {
        return 0;
    }
    pic.width / 4
}

// Paints the blocks of row by that the picture has whole: how many these are.
fn paint_whole(
    green: bool,
    scale: Scale,
    data: &[u8],
    by: usize,
    pic: Picture,
    image: &mut [u16],
) -> usize
    requires green_in_bounds { (blocks pic * (lanes green * 8) ≤ length «data».now) × (by < across pic.height) × (pic.height ≤ limit) }
    requires ready { Ready (lanes green) pic (length image.old) }
    ensures { (result ≤ across pic.width) × PaintsBlocks (lanes green) scale.entry.span.signed «data».now pic
        (by * across pic.width) (by * across pic.width + result) image.old image.new }
{
    let row = checks::across(pic.width);
    let n = whole_in(pic, by);
    let s = lanes_of(green) * 8;
    let first = by * row;
    for bx in 0..n {
        let from = (first + bx) * s;
        let end = from + s;
        paint_block::<true>(green, scale, &data[from..end], bx, by, pic, image);
    }
    n
}

// Paints the blocks of row by.
fn paint_row(green: bool, scale: Scale, data: &[u8], by: usize, pic: Picture, image: &mut [u16])
    requires green_in_bounds { (blocks pic * (lanes green * 8) ≤ length «data».now) × (by < across pic.height) × (pic.height ≤ limit) }
    requires ready { Ready (lanes green) pic (length image.old) }
    ensures { PaintsBlocks (lanes green) scale.entry.span.signed «data».now pic (by * across pic.width)
        (by * across pic.width + across pic.width) image.old image.new }
{
    let row = checks::across(pic.width);
    let s = lanes_of(green) * 8;
    let first = by * row;
    let n = paint_whole(green, scale, data, by, pic, image);
    for bx in n..row {
        let at = (first + bx) * s;
        let end = at + s;
        paint_block::<false>(green, scale, &data[at..end], bx, by, pic, image);
    }
}

// Paints the whole of a picture that has passed the checks.
fn paint(green: bool, signed: bool, data: &[u8], pic: Picture, image: &mut [u16])
    requires { Passed (lanes green * 8) pic (length «data».now) (length image.old / lanes green) }
    ensures { image.new ≡ whole_picture signed (lanes green) pic «data».now image.old }
{
    let rows = checks::across(pic.height);
    let table = consts::alpha_steps();
    let scale = scale_of(signed, &table);
    for by in 0..rows {
        paint_row(green, scale, data, by, pic, image);
    }
}

// Reads a picture of whole values: red, or red and green. The answer and every element of the image, for all inputs.
pub fn read_whole(
    green: bool,
    signed: bool,
    data: &[u8],
    pic: Picture,
    image: &mut [u16],
) -> Result<(), Refusal>
    ensures { ReadsWhole signed (lanes green) «data».now pic image.old result image.new }
{
    checks::verify(
        lanes_of(green) * 8,
        pic,
        data.len(),
        image.len() / lanes_of(green),
    )?;
    paint(green, signed, data, pic, image);
    Ok(())
}
