// Sixteen elements put in their places, pixels or 16-bit numbers: a tile of a picture, clipped at its right and lower edge. A tile is
// written row by row, each row through its piece of the image. After `copy_block_buffer` of src/color.rs.
ghost use Rattle.std.specs.Prelude.{◌≡◌, ◌+◌, ◌*◌, ◌<◌, ◌≤◌, length};
ghost use Rattle.laws.specs.Painted.{PaintedOver};
ghost use Rattle.pixel.specs.place.Tile.{InPiece, Room, PaintsTile, shown as shown_of, in_row};

use super::fill;
use rules::Picture;

// Paints row i of a tile in column bx of tiles as row y of the picture: its n elements, which are one piece of the image.
fn place_row<T: Copy>(
    tile: [T; 16],
    i: usize,
    bx: usize,
    y: usize,
    n: usize,
    pic: Picture,
    image: &mut [T],
)
    requires { (i < 4) × (y < pic.height) × (bx * 4 < pic.width) × (n ≡ shown_of pic.width bx) × Room pic (length image.old) }
    ensures { (z : T) → PaintedOver z (InPiece pic bx y) (in_row z pic tile i) image.old image.new }
{
    let at = y * pic.pitch + bx * 4;
    let end = at + n;
    fill::fill(tile, i * 4, &mut image[at..end]);
}

// How many columns (or rows) of tile b a picture has that is so wide (or high).
fn shown(side: usize, b: usize) -> usize
    requires { b < 0x100000 }
    ensures { result ≡ shown_of side b }
{
    let at = b * 4;
    if at + 4 <= side {
        4
    } else if at < side {
        side - at
    } else {
        0
    }
}

// Paints the tile in column bx and row by of tiles, of which the picture has m rows of n elements.
fn place_rows<T: Copy>(
    tile: [T; 16],
    bx: usize,
    by: usize,
    n: usize,
    m: usize,
    pic: Picture,
    image: &mut [T],
)
    requires bx_bound { (bx * 4 < pic.width) × Room pic (length image.old) }
    requires n_value { (n ≡ shown_of pic.width bx) × (m ≡ shown_of pic.height by) }
    ensures { PaintsTile tile pic bx by image.old image.new }
{
    for i in 0..m {
        place_row(tile, i, bx, by * 4 + i, n, pic, image);
    }
}

// Paints a tile that the picture has whole.
pub fn place_whole<T: Copy>(tile: [T; 16], bx: usize, by: usize, pic: Picture, image: &mut [T])
    requires { (bx * 4 + 4 ≤ pic.width) × (by * 4 + 4 ≤ pic.height) × Room pic (length image.old) }
    ensures { PaintsTile tile pic bx by image.old image.new }
{
    place_rows(tile, bx, by, 4, 4, pic, image);
}

// Paints the tile in column bx and row by of tiles: every element of it that the picture has, and no other.
pub fn place<T: Copy>(tile: [T; 16], bx: usize, by: usize, pic: Picture, image: &mut [T])
    requires { (bx < 0x100000) × (by < 0x100000) × Room pic (length image.old) }
    ensures { PaintsTile tile pic bx by image.old image.new }
{
    if pic.width <= bx * 4 {
        return;
    }
    place_rows(
        tile,
        bx,
        by,
        shown(pic.width, bx),
        shown(pic.height, by),
        pic,
        image,
    );
}
