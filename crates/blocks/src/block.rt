// Blocks that stand beside each other in a picture, painted one after another.
ghost use Rattle.std.specs.Prelude.{◌≡◌, ℕ, ◌*◌, ◌≤◌, length};
ghost use Rattle.rules.specs.Pixel.{Shows};
ghost use Rattle.rules.specs.Places.{tile};
ghost use Rattle.blocks.specs.Run.{Whole, PaintsRow};

use pixel::place;
use rules::Picture;

// Where a block stands: column bx and row by of blocks of a picture.
#[derive(Clone, Copy)]
pub struct Spot {
    pub bx: usize,
    pub by: usize,
    pub pic: Picture,
}

// Paints n blocks beside each other, the first of them at the spot, of so many bytes each, whose pixels a closure makes.
pub fn run_blocks<F: Fn(&[u8]) -> [u32; 16]>(
    size: usize,
    pixels: F,
    data: &[u8],
    n: usize,
    at: Spot,
    image: &mut [u32],
)
    requires whole { (n * size ≤ length «data».now) × Whole at.pic at.bx at.by n (length image.old) }
    requires callable { (d : _) → size ≤ length d.now → F.pre pixels d }
    ensures { (shows : Shows) → ((d : _) (px : _) → size ≤ length d.now → F.post pixels d px → px ≡ tile shows d.now)
        → PaintsRow shows size «data».now at.pic at.bx at.by n image.old image.new }
{
    for i in 0..n {
        let from = i * size;
        let end = from + size;
        place::place_whole(pixels(&data[from..end]), at.bx + i, at.by, at.pic, image);
    }
}
