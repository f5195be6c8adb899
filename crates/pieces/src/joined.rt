// Blocks whose bytes are kept ones followed by new ones, painted in their places: the block that is in both, and those after it.
ghost use Rattle.std.specs.Prelude.{◌+◌, ◌-◌, ◌*◌, ◌<◌, ◌≤◌, length};
ghost use Rattle.rules.specs.Places.{blocks};
ghost use Rattle.rules.specs.Answers.{limit};
ghost use Rattle.rules.specs.Formats.{size_of};
ghost use Rattle.pixel.specs.place.Tile.{Room};
ghost use Rattle.blocks.specs.Run.{PaintsRun};
ghost use Rattle.pieces.specs.Arrived.{all_of};

use super::kept::Arrived;
use picture::paint;
use rules::{Format, Picture};

// Paints the blocks from number first to last - 1, whose bytes have arrived: every pixel of them, and no other element.
pub fn paint_joined(
    f: Format,
    arrived: &Arrived,
    pic: Picture,
    first: usize,
    last: usize,
    image: &mut [u32],
)
    requires width_le_limit { (pic.width ≤ limit) × (pic.height ≤ limit) × (first ≤ last) × (last ≤ blocks pic)
        × Room pic (length image.old) }
    requires held_bound { (arrived.now.held < size_of f)
        × ((last - first) * size_of f ≤ arrived.now.held + length arrived.now.bytes.now) }
    ensures { PaintsRun f (all_of arrived.now) pic first last image.old image.new }
{
    if first == last {
        return;
    }
    if arrived.held == 0 {
        paint::paint(f, arrived.bytes, pic, first, last, image);
        return;
    }
    let from = checks::size(f) - arrived.held;
    let second = first + 1;
    paint::paint(f, &arrived.first_block(), pic, first, second, image);
    paint::paint(f, &arrived.bytes[from..], pic, second, last, image);
}
