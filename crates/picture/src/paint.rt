// The blocks of a picture painted one after another, each in its place: those of a row that are whole in one run, and each that the
// picture's edge clips by itself. After `block_decoder!` of src/macros.rs.
// `pic` and `image` are apart, as README and docs/API.md have them: a struct that lends the image would be opened at each call.
ghost use Rattle.std.specs.Prelude.{ℕ, ◌+◌, ◌-◌, ◌*◌, ◌<◌, ◌≤◌, length};
ghost use Rattle.rules.specs.Places.{across, blocks};
ghost use Rattle.rules.specs.Answers.{limit};
ghost use Rattle.rules.specs.Formats.{size_of, shows_of};
ghost use Rattle.pixel.specs.place.Tile.{Room};
ghost use Rattle.blocks.specs.Run.{Stands, PaintsRow, PaintsRun};

use pixel::place;
use rules::{Format, Picture};

// The column and the row in which a block stands. The bound of the row stands with the functions: as a ghost field it would have to be
// proved again at each turn of the loop of `paint`, whose invariant would see the fields by position.
#[derive(Clone, Copy)]
struct Spot {
    bx: usize,
    by: usize,
}

impl Spot {
    // Where the block stands that follows n others, beginning with the one here, in rows of so many blocks.
    fn after(self, n: usize, row: usize) -> Spot
        requires { (self.bx + n ≤ row) × (row ≤ 0x10000) × (self.by < 0x10000) }
        ensures { (b : ℕ) → Stands row b self.bx self.by → Stands row (b + n) result.bx result.by }
    {
        let right = self.bx + n;
        if right < row {
            Spot { bx: right, ..self }
        } else {
            Spot {
                bx: 0,
                by: self.by + 1,
            }
        }
    }

    // How many of the blocks that are left, the one here and those beside it, the picture has whole.
    fn whole(self, left: usize, pic: Picture) -> usize
        requires { self.by < 0x10000 }
        ensures { (result ≤ left) × (0 < result → ((self.bx + result) * 4 ≤ pic.width) × (self.by * 4 + 4 ≤ pic.height)) }
    {
        if pic.height < self.by * 4 + 4 {
            return 0;
        }
        let columns = pic.width / 4;
        columns.saturating_sub(self.bx).min(left)
    }
}

// Paints the block at a spot, with which the data begins, and of those that are left the ones beside it that are whole as it is: how
// many these are.
fn paint_some(
    f: Format,
    data: &[u8],
    spot: Spot,
    left: usize,
    pic: Picture,
    image: &mut [u32],
) -> usize
    requires left_nonzero { (0 < left) × (left * size_of f ≤ length «data».now) × (pic.width ≤ limit) × Room pic (length image.old) }
    requires bx_bound { (spot.bx < across pic.width) × (spot.by < 0x10000) }
    ensures { (0 < result) × (result ≤ left) × (spot.bx + result ≤ across pic.width)
        × PaintsRow (shows_of f) (size_of f) «data».now pic spot.bx spot.by result image.old image.new }
{
    let n = spot.whole(left, pic);
    if n == 0 {
        let tile = blocks::block_at(f, data, 0);
        place::place(tile, spot.bx, spot.by, pic, image);
        return 1;
    }
    blocks::run(f, data, n, spot.bx, spot.by, pic, image);
    n
}

// Paints the blocks from number first to last - 1, of which the data begins with the first: every pixel of them, and no other
// element.
pub fn paint(f: Format, data: &[u8], pic: Picture, first: usize, last: usize, image: &mut [u32])
    requires width_le_limit { (pic.width ≤ limit) × (pic.height ≤ limit) × (first ≤ last) × (last ≤ blocks pic) }
    requires room { Room pic (length image.old) × ((last - first) * size_of f ≤ length «data».now) }
    ensures { PaintsRun f «data».now pic first last image.old image.new }
{
    let row = checks::across(pic.width);
    if row == 0 {
        return;
    }
    let s = checks::size(f);
    let mut spot = Spot {
        bx: first % row,
        by: first / row,
    };
    let mut b = first;
    // by hand, since a turn paints a run of blocks and goes on by so many
    while b < last {
        let from = (b - first) * s;
        let n = paint_some(f, &data[from..], spot, last - b, pic, image);
        spot = spot.after(n, row);
        b += n;
    }
}
