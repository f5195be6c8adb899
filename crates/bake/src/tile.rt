// A tile of sixteen pixels with the flip that splits it, and where each of its halves has its pixels.
ghost use Rattle.std.specs.Prelude.{◌≡◌, ◌≤◌, ◌<◌, length};
ghost use Rattle.rules.specs.Baking.{half_of, own as own_of};

// Its pixels stand row by row. With the flip 1 the upper two rows are the first half, and else the two columns on the left.
#[derive(Clone, Copy)]
pub struct Tile<'a> {
    // a number, as C gives it and a block stores it
    pub flip: usize,
    pub pixels: &'a [u32],
    pub ghost whole: { 16 ≤ length pixels.now },
}

impl<'a> Tile<'a> {
    // The half of the pixel at place k.
    pub fn half_of(self, k: usize) -> usize
        requires { k < 16 }
        ensures { (result ≡ half_of self.entry.flip k) × (result < 2) }
    {
        if self.flip == 1 { k / 4 / 2 } else { k % 4 / 2 }
    }

    // The place of pixel j of half h.
    pub fn own(self, h: usize, j: usize) -> usize
        requires { (h < 2) × (j < 8) }
        ensures { (result ≡ own_of self.entry.flip h j) × (result < 16) }
    {
        if self.flip == 1 {
            8 * h + j
        } else {
            4 * (j / 2) + 2 * h + j % 2
        }
    }
}
