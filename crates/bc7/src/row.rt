// The modes of BC7: the eight rows of its table, and the bounds that each of them keeps.
ghost use Rattle.std.specs.Prelude.{◌≡◌, cond, ◌*◌, ◌<◌, ◌≤◌, eqb};
ghost use Rattle.rules.specs.Bc7.{mode_at};
ghost use Rattle.bc7.specs.row.Bounds.{Sane};

use rules::Mode;

static MODES: [Mode; 8] = [
    Mode {
        subsets: 3,
        partition: 4,
        rotation: 0,
        selection: 0,
        colour: 4,
        alpha: 0,
        own: 1,
        shared: 0,
        index: 3,
        second: 0,
    },
    Mode {
        subsets: 2,
        partition: 6,
        rotation: 0,
        selection: 0,
        colour: 6,
        alpha: 0,
        own: 0,
        shared: 1,
        index: 3,
        second: 0,
    },
    Mode {
        subsets: 3,
        partition: 6,
        rotation: 0,
        selection: 0,
        colour: 5,
        alpha: 0,
        own: 0,
        shared: 0,
        index: 2,
        second: 0,
    },
    Mode {
        subsets: 2,
        partition: 6,
        rotation: 0,
        selection: 0,
        colour: 7,
        alpha: 0,
        own: 1,
        shared: 0,
        index: 2,
        second: 0,
    },
    Mode {
        subsets: 1,
        partition: 0,
        rotation: 2,
        selection: 1,
        colour: 5,
        alpha: 6,
        own: 0,
        shared: 0,
        index: 2,
        second: 3,
    },
    Mode {
        subsets: 1,
        partition: 0,
        rotation: 2,
        selection: 0,
        colour: 7,
        alpha: 8,
        own: 0,
        shared: 0,
        index: 2,
        second: 2,
    },
    Mode {
        subsets: 1,
        partition: 0,
        rotation: 0,
        selection: 0,
        colour: 7,
        alpha: 7,
        own: 1,
        shared: 0,
        index: 4,
        second: 0,
    },
    Mode {
        subsets: 2,
        partition: 6,
        rotation: 0,
        selection: 0,
        colour: 5,
        alpha: 5,
        own: 1,
        shared: 0,
        index: 2,
        second: 0,
    },
];

// A mode within the bounds of the table.
#[derive(Clone, Copy)]
pub struct Row {
    pub mode: Mode,
    ghost sane: { Sane mode },
}

impl Row {
    // The row of mode m. A mode is a number with its bound, here and in its two other readers, since `mode_at` and `pixel_in`
    // (crates/rules) take it, and a struct around it would be opened at once in each.
    pub fn of_mode(m: usize) -> Row
        requires { m < 8 }
        ensures { result.mode ≡ mode_at m }
    {
        Row { mode: MODES[m] }
    }

    // How many p-bits there are, where there are any.
    pub fn p_count(self) -> usize
        ensures { (result ≡ cond (eqb self.mode.shared 0) (2 * self.mode.subsets) self.mode.subsets) × (result ≤ 6) }
    {
        if self.mode.shared == 0 {
            return 2 * self.mode.subsets;
        }
        self.mode.subsets
    }
}
