// The tables of src/etc/consts.rs. Each is handed out whole by a function whose promise is its rule; a caller binds it to a
// local before a loop and looks it up there.
ghost use Rattle.std.specs.Prelude.{◌≡◌};
ghost use Rattle.rules.specs.Channels.{alpha_steps_lem};
ghost use Rattle.rules.specs.Modes.{distances as distance_table};
ghost use Rattle.tables.specs.consts.Tables.{signed_steps, write_order_lem};

// Without the opaque bit, and then with it. A step of -512 takes every channel to 0: index 2 is transparent there.
const ETC1_MODIFIER_TABLE: [[i16; 4]; 16] = [
    [0, 8, -512, -8],
    [0, 17, -512, -17],
    [0, 29, -512, -29],
    [0, 42, -512, -42],
    [0, 60, -512, -60],
    [0, 80, -512, -80],
    [0, 106, -512, -106],
    [0, 183, -512, -183],
    [2, 8, -2, -8],
    [5, 17, -5, -17],
    [9, 29, -9, -29],
    [13, 42, -13, -42],
    [18, 60, -18, -60],
    [24, 80, -24, -80],
    [33, 106, -33, -106],
    [47, 183, -47, -183],
];

const ETC2_DISTANCE_TABLE: [u8; 8] = [3, 6, 11, 16, 23, 32, 41, 64];

const ETC2_ALPHA_MOD_TABLE: [[i8; 8]; 16] = [
    [-3, -6, -9, -15, 2, 5, 8, 14],
    [-3, -7, -10, -13, 2, 6, 9, 12],
    [-2, -5, -8, -13, 1, 4, 7, 12],
    [-2, -4, -6, -13, 1, 3, 5, 12],
    [-3, -6, -8, -12, 2, 5, 7, 11],
    [-3, -7, -9, -11, 2, 6, 8, 10],
    [-4, -7, -8, -11, 3, 6, 7, 10],
    [-3, -5, -8, -11, 2, 4, 7, 10],
    [-2, -6, -8, -10, 1, 5, 7, 9],
    [-2, -5, -8, -10, 1, 4, 7, 9],
    [-2, -4, -8, -10, 1, 3, 7, 9],
    [-2, -5, -7, -10, 1, 4, 6, 9],
    [-3, -4, -7, -10, 2, 3, 6, 9],
    [-1, -2, -3, -10, 0, 1, 2, 9],
    [-4, -6, -8, -9, 3, 5, 7, 8],
    [-3, -5, -7, -9, 2, 4, 6, 8],
];

const WRITE_ORDER_TABLE: [usize; 16] = [0, 4, 8, 12, 1, 5, 9, 13, 2, 6, 10, 14, 3, 7, 11, 15];

// The four steps of each code, at twice the high bit plus the low: the crate's two columns, and the same negated; those of a block that is
// not opaque first.
pub fn modifiers() -> [[i16; 4]; 16]
    ensures { result ≡ signed_steps }
{
    ETC1_MODIFIER_TABLE
}

// The distances of T and H.
pub fn distances() -> [u8; 8]
    ensures { result ≡ distance_table }
{
    ETC2_DISTANCE_TABLE
}

// The sixteen rows of eight alpha steps.
pub fn alpha_steps() -> [[i8; 8]; 16]
    ensures { result ≡ alpha_steps_lem }
{
    ETC2_ALPHA_MOD_TABLE
}

// The place, row by row, of pixel i = 4x + y.
pub fn write_order() -> [usize; 16]
    ensures { result ≡ write_order_lem }
{
    WRITE_ORDER_TABLE
}
