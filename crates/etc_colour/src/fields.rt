// The fields of T and H blocks: their base colours, the order of H's, and the number of a distance.
ghost use Rattle.std.specs.Prelude.{◌≡◌, ◌+◌, ◌*◌, ◌<◌, [], if◌then◌else◌, slice_index_or};
ghost use Rattle.rules.specs.Notation.{bit};
ghost use Rattle.rules.specs.Modes.{not_less_lem};
ghost use Rattle.etc_colour.specs.fields.Fields.{t_fields_lem, h_fields_lem, distance_at};

use tables::consts;

// T's base colours, from bytes 0 to 3.
pub fn t_fields(a: u8, b: u8, c: u8, d: u8) -> [[u8; 3]; 3]
    ensures { result ≡ t_fields_lem a b c d }
{
    [
        [
            (4 * (a / 8 % 4) + a % 4) * 17,
            b / 16 % 16 * 17,
            b % 16 * 17,
        ],
        [c / 16 % 16 * 17, c % 16 * 17, d / 16 % 16 * 17],
        [0, 0, 0],
    ]
}

// H's base colours, from bytes 0 to 3.
pub fn h_fields(a: u8, b: u8, c: u8, d: u8) -> [[u8; 3]; 3]
    ensures { result ≡ h_fields_lem a b c d }
{
    [
        [
            a / 8 % 16 * 17,
            (2 * (a % 8) + b / 16 % 2) * 17,
            (8 * (b / 8 % 2) + 2 * (b % 4) + c / 128 % 2) * 17,
        ],
        [
            c / 8 % 16 * 17,
            (2 * (c % 8) + d / 128 % 2) * 17,
            d / 8 % 16 * 17,
        ],
        [0, 0, 0],
    ]
}

// The distance of a number below 8.
pub fn distance(n: u8) -> u8
    requires { n < 8 }
    ensures { (result ≡ distance_at n) × (result < 65) }
{
    let table = consts::distances();
    table[usize::from(n)]
}

// Whether a is not less than b, compared red, then green, then blue: the order of arrays.
fn not_less(a: [u8; 3], b: [u8; 3]) -> bool
    ensures { result ≡ not_less_lem a b }
{
    b <= a
}

// H's distance number, from its base colours and byte 3.
pub fn h_number(c: [[u8; 3]; 3], b: u8) -> u8
    ensures { (result ≡ 4 * bit 2 b + 2 * bit 0 b + (if not_less_lem (slice_index_or c 0 []) (slice_index_or c 1 []) then 1 else 0))
        × (result < 8) }
{
    4 * (b / 4 % 2) + 2 * (b % 2) + u8::from(not_less(c[0], c[1]))
}
