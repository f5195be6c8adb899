// The fields of a channel's block, and the pick of one of eight numbers for each pixel by its three-bit index.
ghost use Rattle.std.specs.Prelude.{◌≡◌, ℕ, ◌≤◌, ◌<◌, pos, length, get_or};
ghost use Rattle.std.specs.Int.Signed.{mag};
ghost use Rattle.rules.specs.Notation.{build, bits};
ghost use Rattle.rules.specs.Channels.{index_word_lem};
ghost use Rattle.etc_alpha.specs.picks.Picks.{pick_at};

use tables::consts;

// Bytes 2 to 7, read big-endian: the indices, three bits to a pixel. The bytes are lent as they are, since `&[u8; 8]` would ask more of
// callers of `a8_over`.
fn index_word(d: &[u8]) -> u64
    requires { 8 ≤ length d.now }
    ensures { result ≡ index_word_lem d.now }
{
    let high = u16::from_be_bytes([d[2], d[3]]);
    let low = u32::from_be_bytes([d[4], d[5], d[6], d[7]]);
    u64::from(high) * 0x100000000 + u64::from(low)
}

// The multiplier: the high nibble of byte 1. EAC multiplies by it; alpha has a table of products.
pub fn multiplier_of(b: u8) -> u8
    ensures { (result ≡ bits 7 4 b) × (result < 16) }
{
    b / 16
}

// The row of the table of steps: the low nibble of byte 1.
pub fn row_of(b: u8) -> usize
    ensures { (result ≡ bits 3 0 b) × (result < 16) }
{
    usize::from(b % 16)
}

// The number that each pixel's index picks of eight, row by row. The last pixel's index stands lowest in the word, so the loop
// goes backwards.
pub fn picked(d: &[u8], eight: [i16; 8]) -> [i16; 16]
    requires { (8 ≤ length d.now) × ((j : ℕ) → j < 8 → mag (get_or eight j (pos 0)) < 2048) }
    ensures { result ≡ build 16 (pick_at d.now eight) }
{
    let order = consts::write_order();
    let mut l = index_word(d);
    let mut out = [0i16; 16];
    for i in 0..16 {
        out[order[15 - i]] = eight[(l % 8) as usize];
        l = l / 8;
    }
    out
}
