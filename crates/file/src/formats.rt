// What the containers share: their tables of formats, and numbers in a file's own byte order.
ghost use Rattle.std.specs.Prelude.{◌≡◌, ◌+◌, ◌<◌, ◌≤◌, length};
ghost use Rattle.numbers.specs.Numbers.{little};
ghost use Rattle.rules.specs.FileFormats.{format_at_lem, known, known_flat, word32, has4 as has_four, one_at_least_lem, is_flat_lem};

use rules::Format;

// The format of a number; a number that no format has is the first one's.
#[tactic(auto, using(sheet::proofs::Formats::by_any_number))]
pub fn format_at(n: usize) -> Format
    ensures { result ≡ format_at_lem n }
{
    Format::try_from(n).unwrap_or(Format::Etc1)
}

// What a number stands for in a table of formats, by the first row that has it: the format, and whether its colours are sRGB. A row is
// the container's number and these two. Each of the six tables has a function of its own that calls this: tried with the table named in the
// caller, and goals of the headers stayed open.
pub(crate) fn known_row(table: &[(usize, Format, bool)], number: usize) -> Option<(Format, bool)>
    ensures { result ≡ known table.now number }
{
    for &(row, format, srgb) in table {
        if row == number {
            return Some((format, srgb));
        }
    }
    None
}

// The same for a table that is a flat list, three numbers to a row: the container's number, the format's number, and 1 where the colours
// are sRGB. The numbers may be any. The library's own tables are lists of rows, so that only other crates call this.
pub fn known_in(table: &[usize], number: usize) -> Option<(usize, usize)>
    ensures { result ≡ known_flat table.now number }
{
    for row in 0..table.len() / 3 {
        let at = row * 3;
        if table[at] == number {
            return Some((table[at + 1], table[at + 2]));
        }
    }
    None
}

// The four bytes at a place, in a file's own order.
#[tactic(auto, unfolding(rules::specs::FileFormats::word32))]
pub fn word(order: bool, d: &[u8], at: usize) -> usize
    requires { at + 4 ≤ length d.now }
    ensures { (result ≡ word32 order d.now at) × (result < 0x100000000) }
{
    if order {
        numbers::big4(d, at)
    } else {
        numbers::little4(d, at)
    }
}

// Whether the four bytes at a place are there, and are these.
pub fn has4(d: &[u8], at: usize, number: usize) -> bool
    requires { at < 0x8000000000000000 }
    ensures { result ≡ has_four d.now at number }
{
    at + 4 <= d.len() && numbers::big4(d, at) == number
}

// A number of levels: 0 tells of one.
pub fn one_at_least(n: usize) -> usize
    ensures { result ≡ one_at_least_lem n }
{
    n.max(1)
}

// Whether a picture is neither a volume, nor an array, nor a cube.
pub fn is_flat(depth: usize, layers: usize, faces: usize) -> bool
    ensures { result ≡ is_flat_lem depth layers faces }
{
    depth <= 1 && layers <= 1 && faces <= 1
}

// The eight bytes at a place, the least first.
#[tactic(auto, using(crate::proofs::Words::eight_bytes))]
pub fn little8(d: &[u8], at: usize) -> usize
    requires { at + 8 ≤ length d.now }
    ensures { result ≡ little 8 at d.now }
{
    usize::from_le_bytes([
        d[at],
        d[at + 1],
        d[at + 2],
        d[at + 3],
        d[at + 4],
        d[at + 5],
        d[at + 6],
        d[at + 7],
    ])
}
