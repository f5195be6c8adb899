// The colour blocks of src/etc/etc1.rs and src/etc/etc2.rs. ETC1, RGB and RGBA1 are one function: they differ in how the kind is told
// and in what the opaque bit does. It has one caller, a loop over blocks, so that all of it stands in that loop (docs/PERFORMANCE.md).
ghost use Rattle.std.specs.Prelude.{◌≡◌, ◌≤◌, false, length};
ghost use Rattle.rules.specs.Places.{tile};
ghost use Rattle.rules.specs.Modes.{is_planar};
ghost use Rattle.tables.specs.consts.Tables.{signed_steps};
ghost use Rattle.etc_colour.specs.shade.Pick.{eight};
ghost use Rattle.etc_colour.specs.shade.Tone.{punched};
ghost use Rattle.etc_colour.specs.etc2.Colours.{steps_where, half_bases, halves_colours, made_colours, made_pixel};
ghost use Rattle.etc_colour.specs.etc2.Colours.{etc1_kind_lem, kind_in_lem, opaque_in_lem, colour_pixel};

use super::{etc1, modes, planar, shade};
use rules::Kind;

// The base colours of a block of two halves.
fn bases_of(d: &[u8], kind: Kind) -> [[u8; 3]; 3]
    requires { 8 ≤ length d.now }
    ensures { result ≡ half_bases kind d.now }
{
    match kind {
        Kind::Individual => etc1::individual_bases(d),
        _ => etc1::differential_bases(d),
    }
}

// The colours of both halves. The table of steps is lent: a function that names it copies all of it.
fn both_halves(d: &[u8], kind: Kind, opaque: bool, table: &[[i16; 4]; 16]) -> [u32; 8]
    requires { (8 ≤ length d.now) × (table.now ≡ signed_steps) }
    ensures { result ≡ eight (halves_colours opaque kind d.now) }
{
    let from = 8 * usize::from(opaque);
    let first = from + usize::from(d[3] / 32 % 8);
    let second = from + usize::from(d[3] / 4 % 8);
    etc1::both_halves(bases_of(d, kind), &table[first], &table[second], opaque)
}

// The eight colours of a block that is not planar.
fn colours_of(d: &[u8], kind: Kind, opaque: bool, table: &[[i16; 4]; 16]) -> [u32; 8]
    requires { (8 ≤ length d.now) × (table.now ≡ signed_steps) × (is_planar kind ≡ false) }
    ensures { result ≡ eight (λ h. punched opaque (made_colours (steps_where opaque) kind d.now h)) }
{
    match kind {
        Kind::T => modes::t_colours(d, opaque),
        Kind::H => modes::h_colours(d, opaque),
        _ => both_halves(d, kind, opaque, table),
    }
}

// The sixteen pixels of a colour block of a kind, row by row.
fn made_block(d: &[u8], kind: Kind, opaque: bool, table: &[[i16; 4]; 16]) -> [u32; 16]
    requires { (8 ≤ length d.now) × (table.now ≡ signed_steps) }
    ensures { result ≡ tile (made_pixel kind opaque) d.now }
{
    match kind {
        Kind::Planar => planar::planar_block(d),
        _ => shade::picked(d, colours_of(d, kind, opaque, table)),
    }
}

// The kind of an ETC1 block, whose sums wrap: its difference bit decides.
fn etc1_kind(d: &[u8]) -> Kind
    requires { 8 ≤ length d.now }
    ensures { result ≡ etc1_kind_lem d.now }
{
    if d[3] / 2 % 2 == 1 {
        Kind::Differential
    } else {
        Kind::Individual
    }
}

// The kind of a block of ETC1, of RGBA1, whose difference bit is the opaque bit, or of RGB.
fn kind_in(plain: bool, punch: bool, d: &[u8]) -> Kind
    requires { 8 ≤ length d.now }
    ensures { result ≡ kind_in_lem plain punch d.now }
{
    if punch {
        kinds::kind_by_sums(d)
    } else if plain {
        etc1_kind(d)
    } else {
        kinds::kind_of(d)
    }
}

// Whether a block is opaque: only RGBA1 has others.
fn opaque_in(punch: bool, d: &[u8]) -> bool
    requires { 8 ≤ length d.now }
    ensures { result ≡ opaque_in_lem punch d.now }
{
    (d[3] / 2 % 2 == 1) | !punch
}

// The sixteen pixels of a block of ETC1, of RGBA1 or of RGB, row by row. Two flags say which and no enum, since `colour_pixel`, by which
// the pixels are promised, takes them; and the bytes and the table are lent as they are, since a narrower type would ask more of callers.
pub fn colour_block(plain: bool, punch: bool, d: &[u8], table: &[[i16; 4]; 16]) -> [u32; 16]
    requires { (8 ≤ length d.now) × (table.now ≡ signed_steps) }
    ensures { result ≡ tile (colour_pixel plain punch) d.now }
{
    made_block(d, kind_in(plain, punch, d), opaque_in(punch, d), table)
}
