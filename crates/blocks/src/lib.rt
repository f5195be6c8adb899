// The formats: blocks that stand beside each other in a picture, painted one after another, and the sixteen pixels of one block. Each
// kind of block has one caller, the loop of its own instance of `run_blocks`, so that its pixels go from the registers into the image
// (docs/PERFORMANCE.md); one block alone is a picture of 4 by 4.
#![tactic(auto)]

mod block;

ghost use Rattle.std.specs.Prelude.{◌≡◌, true, false, ℕ, ◌+◌, ◌*◌, ◌≤◌, length};
ghost use Rattle.rules.specs.Notation.{byte};
ghost use Rattle.rules.specs.Places.{tile, bytes_of};
ghost use Rattle.rules.specs.Channels.{alpha_steps_lem, red_pixel, red_green_pixel};
ghost use Rattle.rules.specs.Desktop.{bc1_pixel};
ghost use Rattle.rules.specs.Rgtc.{bc4_pixel, bc5_pixel};
ghost use Rattle.rules.specs.Formats.{size_of, shows_of};
ghost use Rattle.tables.specs.consts.Tables.{signed_steps};
ghost use Rattle.etc_alpha.specs.channel.Alphas.{eight_alphas_lem};
ghost use Rattle.blocks.specs.Run.{Whole, PaintsRow};
ghost use Rattle.blocks.specs.Colour.{colour_size_lem, colours_from_lem, colour_shows};

use bc::{bc1, bc2, bc3, rgtc};
use block::{Spot, run_blocks};
use eac::values;
use etc_alpha::channel;
use etc_colour::etc2;
use rules::{Format, Picture};
use tables::consts;

// How many bytes a block of colours has, with an alpha half before them and without.
fn colour_size(alpha: bool) -> usize
    ensures { (result ≡ colour_size_lem alpha) × (result ≤ 16) }
{
    if alpha { 16 } else { 8 }
}

// Where its colours begin.
fn colours_from(alpha: bool) -> usize
    ensures { (result ≡ colours_from_lem alpha) × (result + 8 ≡ colour_size_lem alpha) }
{
    if alpha { 8 } else { 0 }
}

// The eight alphas of a block that has an alpha half. They are made before its colours, which stay in registers then.
fn alphas_where(alpha: bool, d: &[u8]) -> [i16; 8]
    requires { 8 ≤ length d.now }
    ensures { alpha ≡ true → result ≡ eight_alphas_lem (byte d.now 0) (byte d.now 1) }
{
    if alpha {
        channel::eight_alphas(d[0], d[1])
    } else {
        [0i16; 8]
    }
}

// The sixteen pixels of a block of ETC1, RGB, RGBA1 or RGBA8.
fn colour_block(
    plain: bool,
    punch: bool,
    alpha: bool,
    d: &[u8],
    table: &[[i16; 4]; 16],
) -> [u32; 16]
    requires { (colour_size_lem alpha ≤ length d.now) × (table.now ≡ signed_steps) }
    ensures { result ≡ tile (colour_shows plain punch alpha) d.now }
{
    let at = colours_from(alpha);
    let eight = alphas_where(alpha, d);
    let px = etc2::colour_block(plain, punch, &d[at..], table);
    if alpha {
        return channel::a8_onto(d, eight, px);
    }
    px
}

// Paints n blocks of ETC1, RGB, RGBA1 or RGBA8 beside each other. One loop serves all four, so that a block has one caller.
// The flags stay three: `etc2::colour_block` takes two of them, so an enum would be taken apart again at that call.
fn run_colour(
    plain: bool,
    punch: bool,
    alpha: bool,
    data: &[u8],
    n: usize,
    at: Spot,
    image: &mut [u32],
)
    requires { (n * colour_size_lem alpha ≤ length «data».now) × Whole at.pic at.bx at.by n (length image.old) }
    ensures { PaintsRow (colour_shows plain punch alpha) (colour_size_lem alpha) «data».now at.pic at.bx at.by n
        image.old image.new }
{
    let table = consts::modifiers();
    let size = colour_size(alpha);
    let pixels = |d: &[u8]|
        requires { (colour_size_lem alpha ≤ length d.now) × (table ≡ signed_steps) }
        ensures { result ≡ tile (colour_shows plain punch alpha) d.now }
    { colour_block(plain, punch, alpha, d, &table) };
    run_blocks(size, pixels, data, n, at, image);
}

// The functions below stay apart, as each is one call of `run_blocks` with its own closure. What each asks of the data stays a clause: the
// size of a block differs, so each arm of `run` would build another struct.

// Paints n blocks of EAC R beside each other.
fn run_red(signed: bool, data: &[u8], n: usize, at: Spot, image: &mut [u32])
    requires { (n * 8 ≤ length «data».now) × Whole at.pic at.bx at.by n (length image.old) }
    ensures { PaintsRow (red_pixel signed) 8 «data».now at.pic at.bx at.by n image.old image.new }
{
    let table = consts::alpha_steps();
    let span = values::span_of(signed);
    let pixels = |d: &[u8]|
        requires { (8 ≤ length d.now) × (table ≡ alpha_steps_lem) }
        ensures { result ≡ tile (red_pixel span.signed) d.now }
    { eac::eacr_block(d, span, &table) };
    run_blocks(8, pixels, data, n, at, image);
}

// Paints n blocks of EAC RG beside each other.
fn run_red_green(signed: bool, data: &[u8], n: usize, at: Spot, image: &mut [u32])
    requires { (n * 16 ≤ length «data».now) × Whole at.pic at.bx at.by n (length image.old) }
    ensures { PaintsRow (red_green_pixel signed) 16 «data».now at.pic at.bx at.by n image.old image.new }
{
    let table = consts::alpha_steps();
    let span = values::span_of(signed);
    let pixels = |d: &[u8]|
        requires { (16 ≤ length d.now) × (table ≡ alpha_steps_lem) }
        ensures { result ≡ tile (red_green_pixel span.signed) d.now }
    { eac::eacrg_block(d, span, &table) };
    run_blocks(16, pixels, data, n, at, image);
}

// Paints n blocks of BC1 beside each other.
fn run_bc1(alpha: bool, data: &[u8], n: usize, at: Spot, image: &mut [u32])
    requires { (n * 8 ≤ length «data».now) × Whole at.pic at.bx at.by n (length image.old) }
    ensures { PaintsRow (bc1_pixel false alpha) 8 «data».now at.pic at.bx at.by n image.old image.new }
{
    let pixels = |d: &[u8]|
        requires { 8 ≤ length d.now }
        ensures { result ≡ tile (bc1_pixel false alpha) d.now }
    { bc1::bc1_block(d, alpha) };
    run_blocks(8, pixels, data, n, at, image);
}

// Paints n blocks of BC4 beside each other.
fn run_bc4(signed: bool, data: &[u8], n: usize, at: Spot, image: &mut [u32])
    requires { (n * 8 ≤ length «data».now) × Whole at.pic at.bx at.by n (length image.old) }
    ensures { PaintsRow (bc4_pixel signed) 8 «data».now at.pic at.bx at.by n image.old image.new }
{
    let pixels = |d: &[u8]|
        requires { 8 ≤ length d.now }
        ensures { result ≡ tile (bc4_pixel signed) d.now }
    { rgtc::bc4_block(signed, d) };
    run_blocks(8, pixels, data, n, at, image);
}

// Paints n blocks of BC5 beside each other.
fn run_bc5(signed: bool, data: &[u8], n: usize, at: Spot, image: &mut [u32])
    requires { (n * 16 ≤ length «data».now) × Whole at.pic at.bx at.by n (length image.old) }
    ensures { PaintsRow (bc5_pixel signed) 16 «data».now at.pic at.bx at.by n image.old image.new }
{
    let pixels = |d: &[u8]|
        requires { 16 ≤ length d.now }
        ensures { result ≡ tile (bc5_pixel signed) d.now }
    { rgtc::bc5_block(signed, d) };
    run_blocks(16, pixels, data, n, at, image);
}

// Paints n blocks of any format beside each other, from column bx on in row by.
pub fn run(f: Format, data: &[u8], n: usize, bx: usize, by: usize, pic: Picture, image: &mut [u32])
    requires { (n * size_of f ≤ length «data».now) × Whole pic bx by n (length image.old) }
    ensures { PaintsRow (shows_of f) (size_of f) «data».now pic bx by n image.old image.new }
{
    let at = Spot { bx, by, pic };
    match f {
        Format::Etc1 => run_colour(true, false, false, data, n, at, image),
        Format::Etc2Rgb => run_colour(false, false, false, data, n, at, image),
        Format::Etc2Rgba1 => run_colour(false, true, false, data, n, at, image),
        Format::Etc2Rgba8 => run_colour(false, false, true, data, n, at, image),
        Format::EacR => run_red(false, data, n, at, image),
        Format::EacRSigned => run_red(true, data, n, at, image),
        Format::EacRg => run_red_green(false, data, n, at, image),
        Format::EacRgSigned => run_red_green(true, data, n, at, image),
        Format::Bc1 => run_bc1(false, data, n, at, image),
        Format::Bc1Alpha => run_bc1(true, data, n, at, image),
        Format::Bc3 => run_blocks(16, bc3::bc3_block, data, n, at, image),
        Format::Bc7 => run_blocks(16, bc7::bc7_block, data, n, at, image),
        Format::Bc2 => run_blocks(16, bc2::bc2_block, data, n, at, image),
        Format::Bc4 => run_bc4(false, data, n, at, image),
        Format::Bc4Signed => run_bc4(true, data, n, at, image),
        Format::Bc5 => run_bc5(false, data, n, at, image),
        Format::Bc5Signed => run_bc5(true, data, n, at, image),
    }
}

// The sixteen pixels of block n of the data, row by row. Other bytes than the block's own are not read.
pub fn block_at(f: Format, data: &[u8], n: usize) -> [u32; 16]
    requires { n * size_of f + size_of f ≤ length «data».now }
    ensures { result ≡ tile (shows_of f) (bytes_of (size_of f) «data».now n) }
{
    let s = checks::size(f);
    let at = n * s;
    let end = at + s;
    let four = Picture {
        width: 4,
        height: 4,
        pitch: 4,
    };
    let mut tile = [0u32; 16];
    run(f, &data[at..end], 1, 0, 0, four, &mut tile);
    tile
}
