// Single blocks: the checks, then sixteen pixels into the elements 0 to 15. One reader serves the formats; the alpha half and
// a single channel, which join what stood there, have one each.
#![tactic(auto)]

ghost use Rattle.std.specs.Prelude.{◌≡◌, ◌/◌, ◌%◌, ◌≤◌, ◌<◌, length, get_or};
ghost use Rattle.rules.specs.Notation.{build};
ghost use Rattle.rules.specs.Answers.{said, verdict, block_checks};
ghost use Rattle.rules.specs.Readers.{ReadsBlock, ReadsAlpha, JoinsChannel};
ghost use Rattle.block_readers.specs.Joins.{join_of, byte_of};

use bc::bc3;
use etc_alpha::channel;
use pixel::fill;
use rules::{Format, Refusal};

// The checks that all block readers share, whatever the numbers.
fn verify(size: usize, bytes: usize, elements: usize) -> Result<(), Refusal>
    ensures { said result ≡ verdict (block_checks size bytes elements) }
{
    if bytes < size {
        return Err(Refusal::ShortData);
    }
    if elements < 16 {
        return Err(Refusal::ShortImage);
    }
    Ok(())
}

// Reads a block of any format.
pub fn read_block(f: Format, data: &[u8], image: &mut [u32]) -> Result<(), Refusal>
    ensures { ReadsBlock f «data».now image.old result image.new }
{
    verify(checks::size(f), data.len(), image.len())?;
    fill::place_block(blocks::block_at(f, data, 0), image);
    Ok(())
}

// Reads an alpha half onto what stood there.
pub fn read_alpha(data: &[u8], image: &mut [u32]) -> Result<(), Refusal>
    ensures { ReadsAlpha «data».now image.old result image.new }
{
    verify(8, data.len(), image.len())?;
    channel::a8_over(data, image);
    Ok(())
}

// What a single channel is read from.
#[derive(Clone, Copy)]
pub enum Joined {
    // a byte of EAC, joined by OR
    Eac,
    EacSigned,
    // the alpha half of BC3, in place of what stood there
    Bc3Alpha,
}

// The pixels with the byte of each joined to one channel.
fn onto(j: Joined, d: &[u8], channel: usize, px: [u32; 16]) -> [u32; 16]
    requires { (8 ≤ length d.now) × (channel < 4) }
    ensures { result ≡ build 16 (λ k. join_of j channel (get_or px k 0) (byte_of j d.now (k % 4) (k / 4))) }
{
    match j {
        Joined::Eac => eac::eac_onto(d, false, channel, px),
        Joined::EacSigned => eac::eac_onto(d, true, channel, px),
        Joined::Bc3Alpha => bc3::alpha_onto(d, channel, px),
    }
}

// Reads a single channel, 0 blue, 1 green, 2 red or 3 alpha, onto what stood there. The number is the place of the channel's byte in a
// pixel, so an enum would only be turned back into it.
pub fn read_channel(
    j: Joined,
    data: &[u8],
    channel: usize,
    image: &mut [u32],
) -> Result<(), Refusal>
    ensures { JoinsChannel (join_of j) (byte_of j) «data».now channel image.old result image.new }
{
    if 3 < channel {
        return Err(Refusal::NoChannel);
    }
    verify(8, data.len(), image.len())?;
    let stood = fill::first_sixteen(image);
    fill::place_block(onto(j, data, channel, stood), image);
    Ok(())
}
