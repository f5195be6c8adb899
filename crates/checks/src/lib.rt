// How many bytes a block has, how many blocks a picture and how many elements it needs, and the checks of its description, which every
// reader of a picture makes before it looks at a block.
#![tactic(auto)]

ghost use Rattle.std.specs.Prelude.{◌≡◌, ◌*◌, ◌<◌, ◌≤◌, ltb, IfOk};
ghost use Rattle.rules.specs.Places.{across as across_of, needed, blocks};
ghost use Rattle.rules.specs.Answers.{said, answered, limit, too_large_lem, over_limit_lem, picture_checks, exact_checks};
ghost use Rattle.rules.specs.Answers.{data_checks, verdict};
ghost use Rattle.rules.specs.Formats.{size_of};
ghost use Rattle.checks.specs.Passed.{checks_of};

use rules::{Format, Picture, Refusal};

// The number of bytes of a block.
#[tactic(auto, unfolding(rules::specs::Formats::size_of))]
pub fn size(f: Format) -> usize
    ensures { (result ≡ size_of f) × (result ≤ 16) × (0 < result) }
{
    match f {
        Format::Etc1 | Format::Etc2Rgb | Format::Etc2Rgba1 => 8,
        Format::EacR | Format::EacRSigned => 8,
        Format::Bc1 | Format::Bc1Alpha | Format::Bc4 | Format::Bc4Signed => 8,
        Format::Etc2Rgba8 | Format::EacRg | Format::EacRgSigned => 16,
        Format::Bc2 | Format::Bc3 | Format::Bc5 | Format::Bc5Signed | Format::Bc7 => 16,
    }
}

// How many blocks lie along a side, whatever it is.
pub fn across(side: usize) -> usize
    ensures { result ≡ across_of side }
{
    side / 4 + (side % 4 + 3) / 4
}

// From here on, bounds on a picture's sides and on a block's bytes stay clauses: docs/CLAIMS.md names these functions, which take any
// picture, and a type that holds the bounds would ask more of callers.

// The number of blocks of a picture that is not too large.
pub fn blocks_of(pic: Picture) -> usize
    requires { (pic.width ≤ limit) × (pic.height ≤ limit) }
    ensures { (result ≡ blocks pic) × (result ≤ 0x10000000) }
{
    across(pic.width) * across(pic.height)
}

// Check 1, over the limit: a side above it.
pub fn too_large(most: usize, pic: Picture) -> bool
    ensures { result ≡ too_large_lem most pic }
{
    let wide = most < pic.width;
    let high = most < pic.height;
    wide | high
}

// Check 1 of the picture readers: a side or the pitch above their limit.
pub fn over_limit(pic: Picture) -> bool
    ensures { result ≡ over_limit_lem pic }
{
    let large = too_large(65536, pic);
    let broad = 65536 < pic.pitch;
    large | broad
}

// Check 12: a pitch below the width.
pub fn short_pitch(pic: Picture) -> bool
    ensures { result ≡ ltb pic.pitch pic.width }
{
    pic.pitch < pic.width
}

// Check 2: fewer bytes than the blocks of a picture have, which is not too large.
pub fn short_data(size: usize, pic: Picture, bytes: usize) -> bool
    requires { (size ≤ 16) × (pic.width ≤ limit) × (pic.height ≤ limit) }
    ensures { result ≡ ltb bytes (blocks pic * size) }
{
    bytes < blocks_of(pic) * size
}

// Check 6: more bytes than the blocks of a picture have, which is not too large.
fn long_data(size: usize, pic: Picture, bytes: usize) -> bool
    requires { (size ≤ 16) × (pic.width ≤ limit) × (pic.height ≤ limit) }
    ensures { result ≡ ltb (blocks pic * size) bytes }
{
    blocks_of(pic) * size < bytes
}

// The image elements that a picture needs, which is not too large: its rows but the last by their pitch, and the last by its width.
#[tactic(auto, unfolding(rules::specs::Places::needed))]
pub fn elements_of(pic: Picture) -> usize
    requires { (pic.width ≤ limit) × (pic.height ≤ limit) × (pic.pitch ≤ limit) }
    ensures { result ≡ needed pic }
{
    if pic.width == 0 {
        return 0;
    }
    if pic.height == 0 {
        return 0;
    }
    (pic.height - 1) * pic.pitch + pic.width
}

// Check 3: fewer elements than a picture needs, which is not too large.
pub fn short_image(pic: Picture, elements: usize) -> bool
    requires { (pic.width ≤ limit) × (pic.height ≤ limit) × (pic.pitch ≤ limit) }
    ensures { result ≡ ltb elements (needed pic) }
{
    elements < elements_of(pic)
}

// The checks that all picture readers share, of any block size up to 16, whatever the numbers; and where the length must be exact, 6
// among them.
fn verify_as(
    exact: bool,
    size: usize,
    pic: Picture,
    bytes: usize,
    elements: usize,
) -> Result<(), Refusal>
    requires { size ≤ 16 }
    ensures { said result ≡ verdict (checks_of exact size pic bytes elements) }
{
    let large = over_limit(pic);
    let narrow = short_pitch(pic);
    if large {
        return Err(Refusal::TooLarge);
    }
    let lacks_data = short_data(size, pic, bytes);
    let has_more = exact & long_data(size, pic, bytes);
    let lacks_room = short_image(pic, elements);
    if narrow {
        return Err(Refusal::ShortPitch);
    }
    if lacks_data {
        return Err(Refusal::ShortData);
    }
    if has_more {
        return Err(Refusal::LongData);
    }
    if lacks_room {
        return Err(Refusal::ShortImage);
    }
    Ok(())
}

// The checks of a reader that ignores what follows the blocks. It and the next stand apart since docs/CLAIMS.md names both promises.
pub fn verify(size: usize, pic: Picture, bytes: usize, elements: usize) -> Result<(), Refusal>
    requires { size ≤ 16 }
    ensures { said result ≡ verdict (picture_checks size pic bytes elements) }
{
    verify_as(false, size, pic, bytes, elements)
}

// The checks of a reader that wants an exact length.
pub fn verify_exact(size: usize, pic: Picture, bytes: usize, elements: usize) -> Result<(), Refusal>
    requires { size ≤ 16 }
    ensures { said result ≡ verdict (exact_checks size pic bytes elements) }
{
    verify_as(true, size, pic, bytes, elements)
}

// The checks of what counts blocks of eight bytes and takes no pitch and no image; where they pass, the number of blocks.
pub fn countable(pic: Picture, bytes: usize) -> Result<usize, Refusal>
    ensures says { said (answered result) ≡ verdict (data_checks 8 pic bytes) }
    ensures counts { IfOk result (λ n. (n ≡ blocks pic) × (n * 8 ≤ bytes) × (n ≤ 0x10000000) × (pic.width ≤ limit) × (pic.height ≤ limit)) }
{
    if too_large(65536, pic) {
        return Err(Refusal::TooLarge);
    }
    if short_data(8, pic, bytes) {
        return Err(Refusal::ShortData);
    }
    Ok(blocks_of(pic))
}
