// The picture readers as a caller from C is told of them: the answer's number, and the block that a reader with a guard names.
ghost use Rattle.std.specs.Prelude.{◌≡◌};
ghost use Rattle.rules.specs.Places.{sized, pitched};
ghost use Rattle.rules.specs.Readers.{ReadsPicture, ReadsStrict, ReadsOpaque, ChecksStrict, ChecksOpaque};
ghost use Rattle.rules.specs.Whole.{ReadsWhole};
ghost use Rattle.whole.specs.Lanes.{lanes};
ghost use Rattle.capi.specs.pictures.Told.{Told, answer_number, block_or_lem};

use rules::{Format, Picture, Refusal};

// Reads a picture of any format and pitch.
pub fn read(
    f: Format,
    data: &[u8],
    width: usize,
    height: usize,
    pitch: usize,
    image: &mut [u32],
) -> u32
    ensures { Told
        (λ a. ReadsPicture f «data».now (pitched width height pitch) image.old a image.new)
        result }
{
    let pic = Picture {
        width,
        height,
        pitch,
    };
    answer_numbers::number(picture::read_picture(f, data, pic, image))
}

// Reads whole values of EAC, of red, or of red and green, with any pitch.
pub fn read_whole(
    green: bool,
    signed: bool,
    data: &[u8],
    width: usize,
    height: usize,
    pitch: usize,
    image: &mut [u16],
) -> u32
    ensures { Told
        (λ a. ReadsWhole signed (lanes green) «data».now (pitched width height pitch) image.old a image.new)
        result }
{
    let pic = Picture {
        width,
        height,
        pitch,
    };
    answer_numbers::number(whole::read_whole(green, signed, data, pic, image))
}

// The number of an answer. The block that it names is written, and an answer that names none writes none.
fn handed(answer: Result<(), Refusal>, block: &mut usize) -> u32
    ensures { (result ≡ answer_number answer) × (block.new ≡ block_or_lem answer block.old) }
{
    if let Some(named) = answer_numbers::block_of(answer) {
        *block = named;
    }
    answer_numbers::number(answer)
}

// The strict reader of a picture with any pitch, and the block that it names.
pub fn strict(data: &[u8], pic: Picture, image: &mut [u32], block: &mut usize) -> u32
    ensures { Told
        (λ a. ReadsStrict «data».now pic image.old a image.new
        × (block.new ≡ block_or_lem a block.old))
        result }
{
    handed(picture::read_strict(data, pic, image), block)
}

// The reader of an opaque-only viewer, likewise.
pub fn opaque(data: &[u8], pic: Picture, image: &mut [u32], block: &mut usize) -> u32
    ensures { Told
        (λ a. ReadsOpaque «data».now pic image.old a image.new
        × (block.new ≡ block_or_lem a block.old))
        result }
{
    handed(picture::read_opaque(data, pic, image), block)
}

// The check of the strict reader without an image, and the block that it names.
pub fn check_strict(data: &[u8], width: usize, height: usize, block: &mut usize) -> u32
    ensures { Told
        (λ a. ChecksStrict «data».now (sized width height) a × (block.new ≡ block_or_lem a block.old))
        result }
{
    handed(picture::check_strict(data, width, height), block)
}

// That of the reader of an opaque-only viewer, likewise.
pub fn check_opaque(data: &[u8], width: usize, height: usize, block: &mut usize) -> u32
    ensures { Told
        (λ a. ChecksOpaque «data».now (sized width height) a × (block.new ≡ block_or_lem a block.old))
        result }
{
    handed(picture::check_opaque(data, width, height), block)
}
