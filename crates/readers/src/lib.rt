// The public list: the readers of pictures, single blocks, whole EAC values, pictures in pieces, sheets and texture files; the checks
// and the counts for older viewers; the censuses; the reader of degrees; the checker and the baker of ETC1 blocks.
// No function has a precondition. Each promises its answer, and every element of what it is lent, for all inputs, as Readers.antt,
// Whole.antt, Census.antt, Sheets.antt, Pieces.antt, Degrees.antt, Checking.antt, Baking.antt and Files.antt of crates/rules/specs say.
// A refusal changes nothing; docs/API.md lists the refusals by number.
// The readers of each format (picture, pitched, block) have a function of their own: README, docs/API.md and document 01 name each.
// A channel, a sheet's format and a flip stay numbers: other numbers are refused, and an enum would ask more of callers.
#![tactic(auto)]

ghost use Rattle.std.specs.Prelude.{◌≡◌, true, false, length, get_or};
ghost use Rattle.rules.specs.Places.{sized};
ghost use Rattle.rules.specs.Answers.{said};
ghost use Rattle.rules.specs.Census.{CountsRgb, CountsRgba1};
ghost use Rattle.rules.specs.Guards.{in_range, opaque_only};
ghost use Rattle.rules.specs.Older.{CountsOlder};
ghost use Rattle.rules.specs.Readers.{ReadsPicture, ReadsStrict, ReadsOpaque, ReadsBlock, ReadsAlpha, ReadsChannel, ReplacesChannel};
ghost use Rattle.rules.specs.Readers.{ChecksStrict, ChecksOpaque};
ghost use Rattle.rules.specs.Whole.{ReadsWhole};
ghost use Rattle.rules.specs.Sheets.{TellsHead, ReadsSheet, WritesSheet};
ghost use Rattle.rules.specs.Pieces.{Starts, Takes, Ends};
ghost use Rattle.rules.specs.Files.{OpensFile, FindsLevel};
ghost use Rattle.rules.specs.Degrees.{ReadsDegrees};
ghost use Rattle.rules.specs.Checking.{baking_said, Checks};
ghost use Rattle.rules.specs.Baking.{Bakes};
ghost use Rattle.whole.specs.Lanes.{lanes};

use bake::baker;
use block_readers::Joined;
use guard::Viewer;
use rules::{
    BakingRefusal, FileFacts, FileLevel, Format, Head, Legend, NoReading, OlderCounts, Picture,
    Progress, Reading, Refusal, RgbCounts, Rgba1Counts, Started, Taken,
};
use sheet::write;

// Document 01's number of an answer.
pub fn number(answer: Result<(), Refusal>) -> u32
    ensures { result ≡ get_or (said answer) 0 0 }
{
    answer_numbers::number(answer)
}

// Reads a picture of any format, by its width and height: its rows have no gap.
fn read(
    f: Format,
    data: &[u8],
    width: usize,
    height: usize,
    image: &mut [u32],
) -> Result<(), Refusal>
    ensures { ReadsPicture f «data».now (sized width height) image.old result image.new }
{
    let pic = Picture::sized(width, height);
    picture::read_picture(f, data, pic, image)
}

// Reads an ETC1 picture.
pub fn decode_etc1(
    data: &[u8],
    width: usize,
    height: usize,
    image: &mut [u32],
) -> Result<(), Refusal>
    ensures { ReadsPicture Format.Etc1 «data».now (sized width height) image.old result image.new }
{
    read(Format::Etc1, data, width, height, image)
}

// The same of a picture with a pitch.
pub fn decode_etc1_pitched(data: &[u8], pic: Picture, image: &mut [u32]) -> Result<(), Refusal>
    ensures { ReadsPicture Format.Etc1 «data».now pic image.old result image.new }
{
    picture::read_picture(Format::Etc1, data, pic, image)
}

// Reads an ETC2 RGB picture.
pub fn decode_etc2_rgb(
    data: &[u8],
    width: usize,
    height: usize,
    image: &mut [u32],
) -> Result<(), Refusal>
    ensures { ReadsPicture Format.Etc2Rgb «data».now (sized width height) image.old result image.new }
{
    read(Format::Etc2Rgb, data, width, height, image)
}

// The same of a picture with a pitch.
pub fn decode_etc2_rgb_pitched(data: &[u8], pic: Picture, image: &mut [u32]) -> Result<(), Refusal>
    ensures { ReadsPicture Format.Etc2Rgb «data».now pic image.old result image.new }
{
    picture::read_picture(Format::Etc2Rgb, data, pic, image)
}

// Reads an ETC2 RGBA1 picture.
pub fn decode_etc2_rgba1(
    data: &[u8],
    width: usize,
    height: usize,
    image: &mut [u32],
) -> Result<(), Refusal>
    ensures { ReadsPicture Format.Etc2Rgba1 «data».now (sized width height) image.old result image.new }
{
    read(Format::Etc2Rgba1, data, width, height, image)
}

// The same of a picture with a pitch.
pub fn decode_etc2_rgba1_pitched(
    data: &[u8],
    pic: Picture,
    image: &mut [u32],
) -> Result<(), Refusal>
    ensures { ReadsPicture Format.Etc2Rgba1 «data».now pic image.old result image.new }
{
    picture::read_picture(Format::Etc2Rgba1, data, pic, image)
}

// Reads an ETC2 RGBA8 picture.
pub fn decode_etc2_rgba8(
    data: &[u8],
    width: usize,
    height: usize,
    image: &mut [u32],
) -> Result<(), Refusal>
    ensures { ReadsPicture Format.Etc2Rgba8 «data».now (sized width height) image.old result image.new }
{
    read(Format::Etc2Rgba8, data, width, height, image)
}

// The same of a picture with a pitch.
pub fn decode_etc2_rgba8_pitched(
    data: &[u8],
    pic: Picture,
    image: &mut [u32],
) -> Result<(), Refusal>
    ensures { ReadsPicture Format.Etc2Rgba8 «data».now pic image.old result image.new }
{
    picture::read_picture(Format::Etc2Rgba8, data, pic, image)
}

// Reads an EAC R picture.
pub fn decode_eacr(
    data: &[u8],
    width: usize,
    height: usize,
    image: &mut [u32],
) -> Result<(), Refusal>
    ensures { ReadsPicture Format.EacR «data».now (sized width height) image.old result image.new }
{
    read(Format::EacR, data, width, height, image)
}

// The same of a picture with a pitch.
pub fn decode_eacr_pitched(data: &[u8], pic: Picture, image: &mut [u32]) -> Result<(), Refusal>
    ensures { ReadsPicture Format.EacR «data».now pic image.old result image.new }
{
    picture::read_picture(Format::EacR, data, pic, image)
}

// Reads a signed EAC R picture.
pub fn decode_eacr_signed(
    data: &[u8],
    width: usize,
    height: usize,
    image: &mut [u32],
) -> Result<(), Refusal>
    ensures { ReadsPicture Format.EacRSigned «data».now (sized width height)
        image.old result image.new }
{
    read(Format::EacRSigned, data, width, height, image)
}

// The same of a picture with a pitch.
pub fn decode_eacr_signed_pitched(
    data: &[u8],
    pic: Picture,
    image: &mut [u32],
) -> Result<(), Refusal>
    ensures { ReadsPicture Format.EacRSigned «data».now pic image.old result image.new }
{
    picture::read_picture(Format::EacRSigned, data, pic, image)
}

// Reads an EAC RG picture.
pub fn decode_eacrg(
    data: &[u8],
    width: usize,
    height: usize,
    image: &mut [u32],
) -> Result<(), Refusal>
    ensures { ReadsPicture Format.EacRg «data».now (sized width height) image.old result image.new }
{
    read(Format::EacRg, data, width, height, image)
}

// The same of a picture with a pitch.
pub fn decode_eacrg_pitched(data: &[u8], pic: Picture, image: &mut [u32]) -> Result<(), Refusal>
    ensures { ReadsPicture Format.EacRg «data».now pic image.old result image.new }
{
    picture::read_picture(Format::EacRg, data, pic, image)
}

// Reads a signed EAC RG picture.
pub fn decode_eacrg_signed(
    data: &[u8],
    width: usize,
    height: usize,
    image: &mut [u32],
) -> Result<(), Refusal>
    ensures { ReadsPicture Format.EacRgSigned «data».now (sized width height)
        image.old result image.new }
{
    read(Format::EacRgSigned, data, width, height, image)
}

// The same of a picture with a pitch.
pub fn decode_eacrg_signed_pitched(
    data: &[u8],
    pic: Picture,
    image: &mut [u32],
) -> Result<(), Refusal>
    ensures { ReadsPicture Format.EacRgSigned «data».now pic image.old result image.new }
{
    picture::read_picture(Format::EacRgSigned, data, pic, image)
}

// Reads a BC1 picture without alpha.
pub fn decode_bc1(
    data: &[u8],
    width: usize,
    height: usize,
    image: &mut [u32],
) -> Result<(), Refusal>
    ensures { ReadsPicture Format.Bc1 «data».now (sized width height) image.old result image.new }
{
    read(Format::Bc1, data, width, height, image)
}

// The same of a picture with a pitch.
pub fn decode_bc1_pitched(data: &[u8], pic: Picture, image: &mut [u32]) -> Result<(), Refusal>
    ensures { ReadsPicture Format.Bc1 «data».now pic image.old result image.new }
{
    picture::read_picture(Format::Bc1, data, pic, image)
}

// Reads a BC1 picture with one bit of alpha.
pub fn decode_bc1a(
    data: &[u8],
    width: usize,
    height: usize,
    image: &mut [u32],
) -> Result<(), Refusal>
    ensures { ReadsPicture Format.Bc1Alpha «data».now (sized width height) image.old result image.new }
{
    read(Format::Bc1Alpha, data, width, height, image)
}

// The same of a picture with a pitch.
pub fn decode_bc1a_pitched(data: &[u8], pic: Picture, image: &mut [u32]) -> Result<(), Refusal>
    ensures { ReadsPicture Format.Bc1Alpha «data».now pic image.old result image.new }
{
    picture::read_picture(Format::Bc1Alpha, data, pic, image)
}

// Reads a BC3 picture.
pub fn decode_bc3(
    data: &[u8],
    width: usize,
    height: usize,
    image: &mut [u32],
) -> Result<(), Refusal>
    ensures { ReadsPicture Format.Bc3 «data».now (sized width height) image.old result image.new }
{
    read(Format::Bc3, data, width, height, image)
}

// The same of a picture with a pitch.
pub fn decode_bc3_pitched(data: &[u8], pic: Picture, image: &mut [u32]) -> Result<(), Refusal>
    ensures { ReadsPicture Format.Bc3 «data».now pic image.old result image.new }
{
    picture::read_picture(Format::Bc3, data, pic, image)
}

// Reads a BC7 picture.
pub fn decode_bc7(
    data: &[u8],
    width: usize,
    height: usize,
    image: &mut [u32],
) -> Result<(), Refusal>
    ensures { ReadsPicture Format.Bc7 «data».now (sized width height) image.old result image.new }
{
    read(Format::Bc7, data, width, height, image)
}

// The same of a picture with a pitch.
pub fn decode_bc7_pitched(data: &[u8], pic: Picture, image: &mut [u32]) -> Result<(), Refusal>
    ensures { ReadsPicture Format.Bc7 «data».now pic image.old result image.new }
{
    picture::read_picture(Format::Bc7, data, pic, image)
}

// Reads a BC2 picture.
pub fn decode_bc2(
    data: &[u8],
    width: usize,
    height: usize,
    image: &mut [u32],
) -> Result<(), Refusal>
    ensures { ReadsPicture Format.Bc2 «data».now (sized width height) image.old result image.new }
{
    read(Format::Bc2, data, width, height, image)
}

// The same of a picture with a pitch.
pub fn decode_bc2_pitched(data: &[u8], pic: Picture, image: &mut [u32]) -> Result<(), Refusal>
    ensures { ReadsPicture Format.Bc2 «data».now pic image.old result image.new }
{
    picture::read_picture(Format::Bc2, data, pic, image)
}

// Reads a BC4 picture.
pub fn decode_bc4(
    data: &[u8],
    width: usize,
    height: usize,
    image: &mut [u32],
) -> Result<(), Refusal>
    ensures { ReadsPicture Format.Bc4 «data».now (sized width height) image.old result image.new }
{
    read(Format::Bc4, data, width, height, image)
}

// The same of a picture with a pitch.
pub fn decode_bc4_pitched(data: &[u8], pic: Picture, image: &mut [u32]) -> Result<(), Refusal>
    ensures { ReadsPicture Format.Bc4 «data».now pic image.old result image.new }
{
    picture::read_picture(Format::Bc4, data, pic, image)
}

// Reads a signed BC4 picture.
pub fn decode_bc4_signed(
    data: &[u8],
    width: usize,
    height: usize,
    image: &mut [u32],
) -> Result<(), Refusal>
    ensures { ReadsPicture Format.Bc4Signed «data».now (sized width height) image.old result image.new }
{
    read(Format::Bc4Signed, data, width, height, image)
}

// The same of a picture with a pitch.
pub fn decode_bc4_signed_pitched(
    data: &[u8],
    pic: Picture,
    image: &mut [u32],
) -> Result<(), Refusal>
    ensures { ReadsPicture Format.Bc4Signed «data».now pic image.old result image.new }
{
    picture::read_picture(Format::Bc4Signed, data, pic, image)
}

// Reads a BC5 picture.
pub fn decode_bc5(
    data: &[u8],
    width: usize,
    height: usize,
    image: &mut [u32],
) -> Result<(), Refusal>
    ensures { ReadsPicture Format.Bc5 «data».now (sized width height) image.old result image.new }
{
    read(Format::Bc5, data, width, height, image)
}

// The same of a picture with a pitch.
pub fn decode_bc5_pitched(data: &[u8], pic: Picture, image: &mut [u32]) -> Result<(), Refusal>
    ensures { ReadsPicture Format.Bc5 «data».now pic image.old result image.new }
{
    picture::read_picture(Format::Bc5, data, pic, image)
}

// Reads a signed BC5 picture.
pub fn decode_bc5_signed(
    data: &[u8],
    width: usize,
    height: usize,
    image: &mut [u32],
) -> Result<(), Refusal>
    ensures { ReadsPicture Format.Bc5Signed «data».now (sized width height) image.old result image.new }
{
    read(Format::Bc5Signed, data, width, height, image)
}

// The same of a picture with a pitch.
pub fn decode_bc5_signed_pitched(
    data: &[u8],
    pic: Picture,
    image: &mut [u32],
) -> Result<(), Refusal>
    ensures { ReadsPicture Format.Bc5Signed «data».now pic image.old result image.new }
{
    picture::read_picture(Format::Bc5Signed, data, pic, image)
}

// Reads an ETC1 picture that holds no block out of range and has no bytes behind its blocks; it refuses any other, where a block is out
// of range with the number of the first such block. Each pixel that it paints is the one that the ETC2 RGB rule gives.
pub fn decode_etc1_strict(
    data: &[u8],
    width: usize,
    height: usize,
    image: &mut [u32],
) -> Result<(), Refusal>
    ensures { ReadsStrict «data».now (sized width height) image.old result image.new }
{
    let pic = Picture::sized(width, height);
    decode_etc1_strict_pitched(data, pic, image)
}

// The same of a picture with a pitch.
pub fn decode_etc1_strict_pitched(
    data: &[u8],
    pic: Picture,
    image: &mut [u32],
) -> Result<(), Refusal>
    ensures { ReadsStrict «data».now pic image.old result image.new }
{
    picture::read_strict(data, pic, image)
}

// Reads an ETC2 RGBA1 picture for a viewer that knows ETC2 RGB alone: it refuses one that has a block whose opaque bit is clear, with the
// number of the first. Each pixel that it paints is the one that the RGBA1 rule and the RGB rule give.
pub fn decode_etc2_rgba1_opaque(
    data: &[u8],
    width: usize,
    height: usize,
    image: &mut [u32],
) -> Result<(), Refusal>
    ensures { ReadsOpaque «data».now (sized width height) image.old result image.new }
{
    let pic = Picture::sized(width, height);
    decode_etc2_rgba1_opaque_pitched(data, pic, image)
}

// The same of a picture with a pitch.
pub fn decode_etc2_rgba1_opaque_pitched(
    data: &[u8],
    pic: Picture,
    image: &mut [u32],
) -> Result<(), Refusal>
    ensures { ReadsOpaque «data».now pic image.old result image.new }
{
    picture::read_opaque(data, pic, image)
}

// Checks an ETC1 picture as `decode_etc1_strict` does, with no image: where one is long enough, the two answer the same.
pub fn check_strict(data: &[u8], width: usize, height: usize) -> Result<(), Refusal>
    ensures { ChecksStrict «data».now (sized width height) result }
{
    picture::check_strict(data, width, height)
}

// Checks an ETC2 RGBA1 picture as `decode_etc2_rgba1_opaque` does, with no image: likewise.
pub fn check_opaque(data: &[u8], width: usize, height: usize) -> Result<(), Refusal>
    ensures { ChecksOpaque «data».now (sized width height) result }
{
    picture::check_opaque(data, width, height)
}

// Reads whole values of EAC by a picture's width and height: of red, or of red and green. Its rows have no gap.
fn read_whole(
    green: bool,
    signed: bool,
    data: &[u8],
    width: usize,
    height: usize,
    image: &mut [u16],
) -> Result<(), Refusal>
    ensures { ReadsWhole signed (lanes green) «data».now (sized width height)
        image.old result image.new }
{
    let pic = Picture::sized(width, height);
    whole::read_whole(green, signed, data, pic, image)
}

// Reads all eleven bits of an EAC R picture, 0 to 2047, into 16-bit numbers.
pub fn decode_eacr11(
    data: &[u8],
    width: usize,
    height: usize,
    image: &mut [u16],
) -> Result<(), Refusal>
    ensures { ReadsWhole false 1 «data».now (sized width height) image.old result image.new }
{
    read_whole(false, false, data, width, height, image)
}

// The same of a picture with a pitch, in pixels.
pub fn decode_eacr11_pitched(data: &[u8], pic: Picture, image: &mut [u16]) -> Result<(), Refusal>
    ensures { ReadsWhole false 1 «data».now pic image.old result image.new }
{
    whole::read_whole(false, false, data, pic, image)
}

// The same of a signed EAC R picture, -1023 to 1023: a negative number is in two's complement.
pub fn decode_eacr11_signed(
    data: &[u8],
    width: usize,
    height: usize,
    image: &mut [u16],
) -> Result<(), Refusal>
    ensures { ReadsWhole true 1 «data».now (sized width height) image.old result image.new }
{
    read_whole(false, true, data, width, height, image)
}

// The same of a picture with a pitch, in pixels.
pub fn decode_eacr11_signed_pitched(
    data: &[u8],
    pic: Picture,
    image: &mut [u16],
) -> Result<(), Refusal>
    ensures { ReadsWhole true 1 «data».now pic image.old result image.new }
{
    whole::read_whole(false, true, data, pic, image)
}

// Reads all eleven bits of an EAC RG picture: two numbers to a pixel, red then green.
pub fn decode_eacrg11(
    data: &[u8],
    width: usize,
    height: usize,
    image: &mut [u16],
) -> Result<(), Refusal>
    ensures { ReadsWhole false 2 «data».now (sized width height) image.old result image.new }
{
    read_whole(true, false, data, width, height, image)
}

// The same of a picture with a pitch, in pixels.
pub fn decode_eacrg11_pitched(data: &[u8], pic: Picture, image: &mut [u16]) -> Result<(), Refusal>
    ensures { ReadsWhole false 2 «data».now pic image.old result image.new }
{
    whole::read_whole(true, false, data, pic, image)
}

// The same of a signed EAC RG picture.
pub fn decode_eacrg11_signed(
    data: &[u8],
    width: usize,
    height: usize,
    image: &mut [u16],
) -> Result<(), Refusal>
    ensures { ReadsWhole true 2 «data».now (sized width height) image.old result image.new }
{
    read_whole(true, true, data, width, height, image)
}

// The same of a picture with a pitch, in pixels.
pub fn decode_eacrg11_signed_pitched(
    data: &[u8],
    pic: Picture,
    image: &mut [u16],
) -> Result<(), Refusal>
    ensures { ReadsWhole true 2 «data».now pic image.old result image.new }
{
    whole::read_whole(true, true, data, pic, image)
}

// Reads an ETC1 block of 8 bytes into the elements 0 to 15.
pub fn decode_etc1_block(data: &[u8], image: &mut [u32]) -> Result<(), Refusal>
    ensures { ReadsBlock Format.Etc1 «data».now image.old result image.new }
{
    block_readers::read_block(Format::Etc1, data, image)
}

// Reads an ETC2 RGB block of 8 bytes into the elements 0 to 15.
pub fn decode_etc2_rgb_block(data: &[u8], image: &mut [u32]) -> Result<(), Refusal>
    ensures { ReadsBlock Format.Etc2Rgb «data».now image.old result image.new }
{
    block_readers::read_block(Format::Etc2Rgb, data, image)
}

// Reads an ETC2 RGBA1 block of 8 bytes into the elements 0 to 15.
pub fn decode_etc2_rgba1_block(data: &[u8], image: &mut [u32]) -> Result<(), Refusal>
    ensures { ReadsBlock Format.Etc2Rgba1 «data».now image.old result image.new }
{
    block_readers::read_block(Format::Etc2Rgba1, data, image)
}

// Reads an ETC2 RGBA8 block of 16 bytes into the elements 0 to 15.
pub fn decode_etc2_rgba8_block(data: &[u8], image: &mut [u32]) -> Result<(), Refusal>
    ensures { ReadsBlock Format.Etc2Rgba8 «data».now image.old result image.new }
{
    block_readers::read_block(Format::Etc2Rgba8, data, image)
}

// Reads an EAC R block of 8 bytes into the elements 0 to 15.
pub fn decode_eacr_block(data: &[u8], image: &mut [u32]) -> Result<(), Refusal>
    ensures { ReadsBlock Format.EacR «data».now image.old result image.new }
{
    block_readers::read_block(Format::EacR, data, image)
}

// Reads a signed EAC R block of 8 bytes into the elements 0 to 15.
pub fn decode_eacr_signed_block(data: &[u8], image: &mut [u32]) -> Result<(), Refusal>
    ensures { ReadsBlock Format.EacRSigned «data».now image.old result image.new }
{
    block_readers::read_block(Format::EacRSigned, data, image)
}

// Reads an EAC RG block of 16 bytes into the elements 0 to 15.
pub fn decode_eacrg_block(data: &[u8], image: &mut [u32]) -> Result<(), Refusal>
    ensures { ReadsBlock Format.EacRg «data».now image.old result image.new }
{
    block_readers::read_block(Format::EacRg, data, image)
}

// Reads a signed EAC RG block of 16 bytes into the elements 0 to 15.
pub fn decode_eacrg_signed_block(data: &[u8], image: &mut [u32]) -> Result<(), Refusal>
    ensures { ReadsBlock Format.EacRgSigned «data».now image.old result image.new }
{
    block_readers::read_block(Format::EacRgSigned, data, image)
}

// Reads a BC1 block of 8 bytes without alpha into the elements 0 to 15.
pub fn decode_bc1_block(data: &[u8], image: &mut [u32]) -> Result<(), Refusal>
    ensures { ReadsBlock Format.Bc1 «data».now image.old result image.new }
{
    block_readers::read_block(Format::Bc1, data, image)
}

// Reads a BC1 block of 8 bytes with one bit of alpha into the elements 0 to 15.
pub fn decode_bc1a_block(data: &[u8], image: &mut [u32]) -> Result<(), Refusal>
    ensures { ReadsBlock Format.Bc1Alpha «data».now image.old result image.new }
{
    block_readers::read_block(Format::Bc1Alpha, data, image)
}

// Reads a BC3 block of 16 bytes into the elements 0 to 15.
pub fn decode_bc3_block(data: &[u8], image: &mut [u32]) -> Result<(), Refusal>
    ensures { ReadsBlock Format.Bc3 «data».now image.old result image.new }
{
    block_readers::read_block(Format::Bc3, data, image)
}

// Reads a BC7 block of 16 bytes into the elements 0 to 15.
pub fn decode_bc7_block(data: &[u8], image: &mut [u32]) -> Result<(), Refusal>
    ensures { ReadsBlock Format.Bc7 «data».now image.old result image.new }
{
    block_readers::read_block(Format::Bc7, data, image)
}

// Reads a BC2 block of 16 bytes into the elements 0 to 15.
pub fn decode_bc2_block(data: &[u8], image: &mut [u32]) -> Result<(), Refusal>
    ensures { ReadsBlock Format.Bc2 «data».now image.old result image.new }
{
    block_readers::read_block(Format::Bc2, data, image)
}

// Reads a BC4 block of 8 bytes into the elements 0 to 15.
pub fn decode_bc4_block(data: &[u8], image: &mut [u32]) -> Result<(), Refusal>
    ensures { ReadsBlock Format.Bc4 «data».now image.old result image.new }
{
    block_readers::read_block(Format::Bc4, data, image)
}

// Reads a signed BC4 block of 8 bytes into the elements 0 to 15.
pub fn decode_bc4_signed_block(data: &[u8], image: &mut [u32]) -> Result<(), Refusal>
    ensures { ReadsBlock Format.Bc4Signed «data».now image.old result image.new }
{
    block_readers::read_block(Format::Bc4Signed, data, image)
}

// Reads a BC5 block of 16 bytes into the elements 0 to 15.
pub fn decode_bc5_block(data: &[u8], image: &mut [u32]) -> Result<(), Refusal>
    ensures { ReadsBlock Format.Bc5 «data».now image.old result image.new }
{
    block_readers::read_block(Format::Bc5, data, image)
}

// Reads a signed BC5 block of 16 bytes into the elements 0 to 15.
pub fn decode_bc5_signed_block(data: &[u8], image: &mut [u32]) -> Result<(), Refusal>
    ensures { ReadsBlock Format.Bc5Signed «data».now image.old result image.new }
{
    block_readers::read_block(Format::Bc5Signed, data, image)
}

// Reads an alpha half of 8 bytes into the top bytes of the elements 0 to 15, and keeps the rest of them.
pub fn decode_etc2_a8_block(data: &[u8], image: &mut [u32]) -> Result<(), Refusal>
    ensures { ReadsAlpha «data».now image.old result image.new }
{
    block_readers::read_alpha(data, image)
}

// Reads an EAC block of 8 bytes and ORs its bytes into channel 0 blue, 1 green, 2 red or 3 alpha of the elements 0 to 15.
pub fn decode_eac_block(data: &[u8], channel: usize, image: &mut [u32]) -> Result<(), Refusal>
    ensures { ReadsChannel false «data».now channel image.old result image.new }
{
    block_readers::read_channel(Joined::Eac, data, channel, image)
}

// The same of a signed EAC block.
pub fn decode_eac_signed_block(
    data: &[u8],
    channel: usize,
    image: &mut [u32],
) -> Result<(), Refusal>
    ensures { ReadsChannel true «data».now channel image.old result image.new }
{
    block_readers::read_channel(Joined::EacSigned, data, channel, image)
}

// Reads the alpha half of a BC3 block, 8 bytes, into channel 0 blue, 1 green, 2 red or 3 alpha of the elements 0 to 15, in place of the
// byte that stood there.
pub fn decode_bc3_alpha(data: &[u8], channel: usize, image: &mut [u32]) -> Result<(), Refusal>
    ensures { ReplacesChannel «data».now channel image.old result image.new }
{
    block_readers::read_channel(Joined::Bc3Alpha, data, channel, image)
}

// Counts the blocks of each kind of an ETC2 RGB picture, or refuses with 1 or 2 and counts nothing.
pub fn census_etc2_rgb(data: &[u8], width: usize, height: usize) -> Result<RgbCounts, Refusal>
    ensures { CountsRgb «data».now (sized width height) result }
{
    let pic = Picture::sized(width, height);
    census::rgb(data, pic)
}

// Counts the blocks of each kind of an ETC2 RGBA1 picture, split by the opaque bit, or refuses with 1 or 2 and counts nothing.
pub fn census_etc2_rgba1(data: &[u8], width: usize, height: usize) -> Result<Rgba1Counts, Refusal>
    ensures { CountsRgba1 «data».now (sized width height) result }
{
    let pic = Picture::sized(width, height);
    census::rgba1(data, pic)
}

// Counts what a viewer that knows ETC1 alone shows wrong of an ETC2 RGB picture: pixels, blocks, the first of them, and by how much.
pub fn older_etc1(data: &[u8], width: usize, height: usize) -> Result<OlderCounts, Refusal>
    ensures { CountsOlder in_range «data».now (sized width height) result }
{
    let pic = Picture::sized(width, height);
    older::count(Viewer::Etc1, data, pic)
}

// The same of a viewer that knows ETC2 RGB, but nothing transparent, and an RGBA1 picture.
pub fn older_rgb(data: &[u8], width: usize, height: usize) -> Result<OlderCounts, Refusal>
    ensures { CountsOlder opaque_only «data».now (sized width height) result }
{
    let pic = Picture::sized(width, height);
    older::count(Viewer::Opaque, data, pic)
}

// Tells the format, the width and the height that a sheet's head names, or why the sheet is refused: the whole walk without an image,
// so that `read_sheet` refuses alike, and else with 3 alone.
pub fn sheet_head(bytes: &[u8]) -> Result<Head, Refusal>
    ensures { TellsHead bytes.now result }
{
    sheet_read::sheet_head(bytes)
}

// Reads a sheet: the picture that the plain reader of its format shows of exactly its blocks.
pub fn read_sheet(bytes: &[u8], image: &mut [u32]) -> Result<(), Refusal>
    ensures { ReadsSheet bytes.now image.old result image.new }
{
    sheet_read::read_sheet(bytes, image)
}

// Writes a picture as a sheet: its head and its blocks. Bytes of `out` behind the sheet keep their value.
pub fn write_sheet(
    format: usize,
    width: usize,
    height: usize,
    blocks: &[u8],
    out: &mut [u8],
) -> Result<usize, Refusal>
    ensures { WritesSheet format (sized width height) blocks.now out.old result out.new }
{
    write::write_sheet(format, width, height, blocks, out)
}

// Starts to read a picture of any format whose bytes arrive in pieces.
pub fn start_pieces(f: Format, pic: Picture, image: &[u32]) -> Started
    ensures { Starts f pic (length image.now) result }
{
    pieces::start(f, pic, image)
}

// Takes a piece of any length: paints the blocks that it completes, and says how many they are and how many bytes it did not use.
pub fn take_piece(p: Progress, bytes: &[u8], image: &mut [u32]) -> Taken
    ensures { Takes p bytes.now image.old result image.new }
{
    pieces::piece(p, bytes, image)
}

// Ends: done where every block is painted, and short of data where not.
pub fn end_pieces(p: Progress) -> Result<(), Refusal>
    ensures { Ends p result }
{
    pieces::end(p)
}

// What a legend predicts in degrees at a pixel, beside what was measured: a reading, "not measured" where the pixel has alpha 0, or
// refused with 13, 14 or 15. The legend and the picture each name their digit, and it is compared here.
pub fn degrees(
    legend: Legend,
    legend_digit: usize,
    picture_digit: usize,
    pixel: u32,
    measured: f32,
) -> Result<Reading, NoReading>
    ensures { ReadsDegrees legend legend_digit picture_digit pixel measured result }
{
    degrees::read_degrees(legend, legend_digit, picture_digit, pixel, measured)
}

// The number of an answer of the two functions below.
pub fn baking_number(answer: Result<(), BakingRefusal>) -> u32
    ensures { result ≡ get_or (baking_said answer) 0 0 }
{
    answer_numbers::baking_number(answer)
}

// Checks that an ETC1 block is in range, and that each red, green and blue that it shows is within the tolerance of the tile's.
pub fn check_etc1_block(block: &[u8], tile: &[u32], tolerance: u32) -> Result<(), BakingRefusal>
    ensures { Checks tolerance block.now tile.now result }
{
    bake_check::check(block, tile, tolerance)
}

// Bakes the individual ETC1 block with these two four-bit bases and this flip that comes closest to the tile, into eight bytes.
pub fn bake_etc1_block(
    first: [u8; 3],
    second: [u8; 3],
    flip: usize,
    tile: &[u32],
    block: &mut [u8],
) -> Result<(), BakingRefusal>
    ensures { Bakes first second flip tile.now result block.old block.new }
{
    baker::bake(first, second, flip, tile, block)
}

// Opens a texture file, PKM, KTX 1, KTX 2, DDS or a sheet: what it holds, or why it is refused.
pub fn open_file(bytes: &[u8]) -> Result<FileFacts, Refusal>
    ensures { OpensFile bytes.now result }
{
    file::open_file(bytes)
}

// Level n of a texture file: its size and where its blocks are, or why there is none.
pub fn file_level(bytes: &[u8], n: usize) -> Result<FileLevel, Refusal>
    ensures { FindsLevel bytes.now n result }
{
    file::file_level(bytes, n)
}
