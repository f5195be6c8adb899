// The public readers of crates/readers under C names, for `rt lib`: a slice is a pointer and a length, and the answer is
// document 01's number of it. Each owes what the reader that it calls owes, and has no requires; that a C caller's pointers are what
// the types say, nothing can check. include/yalivucu.h tells a C programmer the same in words.
// One exported name a format and kind, numbers for channels and flips, and arrays that are lent: the C interface needs them so.
#![tactic(auto)]

mod census_lent;
mod degrees_lent;
mod pictures;
mod pieces_lent;

ghost use Rattle.std.specs.Prelude.{◌≡◌, true, false, length};
ghost use Rattle.rules.specs.Places.{sized, pitched};
ghost use Rattle.rules.specs.Readers.{ReadsPicture, ReadsStrict, ReadsOpaque, ReadsBlock, ReadsAlpha, ReadsChannel, ReplacesChannel};
ghost use Rattle.rules.specs.Readers.{ChecksStrict, ChecksOpaque};
ghost use Rattle.rules.specs.Census.{rgb_tests, rgba1_tests};
ghost use Rattle.rules.specs.Guards.{in_range, opaque_only};
ghost use Rattle.guard.specs.Viewers.{guard_of};
ghost use Rattle.rules.specs.Whole.{ReadsWhole};
ghost use Rattle.rules.specs.Sheets.{ReadsSheet};
ghost use Rattle.rules.specs.Pieces.{Ends};
ghost use Rattle.rules.specs.Checking.{Checks};
ghost use Rattle.file.specs.lent.Lent.{FileTold, LevelTold};
ghost use Rattle.rules.specs.Baking.{Bakes};
ghost use Rattle.capi.specs.pieces_lent.Lent.{state_in_lem, StartLent, PieceLent};
ghost use Rattle.capi.specs.degrees_lent.Lent.{legend_at_lem, DegreesTold};
ghost use Rattle.capi.specs.Census.{CountsInto, OlderInto};
ghost use Rattle.capi.specs.pictures.Told.{Told, block_or_lem};
ghost use Rattle.capi.specs.Told.{HeadTold, WriterTold, BakingTold};

use guard::Viewer;
use rules::{Format, Picture, Refusal};

// Reads an ETC1 picture.
#[unsafe(no_mangle)]
pub extern "C" fn yalivucu_decode_etc1(
    data: &[u8],
    width: usize,
    height: usize,
    image: &mut [u32],
) -> u32
    ensures { Told
        (λ a. ReadsPicture Format.Etc1 «data».now (sized width height) image.old a image.new)
        result }
{
    pictures::read(Format::Etc1, data, width, height, width, image)
}

// The same of a picture with a pitch.
#[unsafe(no_mangle)]
pub extern "C" fn yalivucu_decode_etc1_pitched(
    data: &[u8],
    width: usize,
    height: usize,
    pitch: usize,
    image: &mut [u32],
) -> u32
    ensures { Told
        (λ a. ReadsPicture Format.Etc1 «data».now (pitched width height pitch) image.old a image.new)
        result }
{
    pictures::read(Format::Etc1, data, width, height, pitch, image)
}

// Reads an ETC2 RGB picture.
#[unsafe(no_mangle)]
pub extern "C" fn yalivucu_decode_etc2_rgb(
    data: &[u8],
    width: usize,
    height: usize,
    image: &mut [u32],
) -> u32
    ensures { Told
        (λ a. ReadsPicture Format.Etc2Rgb «data».now (sized width height) image.old a image.new)
        result }
{
    pictures::read(Format::Etc2Rgb, data, width, height, width, image)
}

// The same of a picture with a pitch.
#[unsafe(no_mangle)]
pub extern "C" fn yalivucu_decode_etc2_rgb_pitched(
    data: &[u8],
    width: usize,
    height: usize,
    pitch: usize,
    image: &mut [u32],
) -> u32
    ensures { Told
        (λ a. ReadsPicture Format.Etc2Rgb «data».now (pitched width height pitch) image.old a image.new)
        result }
{
    pictures::read(Format::Etc2Rgb, data, width, height, pitch, image)
}

// Reads an ETC2 RGBA1 picture.
#[unsafe(no_mangle)]
pub extern "C" fn yalivucu_decode_etc2_rgba1(
    data: &[u8],
    width: usize,
    height: usize,
    image: &mut [u32],
) -> u32
    ensures { Told
        (λ a. ReadsPicture Format.Etc2Rgba1 «data».now (sized width height) image.old a image.new)
        result }
{
    pictures::read(Format::Etc2Rgba1, data, width, height, width, image)
}

// The same of a picture with a pitch.
#[unsafe(no_mangle)]
pub extern "C" fn yalivucu_decode_etc2_rgba1_pitched(
    data: &[u8],
    width: usize,
    height: usize,
    pitch: usize,
    image: &mut [u32],
) -> u32
    ensures { Told
        (λ a. ReadsPicture Format.Etc2Rgba1 «data».now (pitched width height pitch) image.old a image.new)
        result }
{
    pictures::read(Format::Etc2Rgba1, data, width, height, pitch, image)
}

// Reads an ETC2 RGBA8 picture.
#[unsafe(no_mangle)]
pub extern "C" fn yalivucu_decode_etc2_rgba8(
    data: &[u8],
    width: usize,
    height: usize,
    image: &mut [u32],
) -> u32
    ensures { Told
        (λ a. ReadsPicture Format.Etc2Rgba8 «data».now (sized width height) image.old a image.new)
        result }
{
    pictures::read(Format::Etc2Rgba8, data, width, height, width, image)
}

// The same of a picture with a pitch.
#[unsafe(no_mangle)]
pub extern "C" fn yalivucu_decode_etc2_rgba8_pitched(
    data: &[u8],
    width: usize,
    height: usize,
    pitch: usize,
    image: &mut [u32],
) -> u32
    ensures { Told
        (λ a. ReadsPicture Format.Etc2Rgba8 «data».now (pitched width height pitch) image.old a image.new)
        result }
{
    pictures::read(Format::Etc2Rgba8, data, width, height, pitch, image)
}

// Reads an EAC R picture.
#[unsafe(no_mangle)]
pub extern "C" fn yalivucu_decode_eacr(
    data: &[u8],
    width: usize,
    height: usize,
    image: &mut [u32],
) -> u32
    ensures { Told
        (λ a. ReadsPicture Format.EacR «data».now (sized width height) image.old a image.new)
        result }
{
    pictures::read(Format::EacR, data, width, height, width, image)
}

// The same of a picture with a pitch.
#[unsafe(no_mangle)]
pub extern "C" fn yalivucu_decode_eacr_pitched(
    data: &[u8],
    width: usize,
    height: usize,
    pitch: usize,
    image: &mut [u32],
) -> u32
    ensures { Told
        (λ a. ReadsPicture Format.EacR «data».now (pitched width height pitch) image.old a image.new)
        result }
{
    pictures::read(Format::EacR, data, width, height, pitch, image)
}

// Reads a signed EAC R picture.
#[unsafe(no_mangle)]
pub extern "C" fn yalivucu_decode_eacr_signed(
    data: &[u8],
    width: usize,
    height: usize,
    image: &mut [u32],
) -> u32
    ensures { Told
        (λ a. ReadsPicture Format.EacRSigned «data».now (sized width height) image.old a image.new)
        result }
{
    pictures::read(Format::EacRSigned, data, width, height, width, image)
}

// The same of a picture with a pitch.
#[unsafe(no_mangle)]
pub extern "C" fn yalivucu_decode_eacr_signed_pitched(
    data: &[u8],
    width: usize,
    height: usize,
    pitch: usize,
    image: &mut [u32],
) -> u32
    ensures { Told
        (λ a. ReadsPicture Format.EacRSigned «data».now (pitched width height pitch) image.old a image.new)
        result }
{
    pictures::read(Format::EacRSigned, data, width, height, pitch, image)
}

// Reads an EAC RG picture.
#[unsafe(no_mangle)]
pub extern "C" fn yalivucu_decode_eacrg(
    data: &[u8],
    width: usize,
    height: usize,
    image: &mut [u32],
) -> u32
    ensures { Told
        (λ a. ReadsPicture Format.EacRg «data».now (sized width height) image.old a image.new)
        result }
{
    pictures::read(Format::EacRg, data, width, height, width, image)
}

// The same of a picture with a pitch.
#[unsafe(no_mangle)]
pub extern "C" fn yalivucu_decode_eacrg_pitched(
    data: &[u8],
    width: usize,
    height: usize,
    pitch: usize,
    image: &mut [u32],
) -> u32
    ensures { Told
        (λ a. ReadsPicture Format.EacRg «data».now (pitched width height pitch) image.old a image.new)
        result }
{
    pictures::read(Format::EacRg, data, width, height, pitch, image)
}

// Reads a signed EAC RG picture.
#[unsafe(no_mangle)]
pub extern "C" fn yalivucu_decode_eacrg_signed(
    data: &[u8],
    width: usize,
    height: usize,
    image: &mut [u32],
) -> u32
    ensures { Told
        (λ a. ReadsPicture Format.EacRgSigned «data».now (sized width height) image.old a image.new)
        result }
{
    pictures::read(Format::EacRgSigned, data, width, height, width, image)
}

// The same of a picture with a pitch.
#[unsafe(no_mangle)]
pub extern "C" fn yalivucu_decode_eacrg_signed_pitched(
    data: &[u8],
    width: usize,
    height: usize,
    pitch: usize,
    image: &mut [u32],
) -> u32
    ensures { Told
        (λ a. ReadsPicture Format.EacRgSigned «data».now (pitched width height pitch) image.old a image.new)
        result }
{
    pictures::read(Format::EacRgSigned, data, width, height, pitch, image)
}

// Reads a BC1 picture without alpha.
#[unsafe(no_mangle)]
pub extern "C" fn yalivucu_decode_bc1(
    data: &[u8],
    width: usize,
    height: usize,
    image: &mut [u32],
) -> u32
    ensures { Told
        (λ a. ReadsPicture Format.Bc1 «data».now (sized width height) image.old a image.new)
        result }
{
    pictures::read(Format::Bc1, data, width, height, width, image)
}

// The same of a picture with a pitch.
#[unsafe(no_mangle)]
pub extern "C" fn yalivucu_decode_bc1_pitched(
    data: &[u8],
    width: usize,
    height: usize,
    pitch: usize,
    image: &mut [u32],
) -> u32
    ensures { Told
        (λ a. ReadsPicture Format.Bc1 «data».now (pitched width height pitch) image.old a image.new)
        result }
{
    pictures::read(Format::Bc1, data, width, height, pitch, image)
}

// Reads a BC1 picture with one bit of alpha.
#[unsafe(no_mangle)]
pub extern "C" fn yalivucu_decode_bc1a(
    data: &[u8],
    width: usize,
    height: usize,
    image: &mut [u32],
) -> u32
    ensures { Told
        (λ a. ReadsPicture Format.Bc1Alpha «data».now (sized width height) image.old a image.new)
        result }
{
    pictures::read(Format::Bc1Alpha, data, width, height, width, image)
}

// The same of a picture with a pitch.
#[unsafe(no_mangle)]
pub extern "C" fn yalivucu_decode_bc1a_pitched(
    data: &[u8],
    width: usize,
    height: usize,
    pitch: usize,
    image: &mut [u32],
) -> u32
    ensures { Told
        (λ a. ReadsPicture Format.Bc1Alpha «data».now (pitched width height pitch) image.old a image.new)
        result }
{
    pictures::read(Format::Bc1Alpha, data, width, height, pitch, image)
}

// Reads a BC3 picture.
#[unsafe(no_mangle)]
pub extern "C" fn yalivucu_decode_bc3(
    data: &[u8],
    width: usize,
    height: usize,
    image: &mut [u32],
) -> u32
    ensures { Told
        (λ a. ReadsPicture Format.Bc3 «data».now (sized width height) image.old a image.new)
        result }
{
    pictures::read(Format::Bc3, data, width, height, width, image)
}

// The same of a picture with a pitch.
#[unsafe(no_mangle)]
pub extern "C" fn yalivucu_decode_bc3_pitched(
    data: &[u8],
    width: usize,
    height: usize,
    pitch: usize,
    image: &mut [u32],
) -> u32
    ensures { Told
        (λ a. ReadsPicture Format.Bc3 «data».now (pitched width height pitch) image.old a image.new)
        result }
{
    pictures::read(Format::Bc3, data, width, height, pitch, image)
}

// Reads a BC7 picture.
#[unsafe(no_mangle)]
pub extern "C" fn yalivucu_decode_bc7(
    data: &[u8],
    width: usize,
    height: usize,
    image: &mut [u32],
) -> u32
    ensures { Told
        (λ a. ReadsPicture Format.Bc7 «data».now (sized width height) image.old a image.new)
        result }
{
    pictures::read(Format::Bc7, data, width, height, width, image)
}

// The same of a picture with a pitch.
#[unsafe(no_mangle)]
pub extern "C" fn yalivucu_decode_bc7_pitched(
    data: &[u8],
    width: usize,
    height: usize,
    pitch: usize,
    image: &mut [u32],
) -> u32
    ensures { Told
        (λ a. ReadsPicture Format.Bc7 «data».now (pitched width height pitch) image.old a image.new)
        result }
{
    pictures::read(Format::Bc7, data, width, height, pitch, image)
}

// Reads a BC2 picture.
#[unsafe(no_mangle)]
pub extern "C" fn yalivucu_decode_bc2(
    data: &[u8],
    width: usize,
    height: usize,
    image: &mut [u32],
) -> u32
    ensures { Told
        (λ a. ReadsPicture Format.Bc2 «data».now (sized width height) image.old a image.new)
        result }
{
    pictures::read(Format::Bc2, data, width, height, width, image)
}

// The same of a picture with a pitch.
#[unsafe(no_mangle)]
pub extern "C" fn yalivucu_decode_bc2_pitched(
    data: &[u8],
    width: usize,
    height: usize,
    pitch: usize,
    image: &mut [u32],
) -> u32
    ensures { Told
        (λ a. ReadsPicture Format.Bc2 «data».now (pitched width height pitch) image.old a image.new)
        result }
{
    pictures::read(Format::Bc2, data, width, height, pitch, image)
}

// Reads a BC4 picture.
#[unsafe(no_mangle)]
pub extern "C" fn yalivucu_decode_bc4(
    data: &[u8],
    width: usize,
    height: usize,
    image: &mut [u32],
) -> u32
    ensures { Told
        (λ a. ReadsPicture Format.Bc4 «data».now (sized width height) image.old a image.new)
        result }
{
    pictures::read(Format::Bc4, data, width, height, width, image)
}

// The same of a picture with a pitch.
#[unsafe(no_mangle)]
pub extern "C" fn yalivucu_decode_bc4_pitched(
    data: &[u8],
    width: usize,
    height: usize,
    pitch: usize,
    image: &mut [u32],
) -> u32
    ensures { Told
        (λ a. ReadsPicture Format.Bc4 «data».now (pitched width height pitch) image.old a image.new)
        result }
{
    pictures::read(Format::Bc4, data, width, height, pitch, image)
}

// Reads a signed BC4 picture.
#[unsafe(no_mangle)]
pub extern "C" fn yalivucu_decode_bc4_signed(
    data: &[u8],
    width: usize,
    height: usize,
    image: &mut [u32],
) -> u32
    ensures { Told
        (λ a. ReadsPicture Format.Bc4Signed «data».now (sized width height) image.old a image.new)
        result }
{
    pictures::read(Format::Bc4Signed, data, width, height, width, image)
}

// The same of a picture with a pitch.
#[unsafe(no_mangle)]
pub extern "C" fn yalivucu_decode_bc4_signed_pitched(
    data: &[u8],
    width: usize,
    height: usize,
    pitch: usize,
    image: &mut [u32],
) -> u32
    ensures { Told
        (λ a. ReadsPicture Format.Bc4Signed «data».now (pitched width height pitch) image.old a image.new)
        result }
{
    pictures::read(Format::Bc4Signed, data, width, height, pitch, image)
}

// Reads a BC5 picture.
#[unsafe(no_mangle)]
pub extern "C" fn yalivucu_decode_bc5(
    data: &[u8],
    width: usize,
    height: usize,
    image: &mut [u32],
) -> u32
    ensures { Told
        (λ a. ReadsPicture Format.Bc5 «data».now (sized width height) image.old a image.new)
        result }
{
    pictures::read(Format::Bc5, data, width, height, width, image)
}

// The same of a picture with a pitch.
#[unsafe(no_mangle)]
pub extern "C" fn yalivucu_decode_bc5_pitched(
    data: &[u8],
    width: usize,
    height: usize,
    pitch: usize,
    image: &mut [u32],
) -> u32
    ensures { Told
        (λ a. ReadsPicture Format.Bc5 «data».now (pitched width height pitch) image.old a image.new)
        result }
{
    pictures::read(Format::Bc5, data, width, height, pitch, image)
}

// Reads a signed BC5 picture.
#[unsafe(no_mangle)]
pub extern "C" fn yalivucu_decode_bc5_signed(
    data: &[u8],
    width: usize,
    height: usize,
    image: &mut [u32],
) -> u32
    ensures { Told
        (λ a. ReadsPicture Format.Bc5Signed «data».now (sized width height) image.old a image.new)
        result }
{
    pictures::read(Format::Bc5Signed, data, width, height, width, image)
}

// The same of a picture with a pitch.
#[unsafe(no_mangle)]
pub extern "C" fn yalivucu_decode_bc5_signed_pitched(
    data: &[u8],
    width: usize,
    height: usize,
    pitch: usize,
    image: &mut [u32],
) -> u32
    ensures { Told
        (λ a. ReadsPicture Format.Bc5Signed «data».now (pitched width height pitch) image.old a image.new)
        result }
{
    pictures::read(Format::Bc5Signed, data, width, height, pitch, image)
}

// Reads an ETC1 picture that holds no block out of range. Where it refuses for one, `block` is its number; otherwise `block` stays as it
// was.
#[unsafe(no_mangle)]
pub extern "C" fn yalivucu_decode_etc1_strict(
    data: &[u8],
    width: usize,
    height: usize,
    image: &mut [u32],
    block: &mut usize,
) -> u32
    ensures { Told
        (λ a. ReadsStrict «data».now (sized width height) image.old a image.new
        × (block.new ≡ block_or_lem a block.old))
        result }
{
    let pic = Picture::sized(width, height);
    pictures::strict(data, pic, image, block)
}

// The same of a picture with a pitch.
#[unsafe(no_mangle)]
pub extern "C" fn yalivucu_decode_etc1_strict_pitched(
    data: &[u8],
    width: usize,
    height: usize,
    pitch: usize,
    image: &mut [u32],
    block: &mut usize,
) -> u32
    ensures { Told
        (λ a. ReadsStrict «data».now (pitched width height pitch) image.old a image.new
        × (block.new ≡ block_or_lem a block.old))
        result }
{
    let pic = Picture {
        width,
        height,
        pitch,
    };
    pictures::strict(data, pic, image, block)
}

// Reads an ETC2 RGBA1 picture for a viewer that knows ETC2 RGB alone. Where it refuses for a block whose opaque bit is clear, `block` is
// its number; otherwise `block` stays as it was.
#[unsafe(no_mangle)]
pub extern "C" fn yalivucu_decode_etc2_rgba1_opaque(
    data: &[u8],
    width: usize,
    height: usize,
    image: &mut [u32],
    block: &mut usize,
) -> u32
    ensures { Told
        (λ a. ReadsOpaque «data».now (sized width height) image.old a image.new
        × (block.new ≡ block_or_lem a block.old))
        result }
{
    let pic = Picture::sized(width, height);
    pictures::opaque(data, pic, image, block)
}

// The same of a picture with a pitch.
#[unsafe(no_mangle)]
pub extern "C" fn yalivucu_decode_etc2_rgba1_opaque_pitched(
    data: &[u8],
    width: usize,
    height: usize,
    pitch: usize,
    image: &mut [u32],
    block: &mut usize,
) -> u32
    ensures { Told
        (λ a. ReadsOpaque «data».now (pitched width height pitch) image.old a image.new
        × (block.new ≡ block_or_lem a block.old))
        result }
{
    let pic = Picture {
        width,
        height,
        pitch,
    };
    pictures::opaque(data, pic, image, block)
}

// Checks an ETC1 picture as the strict reader does, with no image. Where it refuses for a block out of range, `block` is its number;
// otherwise `block` stays as it was.
#[unsafe(no_mangle)]
pub extern "C" fn yalivucu_check_strict(
    data: &[u8],
    width: usize,
    height: usize,
    block: &mut usize,
) -> u32
    ensures { Told
        (λ a. ChecksStrict «data».now (sized width height) a × (block.new ≡ block_or_lem a block.old))
        result }
{
    pictures::check_strict(data, width, height, block)
}

// Checks an ETC2 RGBA1 picture as the reader of an opaque-only viewer does, with no image. Where it refuses for a block whose opaque bit
// is clear, `block` is its number; otherwise `block` stays as it was.
#[unsafe(no_mangle)]
pub extern "C" fn yalivucu_check_opaque(
    data: &[u8],
    width: usize,
    height: usize,
    block: &mut usize,
) -> u32
    ensures { Told
        (λ a. ChecksOpaque «data».now (sized width height) a × (block.new ≡ block_or_lem a block.old))
        result }
{
    pictures::check_opaque(data, width, height, block)
}

// Reads all eleven bits of an EAC R picture, 0 to 2047, into 16-bit numbers.
#[unsafe(no_mangle)]
pub extern "C" fn yalivucu_decode_eacr11(
    data: &[u8],
    width: usize,
    height: usize,
    image: &mut [u16],
) -> u32
    ensures { Told
        (λ a. ReadsWhole false 1 «data».now (sized width height) image.old a image.new)
        result }
{
    pictures::read_whole(false, false, data, width, height, width, image)
}

// The same of a picture with a pitch, in pixels.
#[unsafe(no_mangle)]
pub extern "C" fn yalivucu_decode_eacr11_pitched(
    data: &[u8],
    width: usize,
    height: usize,
    pitch: usize,
    image: &mut [u16],
) -> u32
    ensures { Told
        (λ a. ReadsWhole false 1 «data».now (pitched width height pitch) image.old a image.new)
        result }
{
    pictures::read_whole(false, false, data, width, height, pitch, image)
}

// The same of a signed EAC R picture, -1023 to 1023: a negative number is in two's complement.
#[unsafe(no_mangle)]
pub extern "C" fn yalivucu_decode_eacr11_signed(
    data: &[u8],
    width: usize,
    height: usize,
    image: &mut [u16],
) -> u32
    ensures { Told
        (λ a. ReadsWhole true 1 «data».now (sized width height) image.old a image.new)
        result }
{
    pictures::read_whole(false, true, data, width, height, width, image)
}

// The same of a picture with a pitch, in pixels.
#[unsafe(no_mangle)]
pub extern "C" fn yalivucu_decode_eacr11_signed_pitched(
    data: &[u8],
    width: usize,
    height: usize,
    pitch: usize,
    image: &mut [u16],
) -> u32
    ensures { Told
        (λ a. ReadsWhole true 1 «data».now (pitched width height pitch) image.old a image.new)
        result }
{
    pictures::read_whole(false, true, data, width, height, pitch, image)
}

// Reads all eleven bits of an EAC RG picture: two numbers to a pixel, red then green.
#[unsafe(no_mangle)]
pub extern "C" fn yalivucu_decode_eacrg11(
    data: &[u8],
    width: usize,
    height: usize,
    image: &mut [u16],
) -> u32
    ensures { Told
        (λ a. ReadsWhole false 2 «data».now (sized width height) image.old a image.new)
        result }
{
    pictures::read_whole(true, false, data, width, height, width, image)
}

// The same of a picture with a pitch, in pixels.
#[unsafe(no_mangle)]
pub extern "C" fn yalivucu_decode_eacrg11_pitched(
    data: &[u8],
    width: usize,
    height: usize,
    pitch: usize,
    image: &mut [u16],
) -> u32
    ensures { Told
        (λ a. ReadsWhole false 2 «data».now (pitched width height pitch) image.old a image.new)
        result }
{
    pictures::read_whole(true, false, data, width, height, pitch, image)
}

// The same of a signed EAC RG picture.
#[unsafe(no_mangle)]
pub extern "C" fn yalivucu_decode_eacrg11_signed(
    data: &[u8],
    width: usize,
    height: usize,
    image: &mut [u16],
) -> u32
    ensures { Told
        (λ a. ReadsWhole true 2 «data».now (sized width height) image.old a image.new)
        result }
{
    pictures::read_whole(true, true, data, width, height, width, image)
}

// The same of a picture with a pitch, in pixels.
#[unsafe(no_mangle)]
pub extern "C" fn yalivucu_decode_eacrg11_signed_pitched(
    data: &[u8],
    width: usize,
    height: usize,
    pitch: usize,
    image: &mut [u16],
) -> u32
    ensures { Told
        (λ a. ReadsWhole true 2 «data».now (pitched width height pitch) image.old a image.new)
        result }
{
    pictures::read_whole(true, true, data, width, height, pitch, image)
}

// Reads an ETC1 block of 8 bytes into the elements 0 to 15.
#[unsafe(no_mangle)]
pub extern "C" fn yalivucu_decode_etc1_block(data: &[u8], out: &mut [u32]) -> u32
    ensures { Told (λ a. ReadsBlock Format.Etc1 «data».now out.old a out.new) result }
{
    readers::number(readers::decode_etc1_block(data, out))
}

// Reads an ETC2 RGB block of 8 bytes into the elements 0 to 15.
#[unsafe(no_mangle)]
pub extern "C" fn yalivucu_decode_etc2_rgb_block(data: &[u8], out: &mut [u32]) -> u32
    ensures { Told (λ a. ReadsBlock Format.Etc2Rgb «data».now out.old a out.new) result }
{
    readers::number(readers::decode_etc2_rgb_block(data, out))
}

// Reads an ETC2 RGBA1 block of 8 bytes into the elements 0 to 15.
#[unsafe(no_mangle)]
pub extern "C" fn yalivucu_decode_etc2_rgba1_block(data: &[u8], out: &mut [u32]) -> u32
    ensures { Told (λ a. ReadsBlock Format.Etc2Rgba1 «data».now out.old a out.new) result }
{
    readers::number(readers::decode_etc2_rgba1_block(data, out))
}

// Reads an ETC2 RGBA8 block of 16 bytes into the elements 0 to 15.
#[unsafe(no_mangle)]
pub extern "C" fn yalivucu_decode_etc2_rgba8_block(data: &[u8], out: &mut [u32]) -> u32
    ensures { Told (λ a. ReadsBlock Format.Etc2Rgba8 «data».now out.old a out.new) result }
{
    readers::number(readers::decode_etc2_rgba8_block(data, out))
}

// Reads an EAC R block of 8 bytes into the elements 0 to 15.
#[unsafe(no_mangle)]
pub extern "C" fn yalivucu_decode_eacr_block(data: &[u8], out: &mut [u32]) -> u32
    ensures { Told (λ a. ReadsBlock Format.EacR «data».now out.old a out.new) result }
{
    readers::number(readers::decode_eacr_block(data, out))
}

// Reads a signed EAC R block of 8 bytes into the elements 0 to 15.
#[unsafe(no_mangle)]
pub extern "C" fn yalivucu_decode_eacr_signed_block(data: &[u8], out: &mut [u32]) -> u32
    ensures { Told (λ a. ReadsBlock Format.EacRSigned «data».now out.old a out.new) result }
{
    readers::number(readers::decode_eacr_signed_block(data, out))
}

// Reads an EAC RG block of 16 bytes into the elements 0 to 15.
#[unsafe(no_mangle)]
pub extern "C" fn yalivucu_decode_eacrg_block(data: &[u8], out: &mut [u32]) -> u32
    ensures { Told (λ a. ReadsBlock Format.EacRg «data».now out.old a out.new) result }
{
    readers::number(readers::decode_eacrg_block(data, out))
}

// Reads a signed EAC RG block of 16 bytes into the elements 0 to 15.
#[unsafe(no_mangle)]
pub extern "C" fn yalivucu_decode_eacrg_signed_block(data: &[u8], out: &mut [u32]) -> u32
    ensures { Told (λ a. ReadsBlock Format.EacRgSigned «data».now out.old a out.new) result }
{
    readers::number(readers::decode_eacrg_signed_block(data, out))
}

// Reads a BC1 block of 8 bytes without alpha into the elements 0 to 15.
#[unsafe(no_mangle)]
pub extern "C" fn yalivucu_decode_bc1_block(data: &[u8], out: &mut [u32]) -> u32
    ensures { Told (λ a. ReadsBlock Format.Bc1 «data».now out.old a out.new) result }
{
    readers::number(readers::decode_bc1_block(data, out))
}

// Reads a BC1 block of 8 bytes with one bit of alpha into the elements 0 to 15.
#[unsafe(no_mangle)]
pub extern "C" fn yalivucu_decode_bc1a_block(data: &[u8], out: &mut [u32]) -> u32
    ensures { Told (λ a. ReadsBlock Format.Bc1Alpha «data».now out.old a out.new) result }
{
    readers::number(readers::decode_bc1a_block(data, out))
}

// Reads a BC3 block of 16 bytes into the elements 0 to 15.
#[unsafe(no_mangle)]
pub extern "C" fn yalivucu_decode_bc3_block(data: &[u8], out: &mut [u32]) -> u32
    ensures { Told (λ a. ReadsBlock Format.Bc3 «data».now out.old a out.new) result }
{
    readers::number(readers::decode_bc3_block(data, out))
}

// Reads a BC7 block of 16 bytes into the elements 0 to 15.
#[unsafe(no_mangle)]
pub extern "C" fn yalivucu_decode_bc7_block(data: &[u8], out: &mut [u32]) -> u32
    ensures { Told (λ a. ReadsBlock Format.Bc7 «data».now out.old a out.new) result }
{
    readers::number(readers::decode_bc7_block(data, out))
}

// Reads a BC2 block of 16 bytes into the elements 0 to 15.
#[unsafe(no_mangle)]
pub extern "C" fn yalivucu_decode_bc2_block(data: &[u8], out: &mut [u32]) -> u32
    ensures { Told (λ a. ReadsBlock Format.Bc2 «data».now out.old a out.new) result }
{
    readers::number(readers::decode_bc2_block(data, out))
}

// Reads a BC4 block of 8 bytes into the elements 0 to 15.
#[unsafe(no_mangle)]
pub extern "C" fn yalivucu_decode_bc4_block(data: &[u8], out: &mut [u32]) -> u32
    ensures { Told (λ a. ReadsBlock Format.Bc4 «data».now out.old a out.new) result }
{
    readers::number(readers::decode_bc4_block(data, out))
}

// Reads a signed BC4 block of 8 bytes into the elements 0 to 15.
#[unsafe(no_mangle)]
pub extern "C" fn yalivucu_decode_bc4_signed_block(data: &[u8], out: &mut [u32]) -> u32
    ensures { Told (λ a. ReadsBlock Format.Bc4Signed «data».now out.old a out.new) result }
{
    readers::number(readers::decode_bc4_signed_block(data, out))
}

// Reads a BC5 block of 16 bytes into the elements 0 to 15.
#[unsafe(no_mangle)]
pub extern "C" fn yalivucu_decode_bc5_block(data: &[u8], out: &mut [u32]) -> u32
    ensures { Told (λ a. ReadsBlock Format.Bc5 «data».now out.old a out.new) result }
{
    readers::number(readers::decode_bc5_block(data, out))
}

// Reads a signed BC5 block of 16 bytes into the elements 0 to 15.
#[unsafe(no_mangle)]
pub extern "C" fn yalivucu_decode_bc5_signed_block(data: &[u8], out: &mut [u32]) -> u32
    ensures { Told (λ a. ReadsBlock Format.Bc5Signed «data».now out.old a out.new) result }
{
    readers::number(readers::decode_bc5_signed_block(data, out))
}

// Reads an alpha half of 8 bytes into the top bytes of the elements 0 to 15, and keeps the rest of them.
#[unsafe(no_mangle)]
pub extern "C" fn yalivucu_decode_etc2_a8_block(data: &[u8], out: &mut [u32]) -> u32
    ensures { Told (λ a. ReadsAlpha «data».now out.old a out.new) result }
{
    readers::number(readers::decode_etc2_a8_block(data, out))
}

// Reads an EAC block of 8 bytes and ORs its bytes into channel 0 blue, 1 green, 2 red or 3 alpha of the elements 0 to 15.
#[unsafe(no_mangle)]
pub extern "C" fn yalivucu_decode_eac_block(data: &[u8], channel: usize, out: &mut [u32]) -> u32
    ensures { Told (λ a. ReadsChannel false «data».now channel out.old a out.new) result }
{
    readers::number(readers::decode_eac_block(data, channel, out))
}

// Reads a signed EAC block of 8 bytes and ORs its bytes into channel 0 blue, 1 green, 2 red or 3 alpha of the elements 0 to 15.
#[unsafe(no_mangle)]
pub extern "C" fn yalivucu_decode_eac_signed_block(
    data: &[u8],
    channel: usize,
    out: &mut [u32],
) -> u32
    ensures { Told (λ a. ReadsChannel true «data».now channel out.old a out.new) result }
{
    readers::number(readers::decode_eac_signed_block(data, channel, out))
}

// Reads the alpha half of a BC3 block, 8 bytes, into channel 0 blue, 1 green, 2 red or 3 alpha of the elements 0 to 15, in place of the
// byte that stood there.
#[unsafe(no_mangle)]
pub extern "C" fn yalivucu_decode_bc3_alpha(data: &[u8], channel: usize, out: &mut [u32]) -> u32
    ensures { Told (λ a. ReplacesChannel «data».now channel out.old a out.new) result }
{
    readers::number(readers::decode_bc3_alpha(data, channel, out))
}

// Counts the blocks of each kind of an ETC2 RGB picture: individual, differential, T, H, planar.
#[unsafe(no_mangle)]
pub extern "C" fn yalivucu_census_etc2_rgb(
    data: &[u8],
    width: usize,
    height: usize,
    counts: &mut [usize],
) -> u32
    ensures { Told (λ a. CountsInto rgb_tests «data».now (sized width height)
        counts.old a counts.new) result }
{
    match readers::census_etc2_rgb(data, width, height) {
        Err(refusal) => answer_numbers::refusal_number(refusal),
        Ok(c) => {
            let five = [c.individual, c.differential, c.t, c.h, c.planar];
            census_lent::lay(&five, counts)
        }
    }
}

// Counts the blocks of each kind of an ETC2 RGBA1 picture: differential, T, H, planar with the opaque bit set, and then with it clear.
#[unsafe(no_mangle)]
pub extern "C" fn yalivucu_census_etc2_rgba1(
    data: &[u8],
    width: usize,
    height: usize,
    counts: &mut [usize],
) -> u32
    ensures { Told (λ a. CountsInto rgba1_tests «data».now (sized width height)
        counts.old a counts.new) result }
{
    match readers::census_etc2_rgba1(data, width, height) {
        Err(refusal) => answer_numbers::refusal_number(refusal),
        Ok(c) => {
            let o = c.opaque;
            let u = c.clear;
            let eight = [
                o.differential,
                o.t,
                o.h,
                o.planar,
                u.differential,
                u.t,
                u.h,
                u.planar,
            ];
            census_lent::lay(&eight, counts)
        }
    }
}

// Counts what an older viewer shows wrong: the six counts are laid into the room where they fit.
fn older_counts(
    viewer: Viewer,
    data: &[u8],
    width: usize,
    height: usize,
    counts: &mut [usize],
) -> u32
    ensures { Told (λ a. OlderInto (guard_of viewer) «data».now (sized width height)
        counts.old a counts.new) result }
{
    let pic = Picture::sized(width, height);
    match older::count(viewer, data, pic) {
        Err(refusal) => answer_numbers::refusal_number(refusal),
        Ok(c) => {
            let colour = c.colour as usize;
            let alpha = c.alpha as usize;
            let six = [c.pixels, c.blocks, c.block, c.place, colour, alpha];
            census_lent::lay(&six, counts)
        }
    }
}

// Counts what a viewer that knows ETC1 alone shows wrong of an ETC2 RGB picture: pixels, blocks, the first such block and its first such
// place, and the largest differences of a colour and of an alpha.
#[unsafe(no_mangle)]
pub extern "C" fn yalivucu_older_etc1(
    data: &[u8],
    width: usize,
    height: usize,
    counts: &mut [usize],
) -> u32
    ensures { Told (λ a. OlderInto in_range «data».now (sized width height)
        counts.old a counts.new) result }
{
    older_counts(Viewer::Etc1, data, width, height, counts)
}

// The same of a viewer that knows ETC2 RGB, but nothing transparent, and an RGBA1 picture.
#[unsafe(no_mangle)]
pub extern "C" fn yalivucu_older_rgb(
    data: &[u8],
    width: usize,
    height: usize,
    counts: &mut [usize],
) -> u32
    ensures { Told (λ a. OlderInto opaque_only «data».now (sized width height)
        counts.old a counts.new) result }
{
    older_counts(Viewer::Opaque, data, width, height, counts)
}

// Tells the head of a sheet. With answer 0 alone, the format, the width and the height are written.
#[unsafe(no_mangle)]
pub extern "C" fn yalivucu_sheet_head(
    sheet: &[u8],
    format: &mut usize,
    width: &mut usize,
    height: &mut usize,
) -> u32
    ensures { HeadTold
        sheet.now
        format.old
        width.old
        height.old
        result
        format.new
        width.new
        height.new }
{
    match readers::sheet_head(sheet) {
        Ok(head) => {
            *format = usize::from(head.format);
            *width = head.width;
            *height = head.height;
            0
        }
        Err(refusal) => answer_numbers::refusal_number(refusal),
    }
}

// Reads a sheet.
#[unsafe(no_mangle)]
pub extern "C" fn yalivucu_read_sheet(sheet: &[u8], image: &mut [u32]) -> u32
    ensures { Told (λ a. ReadsSheet sheet.now image.old a image.new) result }
{
    readers::number(readers::read_sheet(sheet, image))
}

// Writes a sheet. With answer 0 alone, the number of its bytes is written.
#[unsafe(no_mangle)]
pub extern "C" fn yalivucu_write_sheet(
    format: usize,
    width: usize,
    height: usize,
    blocks: &[u8],
    room: &mut [u8],
    written: &mut usize,
) -> u32
    ensures { WriterTold
        format
        (sized width height)
        blocks.now
        room.old
        written.old
        result
        room.new
        written.new }
{
    match readers::write_sheet(format, width, height, blocks, room) {
        Ok(bytes) => {
            *written = bytes;
            0
        }
        Err(refusal) => answer_numbers::refusal_number(refusal),
    }
}

// Starts to read an ETC1 picture in pieces; the caller keeps the state, in the two arrays.
#[unsafe(no_mangle)]
pub extern "C" fn yalivucu_start_etc1(
    width: usize,
    height: usize,
    pitch: usize,
    image: &[u32],
    numbers: &mut [usize; 5],
    kept: &mut [u8; 15],
) -> u32
    ensures { Told
        (λ a. StartLent Format.Etc1 (pitched width height pitch) (length image.now)
        a numbers.new kept.new)
        result }
{
    let pic = Picture {
        width,
        height,
        pitch,
    };
    readers::number(pieces_lent::start(Format::Etc1, pic, image, numbers, kept))
}

// Starts to read an ETC2 RGB picture in pieces; the caller keeps the state, in the two arrays.
#[unsafe(no_mangle)]
pub extern "C" fn yalivucu_start_etc2_rgb(
    width: usize,
    height: usize,
    pitch: usize,
    image: &[u32],
    numbers: &mut [usize; 5],
    kept: &mut [u8; 15],
) -> u32
    ensures { Told
        (λ a. StartLent Format.Etc2Rgb (pitched width height pitch) (length image.now)
        a numbers.new kept.new)
        result }
{
    let pic = Picture {
        width,
        height,
        pitch,
    };
    readers::number(pieces_lent::start(Format::Etc2Rgb, pic, image, numbers, kept))
}

// Starts to read an ETC2 RGBA1 picture in pieces; the caller keeps the state, in the two arrays.
#[unsafe(no_mangle)]
pub extern "C" fn yalivucu_start_etc2_rgba1(
    width: usize,
    height: usize,
    pitch: usize,
    image: &[u32],
    numbers: &mut [usize; 5],
    kept: &mut [u8; 15],
) -> u32
    ensures { Told
        (λ a. StartLent Format.Etc2Rgba1 (pitched width height pitch) (length image.now)
        a numbers.new kept.new)
        result }
{
    let pic = Picture {
        width,
        height,
        pitch,
    };
    readers::number(pieces_lent::start(Format::Etc2Rgba1, pic, image, numbers, kept))
}

// Starts to read an ETC2 RGBA8 picture in pieces; the caller keeps the state, in the two arrays.
#[unsafe(no_mangle)]
pub extern "C" fn yalivucu_start_etc2_rgba8(
    width: usize,
    height: usize,
    pitch: usize,
    image: &[u32],
    numbers: &mut [usize; 5],
    kept: &mut [u8; 15],
) -> u32
    ensures { Told
        (λ a. StartLent Format.Etc2Rgba8 (pitched width height pitch) (length image.now)
        a numbers.new kept.new)
        result }
{
    let pic = Picture {
        width,
        height,
        pitch,
    };
    readers::number(pieces_lent::start(Format::Etc2Rgba8, pic, image, numbers, kept))
}

// Starts to read an EAC R picture in pieces; the caller keeps the state, in the two arrays.
#[unsafe(no_mangle)]
pub extern "C" fn yalivucu_start_eacr(
    width: usize,
    height: usize,
    pitch: usize,
    image: &[u32],
    numbers: &mut [usize; 5],
    kept: &mut [u8; 15],
) -> u32
    ensures { Told
        (λ a. StartLent Format.EacR (pitched width height pitch) (length image.now)
        a numbers.new kept.new)
        result }
{
    let pic = Picture {
        width,
        height,
        pitch,
    };
    readers::number(pieces_lent::start(Format::EacR, pic, image, numbers, kept))
}

// Starts to read a signed EAC R picture in pieces; the caller keeps the state, in the two arrays.
#[unsafe(no_mangle)]
pub extern "C" fn yalivucu_start_eacr_signed(
    width: usize,
    height: usize,
    pitch: usize,
    image: &[u32],
    numbers: &mut [usize; 5],
    kept: &mut [u8; 15],
) -> u32
    ensures { Told
        (λ a. StartLent Format.EacRSigned (pitched width height pitch) (length image.now)
        a numbers.new kept.new)
        result }
{
    let pic = Picture {
        width,
        height,
        pitch,
    };
    readers::number(pieces_lent::start(Format::EacRSigned, pic, image, numbers, kept))
}

// Starts to read an EAC RG picture in pieces; the caller keeps the state, in the two arrays.
#[unsafe(no_mangle)]
pub extern "C" fn yalivucu_start_eacrg(
    width: usize,
    height: usize,
    pitch: usize,
    image: &[u32],
    numbers: &mut [usize; 5],
    kept: &mut [u8; 15],
) -> u32
    ensures { Told
        (λ a. StartLent Format.EacRg (pitched width height pitch) (length image.now)
        a numbers.new kept.new)
        result }
{
    let pic = Picture {
        width,
        height,
        pitch,
    };
    readers::number(pieces_lent::start(Format::EacRg, pic, image, numbers, kept))
}

// Starts to read a signed EAC RG picture in pieces; the caller keeps the state, in the two arrays.
#[unsafe(no_mangle)]
pub extern "C" fn yalivucu_start_eacrg_signed(
    width: usize,
    height: usize,
    pitch: usize,
    image: &[u32],
    numbers: &mut [usize; 5],
    kept: &mut [u8; 15],
) -> u32
    ensures { Told
        (λ a. StartLent Format.EacRgSigned (pitched width height pitch) (length image.now)
        a numbers.new kept.new)
        result }
{
    let pic = Picture {
        width,
        height,
        pitch,
    };
    readers::number(pieces_lent::start(Format::EacRgSigned, pic, image, numbers, kept))
}

// Starts to read a BC1 picture without alpha in pieces; the caller keeps the state, in the two arrays.
#[unsafe(no_mangle)]
pub extern "C" fn yalivucu_start_bc1(
    width: usize,
    height: usize,
    pitch: usize,
    image: &[u32],
    numbers: &mut [usize; 5],
    kept: &mut [u8; 15],
) -> u32
    ensures { Told
        (λ a. StartLent Format.Bc1 (pitched width height pitch) (length image.now)
        a numbers.new kept.new)
        result }
{
    let pic = Picture {
        width,
        height,
        pitch,
    };
    readers::number(pieces_lent::start(Format::Bc1, pic, image, numbers, kept))
}

// Starts to read a BC1 picture with one bit of alpha in pieces; the caller keeps the state, in the two arrays.
#[unsafe(no_mangle)]
pub extern "C" fn yalivucu_start_bc1a(
    width: usize,
    height: usize,
    pitch: usize,
    image: &[u32],
    numbers: &mut [usize; 5],
    kept: &mut [u8; 15],
) -> u32
    ensures { Told
        (λ a. StartLent Format.Bc1Alpha (pitched width height pitch) (length image.now)
        a numbers.new kept.new)
        result }
{
    let pic = Picture {
        width,
        height,
        pitch,
    };
    readers::number(pieces_lent::start(Format::Bc1Alpha, pic, image, numbers, kept))
}

// Starts to read a BC3 picture in pieces; the caller keeps the state, in the two arrays.
#[unsafe(no_mangle)]
pub extern "C" fn yalivucu_start_bc3(
    width: usize,
    height: usize,
    pitch: usize,
    image: &[u32],
    numbers: &mut [usize; 5],
    kept: &mut [u8; 15],
) -> u32
    ensures { Told
        (λ a. StartLent Format.Bc3 (pitched width height pitch) (length image.now)
        a numbers.new kept.new)
        result }
{
    let pic = Picture {
        width,
        height,
        pitch,
    };
    readers::number(pieces_lent::start(Format::Bc3, pic, image, numbers, kept))
}

// Starts to read a BC7 picture in pieces; the caller keeps the state, in the two arrays.
#[unsafe(no_mangle)]
pub extern "C" fn yalivucu_start_bc7(
    width: usize,
    height: usize,
    pitch: usize,
    image: &[u32],
    numbers: &mut [usize; 5],
    kept: &mut [u8; 15],
) -> u32
    ensures { Told
        (λ a. StartLent Format.Bc7 (pitched width height pitch) (length image.now) a numbers.new kept.new)
        result }
{
    let pic = Picture {
        width,
        height,
        pitch,
    };
    readers::number(pieces_lent::start(Format::Bc7, pic, image, numbers, kept))
}

// Starts to read a BC2 picture in pieces; the caller keeps the state, in the two arrays.
#[unsafe(no_mangle)]
pub extern "C" fn yalivucu_start_bc2(
    width: usize,
    height: usize,
    pitch: usize,
    image: &[u32],
    numbers: &mut [usize; 5],
    kept: &mut [u8; 15],
) -> u32
    ensures { Told
        (λ a. StartLent Format.Bc2 (pitched width height pitch) (length image.now) a numbers.new kept.new)
        result }
{
    let pic = Picture {
        width,
        height,
        pitch,
    };
    readers::number(pieces_lent::start(Format::Bc2, pic, image, numbers, kept))
}

// Starts to read a BC4 picture in pieces; the caller keeps the state, in the two arrays.
#[unsafe(no_mangle)]
pub extern "C" fn yalivucu_start_bc4(
    width: usize,
    height: usize,
    pitch: usize,
    image: &[u32],
    numbers: &mut [usize; 5],
    kept: &mut [u8; 15],
) -> u32
    ensures { Told
        (λ a. StartLent Format.Bc4 (pitched width height pitch) (length image.now) a numbers.new kept.new)
        result }
{
    let pic = Picture {
        width,
        height,
        pitch,
    };
    readers::number(pieces_lent::start(Format::Bc4, pic, image, numbers, kept))
}

// Starts to read a signed BC4 picture in pieces; the caller keeps the state, in the two arrays.
#[unsafe(no_mangle)]
pub extern "C" fn yalivucu_start_bc4_signed(
    width: usize,
    height: usize,
    pitch: usize,
    image: &[u32],
    numbers: &mut [usize; 5],
    kept: &mut [u8; 15],
) -> u32
    ensures { Told
        (λ a. StartLent Format.Bc4Signed (pitched width height pitch) (length image.now)
        a numbers.new kept.new)
        result }
{
    let pic = Picture {
        width,
        height,
        pitch,
    };
    readers::number(pieces_lent::start(Format::Bc4Signed, pic, image, numbers, kept))
}

// Starts to read a BC5 picture in pieces; the caller keeps the state, in the two arrays.
#[unsafe(no_mangle)]
pub extern "C" fn yalivucu_start_bc5(
    width: usize,
    height: usize,
    pitch: usize,
    image: &[u32],
    numbers: &mut [usize; 5],
    kept: &mut [u8; 15],
) -> u32
    ensures { Told
        (λ a. StartLent Format.Bc5 (pitched width height pitch) (length image.now) a numbers.new kept.new)
        result }
{
    let pic = Picture {
        width,
        height,
        pitch,
    };
    readers::number(pieces_lent::start(Format::Bc5, pic, image, numbers, kept))
}

// Starts to read a signed BC5 picture in pieces; the caller keeps the state, in the two arrays.
#[unsafe(no_mangle)]
pub extern "C" fn yalivucu_start_bc5_signed(
    width: usize,
    height: usize,
    pitch: usize,
    image: &[u32],
    numbers: &mut [usize; 5],
    kept: &mut [u8; 15],
) -> u32
    ensures { Told
        (λ a. StartLent Format.Bc5Signed (pitched width height pitch) (length image.now)
        a numbers.new kept.new)
        result }
{
    let pic = Picture {
        width,
        height,
        pitch,
    };
    readers::number(pieces_lent::start(Format::Bc5Signed, pic, image, numbers, kept))
}

// Takes a piece of a picture that was started.
#[unsafe(no_mangle)]
pub extern "C" fn yalivucu_take_piece(
    numbers: &mut [usize; 5],
    kept: &mut [u8; 15],
    bytes: &[u8],
    image: &mut [u32],
    painted: &mut usize,
    unused: &mut usize,
) -> u32
    ensures { Told
        (λ a. PieceLent numbers.old kept.old bytes.now image.old
        a numbers.new kept.new painted.new unused.new image.new)
        result }
{
    readers::number(pieces_lent::take_piece(numbers, kept, bytes, image, painted, unused))
}

// Ends a picture that was started.
#[unsafe(no_mangle)]
pub extern "C" fn yalivucu_end_pieces(numbers: &[usize; 5], kept: &[u8; 15]) -> u32
    ensures { Told (λ a. Ends (state_in_lem numbers.now kept.now) a) result }
{
    readers::number(pieces_lent::end(numbers, kept))
}

// The reading at a pixel, by a legend of kind 0 level, 1 line or 2 bend; any other kind is refused with 13. With answer 0 alone, its three
// values are written.
#[unsafe(no_mangle)]
pub extern "C" fn yalivucu_read_degrees(
    kind: usize,
    low: f32,
    step: f32,
    second: f32,
    legend_digit: usize,
    picture_digit: usize,
    pixel: u32,
    measured: f32,
    predicted: &mut f32,
    seen: &mut f32,
    difference: &mut f32,
) -> u32
    ensures { DegreesTold
        (legend_at_lem kind low step second)
        legend_digit
        picture_digit
        pixel
        measured
        predicted.old
        seen.old
        difference.old
        result
        predicted.new
        seen.new
        difference.new }
{
    degrees_lent::read(
        kind,
        low,
        step,
        second,
        legend_digit,
        picture_digit,
        pixel,
        measured,
        predicted,
        seen,
        difference,
    )
}

// Checks an ETC1 block against a tile.
#[unsafe(no_mangle)]
pub extern "C" fn yalivucu_check_etc1_block(block: &[u8], tile: &[u32], tolerance: u32) -> u32
    ensures { BakingTold (λ a. Checks tolerance block.now tile.now a) result }
{
    readers::baking_number(readers::check_etc1_block(block, tile, tolerance))
}

// Bakes an individual ETC1 block.
#[unsafe(no_mangle)]
pub extern "C" fn yalivucu_bake_etc1_block(
    first: &[u8; 3],
    second: &[u8; 3],
    flip: usize,
    tile: &[u32],
    block: &mut [u8],
) -> u32
    ensures { BakingTold
        (λ a. Bakes first.now second.now flip tile.now a block.old block.new)
        result }
{
    readers::baking_number(readers::bake_etc1_block(*first, *second, flip, tile, block))
}

// Opens a texture file. With answer 0 alone, nine numbers are written: the container, the format, 1 where it is sRGB, the width, the
// height, the number of levels, 1 where the greatest byte is first, the orientation, and the bytes that are left over.
#[unsafe(no_mangle)]
pub extern "C" fn yalivucu_open_file(data: &[u8], out: &mut [usize; 9]) -> u32
    ensures { FileTold «data».now out.old result out.new }
{
    file::lent::open_file(data, out)
}

// A level of a texture file. With answer 0 alone, four numbers are written: the width, the height, the start and the length.
#[unsafe(no_mangle)]
pub extern "C" fn yalivucu_file_level(data: &[u8], level: usize, out: &mut [usize; 4]) -> u32
    ensures { LevelTold «data».now level out.old result out.new }
{
    file::lent::file_level(data, level, out)
}
