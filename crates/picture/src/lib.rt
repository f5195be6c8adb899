// Whole pictures: the checks, then every block in its place, said once for all formats; and the readers of older viewers, which look
// at every block before they paint one, said once for both, with a check of each that paints nothing.
#![tactic(auto)]

pub mod paint;

ghost use Rattle.std.specs.Prelude.{◌≡◌, length};
ghost use Rattle.rules.specs.Places.{sized};
ghost use Rattle.rules.specs.Answers.{said, verdict};
ghost use Rattle.rules.specs.Formats.{size_of};
ghost use Rattle.rules.specs.Guards.{guard_verdict};
ghost use Rattle.rules.specs.Readers.{picture_of, ReadsPicture, ReadsGuarded, ReadsStrict, ReadsOpaque, ChecksStrict, ChecksOpaque};
ghost use Rattle.checks.specs.Passed.{Passed};
ghost use Rattle.guard.specs.Viewers.{guard_of};
ghost use Rattle.picture.specs.Checked.{checks_for, data_checks_for};

use guard::Viewer;
use rules::{Format, Picture, Refusal};

// Paints the whole of a picture that has passed the checks.
fn paint_all(f: Format, data: &[u8], pic: Picture, image: &mut [u32])
    requires { Passed (size_of f) pic (length «data».now) (length image.old) }
    ensures { image.new ≡ picture_of f pic «data».now image.old }
{
    paint::paint(f, data, pic, 0, checks::blocks_of(pic), image);
}

// Reads a picture of any format: the answer and every element of the image, for all inputs.
pub fn read_picture(f: Format, data: &[u8], pic: Picture, image: &mut [u32]) -> Result<(), Refusal>
    ensures { ReadsPicture f «data».now pic image.old result image.new }
{
    checks::verify(checks::size(f), pic, data.len(), image.len())?;
    paint_all(f, data, pic, image);
    Ok(())
}

// The checks of a viewer's reader.
fn verify(viewer: Viewer, pic: Picture, bytes: usize, elements: usize) -> Result<(), Refusal>
    ensures { said result ≡ verdict (checks_for viewer pic bytes elements) }
{
    match viewer {
        Viewer::Etc1 => checks::verify_exact(8, pic, bytes, elements),
        Viewer::Opaque => checks::verify(8, pic, bytes, elements),
    }
}

// The answer of a viewer's reader: the checks, then every block, before one is painted.
fn guarded_answer(viewer: Viewer, d: &[u8], pic: Picture, elements: usize) -> Result<(), Refusal>
    ensures { said result ≡
        guard_verdict (guard_of viewer) (checks_for viewer pic (length d.now) elements) pic d.now }
{
    verify(viewer, pic, d.len(), elements)?;
    guard::refusal(viewer, d, 0, checks::blocks_of(pic))
}

// Reads a picture by the rule that an older viewer has, or refuses it for the first block that this viewer must not show: the answer
// and every element of the image, for all inputs. What is painted is what the newer rule shows.
fn read_guarded(viewer: Viewer, data: &[u8], pic: Picture, image: &mut [u32]) -> Result<(), Refusal>
    ensures { ReadsGuarded (guard_of viewer) (checks_for viewer pic (length «data».now) (length image.old))
        «data».now pic image.old result image.new }
{
    guarded_answer(viewer, data, pic, image.len())?;
    paint_all(guard::own(viewer), data, pic, image);
    Ok(())
}

// Reads an ETC1 picture, or refuses it for bytes left over, or for a sum out of range and names the first such block: the answer and
// every element of the image, for all inputs.
pub fn read_strict(data: &[u8], pic: Picture, image: &mut [u32]) -> Result<(), Refusal>
    ensures { ReadsStrict «data».now pic image.old result image.new }
{
    read_guarded(Viewer::Etc1, data, pic, image)
}

// Reads an RGBA1 picture, or refuses it for an opaque bit that is clear and names the first such block: likewise.
pub fn read_opaque(data: &[u8], pic: Picture, image: &mut [u32]) -> Result<(), Refusal>
    ensures { ReadsOpaque «data».now pic image.old result image.new }
{
    read_guarded(Viewer::Opaque, data, pic, image)
}

// What a viewer's reader answers where the image is long enough: the largest picture needs 65,536 times 65,536 elements.
fn check(viewer: Viewer, data: &[u8], width: usize, height: usize) -> Result<(), Refusal>
    ensures { said result ≡ guard_verdict (guard_of viewer)
        (data_checks_for viewer (sized width height) (length «data».now)) (sized width height) «data».now }
{
    guarded_answer(viewer, data, Picture::sized(width, height), 0x100000000)
}

// Checks an ETC1 picture as its strict reader does, with the first block out of range, and paints nothing.
pub fn check_strict(data: &[u8], width: usize, height: usize) -> Result<(), Refusal>
    ensures { ChecksStrict «data».now (sized width height) result }
{
    check(Viewer::Etc1, data, width, height)
}

// Checks an RGBA1 picture as the reader of an opaque-only viewer does, with the first block whose opaque bit is clear: likewise.
pub fn check_opaque(data: &[u8], width: usize, height: usize) -> Result<(), Refusal>
    ensures { ChecksOpaque «data».now (sized width height) result }
{
    check(Viewer::Opaque, data, width, height)
}
