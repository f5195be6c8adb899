// The levels of a file: whether they all lie in it as it tells, and where one of them does.
ghost use Rattle.std.specs.Prelude.{◌≡◌, ◌+◌, ◌/◌, ◌<◌, ◌≤◌};
ghost use Rattle.rules.specs.Answers.{limit};
ghost use Rattle.rules.specs.FileLevels.{bytes_for_lem, halved as half_of, inside_of, after_size_lem, in_index_lem, fit_in};
ghost use Rattle.rules.specs.FileLevels.{levels_of, too_many_lem, held_of, opened_by, found_by};

use super::formats;
use rules::{Container, FileFacts, FileLevel, Format, Layout, Picture, Refusal, Spot};

// The bytes of the blocks of a picture.
#[tactic(auto, unfolding(rules::specs::FileLevels::bytes_for_lem))]
fn bytes_for(format: Format, width: usize, height: usize) -> usize
    requires { (width ≤ limit) × (height ≤ limit) }
    ensures { (result ≡ bytes_for_lem format width height) × (result ≤ 0x100000000) }
{
    let pic = Picture::sized(width, height);
    checks::blocks_of(pic) * checks::size(format)
}

// Half a side, and 1 at the least.
fn halved(side: usize) -> usize
    ensures { (result ≡ half_of side) × (result ≤ 1 + side / 2) }
{
    (side / 2).max(1)
}

// Where so many bytes start that lie in the file.
#[tactic(auto, unfolding(rules::specs::FileLevels::inside_of))]
fn inside(bytes: &[u8], start: usize, need: usize) -> Result<usize, Refusal>
    ensures { result ≡ inside_of bytes.now start need }
{
    if bytes.len() < start {
        return Err(Refusal::LevelsMissing);
    }
    if bytes.len() - start < need {
        return Err(Refusal::LevelsMissing);
    }
    Ok(start)
}

// A level of KTX 1, which has its size before it.
#[tactic(auto, unfolding(rules::specs::FileLevels::after_size_lem))]
fn after_size(order: bool, bytes: &[u8], at: usize, need: usize) -> Result<usize, Refusal>
    ensures { result ≡ after_size_lem order bytes.now at need }
{
    if bytes.len() < at {
        return Err(Refusal::LevelsMissing);
    }
    if bytes.len() - at < 4 {
        return Err(Refusal::LevelsMissing);
    }
    if formats::word(order, bytes, at) != need {
        return Err(Refusal::SizesDisagree);
    }
    inside(bytes, at + 4, need)
}

// A level of KTX 2, which has an entry in the index.
#[tactic(auto, unfolding(rules::specs::FileLevels::in_index_lem))]
fn in_index(bytes: &[u8], n: usize, need: usize) -> Result<usize, Refusal>
    requires { n < 256 }
    ensures { result ≡ in_index_lem bytes.now n need }
{
    if bytes.len() < 104 + 24 * n {
        return Err(Refusal::LevelsMissing);
    }
    if formats::little8(bytes, 88 + 24 * n) != need {
        return Err(Refusal::SizesDisagree);
    }
    inside(bytes, formats::little8(bytes, 80 + 24 * n), need)
}

// Where level n of so many bytes starts, by its container. The layout goes beside the bytes, here and below: it is a struct already, and
// one more around both would be no plainer.
#[tactic(auto, unfolding(rules::specs::FileLevels::fit_in))]
fn fit_of(l: Layout, bytes: &[u8], n: usize, at: usize, need: usize) -> Result<usize, Refusal>
    requires { n < 256 }
    ensures { result ≡ fit_in l.container l.big_endian bytes.now n at need }
{
    match l.container {
        Container::Ktx1 => after_size(l.big_endian, bytes, at, need),
        Container::Ktx2 => in_index(bytes, n, need),
        Container::Pkm | Container::Dds | Container::Sheet => inside(bytes, at, need),
    }
}

// The bytes that are left over behind the furthest of all levels, and level n where it is among them.
fn levels(bytes: &[u8], l: Layout, n: usize) -> Result<(usize, FileLevel), Refusal>
    requires { (l.width ≤ limit) × (l.height ≤ limit) × (l.levels < 256) }
    ensures { result ≡ levels_of l bytes.now n }
{
    let mut s = Spot {
        width: l.width,
        height: l.height,
        at: l.start,
    };
    let mut left = bytes.len();
    let mut found = FileLevel {
        width: 0,
        height: 0,
        start: 0,
        length: 0,
    };
    for i in 0..l.levels {
        let length = bytes_for(l.format, s.width, s.height);
        let start = fit_of(l, bytes, i, s.at, length)?;
        let end = start + length;
        left = left.min(bytes.len() - end);
        if n == i {
            found = FileLevel {
                width: s.width,
                height: s.height,
                start,
                length,
            };
        }
        s = Spot {
            width: halved(s.width),
            height: halved(s.height),
            at: end,
        };
    }
    Ok((left, found))
}

// Whether so many levels cannot follow one whose larger side is this.
fn too_many(larger: usize, more: usize) -> bool
    ensures { result ≡ too_many_lem larger more }
{
    let mut side = larger;
    for _ in 0..more {
        if side < 2 {
            return true;
        }
        side /= 2;
    }
    false
}

// What a header tells, held to the file, and level n where there is one.
#[tactic(auto, unfolding(rules::specs::FileLevels::held_of))]
pub fn held(l: Layout, bytes: &[u8], n: usize) -> Result<(usize, FileLevel), Refusal>
    ensures { result ≡ held_of l bytes.now n }
{
    let pic = Picture::sized(l.width, l.height);
    if l.width == 0 || l.height == 0 {
        return Err(Refusal::NoPixel);
    }
    if checks::too_large(65536, pic) {
        return Err(Refusal::TooLarge);
    }
    if !l.agrees {
        return Err(Refusal::SizesDisagree);
    }
    if too_many(l.width.max(l.height), l.levels.saturating_sub(1)) {
        return Err(Refusal::SizesDisagree);
    }
    levels(bytes, l, n)
}

// A file is opened, with what its header tells and the bytes that are left over.
#[tactic(auto, unfolding(rules::specs::FileLevels::opened_by))]
pub fn opened(l: Layout, held: Result<(usize, FileLevel), Refusal>) -> Result<FileFacts, Refusal>
    ensures { result ≡ opened_by l held }
{
    let (left_over, _) = held?;
    Ok(FileFacts {
        container: l.container,
        format: l.format,
        srgb: l.srgb,
        width: l.width,
        height: l.height,
        levels: l.levels,
        big_endian: l.big_endian,
        orientation: l.orientation,
        left_over,
    })
}

// Level n is found where the file is opened and has so many.
#[tactic(auto, unfolding(rules::specs::FileLevels::found_by))]
pub fn found(
    l: Layout,
    n: usize,
    held: Result<(usize, FileLevel), Refusal>,
) -> Result<FileLevel, Refusal>
    ensures { result ≡ found_by l n held }
{
    let (_, level) = held?;
    if n < l.levels {
        Ok(level)
    } else {
        Err(Refusal::NoLevel)
    }
}
