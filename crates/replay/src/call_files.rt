// Texture files: the facts of one, and the place of a level, as the first elements of the lent image.
use super::elements;
use rules::Refusal;

pub fn open(data: &[u8], image: &mut [u32]) -> Result<(), Refusal> {
    let f = readers::open_file(data)?;
    let facts = [
        usize::from(f.container),
        usize::from(f.format),
        usize::from(f.srgb),
        f.width,
        f.height,
        f.levels,
        usize::from(f.big_endian),
        usize::from(f.orientation),
        f.left_over,
    ];
    elements::put(&facts, image)
}

pub fn level(data: &[u8], n: usize, image: &mut [u32]) -> Result<(), Refusal> {
    let l = readers::file_level(data, n)?;
    let place = [l.width, l.height, l.start, l.length];
    elements::put(&place, image)
}
