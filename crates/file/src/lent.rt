// Files for callers from C: the numbers of a file or of a level go into an array that they lend, with answer 0 alone: the C
// interface has numbers, and no enum or struct of this crate.
ghost use Rattle.file.specs.lent.Lent.{FileTold, LevelTold};

// Opens a file.
pub fn open_file(bytes: &[u8], out: &mut [usize; 9]) -> u32
    ensures { FileTold bytes.now out.old result out.new }
{
    match super::open_file(bytes) {
        Ok(f) => {
            *out = [
                usize::from(f.container),
                usize::from(f.format),
                usize::from(f.srgb),
                f.width,
                f.height,
                f.levels,
                usize::from(f.big_endian),
                usize::from(f.orientation),
                f.left_over,
            ];
            0
        }
        Err(refusal) => answer_numbers::refusal_number(refusal),
    }
}

// Level n of a file.
pub fn file_level(bytes: &[u8], n: usize, out: &mut [usize; 4]) -> u32
    ensures { LevelTold bytes.now n out.old result out.new }
{
    match super::file_level(bytes, n) {
        Ok(l) => {
            *out = [l.width, l.height, l.start, l.length];
            0
        }
        Err(refusal) => answer_numbers::refusal_number(refusal),
    }
}
