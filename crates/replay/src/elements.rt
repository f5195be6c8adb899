// Elements of a lent image that hold something else than pixels.
use rules::Refusal;

// By `as`, since a usize has no From of a u32.
pub fn wide(x: u32) -> usize {
    x as usize
}

// Numbers in the first elements, the low 32 bits of each, where there is room.
pub fn put(values: &[usize], image: &mut [u32]) -> Result<(), Refusal> {
    if image.len() < values.len() {
        return Err(Refusal::ShortImage);
    }
    for (element, value) in image.iter_mut().zip(values) {
        *element = (value % 0x100000000) as u32;
    }
    Ok(())
}

// Each value of the one as the other has it, as far as both go: elements as bytes or as halves of a word, and back.
pub fn turn<A: Copy, B: Copy, F: Fn(A) -> B>(from: &[A], into: &mut [B], as_other: F)
    requires { (a : A) → F.pre as_other a }
{
    for (place, x) in into.iter_mut().zip(from) {
        *place = as_other(*x);
    }
}

// A number that changes with any element: it stands for an image in the stored list.
pub fn digest(image: &[u32], before: u64) -> u64 {
    let mut sum = before % 0x100000000;
    for element in image {
        sum = mixed(sum, wide(*element));
    }
    sum
}

// One number more.
pub fn mixed(sum: u64, x: usize) -> u64 {
    (sum % 0x100000000 * 31 + x as u64 % 0x100000000) % 0x100000000
}
