// A picture whose bytes arrive in pieces. The answer's number is that of the end, and its second number stands for what starting
// and each piece answered, and for the image after it.
ghost use Rattle.std.specs.Prelude.{◌≤◌};

use super::case::{Case, Said};
use super::{call, elements};
use rules::{Format, Picture, Progress, Refusal};

// How far a picture has come: the next byte's number, and what stands for all that was answered.
#[derive(Clone, Copy)]
struct Course {
    progress: Progress,
    at: usize,
    sum: u64,
}

fn number(answer: Result<(), Refusal>) -> usize {
    readers::number(answer) as usize
}

fn begin(format: Format, c: Case, image: &[u32]) -> Course {
    let pic = Picture {
        width: c.width,
        height: c.height,
        pitch: c.a,
    };
    let started = readers::start_pieces(format, pic, image);
    let progress = started.progress;
    let answer = started.answer;
    Course {
        progress,
        at: 0,
        sum: elements::mixed(0, number(answer)),
    }
}

// One piece more, of so many bytes or as many as are left.
fn follow(course: Course, n: usize, data: &[u8], image: &mut [u32]) -> Course {
    let end = course.at.wrapping_add(n).min(data.len());
    let at = course.at.min(end);
    let state = course.progress;
    let taken = readers::take_piece(state, &data[at..end], image);
    let after = taken.progress;
    let answer = taken.answer;
    let said = elements::mixed(course.sum, number(answer));
    let told = elements::mixed(elements::mixed(said, taken.painted), taken.unused);
    Course {
        progress: after,
        at: end,
        sum: elements::digest(image, told),
    }
}

fn ended(course: Course) -> Said {
    let state = course.progress;
    Said {
        number: readers::number(readers::end_pieces(state)),
        extra: (course.sum % 0x100000000) as u32,
    }
}

// Cut at two places: a piece of b bytes, one of c, and the rest.
pub fn cut(k: usize, c: Case, data: &[u8], image: &mut [u32]) -> Said {
    let Ok(format) = Format::try_from(k) else {
        return call::unknown();
    };
    let one = follow(begin(format, c, image), c.b, data, image);
    let two = follow(one, c.c, data, image);
    ended(follow(two, data.len(), data, image))
}

// A length by the upper digits of a number.
fn length_of(v: usize) -> usize {
    match v / 256 % 6 {
        0 => 0,
        1 => 1,
        2 => 7,
        3 => 15,
        4 => 16,
        _ => 17,
    }
}

// The next number, of 65,536.
fn moved(v: usize) -> usize {
    (v % 65536 * 40505 + 12829) % 65536
}

// So many pieces as c says, of lengths that are drawn from b on, and then the rest.
pub fn scattered(k: usize, c: Case, data: &[u8], image: &mut [u32]) -> Said {
    let Ok(format) = Format::try_from(k) else {
        return call::unknown();
    };
    let mut course = begin(format, c, image);
    let mut v = moved(c.b);
    for _ in 0..c.c.min(64) {
        course = follow(course, length_of(v), data, image);
        v = moved(v);
    }
    ended(follow(course, data.len(), data, image))
}
