// What a case's number calls, by the table of oracle/PROTOCOL.md. A new function is one number there, one arm here. The numbers stay
// numbers here and in call_*.rt: an enum by TryFrom and then a match would say each twice. `n` and `m` are the protocol's too.
ghost use Rattle.std.specs.Prelude.{◌≤◌, length};

use super::case::{Case, Said};
use super::{
    call_baking, call_bits, call_blocks, call_census, call_degrees, call_files, call_pictures,
    call_pieces, call_pitched, call_sheets,
};
use rules::Refusal;

// The number of an answer, and the block that a refusal names, and otherwise 0; a picture has fewer than 2^32.
pub fn told(answer: Result<(), Refusal>) -> Said {
    Said {
        number: readers::number(answer),
        extra: (answer_numbers::block_of(answer).unwrap_or(0) % 0x100000000) as u32,
    }
}

// The answer of no function.
pub fn unknown() -> Said {
    Said {
        number: 0xFFFFFFFF,
        extra: 0,
    }
}

// Calls what a case names, on exactly its bytes and elements.
pub fn call_on(c: Case, data: &[u8], image: &mut [u32]) -> Said
    requires { (c.n ≤ length «data».now) × (c.m ≤ length image.old) }
{
    let n = c.n;
    let m = c.m;
    call(c, &data[..n], &mut image[..m])
}

// The number says the family, and the place in it. Each match is short: what the check of one costs grows faster than its arms.
fn call(c: Case, data: &[u8], image: &mut [u32]) -> Said {
    let family = c.number / 32;
    let k = c.number % 32;
    if family < 2 {
        return painted(family, k, c, data, image);
    }
    match family {
        2 => told(call_blocks::read(k, c.a, data, image)),
        3 => call_pieces::cut(k, c, data, image),
        4 => call_pieces::scattered(k, c, data, image),
        _ => other(c, data, image),
    }
}

fn painted(family: usize, k: usize, c: Case, data: &[u8], image: &mut [u32]) -> Said {
    if family == 0 {
        return told(call_pictures::read(k, data, c.width, c.height, image));
    }
    told(call_pitched::read(k, data, c.width, c.height, c.a, image))
}

// Functions that read no picture and no block.
fn other(c: Case, data: &[u8], image: &mut [u32]) -> Said {
    let number = c.number;
    match number {
        160 => told(call_census::rgb(data, c.width, c.height, image)),
        161 => told(call_census::rgba1(data, c.width, c.height, image)),
        162 => told(call_sheets::head(data, image)),
        163 => told(readers::read_sheet(data, image)),
        164 => call_sheets::write(c, data, image),
        _ => another(c, data, image),
    }
}

fn another(c: Case, data: &[u8], image: &mut [u32]) -> Said {
    let number = c.number;
    match number {
        165 => call_degrees::read(c, data, image),
        166 => call_baking::check(c.a, data, image),
        167 => call_baking::bake(c.a, data, image),
        168 => call_bits::read(c.a, c.b, data, image),
        169 => call_bits::block(c.a, data, image),
        _ => checked(c, data, image),
    }
}

// The checks and the counts for older viewers, and texture files.
fn checked(c: Case, data: &[u8], image: &mut [u32]) -> Said {
    let number = c.number;
    match number {
        170 => told(readers::check_strict(data, c.width, c.height)),
        171 => told(readers::check_opaque(data, c.width, c.height)),
        172 => told(call_files::open(data, image)),
        173 => told(call_files::level(data, c.a, image)),
        174 => told(call_census::older(readers::older_etc1(data, c.width, c.height), image)),
        175 => told(call_census::older(readers::older_rgb(data, c.width, c.height), image)),
        _ => unknown(),
    }
}
