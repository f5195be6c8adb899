// One case of oracle/PROTOCOL.md: taken from the input, and answered.
ghost use Rattle.std.specs.Prelude.{◌<◌, ◌≤◌};

use super::{call, stdio, words};
use std::io;
use std::io::Read;

// What a case is taken into: its data, the bytes of its image, which are those of the answer afterwards, and the words of the
// image. They are lent to each case, since making room for them anew takes longer than a block, and the program has no heap: their
// sizes are fixed.
#[derive(Drop)]
pub struct Room {
    pub data: [u8; 262144],
    pub shown: [u8; 262144],
    pub image: [u32; 65600],
}

// What is called, its numbers, and how many bytes and elements it is lent.
#[derive(Clone, Copy)]
pub struct Case {
    pub number: usize,
    pub a: usize,
    pub b: usize,
    pub c: usize,
    pub width: usize,
    pub height: usize,
    pub n: usize,
    pub m: usize,
}

// What a call answers: its number, and the block that it names or another number of the function's own.
#[derive(Clone, Copy)]
pub struct Said {
    pub number: u32,
    pub extra: u32,
}

// The k-th number of a head, of eight bytes.
fn field(head: &[u8; 64], k: usize) -> usize
    requires { k < 8 }
{
    let at = k * 8;
    numbers::little4(head, at) + numbers::little4(head, at + 4) * 0x100000000
}

// How many bytes of data the head of a case asks for, or the most that there is room for.
fn data_length(head: &[u8; 64]) -> usize
    ensures { result ≤ 262144 }
{
    field(head, 6).min(262144)
}

// How many elements.
pub fn elements(head: &[u8; 64]) -> usize
    ensures { result ≤ 65536 }
{
    field(head, 7).min(65536)
}

fn of_head(head: &[u8; 64]) -> Case
    ensures { (result.n ≤ 262144) × (result.m ≤ 65536) }
{
    Case {
        number: field(head, 0),
        a: field(head, 1),
        b: field(head, 2),
        c: field(head, 3),
        width: field(head, 4),
        height: field(head, 5),
        n: data_length(head),
        m: elements(head),
    }
}

// Takes a case: its head, its data, and the bytes of its image. False where the input has none, or one that is too long.
pub fn taken<R: Read>(input: &mut R, head: &mut [u8; 64], room: &mut Room) -> io::Result<bool> {
    if !stdio::taken(input, head)? {
        return Ok(false);
    }
    let n = field(head, 6);
    if room.data.len() < n {
        return Ok(false);
    }
    if !stdio::taken(input, &mut room.data[..n])? {
        return Ok(false);
    }
    if 65536 < field(head, 7) {
        return Ok(false);
    }
    stdio::taken(input, &mut room.shown[..elements(head) * 4])
}

// Answers the case that was taken: the eight bytes of the answer, and the image afterwards in place of the one before.
pub fn answered(head: &[u8; 64], room: &mut Room) -> [u8; 8] {
    let c = of_head(head);
    let image = &mut room.image[..];
    words::unpack(&room.shown, &mut image[..c.m]);
    let said = call::call_on(c, &room.data, image);
    words::pack(&image[..c.m], &mut room.shown);
    spelled(said)
}

fn spelled(said: Said) -> [u8; 8] {
    let n = said.number.to_le_bytes();
    let x = said.extra.to_le_bytes();
    [n[0], n[1], n[2], n[3], x[0], x[1], x[2], x[3]]
}
