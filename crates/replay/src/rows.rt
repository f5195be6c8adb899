// Stored cases as rows: the data is made from a seed, each element is 11111111 (hex) before, and a digest stands for the answer's
// second number and the image that is due. A row is twelve numbers, each of one byte in form 1 and of four bytes in another (number,
// a, b, c, width, height, bytes, elements, seed, 1 where no block has its difference bit, the answer's number, 0), and the digest in
// four bytes.
ghost use Rattle.std.specs.Prelude.{◌<◌, ◌≤◌};

use super::case::{Case, Room};
use super::{call, case, elements, stdio};
use std::io;
use std::io::Read;

// Takes a row, and compares. False too where the list is cut short.
pub fn is_held<R: Read>(input: &mut R, form: u32, room: &mut Room) -> io::Result<bool> {
    let mut row = [0u8; 52];
    if !stdio::taken(input, &mut row[..size_of(form)])? {
        return Ok(false);
    }
    Ok(is_due(&row, form, room))
}

// Whether the row's call answers what the row says.
fn is_due(row: &[u8; 52], form: u32, room: &mut Room) -> bool {
    let c = of_row(row, form);
    fill(
        &mut room.data[..c.n],
        field(row, form, 8),
        field(row, form, 9) == 1,
    );
    room.image[..c.m].fill(0x11111111);
    let said = call::call_on(c, &room.data, &mut room.image);
    let sum = elements::digest(&room.image[..c.m], u64::from(said.extra));
    (elements::wide(said.number) == field(row, form, 10)) & (sum as usize == digest_due(row, form))
}

// The bytes of a row.
fn size_of(form: u32) -> usize
    ensures { result ≤ 52 }
{
    if form == 1 { 16 } else { 52 }
}

// The k-th number of a row.
fn field(row: &[u8; 52], form: u32, k: usize) -> usize
    requires { k < 12 }
{
    if form == 1 {
        return usize::from(row[k]);
    }
    numbers::little4(row, k * 4)
}

fn digest_due(row: &[u8; 52], form: u32) -> usize {
    if form == 1 {
        return numbers::little4(row, 12);
    }
    numbers::little4(row, 48)
}

fn of_row(row: &[u8; 52], form: u32) -> Case
    ensures { (result.n ≤ 262144) × (result.m ≤ 65600) }
{
    Case {
        number: field(row, form, 0),
        a: field(row, form, 1),
        b: field(row, form, 2),
        c: field(row, form, 3),
        width: field(row, form, 4),
        height: field(row, form, 5),
        n: field(row, form, 6).min(262144),
        m: field(row, form, 7).min(65600),
    }
}

// A byte, without the difference bit where plain is set.
fn byte_of(v: usize, plain: bool) -> u8 {
    let b = v % 256;
    if plain {
        (b / 4 * 4 + b % 2) as u8
    } else {
        b as u8
    }
}

fn next(v: usize) -> usize {
    (v % 256 * 5 + 89) % 256
}

// Bytes of every value, in an order that the seed moves. Where plain is set, no block has its difference bit, so that strict accepts it.
fn fill(data: &mut [u8], seed: usize, plain: bool) {
    let mut v = seed;
    for byte in data {
        *byte = byte_of(v, plain);
        v = next(v);
    }
}
