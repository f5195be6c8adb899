// The stored list, that oracle/record makes: 1,024 bytes of text that say how and when it was made, then groups. A group is
// 44 bytes of name, the number of its cases and its form, each in four bytes; then its cases, whole or as rows (rows.rt). A whole
// case is followed by the answer that is due.
ghost use Rattle.std.specs.Prelude.{◌≤◌, length};

use super::case::Room;
use super::{case, rows, stdio, words};
use std::io;
use std::io::{Read, Write};

// Writes a line for each group, and before it one for each of its cases whose answer is not the one that is due. The list is
// counted by a number that no run uses up, since a proved loop has to end and nothing says that the input does.
pub fn replay<R: Read, W: Write>(
    input: &mut R,
    output: &mut W,
    room: &mut Room,
    due: &mut [u8; 262144],
) -> io::Result<()> {
    stdio::taken(input, &mut due[..1024])?;
    for _ in 0..u64::MAX {
        if !group(input, output, room, due)? {
            break;
        }
    }
    Ok(())
}

// One group. False where the list ends, or has a number of cases that no list has.
fn group<R: Read, W: Write>(
    input: &mut R,
    output: &mut W,
    room: &mut Room,
    due: &mut [u8; 262144],
) -> io::Result<bool> {
    let mut name = [0u8; 52];
    if !stdio::taken(input, &mut name)? {
        return Ok(false);
    }
    let title = &name[..44];
    let count = words::word_at(&name, 44);
    if count > 99999 {
        return Ok(false);
    }
    let form = words::word_at(&name, 48);
    let differ = differing(input, output, count, form, room, due)?;
    output.write_all(title)?;
    report(output, count, differ)?;
    Ok(true)
}

// How many of the next cases differ; each is named.
fn differing<R: Read, W: Write>(
    input: &mut R,
    output: &mut W,
    count: u32,
    form: u32,
    room: &mut Room,
    due: &mut [u8; 262144],
) -> io::Result<u32> {
    let mut differ = 0u32;
    for i in 0..count {
        if !is_held(input, form, room, due)? {
            name_case(output, i)?;
            differ += 1;
        }
    }
    Ok(differ)
}

fn is_held<R: Read>(
    input: &mut R,
    form: u32,
    room: &mut Room,
    due: &mut [u8; 262144],
) -> io::Result<bool> {
    if form == 0 {
        return is_whole_held(input, room, due);
    }
    rows::is_held(input, form, room)
}

// Takes a case and the answer that is due, and compares. False too where the list is cut short.
fn is_whole_held<R: Read>(
    input: &mut R,
    room: &mut Room,
    due: &mut [u8; 262144],
) -> io::Result<bool> {
    let mut head = [0u8; 64];
    if !case::taken(input, &mut head, room)? {
        return Ok(false);
    }
    let said = case::answered(&head, room);
    let is_right = is_said(input, &said)?;
    let is_image_right = is_shown(input, &room.shown, due, case::elements(&head) * 4)?;
    Ok(is_image_right && is_right)
}

// Whether the next eight bytes of the list are these.
fn is_said<R: Read>(input: &mut R, said: &[u8; 8]) -> io::Result<bool> {
    let mut due = [0u8; 8];
    if !stdio::taken(input, &mut due)? {
        return Ok(false);
    }
    Ok(*said == due)
}

// Whether the next n bytes of the list are the first n of these.
fn is_shown<R: Read>(
    input: &mut R,
    shown: &[u8; 262144],
    due: &mut [u8; 262144],
    n: usize,
) -> io::Result<bool> {
    if due.len() < n {
        return Ok(false);
    }
    if !stdio::taken(input, &mut due[..n])? {
        return Ok(false);
    }
    Ok(shown[..n] == due[..n])
}

fn name_case<W: Write>(output: &mut W, i: u32) -> io::Result<()> {
    writeln!(output, "  case {i} differs")
}

fn report<W: Write>(output: &mut W, count: u32, differ: u32) -> io::Result<()> {
    writeln!(output, "{count} cases, {differ} differ")
}
