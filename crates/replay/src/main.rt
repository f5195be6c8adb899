// Calls every public function by the cases of oracle/PROTOCOL.md, and writes what it answers. With any argument it replays a stored
// list instead: it compares each answer with the one that the list has for it, and says what differs.
#![tactic(auto)]

mod call;
mod call_baking;
mod call_bits;
mod call_blocks;
mod call_census;
mod call_degrees;
mod call_files;
mod call_pictures;
mod call_pieces;
mod call_pitched;
mod call_sheets;
mod call_whole;
mod case;
mod elements;
mod list;
mod rows;
mod stdio;
mod words;

use case::Room;
use std::io::{Read, Write};
use std::{env, io};

fn main(rt: HostRuntime) -> io::Result<()> {
    let mut input = rt.stdin();
    let mut output = rt.stdout();
    let mut room = Room {
        data: [0; 262144],
        shown: [0; 262144],
        image: [0; 65600],
    };
    if env::args(&rt)?.len() > 1 {
        let mut due = [0u8; 262144];
        return list::replay(&mut input, &mut output, &mut room, &mut due);
    }
    answer_all(&mut input, &mut output, &mut room)
}

// A proved loop has to end, and nothing says that the input does: it counts up to a number that no run reaches.
fn answer_all<R: Read, W: Write>(input: &mut R, output: &mut W, room: &mut Room) -> io::Result<()> {
    for _ in 0..u64::MAX {
        if !answer_one(input, output, room)? {
            break;
        }
    }
    Ok(())
}

// False where the input has no further case. The answer is written at once, since the next case may wait for it.
fn answer_one<R: Read, W: Write>(
    input: &mut R,
    output: &mut W,
    room: &mut Room,
) -> io::Result<bool> {
    let mut head = [0u8; 64];
    if !case::taken(input, &mut head, room)? {
        return Ok(false);
    }
    let said = case::answered(&head, room);
    output.write_all(&said)?;
    output.write_all(&room.shown[..case::elements(&head) * 4])?;
    Ok(true)
}
