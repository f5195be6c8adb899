// Writing sheets: the head and the blocks, in a lent buffer.
ghost use Rattle.std.specs.Prelude.{◌≡◌, List, ◌++◌, ℕ, ◌<◌, ◌≤◌, length, drop};
ghost use Rattle.rules.specs.Places.{sized};
ghost use Rattle.rules.specs.Answers.{said};
ghost use Rattle.rules.specs.Sheets.{write_verdict, WritesSheet};
ghost use Rattle.sheet.specs.write.Front.{front_of_lem};

use rules::{Picture, Refusal};

// The bytes before n bytes of blocks.
fn front_of(format: u8, w: u32, h: u32, n: u32) -> [u8; 21]
    ensures { result ≡ front_of_lem format (sized w h) n }
{
    let [w0, w1, w2, w3] = w.to_le_bytes();
    let [h0, h1, h2, h3] = h.to_le_bytes();
    let [n0, n1, n2, n3] = n.to_le_bytes();
    [
        9, 0, 0, 0, 1, 0, format, w0, w1, w2, w3, h0, h1, h2, h3, n0, n1, n2, n3, 2, 0,
    ]
}

// Puts them at the front of the buffer.
fn put_front(format: usize, width: usize, height: usize, n: usize, out: &mut [u8])
    requires format_bound { (format < 256) × (width < 0x100000000) × (height < 0x100000000) }
    requires n_bound { (n < 0x100000000) × (21 ≤ length out.old) }
    ensures { out.new ≡ front_of_lem format (sized width height) n ++ drop 21 out.old }
{
    let front = front_of(format as u8, width as u32, height as u32, n as u32);
    out[..21].copy_from_slice(&front);
}

// The writer's checks in their order, of n bytes of blocks and so many bytes of room.
fn verify(format: usize, pic: Picture, n: usize, room: usize) -> Result<(), Refusal>
    ensures { (b : List ℕ) → length b ≡ n → said result ≡ write_verdict format pic b room }
{
    if 7 < format {
        return Err(Refusal::NoHead);
    }
    if checks::too_large(16384, pic) {
        return Err(Refusal::TooLarge);
    }
    let exact = super::block_bytes(super::format_of(format), pic);
    if n != exact {
        return Err(Refusal::WrongBlocks);
    }
    if room < 21 + n {
        return Err(Refusal::ShortImage);
    }
    Ok(())
}

// Writes a sheet: the answer with the number of bytes that the sheet has, and every byte of the buffer, for all inputs. The format stays a
// number: one from 8 on is refused with NoHead, so an enum would ask more of callers.
pub fn write_sheet(
    format: usize,
    width: usize,
    height: usize,
    blocks: &[u8],
    out: &mut [u8],
) -> Result<usize, Refusal>
    ensures { WritesSheet format (sized width height) blocks.now out.old result out.new }
{
    let n = blocks.len();
    let pic = Picture::sized(width, height);
    verify(format, pic, n, out.len())?;
    put_front(format, width, height, n, out);
    let whole = 21 + n;
    out[21..whole].copy_from_slice(blocks);
    Ok(whole)
}
