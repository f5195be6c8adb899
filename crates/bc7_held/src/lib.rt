// A whole BC7 block through the bit reader: sixteen reads of eight bits. It shows what the fast reader shows, and takes longer.
#![tactic(auto)]

pub mod bits;

ghost use Rattle.std.specs.Prelude.{◌≡◌, false, ◌+◌, ◌*◌, ◌^◌, ◌<◌, ◌≤◌, length};
ghost use Rattle.rules.specs.Bits.{refuses, field_at};
ghost use Rattle.bc7_held.specs.Sixteen.{block_from_lem};

use bc7::rest::Rest;
use bits::BitReader;
use rules::Refusal;

// Eight bits at a place that has them.
fn byte_at(s: &[u8], place: usize) -> u8
    requires { refuses s.now place 8 ≡ false }
    ensures { result ≡ field_at s.now place 8 }
{
    bits::read_at(s, place, 8).bits.unwrap()
}

// Eight times eight.
#[tactic(auto, using(laws::proofs::Refuse::within))]
fn word_at(s: &[u8], place: usize) -> u64
    requires { (place + 64 ≤ length s.now * 8) × (place + 64 < 2 ^ 64) }
    ensures { result ≡ field_at s.now place 64 }
{
    u64::from_le_bytes([
        byte_at(s, place),
        byte_at(s, place + 8),
        byte_at(s, place + 16),
        byte_at(s, place + 24),
        byte_at(s, place + 32),
        byte_at(s, place + 40),
        byte_at(s, place + 48),
        byte_at(s, place + 56),
    ])
}

// The pixels of the block that begins at a place of the bytes, or refusal 2 where its bits are past the bytes.
pub fn block_from(s: &[u8], place: usize) -> Result<[u32; 16], Refusal>
    ensures { result ≡ block_from_lem s.now place }
{
    if bits::lacks(s, place, 128) {
        return Err(Refusal::ShortData);
    }
    let lo = word_at(s, place);
    let hi = word_at(s, place + 64);
    Ok(bc7::of_words(Rest { lo, hi }))
}

// The block that a reader stands at.
pub fn block_of<'a>(r: BitReader<'a>) -> Result<[u32; 16], Refusal>
    ensures { result ≡ block_from_lem r.entry.src.now r.entry.place }
{
    block_from(r.src, r.place)
}

// The block at the first bit, through a reader that is made for it.
pub fn first_block(s: &[u8]) -> Result<[u32; 16], Refusal>
    ensures { result ≡ block_from_lem s.now 0 }
{
    block_of(BitReader::new(s))
}
