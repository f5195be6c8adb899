// Opening texture files: what a file holds, and where its levels are. crates/rules/specs/Files.antt says what is answered, for all bytes.
#![tactic(auto)]

mod dds;
pub mod formats;
mod keys;
mod ktx1;
mod ktx2;
pub mod lent;
mod levels;
mod pkm;
mod sheets;

ghost use Rattle.std.specs.Prelude.{◌≡◌, ◌&&◌};
ghost use Rattle.rules.specs.FileFormats.{has4};
ghost use Rattle.rules.specs.Files.{header_of, OpensFile, FindsLevel};

use rules::{FileFacts, FileLevel, Layout, Refusal};

// Whether a file begins as KTX does, with four bytes that tell its version.
fn is_ktx(bytes: &[u8], version: usize) -> bool
    ensures { result ≡ (has4 bytes.now 0 0xAB4B5458 && (has4 bytes.now 4 version && has4 bytes.now 8 0x0D0A1A0A)) }
{
    formats::has4(bytes, 0, 0xAB4B5458)
        && formats::has4(bytes, 4, version)
        && formats::has4(bytes, 8, 0x0D0A1A0A)
}

// What the header of a file tells, by its container. It is inlined into both its callers, since a call makes opening a sheet take a sixth
// longer (docs/DESIGN-PASS.md, "Speed").
#[inline(always)]
#[tactic(auto, unfolding(rules::specs::Files::header_of))]
fn header(bytes: &[u8]) -> Result<Layout, Refusal>
    ensures { result ≡ header_of bytes.now }
{
    if formats::has4(bytes, 0, 0x504B4D20) {
        pkm::header(bytes)
    } else if formats::has4(bytes, 0, 0x44445320) {
        dds::header(bytes)
    } else if is_ktx(bytes, 0x203131BB) {
        ktx1::header(bytes)
    } else if is_ktx(bytes, 0x203230BB) {
        ktx2::header(bytes)
    } else if sheets::is_sheet(bytes) {
        sheets::header(bytes)
    } else {
        Err(Refusal::UnknownContainer)
    }
}

// Opens a file: what it holds, or why it is refused.
#[tactic(auto, unfolding(rules::specs::Files::opened_verdict, rules::specs::Files::opened_as))]
pub fn open_file(bytes: &[u8]) -> Result<FileFacts, Refusal>
    ensures { OpensFile bytes.now result }
{
    let l = header(bytes)?;
    levels::opened(l, levels::held(l, bytes, 0))
}

// Level n of a file: its size and where its blocks are, or why there is none.
#[tactic(auto, unfolding(rules::specs::Files::found_verdict, rules::specs::Files::found_as))]
pub fn file_level(bytes: &[u8], n: usize) -> Result<FileLevel, Refusal>
    ensures { FindsLevel bytes.now n result }
{
    let l = header(bytes)?;
    levels::found(l, n, levels::held(l, bytes, n))
}
