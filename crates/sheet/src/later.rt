// The records of a sheet behind its head: exactly one of blocks, and where they start.
ghost use Rattle.std.specs.Prelude.{◌≤◌, length, drop};
ghost use Rattle.rules.specs.Records.{records_of, kept};
ghost use Rattle.rules.specs.Sheets.{after_blocks_lem};
ghost use Rattle.sheet.specs.later.Follows.{Judges, Follows};

use super::records;
use rules::Refusal;

// What is to be said of the records behind the blocks.
fn after_blocks(d: &[u8], at: usize) -> Result<(), Refusal>
    requires { at ≤ length d.now }
    ensures { Judges (λ then. after_blocks_lem then (kept (records_of (drop at d.now)))) result }
{
    match records::next(d, at)? {
        Some(record) if record.kind == 2 => Err(Refusal::WrongBlocks),
        Some(_) => Err(Refusal::OtherKind),
        None => Ok(()),
    }
}

// Where the blocks start, behind a head whose blocks are n bytes; or why the sheet is refused.
pub fn after_head(d: &[u8], at: usize, n: usize) -> Result<usize, Refusal>
    requires { at ≤ length d.now }
    ensures { Follows d.now at n result }
{
    let Some(record) = records::next(d, at)? else {
        return Err(Refusal::WrongBlocks);
    };
    if record.kind != 2 {
        return Err(Refusal::OtherKind);
    }
    if record.length != n {
        return Err(Refusal::WrongBlocks);
    }
    after_blocks(d, record.start + record.length)?;
    Ok(record.start)
}
