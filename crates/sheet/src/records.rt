// The walk over the records of a sheet: what stands at a place, and the first record from there on that is not skipped.
ghost use Rattle.std.specs.Prelude.{◌≤◌, length};
ghost use Rattle.sheet.specs.records.Turns.{Stands, Meets};

use rules::Refusal;

// A record that the walk meets: its kind, and the start and the length of its payload. The kind stays the number that the bytes have, as
// `is_skipped` and `is_head` of crates/rules/specs compare it: kinds from 8000 hex on are skipped by their size alone.
#[derive(Clone, Copy, Debug, PartialEq, Eq)]
pub struct Record {
    pub kind: usize,
    pub start: usize,
    pub length: usize,
}

// The record that stands at a place, none at the end; one that is cut short is refused. The place is a number beside the bytes, here and
// below: it is another at each record, so a struct of both would be built anew for each call, with the bound shown each time as now.
pub fn record_at(d: &[u8], at: usize) -> Result<Option<Record>, Refusal>
    requires { at ≤ length d.now }
    ensures { Stands d.now at result }
{
    let left = d.len() - at;
    if left == 0 {
        return Ok(None);
    }
    if left < 6 {
        return Err(Refusal::CutShort);
    }
    let length = numbers::little4(d, at);
    if left - 6 < length {
        return Err(Refusal::CutShort);
    }
    Ok(Some(Record {
        kind: numbers::little2(d, at + 4),
        start: at + 6,
        length,
    }))
}

// The first record from a place on that is not skipped.
pub fn next(d: &[u8], from: usize) -> Result<Option<Record>, Refusal>
    requires { from ≤ length d.now }
    ensures { Meets d.now from result }
{
    let mut at = from;
    while let Some(record) = record_at(d, at)? {
        if record.kind < 0x8000 {
            return Ok(Some(record));
        }
        at = record.start + record.length;
    }
    Ok(None)
}
