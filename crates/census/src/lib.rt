// How many blocks of a picture are of each kind. Nothing is painted.
#![tactic(auto)]

mod tally;

ghost use Rattle.std.specs.Prelude.{◌≡◌, get_or};
ghost use Rattle.rules.specs.Notation.{build};
ghost use Rattle.rules.specs.Census.{rgb_values, rgba1_values, CountsRgb, CountsRgba1};

use rules::{KindCounts, Picture, Refusal, RgbCounts, Rgba1Counts};

// A tally of the five tests, by their names.
fn rgb_counts(c: [usize; 8]) -> RgbCounts
    ensures { rgb_values result ≡ build 5 (λ k. get_or c k 0) }
{
    RgbCounts {
        individual: c[0],
        differential: c[1],
        t: c[2],
        h: c[3],
        planar: c[4],
    }
}

// A tally of the eight.
fn rgba1_counts(c: [usize; 8]) -> Rgba1Counts
    ensures { rgba1_values result ≡ build 8 (λ k. get_or c k 0) }
{
    let opaque = KindCounts {
        differential: c[0],
        t: c[1],
        h: c[2],
        planar: c[3],
    };
    let clear = KindCounts {
        differential: c[4],
        t: c[5],
        h: c[6],
        planar: c[7],
    };
    Rgba1Counts { opaque, clear }
}

// The census of an ETC2 RGB picture, for all inputs. It and the next promise different counts: what they share is `checks::countable`.
pub fn rgb(data: &[u8], pic: Picture) -> Result<RgbCounts, Refusal>
    ensures { CountsRgb «data».now pic result }
{
    let n = checks::countable(pic, data.len())?;
    Ok(rgb_counts(tally::tally(false, data, n)))
}

// The census of an ETC2 RGBA1 picture, for all inputs.
pub fn rgba1(data: &[u8], pic: Picture) -> Result<Rgba1Counts, Refusal>
    ensures { CountsRgba1 «data».now pic result }
{
    let n = checks::countable(pic, data.len())?;
    Ok(rgba1_counts(tally::tally(true, data, n)))
}
