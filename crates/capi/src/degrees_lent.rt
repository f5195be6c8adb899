// The reader of degrees for callers from C, to whom no enum can cross: a legend is the number of its kind and three floats, and a reading
// goes into three floats that are lent.
ghost use Rattle.std.specs.Prelude.{◌≡◌, get_or};
ghost use Rattle.rules.specs.Degrees.{degrees_said};
ghost use Rattle.capi.specs.degrees_lent.Lent.{legend_at_lem, value_or, DegreesTold};

use rules::{Legend, NoReading, Reading};

// The legend of a kind's number. What is no kind is a level that is not a number, which the reader refuses.
fn legend_at(kind: usize, low: f32, step: f32, second: f32) -> Legend
    ensures { result ≡ legend_at_lem kind low step second }
{
    match kind {
        0 => Legend::Level(low),
        1 => Legend::Line { low, step },
        2 => Legend::Bend { low, step, second },
        _ => Legend::Level(0.0 / 0.0),
    }
}

// The number of an answer. The values of a reading are written, and an answer that is none writes none.
fn handed(
    reply: Result<Reading, NoReading>,
    predicted: &mut f32,
    seen: &mut f32,
    difference: &mut f32,
) -> u32
    ensures { (result ≡ get_or (degrees_said reply) 0 0)
        × (predicted.new ≡ value_or (λ k. k.predicted) reply predicted.old)
        × (seen.new ≡ value_or (λ k. k.measured) reply seen.old)
        × (difference.new ≡ value_or (λ k. k.difference) reply difference.old) }
{
    match reply {
        Ok(reading) => {
            *predicted = reading.predicted;
            *seen = reading.measured;
            *difference = reading.difference;
            0
        }
        Err(NoReading::NotMeasured) => 17,
        Err(NoReading::BadLegend) => 13,
        Err(NoReading::BadDigit) => 14,
        Err(NoReading::BadMeasurement) => 15,
    }
}

// The reader, by a legend that the number of its kind and three floats make up.
pub fn read(
    kind: usize,
    low: f32,
    step: f32,
    second: f32,
    named: usize,
    shown: usize,
    pixel: u32,
    measured: f32,
    predicted: &mut f32,
    seen: &mut f32,
    difference: &mut f32,
) -> u32
    ensures { DegreesTold
        (legend_at_lem kind low step second)
        named
        shown
        pixel
        measured
        predicted.old
        seen.old
        difference.old
        result
        predicted.new
        seen.new
        difference.new }
{
    let legend = legend_at(kind, low, step, second);
    handed(
        degrees::read_degrees(legend, named, shown, pixel, measured),
        predicted,
        seen,
        difference,
    )
}
