// From colour to degrees: what a legend predicts at a pixel, beside what was measured.
#![tactic(auto)]

pub mod floats;
mod legend;
mod ranges;

ghost use Rattle.std.specs.Prelude.{◌≡◌, eqb};
ghost use Rattle.rules.specs.Pixel.{alpha_of};
ghost use Rattle.rules.specs.Degrees.{one_digit_lem, ReadsDegrees};

use rules::{Legend, NoReading, Reading};

// Whether two digits are one, thumb to little.
fn one_digit(named: usize, shown: usize) -> bool
    ensures { result ≡ one_digit_lem named shown }
{
    named == shown && named <= 4
}

// Whether a pixel has alpha 0.
fn unseen(pixel: u32) -> bool
    ensures { result ≡ eqb (alpha_of pixel) 0 }
{
    let [alpha, ..] = pixel.to_be_bytes();
    alpha == 0
}

// The reading at a pixel by a legend that names a digit, of a picture that shows one, beside a measurement.
pub fn read_degrees(
    legend: Legend,
    named: usize,
    shown: usize,
    pixel: u32,
    measured: f32,
) -> Result<Reading, NoReading>
    ensures { ReadsDegrees legend named shown pixel measured result }
{
    let good_legend = legend::sound(legend);
    let good_digit = one_digit(named, shown);
    let good_measurement = ranges::in_degrees(measured);
    let not_seen = unseen(pixel);
    if !good_legend {
        return Err(NoReading::BadLegend);
    }
    if !good_digit {
        return Err(NoReading::BadDigit);
    }
    if !good_measurement {
        return Err(NoReading::BadMeasurement);
    }
    if not_seen {
        return Err(NoReading::NotMeasured);
    }
    let [_, red, ..] = pixel.to_be_bytes();
    let p = legend::predicted(legend, red);
    Ok(Reading {
        predicted: p,
        measured,
        difference: p - measured,
    })
}
