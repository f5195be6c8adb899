// The reader of degrees. The data is the legend's three values, the measurement and the pixel, as words; a and b are the digits
// that the legend and the picture name, and c is the legend's kind. A reading's three values are the first elements.
use super::case::{Case, Said};
use super::{call, elements, words};
use rules::{Legend, NoReading, Reading, Refusal};
use std::num;

// The float of a bit pattern. A pattern that is no number gives one by its sums, which says nothing of its digits.
fn float_of(bits: u32) -> f32 {
    num::f32_from_bits_with_nan(bits)
}

// The bits of a float; all of them where it is no number.
fn bits_of(x: f32) -> usize {
    if x == x {
        return elements::wide(f32::to_bits(x));
    }
    0xFFFFFFFF
}

fn legend(kind: usize, low: f32, step: f32, second: f32) -> Legend {
    match kind {
        0 => Legend::Level(low),
        1 => Legend::Line { low, step },
        _ => Legend::Bend { low, step, second },
    }
}

fn refused(number: u32) -> Said {
    Said { number, extra: 0 }
}

pub fn read(c: Case, data: &[u8], image: &mut [u32]) -> Said {
    if data.len() < 20 {
        return call::unknown();
    }
    let low = float_of(words::word_at(data, 0));
    let step = float_of(words::word_at(data, 4));
    let second = float_of(words::word_at(data, 8));
    let measured = float_of(words::word_at(data, 12));
    let pixel = words::word_at(data, 16);
    let reply = readers::degrees(legend(c.c, low, step, second), c.a, c.b, pixel, measured);
    match reply {
        Ok(reading) => call::told(shown(reading, image)),
        Err(NoReading::NotMeasured) => refused(17),
        Err(NoReading::BadLegend) => refused(13),
        Err(NoReading::BadDigit) => refused(14),
        Err(NoReading::BadMeasurement) => refused(15),
    }
}

fn shown(reading: Reading, image: &mut [u32]) -> Result<(), Refusal> {
    let values = [
        bits_of(reading.predicted),
        bits_of(reading.measured),
        bits_of(reading.difference),
    ];
    elements::put(&values, image)
}
