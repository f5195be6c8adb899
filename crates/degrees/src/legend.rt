// A legend: whether it is refused, and the degrees that it predicts at a red.
ghost use Rattle.std.specs.Prelude.{◌≡◌};
ghost use Rattle.rules.specs.Degrees.{line_at, bend_at, predicted_at, sound as is_sound};

use super::ranges;
use rules::Legend;

// Whether every low, level and step of a legend is in its range.
pub fn sound(legend: Legend) -> bool
    ensures { result ≡ is_sound legend }
{
    match legend {
        Legend::Level(degrees) => ranges::in_degrees(degrees),
        Legend::Line { low, step } => ranges::in_degrees(low) && ranges::in_step(step),
        Legend::Bend { low, step, second } => {
            ranges::in_degrees(low) && (ranges::in_step(step) && ranges::in_step(second))
        }
    }
}

// The degrees of a line, so many steps above its low: a product and a sum, each rounded.
fn line(low: f32, step: f32, steps: u8) -> f32
    ensures { result ≡ line_at low step steps }
{
    low + step * f32::from(steps)
}

// Those of a bend, which goes on from its line's degrees at red 128.
fn bend(low: f32, step: f32, second: f32, red: u8) -> f32
    ensures { result ≡ bend_at low step second red }
{
    if red <= 128 {
        line(low, step, red)
    } else {
        let over = red - 128;
        line(line(low, step, 128), second, over)
    }
}

// What a legend predicts at a red.
pub fn predicted(legend: Legend, red: u8) -> f32
    ensures { result ≡ predicted_at legend red }
{
    match legend {
        Legend::Level(degrees) => degrees,
        Legend::Line { low, step } => line(low, step, red),
        Legend::Bend { low, step, second } => bend(low, step, second, red),
    }
}
