// The pixel word and the clamp of src/color.rs and src/etc/etc1.rs. The crate's big-endian constants are left out.
ghost use Rattle.std.specs.Prelude.{◌≡◌, ◌+◌, ◌*◌, ◌<◌};
ghost use Rattle.rules.specs.Notation.{clamp as clamp_to};
ghost use Rattle.rules.specs.Pixel.{word};

// The pixel of four bytes. They come as u32, because that is what they are computed in.
pub fn color(red: u32, green: u32, blue: u32, alpha: u32) -> u32
    requires { (red < 256) × (green < 256) × (blue < 256) × (alpha < 256) }
    ensures { result ≡ word alpha red green blue }
{
    alpha * 0x1000000 + red * 0x10000 + green * 0x100 + blue
}

// n clamped to 0..255. A signed type of 16 bits holds every sum of a channel and a step.
pub fn clamp(n: i16) -> u32
    ensures { (result ≡ clamp_to 255 n) × (result < 256) }
{
    n.clamp(0, 255) as u32
}
