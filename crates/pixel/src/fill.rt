// Elements put one after another through a part of a lent image, and the elements 0 to 15 of one.
ghost use Rattle.std.specs.Prelude.{◌≡◌, ℕ, ◌+◌, ◌<◌, ◌≤◌, ltb, length, get_or};
ghost use Rattle.rules.specs.Notation.{build};
ghost use Rattle.rules.specs.Places.{painted};
ghost use Rattle.laws.specs.Painted.{PaintedOver};

// Writes the elements of a tile, from one on, through a part of a lent image: as many as the part has.
pub fn fill<T: Copy>(tile: [T; 16], from: usize, part: &mut [T])
    requires { from + length part.old ≤ 16 }
    ensures { (z : T) → PaintedOver z (λ k. k < length part.old) (λ k. get_or tile (from + k) z) part.old part.new }
{
    for k in 0..part.len() {
        part[k] = tile[from + k];
    }
}

// Writes sixteen pixels to the elements 0 to 15, and no other.
pub fn place_block(tile: [u32; 16], image: &mut [u32])
    requires { 16 ≤ length image.old }
    ensures { image.new ≡ painted (λ (k : ℕ). ltb k 16) (λ (k : ℕ). get_or tile k 0) image.old }
{
    fill(tile, 0, &mut image[..16]);
}

// The elements 0 to 15.
pub fn first_sixteen(image: &[u32]) -> [u32; 16]
    requires { 16 ≤ length image.now }
    ensures { result ≡ build 16 (λ (k : ℕ). get_or image.now k 0) }
{
    let mut first: [u32; 16] = [0; 16];
    for i in 0..16 {
        first[i] = image[i];
    }
    first
}
