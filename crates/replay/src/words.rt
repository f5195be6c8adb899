// Numbers of 32 bits in bytes, the lowest first.
ghost use Rattle.std.specs.Prelude.{◌+◌, ◌*◌, ◌≤◌, length};

// The word at a place.
pub fn word_at(part: &[u8], at: usize) -> u32
    requires { at + 4 ≤ length part.now }
{
    u32::from_le_bytes([part[at], part[at + 1], part[at + 2], part[at + 3]])
}

// The first words of the bytes, as many as are lent; none where there are fewer.
pub fn unpack(part: &[u8], words: &mut [u32]) {
    if part.len() / 4 < words.len() {
        return;
    }
    for i in 0..words.len() {
        words[i] = word_at(part, i * 4);
    }
}

// The bytes of a word at a place.
fn put(x: u32, part: &mut [u8], at: usize)
    requires { at + 4 ≤ length part.old }
{
    part[at..at + 4].copy_from_slice(&x.to_le_bytes());
}

// The bytes of the words; none where there is no room for them.
pub fn pack(words: &[u32], part: &mut [u8]) {
    if part.len() / 4 < words.len() {
        return;
    }
    for i in 0..words.len() {
        put(words[i], part, i * 4);
    }
}
