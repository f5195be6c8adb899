// A field of fewer than eight bits as a byte.
ghost use Rattle.std.specs.Prelude.{◌≡◌, ◌+◌, ◌-◌, ◌*◌, ◌/◌, ◌^◌, ◌<◌, ◌≤◌};

// A field of five, six or seven bits as eight: its high bits stand again below it.
pub fn widened<const BITS: u32>(v: u8) -> u8
    requires { (5 ≤ BITS) × (BITS ≤ 7) × (v < 2 ^ BITS) }
    ensures { result ≡ 2 ^ (8 - BITS) * v + v / 2 ^ (2 * BITS - 8) }
{
    (v << (8 - BITS)) + (v >> (2 * BITS - 8))
}
