// Counts handed over in a room that a caller from C has lent.
ghost use Rattle.capi.specs.census_lent.Lays.{Lays};

// Lays counts into the room lent for them, where there is enough.
pub fn lay(counts: &[usize], room: &mut [usize]) -> u32
    ensures { Lays counts.now room.old result room.new }
{
    if room.len() < counts.len() {
        return 3;
    }
    room[..counts.len()].copy_from_slice(counts);
    0
}
