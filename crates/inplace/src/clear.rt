// Whether nothing refuses, all tests at once: 01, "Refused, in order of test", 1 to 6. Which one refuses is asked only
// where one does.
ghost use Rattle.std.specs.Prelude.{◌≡◌};
ghost use Rattle.inplace.specs.Clear.{areas_clear, packet_clear};

use window::push::Packet;

// Head, areas and reading. A capacity in range is under 16,384, and so the products are small.
pub fn areas_clear(
    ok: bool,
    capacity: usize,
    slots: usize,
    bytes: usize,
    time: i64,
    latest: i64,
) -> bool
    ensures { result ≡ areas_clear ok capacity slots bytes time latest }
{
    ok & (capacity <= 8192)
        & (capacity % 0x4000 * 3 <= slots)
        & (capacity % 0x4000 * 1456 <= bytes)
        & numbers::instant::is_reading(time)
        & !(time < latest)
}

// Numbers and payload.
pub fn packet_clear(p: Packet, size: usize) -> bool
    ensures { result ≡ packet_clear p size }
{
    (p.number < 0x8000_0000) & (p.message < 0x400_0000) & (p.location < 4) & (size <= 1456)
}
