// The whole square root: 01, "Clock", "whole square root of v's whole part ... at most 2,147,483,647".
ghost use Rattle.std.specs.Prelude.{◌≡◌, min};
ghost use Rattle.clock.specs.Root.{root};

pub fn root31(w: u64) -> u32
    ensures { result ≡ min (root w) 2147483647 }
{
    w.isqrt().min(0x7fff_ffff) as u32
}
