// The round trip's figures, rtt.rs: 01, "ACKs, RTT, rates".
ghost use Rattle.std.specs.Prelude.{◌≡◌};
ghost use Rattle.acks.specs.Rtt.{fresh_rtt, updated, rtt_ok};

#[derive(Clone, Copy, PartialEq, Eq, Debug)]
pub struct Rtt {
    pub mean: u32,
    pub variance: u32,
}

impl Rtt {
    pub const MEAN: u32 = 10_000;

    pub const VARIANCE: u32 = 1_000;

    pub fn new() -> Self
        ensures { result ≡ fresh_rtt }
    {
        Rtt {
            mean: Rtt::MEAN,
            variance: Rtt::VARIANCE,
        }
    }

    // The new mean comes first, since the variance is taken from it.
    pub fn update(self, r: u32) -> Self
        ensures { result ≡ updated self r }
    {
        let sample = r as u64;
        let old = self.mean as u64;
        let mean = (7 * old + sample) / 8;
        let off = mean.abs_diff(sample);
        let variance = (3 * (self.variance as u64) + off) / 4;
        Rtt {
            mean: mean as u32,
            variance: variance as u32,
        }
    }

    // Both figures lie in 0..2^31-1.
    pub fn in_range(self) -> bool
        ensures { result ≡ rtt_ok self }
    {
        (self.mean < 0x8000_0000) & (self.variance < 0x8000_0000)
    }
}
