// The drift's samples, the Rust's OnlineStats: 01, "Clock", from "Then samples enter" to "that end)".
ghost use Rattle.std.specs.Prelude.{◌≡◌, ◌<◌};
ghost use Rattle.clock.specs.Samples.{no_samples, sampled, variance_of, deviation_of, truncated_of};

// A running mean and a running sum of squares.
#[derive(Clone, Copy, PartialEq, Debug)]
pub struct OnlineStats {
    pub mean: f64,
    pub squares: f64,
    pub count: u32,
}

impl OnlineStats {
    pub fn new() -> Self
        ensures { result ≡ no_samples }
    {
        OnlineStats {
            mean: 0.0,
            squares: 0.0,
            count: 0,
        }
    }

    pub fn add(self, x: i32) -> Self
        requires { self.count < 1000 }
        ensures { result ≡ sampled self x }
    {
        let n = self.count + 1;
        let v = x as f64;
        let d = v - self.mean;
        let mean = self.mean + d / (n as f64);
        OnlineStats {
            mean,
            squares: self.squares + d * (v - mean),
            count: n,
        }
    }

    pub fn variance(self) -> f64
        ensures { result ≡ variance_of self }
    {
        self.squares / (self.count as f64)
    }
}

// The whole square root of a variance's whole part.
pub fn deviation(v: f64) -> u32
    ensures { result ≡ deviation_of v }
{
    crate::root::root31(std::num::saturating_f64_to_u64(v))
}

// A mean truncated to signed 32 bits.
pub fn truncated(m: f64) -> i32
    ensures { result ≡ truncated_of m }
{
    std::num::saturating_f64_to_i32(m)
}
