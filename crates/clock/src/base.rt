// The time base, base.rs: 01, "Clock", as far as "both move to `now`".
ghost use Rattle.std.specs.Prelude.{◌≡◌, ◌+◌, ◌^◌, ◌<◌, ◌≤◌, unsigned_abs};
ghost use Rattle.clock.specs.Base.{fresh_base, instant_of, stamp_of, drift_of, in_reference, shifted, adjusted};

// The reference: one point as a time of the receiver and as a stamp of the sender.
#[derive(Clone, Copy, PartialEq, Eq, Debug)]
pub struct TimeBase {
    pub time: i64,
    pub stamp: u32,
}

// Refusal 14: the adjusted reference time would end out of range.
#[derive(Clone, Copy, PartialEq, Eq, Debug)]
pub struct DriftRange;

// Reference time lies in -2^61..2^61.
pub fn in_reference(t: i64) -> bool
    ensures { result ≡ in_reference t }
{
    (-0x2000_0000_0000_0000 <= t) & (t <= 0x2000_0000_0000_0000)
}

impl TimeBase {
    pub fn new(start: i64) -> Self
        ensures { result ≡ fresh_base start }
    {
        TimeBase {
            time: start,
            stamp: 0,
        }
    }

    pub fn instant_from(self, ts: u32) -> i64
        requires { unsigned_abs self.time ≤ 2 ^ 61 }
        ensures { result ≡ instant_of self ts }
    {
        self.time + numbers::stamp::difference(ts, self.stamp) as i64
    }

    // The stamp that stands for `now`. The time may be one that a drift was just taken off.
    pub fn timestamp_from(self, now: i64) -> u32
        requires { (unsigned_abs self.time ≤ 2 ^ 61 + 2 ^ 31) × (unsigned_abs now < 2 ^ 60) }
        ensures { result ≡ stamp_of self now }
    {
        numbers::stamp::wrap(self.stamp as i64 + now - self.time)
    }

    pub fn drift(self, now: i64, ts: u32) -> i32
        requires { (unsigned_abs self.time ≤ 2 ^ 61) × (unsigned_abs now < 2 ^ 60) }
        ensures { result ≡ drift_of self now ts }
    {
        numbers::stamp::difference(self.timestamp_from(now), ts)
    }

    // The drift comes off the reference time, as 01 says; the Rust adds it (docs/DIFFERENCES.md).
    fn shift(self, drift: i32) -> Self
        requires { unsigned_abs self.time ≤ 2 ^ 61 }
        ensures { result ≡ shifted self drift }
    {
        TimeBase {
            time: self.time - drift as i64,
            stamp: self.stamp,
        }
    }

    pub fn adjust(self, now: i64, drift: i32) -> Result<TimeBase, DriftRange>
        requires { (unsigned_abs self.time ≤ 2 ^ 61) × (unsigned_abs now < 2 ^ 60) }
        ensures { result ≡ adjusted self now drift }
    {
        let shifted = self.shift(drift);
        if shifted.time < now {
            return Ok(TimeBase {
                time: now,
                stamp: shifted.timestamp_from(now),
            });
        }
        if in_reference(shifted.time) {
            return Ok(shifted);
        }
        Err(DriftRange)
    }
}
