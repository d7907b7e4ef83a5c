// The clock of the receiver, receiver/time.rs: 01, "Clock", and the release time of "Window".
ghost use Rattle.std.specs.Prelude.{◌≡◌, ◌^◌, ◌<◌, ◌≤◌, unsigned_abs};
ghost use Rattle.clock.specs.Sync.{fresh_clock, settled, adjusted_by, judged, sample_taken, synchronized};
ghost use Rattle.clock.specs.Ready.{Ready};
ghost use Rattle.clock.specs.Release.{later_of, release_of};
ghost use Rattle.clock.specs.Ranges.{last_ok, clock_ok};

use crate::base::{DriftRange, TimeBase};
use crate::stats::OnlineStats;

// `seen` is the first-drift flag; `last` is the last released time.
#[derive(Clone, Copy, PartialEq, Debug)]
pub struct SynchronizedRemoteClock {
    pub base: TimeBase,
    pub last: Option<i64>,
    pub seen: bool,
    pub stats: OnlineStats,
}

// Three answers, each with a line of its own in 01: an Option of the other two is no plainer than Nothing beside them.
#[derive(Clone, Copy, PartialEq, Debug)]
pub enum Synchronized {
    Nothing,
    Adjusted { mean: i32, deviation: u32 },
    Unsteady { deviation: u32, variance: f64 },
}

#[derive(Clone, Copy, PartialEq, Debug)]
pub struct Step {
    pub clock: SynchronizedRemoteClock,
    pub answer: Synchronized,
}

#[derive(Clone, Copy, PartialEq, Debug)]
pub struct Release {
    pub clock: SynchronizedRemoteClock,
    pub time: i64,
}

// The later of a time and the last one, if there was one.
fn later(last: Option<i64>, time: i64) -> i64
    ensures { result ≡ later_of last time }
{
    match last {
        Some(l) => time.max(l),
        None => time,
    }
}

impl SynchronizedRemoteClock {
    pub const MAX_SAMPLES: u32 = 1_000;

    pub const DRIFT_DEVIATION_TOLERANCE: u32 = 5_000;

    pub fn new(start: i64) -> Self
        ensures { result ≡ fresh_clock start }
    {
        SynchronizedRemoteClock {
            base: TimeBase::new(start),
            last: None,
            seen: false,
            stats: OnlineStats::new(),
        }
    }

    // The clock after a drift was seen.
    fn settle(self, base: TimeBase, stats: OnlineStats) -> Self
        ensures { result ≡ settled self base stats }
    {
        SynchronizedRemoteClock {
            base,
            seen: true,
            stats,
            ..self
        }
    }

    // Adjusts by a drift, with the answer to give then.
    fn adjust_by(self, now: i64, drift: i32, answer: Synchronized) -> Result<Step, DriftRange>
        requires { Ready self now }
        ensures { result ≡ adjusted_by self now drift answer }
    {
        let base = self.base.adjust(now, drift)?;
        let clock = self.settle(base, OnlineStats::new());
        Ok(Step { clock, answer })
    }

    // What a thousand samples lead to.
    fn judge(self, now: i64, stats: OnlineStats) -> Result<Step, DriftRange>
        requires { Ready self now }
        ensures { result ≡ judged self now stats }
    {
        let variance = stats.variance();
        let deviation = crate::stats::deviation(variance);
        if Self::DRIFT_DEVIATION_TOLERANCE < deviation {
            return Ok(Step {
                clock: self.settle(self.base, OnlineStats::new()),
                answer: Synchronized::Unsteady {
                    deviation,
                    variance,
                },
            });
        }
        let mean = crate::stats::truncated(stats.mean);
        self.adjust_by(now, mean, Synchronized::Adjusted { mean, deviation })
    }

    fn take_sample(self, now: i64, drift: i32) -> Result<Step, DriftRange>
        requires { Ready self now }
        ensures { result ≡ sample_taken self now drift }
    {
        let stats = self.stats.add(drift);
        if stats.count < Self::MAX_SAMPLES {
            return Ok(Step {
                clock: self.settle(self.base, stats),
                answer: Synchronized::Nothing,
            });
        }
        self.judge(now, stats)
    }

    // A stamp of the sender seen at a reading of the receiver's clock.
    pub fn synchronize(self, now: i64, ts: u32) -> Result<Step, DriftRange>
        requires { Ready self now }
        ensures { result ≡ synchronized self now ts }
    {
        let drift = self.base.drift(now, ts);
        if self.seen {
            return self.take_sample(now, drift);
        }
        self.adjust_by(now, drift, Synchronized::Nothing)
    }

    // The time at which an entry with this stamp is released: never before the last one.
    pub fn monotonic_instant_from(self, ts: u32) -> Release
        requires { unsigned_abs self.base.time ≤ 2 ^ 61 }
        ensures { result ≡ release_of self ts }
    {
        let time = later(self.last, self.base.instant_from(ts));
        Release {
            clock: SynchronizedRemoteClock {
                last: Some(time),
                ..self
            },
            time,
        }
    }

    // The head's range test, of this part of it.
    pub fn in_range(self) -> bool
        ensures { result ≡ clock_ok self }
    {
        let reference = crate::base::in_reference(self.base.time);
        reference & last_in_range(self.last) & (self.stats.count <= 999)
    }
}

// The last released time lies within 2^61 + 2^31 of zero, if there was one.
fn last_in_range(last: Option<i64>) -> bool
    ensures { result ≡ last_ok last }
{
    match last {
        Some(t) => (-0x2000_0000_8000_0000 <= t) & (t <= 0x2000_0000_8000_0000),
        None => true,
    }
}
