// The clock call with its counter, receiver/mod.rs `synchronize_clock`: 01, "Counters follow 003".
ghost use Rattle.std.specs.Prelude.{◌≡◌};
ghost use Rattle.feedback.specs.Sync.{clock_ended};
ghost use Rattle.counters.specs.Calls.{counted, clock_counted};

use crate::Counted;
use counts::Counters;
use feedback::sync::Clocked;
use head::state::Head;

pub fn synchronize_clock(c: Counters, h: Head, time: i64, stamp: u32) -> Counted<Clocked>
    ensures { counted (clock_ended result.left) result.counters ≡ clock_counted c h time stamp }
{
    let clocked = feedback::sync::synchronize_clock(h, time, stamp);
    let counters = counts::after::after_clock(c, clocked.answer);
    Counted {
        counters,
        left: clocked,
    }
}
