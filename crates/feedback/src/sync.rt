// The clock call, arq.rs `synchronize_clock`: 01, "Clock".
ghost use Rattle.std.specs.Prelude.{◌≡◌};
ghost use Rattle.feedback.specs.Sync.{after_sync, sync_of, clock_ended, clock_call_of};
ghost use Rattle.head.specs.Ready.{Timed};

use clock::base::DriftRange;
use clock::time::Step;
pub use clock::time::Synchronized as ClockAnswer;
use head::left::Left;
use head::refusal::Refusal;
use head::state::Head;

pub type Clocked = Left<ClockAnswer>;

// The clock's step as the call's; a clock that refuses 14 leaves the head.
fn after_sync(h: Head, step: Result<Step, DriftRange>, time: i64) -> Clocked
    ensures { result ≡ after_sync h step time }
{
    match step {
        Ok(Step { clock, answer }) => Clocked {
            head: h.with_clock(clock).with_latest(time),
            answer: Ok(answer),
        },
        Err(refusal) => Clocked::refused(h, Refusal::from(refusal)),
    }
}

// The call, once nothing refuses it.
fn synchronize(h: Head, time: i64, stamp: u32) -> Clocked
    requires { Timed h time }
    ensures { result ≡ sync_of h time stamp }
{
    after_sync(h, h.clock.synchronize(time, stamp), time)
}

pub fn synchronize_clock(h: Head, time: i64, stamp: u32) -> Clocked
    ensures { clock_ended result ≡ clock_call_of h time stamp }
{
    if let Err(refusal) = head::refuse::clock(h, time) {
        return Clocked::refused(h, refusal);
    }
    synchronize(h, time, stamp)
}
