// Runs the clock call over made-up stamps and writes each answer but none, in the words of 01's trace lines.
// What comes is compared with what must come, so a write that fails shows there and is let pass here.
#![tactic(auto)]

ghost use Rattle.std.specs.Prelude.{◌≤◌};

use clock::base::DriftRange;
use clock::time::{Step, Synchronized, SynchronizedRemoteClock};

// The refusals of 01 that a clock call can meet here.
// head, which has them all, does not stand below.
#[derive(Clone, Copy, PartialEq, Eq, Debug)]
enum Refused {
    HeadBad,
    ClockRange,
    DriftRange,
}

impl Refused {
    fn number(self) -> u32 {
        match self {
            Refused::HeadBad => 1,
            Refused::ClockRange => 3,
            Refused::DriftRange => 14,
        }
    }
}

impl From<DriftRange> for Refused {
    fn from(_e: DriftRange) -> Refused {
        Refused::DriftRange
    }
}

// The clock call behind its two tests of range.
fn call(clock: SynchronizedRemoteClock, now: i64, ts: u32) -> Result<Step, Refused> {
    if !clock.in_range() {
        return Err(Refused::HeadBad);
    }
    if !numbers::instant::is_reading(now) {
        return Err(Refused::ClockRange);
    }
    Ok(clock.synchronize(now, ts)?)
}

fn put(rt: &impl Print, answer: Synchronized) {
    let _ = match answer {
        Synchronized::Nothing => Ok(()),
        Synchronized::Adjusted { mean, deviation } => {
            println!(rt; "adjusted {mean} {deviation}")
        }
        Synchronized::Unsteady { deviation, .. } => { println!(rt; "unsteady {deviation}") }
    };
}

// One call; the clock after it.
fn go_on(
    rt: &impl Print,
    clock: SynchronizedRemoteClock,
    now: i64,
    ts: u32,
) -> SynchronizedRemoteClock {
    match call(clock, now, ts) {
        Ok(step) => {
            put(rt, step.answer);
            step.clock
        }
        Err(e) => {
            let _ = println!(rt; "refused {}", e.number());
            clock
        }
    }
}

// `count` calls, 100 µs apart; each stamp lies `behind` the reading, and every second one `swing` behind that.
fn run(rt: &impl Print, title: &str, behind: u32, swing: u32, count: u32)
    requires { count ≤ 10000 }
{
    let _ = println!(rt; "{title}");
    let mut clock = SynchronizedRemoteClock::new(0);
    for i in 0..count {
        let n = i * 100;
        let late = n.wrapping_sub(behind);
        let ts = if i % 2 == 1 {
            late.wrapping_sub(swing)
        } else {
            late
        };
        clock = go_on(rt, clock, n as i64, ts);
    }
}

fn main(rt: HostRuntime) {
    run(&rt, "no drift", 0, 0, 1001);
    run(&rt, "drifts 0 and 10", 0, 10, 1001);
    run(&rt, "drifts 0 and 10000", 0, 10000, 1001);
    run(&rt, "drifts 0 and 10002", 0, 10002, 1001);
    run(
        &rt,
        "a constant drift of 1000, which each adjustment doubles",
        1000,
        0,
        4001,
    );
    let _ = println!(&rt; "a reading out of range, and one past it");
    let clock = SynchronizedRemoteClock::new(0);
    let next = go_on(&rt, clock, -1, 0);
    go_on(&rt, next, 0x1000_0000_0000_0000, 0);
    let _ = println!(&rt; "a head out of range");
    go_on(
        &rt,
        SynchronizedRemoteClock::new(0x2000_0000_0000_0001),
        0,
        0,
    );
    let _ = println!(&rt; "an adjusted reference past its range");
    go_on(
        &rt,
        SynchronizedRemoteClock::new(0x2000_0000_0000_0000),
        0,
        1,
    );
}
