// The counters after an answer, from the answer alone: 01, "Counters follow 003", "7 to 10 still count in the
// counters".
ghost use Rattle.std.specs.Prelude.{◌≡◌, ℕ};
ghost use Rattle.head.specs.Rules.{number_of};
ghost use Rattle.counts.specs.Counts.{unique, again, dropped, duplicate, wire, got_counts, refused_counts, data_counts_by, found, unknown, ack2_counts, gone, drop_counts, adjusted, clock_counts};

use crate::Counters;
use acks::rtt::Rtt;
use feedback::sync::ClockAnswer;
use head::refusal::Refusal;
use receiver::data::DataAnswer;

// A refusal as a caller has it: a Refusal, or only its number, which may be any and counts by itself.
pub trait Refused {
    ghost number: { Self → ℕ };

    fn told_number(self) -> u32
        ensures { result ≡ number self };
}

impl Refused for Refusal {
    ghost number = { number_of };

    fn told_number(self) -> u32 {
        self.number()
    }
}

impl Refused for u32 {
    ghost number = { λ n. n };

    fn told_number(self) -> u32 {
        self
    }
}

// What a packet raises by what became of it. Each starts from `duplicate`, since a packet that counts at all came.

fn duplicate(bytes: u64) -> Counters
    ensures { result ≡ duplicate bytes }
{
    Counters {
        rx_data: 1,
        rx_bytes: bytes,
        ..Counters::new()
    }
}

fn unique(bytes: u64) -> Counters
    ensures { result ≡ unique bytes }
{
    Counters {
        rx_unique_data: 1,
        rx_unique_bytes: bytes,
        ..duplicate(bytes)
    }
}

fn again(bytes: u64) -> Counters
    ensures { result ≡ again bytes }
{
    Counters {
        rx_retransmit_data: 1,
        ..duplicate(bytes)
    }
}

fn dropped(bytes: u64) -> Counters
    ensures { result ≡ dropped bytes }
{
    Counters {
        rx_dropped_data: 1,
        rx_dropped_bytes: bytes,
        ..duplicate(bytes)
    }
}

// A packet's size is payload + 16.
fn wire(size: usize) -> u64
    ensures { result ≡ wire size }
{
    (size as u64).wrapping_add(16)
}

fn after_got(c: Counters, size: usize, recovered: bool) -> Counters
    ensures { result ≡ got_counts c size recovered }
{
    let bytes = wire(size);
    if recovered {
        return c.raised(again(bytes));
    }
    c.raised(unique(bytes))
}

fn after_refused(c: Counters, size: usize, n: u32) -> Counters
    ensures { result ≡ refused_counts c size n }
{
    let bytes = wire(size);
    match n {
        7..=9 => c.raised(dropped(bytes)),
        10 => c.raised(duplicate(bytes)),
        _ => c,
    }
}

pub fn after_data<R: Refused + Drop>(
    c: Counters,
    size: usize,
    answer: Result<DataAnswer, R>,
) -> Counters
    ensures { result ≡ data_counts_by R.number c size answer }
{
    match answer {
        Ok(DataAnswer::Got { recovered, .. } | DataAnswer::Light { recovered, .. }) => {
            after_got(c, size, recovered)
        }
        Ok(DataAnswer::Loss { .. }) => after_got(c, size, false),
        Err(e) => after_refused(c, size, e.told_number()),
    }
}

fn unknown() -> Counters
    ensures { result ≡ unknown }
{
    Counters {
        rx_ack2: 1,
        ..Counters::new()
    }
}

// 003 counts a found one as an error (A6).
fn found() -> Counters
    ensures { result ≡ found }
{
    Counters {
        rx_ack2_errors: 1,
        ..unknown()
    }
}

pub fn after_ack2<R: Drop>(c: Counters, answer: Result<Option<Rtt>, R>) -> Counters
    ensures { result ≡ ack2_counts c answer }
{
    match answer {
        Ok(None) => c.raised(unknown()),
        Ok(Some(_)) => c.raised(found()),
        Err(_) => c,
    }
}

fn gone(n: usize) -> Counters
    ensures { result ≡ gone n }
{
    Counters {
        rx_dropped_data: n as u64,
        ..Counters::new()
    }
}

pub fn after_drop<R: Drop>(c: Counters, answer: Result<usize, R>) -> Counters
    ensures { result ≡ drop_counts c answer }
{
    let Ok(n) = answer else {
        return c;
    };
    c.raised(gone(n))
}

fn adjusted() -> Counters
    ensures { result ≡ adjusted }
{
    Counters {
        rx_clock_adjustments: 1,
        ..Counters::new()
    }
}

pub fn after_clock<R: Drop>(c: Counters, answer: Result<ClockAnswer, R>) -> Counters
    ensures { result ≡ clock_counts c answer }
{
    let Ok(ClockAnswer::Adjusted { .. }) = answer else {
        return c;
    };
    c.raised(adjusted())
}
