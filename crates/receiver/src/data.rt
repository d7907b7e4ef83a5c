// A data packet comes, arq.rs `handle_data_packet`: 01, "Window" with refusals 1 to 10, and of "ACKs, RTT, rates" what
// a push does.
ghost use Rattle.std.specs.Prelude.{◌≡◌, true};
ghost use Rattle.intervals.specs.Rates.{arrivals_ok, links_ok};
ghost use Rattle.head.specs.Ready.{PushReady};
ghost use Rattle.receiver.specs.Data.{placed_of, rated_of, acked_of, got_of, after_push, taken_of, data_ended, data_call_of};

use head::left::Left;
use head::refusal::Refusal;
use head::state::Head;
use window::Window;
use window::push::{Packet, PushAnswer, PushRefusal, Pushed};

#[derive(Clone, Copy, PartialEq, Eq, Debug)]
pub enum DataAnswer {
    Got { lrsn: u32, recovered: bool },
    Light { lrsn: u32, recovered: bool },
    Loss { first: u32, last: u32 },
}

pub type Handled = Left<DataAnswer>;

// The head with the window after a push, at a reading.
fn placed(h: Head, window: Window, time: i64) -> Head
    ensures { result ≡ placed_of h window time }
{
    h.with_window(window).with_latest(time)
}

// Rates count appends without gap.
fn rate(h: Head, time: i64, number: u32, size: u32) -> Head
    requires { (arrivals_ok h.arrivals ≡ true) × (links_ok h.links ≡ true) }
    ensures { result ≡ rated_of h time number size }
{
    let arrivals = h.arrivals.record(time, size);
    let links = h.links.record(time, number);
    h.with_rates(arrivals, links)
}

// An append without gap or a recovery asks for a light ACK.
fn acknowledge(h: Head, lrsn: u32, recovered: bool) -> Handled
    ensures { result ≡ acked_of h lrsn recovered }
{
    match h.history.next_light_ack(lrsn) {
        Some(history) => Handled {
            head: h.with_history(history),
            answer: Ok(DataAnswer::Light { lrsn, recovered }),
        },
        None => Handled {
            head: h,
            answer: Ok(DataAnswer::Got { lrsn, recovered }),
        },
    }
}

// A packet appended without gap, or recovered.
fn got(
    h: Head,
    window: Window,
    lrsn: u32,
    recovered: bool,
    time: i64,
    number: u32,
    size: u32,
) -> Handled
    requires { (arrivals_ok h.arrivals ≡ true) × (links_ok h.links ≡ true) }
    ensures { result ≡ got_of h window lrsn recovered time number size }
{
    if recovered {
        return acknowledge(placed(h, window, time), lrsn, true);
    }
    let rated = rate(h, time, number, size);
    acknowledge(placed(rated, window, time), lrsn, false)
}

// The window's answer as the call's: a refusal leaves the head, a gap asks for no ACK.
fn after_push(
    h: Head,
    pushed: Result<Pushed, PushRefusal>,
    time: i64,
    number: u32,
    size: u32,
) -> Handled
    requires { (arrivals_ok h.arrivals ≡ true) × (links_ok h.links ≡ true) }
    ensures { result ≡ after_push h pushed time number size }
{
    match pushed {
        Ok(
            Pushed {
                window,
                answer: PushAnswer::Got { lrsn, recovered },
            },
        ) => got(h, window, lrsn, recovered, time, number, size),
        Ok(
            Pushed {
                window,
                answer: PushAnswer::Loss { first, last },
            },
        ) => Handled {
            head: placed(h, window, time),
            answer: Ok(DataAnswer::Loss { first, last }),
        },
        Err(refusal) => Handled::refused(h, Refusal::from(refusal)),
    }
}

// The call, once nothing refuses it.
fn take_packet(
    h: Head,
    words: &mut [u64],
    bytes: &mut [u8],
    time: i64,
    p: Packet,
    payload: &[u8],
) -> Handled
    requires { PushReady h words.old bytes.old time p payload.now }
    ensures { data_ended result words.new bytes.new ≡ taken_of h words.old bytes.old time p payload.now }
{
    let pushed = window::push::push(h.window, words, bytes, time, p, payload);
    after_push(h, pushed, time, p.number, payload.len() as u32)
}

pub fn handle_data_packet(
    h: Head,
    words: &mut [u64],
    bytes: &mut [u8],
    time: i64,
    p: Packet,
    payload: &[u8],
) -> Handled
    ensures { data_ended result words.new bytes.new ≡ data_call_of h words.old bytes.old time p payload.now }
{
    if let Err(refusal) = head::refuse::push(h, words.len(), bytes.len(), time, p, payload.len()) {
        return Handled::refused(h, refusal);
    }
    take_packet(h, words, bytes, time, p, payload)
}
