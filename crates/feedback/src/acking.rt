// The calls for full ACKs and ACK2s, arq.rs `on_full_ack_event` and `handle_ack2_packet`: 01, "ACKs, RTT, rates".
ghost use Rattle.std.specs.Prelude.{◌≡◌, true, ◌≤◌};
ghost use Rattle.intervals.specs.Rates.{arrivals_ok};
ghost use Rattle.head.specs.Ready.{InRange};
ghost use Rattle.feedback.specs.Acking.{figures_of, after_ack, roomy_ack, due_ack, full_ack_ended, full_ack_call_of, after_ack2, held_ack2, ack2_ended, ack2_call_of};
ghost use Rattle.feedback.specs.Ready.{AckReady};

use acks::history::{Acked, Answered, FasnWorn};
use acks::rtt::Rtt;
use head::left::Left;
use head::refusal::Refusal;
use head::state::Head;
use intervals::rates::{Arrivals, Links};
use window::Window;

// The rates have the names that the Rust's AckStatistics gives them.
#[derive(Clone, Copy, PartialEq, Eq, Debug)]
pub struct FullAck {
    pub number: u32,
    pub lrsn: u32,
    pub mean: u32,
    pub variance: u32,
    pub room: usize,
    pub packet_receive_rate: Option<u32>,
    pub estimated_link_capacity: Option<u32>,
    pub data_receive_rate: Option<u32>,
}

pub type FullAcked = Left<Option<FullAck>>;

// The new figures of the round trip, if the ACK is held.
pub type Ack2ed = Left<Option<Rtt>>;

// An ACK of this number with the head's figures, by the parts that have them. Its estimated_link_capacity carries
// bytes a second, and its data_receive_rate the link figure.
fn figures(number: u32, w: Window, rtt: Rtt, arrivals: Arrivals, links: Links) -> FullAck
    requires { (w.held ≤ w.capacity) × (arrivals_ok arrivals ≡ true) }
    ensures { result ≡ figures_of number w rtt arrivals links }
{
    let speed = arrivals.speed();
    FullAck {
        number,
        lrsn: w.lrsn,
        mean: rtt.mean,
        variance: rtt.variance,
        room: window::room(w),
        packet_receive_rate: speed.map(|s| s.packets),
        estimated_link_capacity: speed.map(|s| s.bytes),
        data_receive_rate: links.capacity(),
    }
}

// The history's answer as the call's; a worn history leaves the head.
fn after_ack(h: Head, acked: Result<Option<Acked>, FasnWorn>, time: i64) -> FullAcked
    requires { InRange h }
    ensures { result ≡ after_ack h acked time }
{
    match acked {
        Ok(None) => FullAcked {
            head: h.with_latest(time),
            answer: Ok(None),
        },
        Ok(Some(Acked { history, number })) => FullAcked {
            head: h.with_history(history).with_latest(time),
            answer: Ok(Some(figures(number, h.window, h.rtt, h.arrivals, h.links))),
        },
        Err(refusal) => FullAcked::refused(h, Refusal::from(refusal)),
    }
}

// A full ACK, once nothing refuses it and there is room.
fn roomy_ack(h: Head, area: &mut [u64], time: i64) -> FullAcked
    requires { AckReady h area.old }
    ensures { full_ack_ended result area.new ≡ roomy_ack h area.old time }
{
    let acked = h
        .history
        .next_full_ack(area, time, h.rtt.mean, h.latency, h.window.lrsn);
    after_ack(h, acked, time)
}

// The same, with the question of room.
fn due_ack(h: Head, area: &mut [u64], time: i64) -> FullAcked
    requires { AckReady h area.old }
    ensures { full_ack_ended result area.new ≡ due_ack h area.old time }
{
    if window::room(h.window) == 0 {
        return FullAcked {
            head: h.with_latest(time),
            answer: Ok(None),
        };
    }
    roomy_ack(h, area, time)
}

pub fn on_full_ack_event(h: Head, area: &mut [u64], time: i64) -> FullAcked
    ensures { full_ack_ended result area.new ≡ full_ack_call_of h area.old time }
{
    if let Err(refusal) = head::refuse::history(h, area.len(), time) {
        return FullAcked::refused(h, refusal);
    }
    due_ack(h, area, time)
}

// The history's answer as the call's; a number that is not held moves the latest reading only.
fn after_ack2(h: Head, answered: Option<Answered>, time: i64) -> Ack2ed
    ensures { result ≡ after_ack2 h answered time }
{
    let Some(Answered { history, r }) = answered else {
        return Ack2ed {
            head: h.with_latest(time),
            answer: Ok(None),
        };
    };
    let rtt = h.rtt.update(r);
    Ack2ed {
        head: h.with_history(history).with_rtt(rtt).with_latest(time),
        answer: Ok(Some(rtt)),
    }
}

// An ACK2, once nothing refuses it.
fn held_ack2(h: Head, area: &[u64], time: i64, number: u32) -> Ack2ed
    requires { AckReady h area.now }
    ensures { result ≡ held_ack2 h area.now time number }
{
    after_ack2(h, h.history.calculate_ack2(area, time, number), time)
}

pub fn handle_ack2_packet(h: Head, area: &[u64], time: i64, number: u32) -> Ack2ed
    ensures { ack2_ended result ≡ ack2_call_of h area.now time number }
{
    if let Err(refusal) = head::refuse::history(h, area.len(), time) {
        return Ack2ed::refused(h, refusal);
    }
    held_ack2(h, area, time, number)
}
