// One call of the receiver and its answer as values, so that a list of calls can be spoken of and a trace replayed:
// 01, "Trace, mark DLT".
#![tactic(auto)]

ghost use Rattle.std.specs.Prelude.{◌≡◌, []};
ghost use Rattle.step.specs.Step.{call_left, pop_call_left, data_left, pop_left, report_left, full_ack_left, ack2_left, drop_left, clock_left, clear_left, state_of, lent_for, ended, step_of};

use acks::rtt::Rtt;
use feedback::acking::FullAck;
use feedback::sync::ClockAnswer;
use head::refusal::Refusal;
use head::state::Head;
use receiver::data::DataAnswer;
use receiver::message::MessageAnswer;
use window::push::Packet;

// A call with its numbers, one case a record of the trace. A data packet's payload is lent beside it.
#[derive(Clone, Copy, PartialEq, Eq, Debug)]
pub enum Call {
    // The numbers stand apart, no Packet: the ledger's `Sent`, `early_by` and `number_in` take this case by them.
    Data {
        time: i64,
        number: u32,
        message: u32,
        location: u32,
        stamp: u32,
    },
    Pop {
        time: i64,
    },
    Report {
        time: i64,
    },
    FullAck {
        time: i64,
    },
    Ack2 {
        time: i64,
        number: u32,
    },
    Drop {
        first: u32,
        last: u32,
    },
    Clock {
        time: i64,
        stamp: u32,
    },
    Clear,
}

// What it answered, one case a call.
#[derive(Clone, Copy, PartialEq, Debug)]
pub enum Answer {
    Data(Result<DataAnswer, Refusal>),
    Pop(Result<MessageAnswer, Refusal>),
    Report(Result<Option<usize>, Refusal>),
    FullAck(Result<Option<FullAck>, Refusal>),
    Ack2(Result<Option<Rtt>, Refusal>),
    Drop(Result<usize, Refusal>),
    Clock(Result<ClockAnswer, Refusal>),
    Clear(Result<(), Refusal>),
}

#[derive(Clone, Copy)]
pub struct Stepped {
    pub head: Head,
    pub answer: Answer,
}

// Each call with its answer as a case of Answer.
fn data(
    h: Head,
    words: &mut [u64],
    bytes: &mut [u8],
    time: i64,
    p: Packet,
    payload: &[u8],
) -> Stepped
    ensures { call_left result words.new bytes.new ≡ data_left h words.old bytes.old time p payload.now }
{
    let r = receiver::data::handle_data_packet(h, words, bytes, time, p, payload);
    Stepped {
        head: r.head,
        answer: Answer::Data(r.answer),
    }
}

fn pop(h: Head, words: &[u64], bytes: &[u8], out: &mut [u8], time: i64) -> Stepped
    ensures { pop_call_left result words.now bytes.now out.new ≡ pop_left h words.now bytes.now out.old time }
{
    let r = receiver::message::pop_next_message(h, words, bytes, out, time);
    Stepped {
        head: r.head,
        answer: Answer::Pop(r.answer),
    }
}

fn report(h: Head, words: &mut [u64], list: &mut [u32], time: i64) -> Stepped
    ensures { call_left result words.new list.new ≡ report_left h words.old list.old time }
{
    let r = feedback::loss::on_nak_event(h, words, list, time);
    Stepped {
        head: r.head,
        answer: Answer::Report(r.answer),
    }
}

fn full_ack(h: Head, area: &mut [u64], time: i64) -> Stepped
    ensures { call_left result area.new [] ≡ full_ack_left h area.old time }
{
    let r = feedback::acking::on_full_ack_event(h, area, time);
    Stepped {
        head: r.head,
        answer: Answer::FullAck(r.answer),
    }
}

fn ack2(h: Head, area: &[u64], time: i64, number: u32) -> Stepped
    ensures { call_left result [] [] ≡ ack2_left h area.now time number }
{
    let r = feedback::acking::handle_ack2_packet(h, area, time, number);
    Stepped {
        head: r.head,
        answer: Answer::Ack2(r.answer),
    }
}

fn drop_request(h: Head, words: &mut [u64], first: u32, last: u32) -> Stepped
    ensures { call_left result words.new [] ≡ drop_left h words.old first last }
{
    let answer = upkeep::request::handle_drop_request(h, words, first, last);
    Stepped {
        head: h,
        answer: Answer::Drop(answer),
    }
}

fn clock(h: Head, time: i64, stamp: u32) -> Stepped
    ensures { call_left result [] [] ≡ clock_left h time stamp }
{
    let r = feedback::sync::synchronize_clock(h, time, stamp);
    Stepped {
        head: r.head,
        answer: Answer::Clock(r.answer),
    }
}

fn clear(h: Head) -> Stepped
    ensures { call_left result [] [] ≡ clear_left h }
{
    let r = upkeep::request::clear(h);
    Stepped {
        head: r.head,
        answer: Answer::Clear(r.answer),
    }
}

// Any call, on a head and its areas; each call takes only what it needs.
pub fn step(
    h: Head,
    words: &mut [u64],
    bytes: &mut [u8],
    area: &mut [u64],
    out: &mut [u8],
    list: &mut [u32],
    call: Call,
    payload: &[u8],
) -> Stepped
    ensures { ended result words.new bytes.new area.new out.new list.new ≡ step_of (state_of h words.old bytes.old area.old) (lent_for payload.now out.old list.old) call }
{
    match call {
        Call::Data {
            time,
            number,
            message,
            location,
            stamp,
        } => {
            let p = Packet {
                number,
                message,
                location,
                stamp,
            };
            data(h, words, bytes, time, p, payload)
        }
        Call::Pop { time } => pop(h, words, bytes, out, time),
        Call::Report { time } => report(h, words, list, time),
        Call::FullAck { time } => full_ack(h, area, time),
        Call::Ack2 { time, number } => ack2(h, area, time, number),
        Call::Drop { first, last } => drop_request(h, words, first, last),
        Call::Clock { time, stamp } => clock(h, time, stamp),
        Call::Clear => clear(h),
    }
}
