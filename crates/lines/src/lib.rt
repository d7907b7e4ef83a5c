// The lines of the trace: 01, "Trace, mark DLT", "After the record's number (from 1) a line has ..". A function for
// each call's answer writes the whole line at the cursor and answers the cursor behind it; `nth` is the record's
// number. Each needs room: only the trace calls them.
#![tactic(auto)]

ghost use Rattle.std.specs.Prelude.{◌≡◌, ◌+◌, ◌*◌, ◌≤◌, length};
ghost use Rattle.head.specs.Paper.{refused_line};
ghost use Rattle.receiver.specs.Paper.{data_line, message_line};
ghost use Rattle.feedback.specs.Paper.{loss_line, full_ack_line, rtt_line, clock_line};
ghost use Rattle.upkeep.specs.Paper.{drop_line, clear_line};
ghost use Rattle.shapes.specs.Ready.{Wrote};
ghost use Rattle.lines.specs.Lines.{line_bytes, end_bytes, bad_bytes};

use acks::rtt::Rtt;
use feedback::acking::FullAck;
use feedback::sync::ClockAnswer;
use head::refusal::Refusal;
use receiver::data::DataAnswer;
use receiver::message::MessageAnswer;
use shapes::part::Value;
use shapes::{line, part, tail};

// A refusal's number, and its values if it has some.
fn refused(out: &mut [u8], at: usize, nth: u64, refusal: Refusal) -> usize
    requires { at + 256 ≤ length out.old }
    ensures { Wrote out.old at (line_bytes nth (refused_line refusal)) 256 result out.new }
{
    let number = Value::from(refusal.number());
    match refusal {
        Refusal::PacketTooEarly { room, need } => {
            let list = [number, Value::from(room), Value::from(need)];
            line::values(out, at, nth, b"refused", &list)
        }
        _ => line::values(out, at, nth, b"refused", &[number]),
    }
}

pub fn data_line(out: &mut [u8], at: usize, nth: u64, answer: Result<DataAnswer, Refusal>) -> usize
    requires { at + 256 ≤ length out.old }
    ensures { Wrote out.old at (line_bytes nth (data_line answer)) 256 result out.new }
{
    match answer {
        Ok(DataAnswer::Got { lrsn, recovered }) => {
            let list = [Value::from(lrsn), Value::from(recovered)];
            line::values(out, at, nth, b"got", &list)
        }
        Ok(DataAnswer::Light { lrsn, recovered }) => {
            let list = [Value::from(lrsn), Value::from(recovered)];
            line::values(out, at, nth, b"light", &list)
        }
        Ok(DataAnswer::Loss { first, last }) => {
            let list = [Value::from(first), Value::from(last)];
            line::values(out, at, nth, b"loss", &list)
        }
        Err(refusal) => refused(out, at, nth, refusal),
    }
}

pub fn message_line(
    out: &mut [u8],
    at: usize,
    nth: u64,
    answer: Result<MessageAnswer, Refusal>,
) -> usize
    requires { at + 256 ≤ length out.old }
    ensures { Wrote out.old at (line_bytes nth (message_line answer)) 256 result out.new }
{
    match answer {
        Ok(MessageAnswer::Nothing) => line::values(out, at, nth, b"none", &[]),
        Ok(
            MessageAnswer::Message {
                time,
                bytes,
                packets,
            },
        ) => {
            let list = [Value::from(time), Value::from(bytes), Value::from(packets)];
            line::values(out, at, nth, b"message", &list)
        }
        Ok(MessageAnswer::Late { first, end, delay }) => {
            let list = [Value::from(first), Value::from(end), Value::from(delay)];
            line::values(out, at, nth, b"late", &list)
        }
        Err(refusal) => refused(out, at, nth, refusal),
    }
}

// The words of a report are the first of the lent list.
pub fn loss_line(
    out: &mut [u8],
    at: usize,
    nth: u64,
    answer: Result<Option<usize>, Refusal>,
    list: &[u32],
) -> usize
    requires { at + (256 + 21 * length list.now) ≤ length out.old }
    ensures { Wrote out.old at (line_bytes nth (loss_line answer list.now)) (256 + 21 * length list.now) result out.new }
{
    match answer {
        Ok(None) => line::values(out, at, nth, b"none", &[]),
        Ok(Some(words)) => line::report(out, at, nth, list, words.min(list.len())),
        Err(refusal) => refused(out, at, nth, refusal),
    }
}

pub fn full_ack_line(
    out: &mut [u8],
    at: usize,
    nth: u64,
    answer: Result<Option<FullAck>, Refusal>,
) -> usize
    requires { at + 256 ≤ length out.old }
    ensures { Wrote out.old at (line_bytes nth (full_ack_line answer)) 256 result out.new }
{
    match answer {
        Ok(None) => line::values(out, at, nth, b"none", &[]),
        Ok(Some(ack)) => {
            let list = [
                Value::from(ack.number),
                Value::from(ack.lrsn),
                Value::from(ack.mean),
                Value::from(ack.variance),
                Value::from(ack.room),
                Value::from(ack.packet_receive_rate),
                Value::from(ack.estimated_link_capacity),
                Value::from(ack.data_receive_rate),
            ];
            line::values(out, at, nth, b"ack", &list)
        }
        Err(refusal) => refused(out, at, nth, refusal),
    }
}

pub fn ack2_line(out: &mut [u8], at: usize, nth: u64, answer: Result<Option<Rtt>, Refusal>) -> usize
    requires { at + 256 ≤ length out.old }
    ensures { Wrote out.old at (line_bytes nth (rtt_line answer)) 256 result out.new }
{
    match answer {
        Ok(None) => line::values(out, at, nth, b"none", &[]),
        Ok(Some(rtt)) => {
            let list = [Value::from(rtt.mean), Value::from(rtt.variance)];
            line::values(out, at, nth, b"rtt", &list)
        }
        Err(refusal) => refused(out, at, nth, refusal),
    }
}

pub fn drop_line(out: &mut [u8], at: usize, nth: u64, answer: Result<usize, Refusal>) -> usize
    requires { at + 256 ≤ length out.old }
    ensures { Wrote out.old at (line_bytes nth (drop_line answer)) 256 result out.new }
{
    match answer {
        Ok(count) => line::values(out, at, nth, b"gone", &[Value::from(count)]),
        Err(refusal) => refused(out, at, nth, refusal),
    }
}

pub fn clock_line(
    out: &mut [u8],
    at: usize,
    nth: u64,
    answer: Result<ClockAnswer, Refusal>,
) -> usize
    requires { at + 256 ≤ length out.old }
    ensures { Wrote out.old at (line_bytes nth (clock_line answer)) 256 result out.new }
{
    match answer {
        Ok(ClockAnswer::Nothing) => line::values(out, at, nth, b"none", &[]),
        Ok(ClockAnswer::Adjusted { mean, deviation }) => {
            let list = [Value::from(mean), Value::from(deviation)];
            line::values(out, at, nth, b"adjusted", &list)
        }
        Ok(ClockAnswer::Unsteady { deviation, .. }) => {
            line::values(out, at, nth, b"unsteady", &[Value::from(deviation)])
        }
        Err(refusal) => refused(out, at, nth, refusal),
    }
}

pub fn clear_line(out: &mut [u8], at: usize, nth: u64, answer: Result<(), Refusal>) -> usize
    requires { at + 256 ≤ length out.old }
    ensures { Wrote out.old at (line_bytes nth (clear_line answer)) 256 result out.new }
{
    match answer {
        Ok(_) => line::values(out, at, nth, b"clear", &[]),
        Err(refusal) => refused(out, at, nth, refusal),
    }
}

// The last line: records, lrsn, seqno0, held.
pub fn end_line(
    out: &mut [u8],
    at: usize,
    records: u64,
    lrsn: u32,
    seqno0: u32,
    held: usize,
) -> usize
    requires { at + 256 ≤ length out.old }
    ensures { Wrote out.old at (end_bytes records lrsn seqno0 held) 256 result out.new }
{
    let p = part::start(out, at, b"end");
    let list = [
        Value::from(records),
        Value::from(lrsn),
        Value::from(seqno0),
        Value::from(held),
    ];
    tail::values(out, p, &list)
}

// The line of a file that is no trace, or of a record that is none: its offset.
pub fn bad_line(out: &mut [u8], at: usize, offset: u64) -> usize
    requires { at + 256 ≤ length out.old }
    ensures { Wrote out.old at (bad_bytes offset) 256 result out.new }
{
    let p = part::start(out, at, b"bad");
    tail::values(out, p, &[Value::from(offset)])
}
