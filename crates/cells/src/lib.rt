// An answer as ten numbers, for a caller in another language: the word's code, the values of 01's line ("Trace, mark
// DLT") in order, 0 where there is none, and the bits of an f64. Beside them stands the number of its refusal, 0 for
// none.
#![tactic(auto, using(crate::proofs::Answers::answers))]

ghost use Rattle.std.specs.Prelude.{◌≡◌, pos, Ok};
ghost use Rattle.std.specs.Float.{binary64};
ghost use Rattle.std.specs.Float.Ieee.{to_bits};
ghost use Rattle.head.specs.Paper.{Line, refused_line};
ghost use Rattle.receiver.specs.Paper.{data_line, message_line};
ghost use Rattle.feedback.specs.Paper.{rate_value, full_ack_line, rtt_line, clock_line};
ghost use Rattle.upkeep.specs.Paper.{drop_line, clear_line, room_line};
ghost use Rattle.cells.specs.Cells.{cell, value_cell, cells_of, refusal_of, answer_line, count_line, part_line, making_line};

use acks::rtt::Rtt;
use feedback::acking::FullAck;
use feedback::sync::ClockAnswer;
use head::refusal::Refusal;
use head::state::Head;
use receiver::data::DataAnswer;
use receiver::message::MessageAnswer;
use window::show::Part;

// A u64 in two's complement, so what lies over an i64's end is below 0.
fn size(n: usize) -> i64
    ensures { result ≡ cell (pos n) }
{
    (n as u64).cast_signed()
}

// The bits of an f64. Every NaN has the same, since a NaN's own are not to be had. packing has the same for its words;
// a crate below both for these lines is no plainer.
fn bits(v: f64) -> u64
    ensures { result ≡ to_bits binary64 v }
{
    if v.is_nan() {
        return 0x7ff8_0000_0000_0000;
    }
    v.to_bits()
}

fn exact(v: f64) -> i64
    ensures { result ≡ cell (pos (to_bits binary64 v)) }
{
    bits(v).cast_signed()
}

// A rate of an ack; -1 for none.
fn rate_of(a: Option<u32>) -> i64
    ensures { result ≡ value_cell (rate_value a) }
{
    match a {
        Some(n) => i64::from(n),
        None => -1,
    }
}

// The number of an answer's refusal, 0 for none.
pub fn refusal<A: Drop>(a: &Result<A, Refusal>) -> u32
    ensures { result ≡ refusal_of a.now }
{
    match a {
        Ok(_) => 0,
        Err(e) => e.number(),
    }
}

// What 01 writes of an answer, in ten cells. A word's code stands as a number, since it is C that reads it.
pub trait Cells {
    ghost line: { Self → Line };

    fn cells(self) -> [i64; 10]
        ensures { result ≡ cells_of (line self) };
}

// Refusal 8 has its room and need.
impl Cells for Refusal {
    ghost line = { refused_line };

    fn cells(self) -> [i64; 10] {
        match self {
            Refusal::PacketTooEarly { room, need } => {
                [3, size(room), size(need), 0, 0, 0, 0, 0, 0, 0]
            }
            _ => [3, 0, 0, 0, 0, 0, 0, 0, 0, 0],
        }
    }
}

impl<A: Cells> Cells for Result<A, Refusal> {
    ghost line = { answer_line A.line };

    fn cells(self) -> [i64; 10] {
        match self {
            Ok(a) => a.cells(),
            Err(e) => e.cells(),
        }
    }
}

impl Cells for DataAnswer {
    ghost line = { λ a. data_line (Ok a) };

    fn cells(self) -> [i64; 10] {
        match self {
            DataAnswer::Got { lrsn, recovered } => {
                [0, lrsn.into(), recovered.into(), 0, 0, 0, 0, 0, 0, 0]
            }
            DataAnswer::Light { lrsn, recovered } => {
                [1, lrsn.into(), recovered.into(), 0, 0, 0, 0, 0, 0, 0]
            }
            DataAnswer::Loss { first, last } => {
                [2, first.into(), last.into(), 0, 0, 0, 0, 0, 0, 0]
            }
        }
    }
}

impl Cells for MessageAnswer {
    ghost line = { λ a. message_line (Ok a) };

    fn cells(self) -> [i64; 10] {
        match self {
            MessageAnswer::Nothing => [13, 0, 0, 0, 0, 0, 0, 0, 0, 0],
            MessageAnswer::Message {
                time,
                bytes,
                packets,
            } => [4, time, size(bytes), size(packets), 0, 0, 0, 0, 0, 0],
            MessageAnswer::Late { first, end, delay } => {
                [5, first.into(), end.into(), delay.into(), 0, 0, 0, 0, 0, 0]
            }
        }
    }
}

// A report has the count of its words, which are the first of the lent list.
impl Cells for Option<usize> {
    ghost line = { λ a. count_line (Ok a) };

    fn cells(self) -> [i64; 10] {
        match self {
            None => [13, 0, 0, 0, 0, 0, 0, 0, 0, 0],
            Some(words) => [6, size(words), 0, 0, 0, 0, 0, 0, 0, 0],
        }
    }
}

impl Cells for Option<FullAck> {
    ghost line = { λ a. full_ack_line (Ok a) };

    fn cells(self) -> [i64; 10] {
        match self {
            None => [13, 0, 0, 0, 0, 0, 0, 0, 0, 0],
            Some(a) => [
                7,
                a.number.into(),
                a.lrsn.into(),
                a.mean.into(),
                a.variance.into(),
                size(a.room),
                rate_of(a.packet_receive_rate),
                rate_of(a.estimated_link_capacity),
                rate_of(a.data_receive_rate),
                0,
            ],
        }
    }
}

impl Cells for Option<Rtt> {
    ghost line = { λ a. rtt_line (Ok a) };

    fn cells(self) -> [i64; 10] {
        match self {
            None => [13, 0, 0, 0, 0, 0, 0, 0, 0, 0],
            Some(r) => [8, r.mean.into(), r.variance.into(), 0, 0, 0, 0, 0, 0, 0],
        }
    }
}

// How many packets a drop request gave up.
#[derive(Clone, Copy, PartialEq, Eq, Debug)]
pub struct Gone(pub usize);

impl Cells for Gone {
    ghost line = { λ a. drop_line (Ok a.0) };

    fn cells(self) -> [i64; 10] {
        [9, size(self.0), 0, 0, 0, 0, 0, 0, 0, 0]
    }
}

// Clear.
impl Cells for () {
    ghost line = { λ a. clear_line (Ok a) };

    fn cells(self) -> [i64; 10] {
        [12, 0, 0, 0, 0, 0, 0, 0, 0, 0]
    }
}

// How many packets there is room for.
#[derive(Clone, Copy, PartialEq, Eq, Debug)]
pub struct Room(pub usize);

impl Cells for Room {
    ghost line = { λ a. room_line (Ok a.0) };

    fn cells(self) -> [i64; 10] {
        [15, size(self.0), 0, 0, 0, 0, 0, 0, 0, 0]
    }
}

impl Cells for ClockAnswer {
    ghost line = { λ a. clock_line (Ok a) };

    fn cells(self) -> [i64; 10] {
        match self {
            ClockAnswer::Nothing => [13, 0, 0, 0, 0, 0, 0, 0, 0, 0],
            ClockAnswer::Adjusted { mean, deviation } => {
                [10, mean.into(), deviation.into(), 0, 0, 0, 0, 0, 0, 0]
            }
            ClockAnswer::Unsteady {
                deviation,
                variance,
            } => [11, deviation.into(), 0, 0, 0, 0, 0, 0, 0, exact(variance)],
        }
    }
}

// A payload that is there has its place in the payload area: where it begins, and its length.
impl Cells for Option<Part> {
    ghost line = { part_line };

    fn cells(self) -> [i64; 10] {
        match self {
            Some(p) => [16, size(p.at), size(p.len), 0, 0, 0, 0, 0, 0, 0],
            None => [17, 0, 0, 0, 0, 0, 0, 0, 0, 0],
        }
    }
}

// Making answers a head, or its refusal.
impl Cells for Head {
    ghost line = { λ h. making_line (Ok h) };

    fn cells(self) -> [i64; 10] {
        [14, 0, 0, 0, 0, 0, 0, 0, 0, 0]
    }
}
