// One call of the receiver each, with a line: the call's name, then its answer in the words of 01's trace lines
// ("Trace, mark DLT"). For the case programs.
#![tactic(auto)]

use case_print::{Bytes, Pop, Report};
use feedback::acking::{Ack2ed, FullAck, FullAcked};
use feedback::loss::Reported;
use feedback::sync::{ClockAnswer, Clocked};
use head::refusal::Refusal;
use head::state::Head;
use receiver::data::{DataAnswer, Handled};
use receiver::message::Given;
use std::{array, fmt};
use upkeep::request::Cleared;
use window::push::Packet;

// A refusal, by its number; 8 has its room and need beside.
#[derive(Clone, Copy)]
struct Refused(Refusal);

impl fmt::Display for Refused {
    fn fmt<W: fmt::Write>(&self, f: &mut fmt::Formatter<W>) -> fmt::Result {
        write!(f, "refused {}", self.0.number())?;
        if let Refusal::PacketTooEarly { room, need } = self.0 {
            write!(f, " {room} {need}")?;
        }
        Ok(())
    }
}

// A rate, as in the trace's line: `-` for none.
#[derive(Clone, Copy)]
struct OrDash(Option<u32>);

impl fmt::Display for OrDash {
    fn fmt<W: fmt::Write>(&self, f: &mut fmt::Formatter<W>) -> fmt::Result {
        match self.0 {
            Some(n) => write!(f, "{n}"),
            None => write!(f, "-"),
        }
    }
}

// A head with its areas, and where the lines go. Each call writes its line.
#[derive(Drop)]
pub struct Case<'a, P> {
    rt: &'a P,
    pub head: Head,
    words: [u64; 12],
    bytes: [u8; 5824],
    history: [u64; 2048],
}

impl<'a, P: Print> Case<'a, P> {
    pub fn new(
        rt: &'a P,
        start: i64,
        latency: u32,
        dropping: bool,
        first: u32,
        capacity: usize,
    ) -> Self {
        let made = Head::new(start, latency, dropping, first, capacity);
        let _ = match made {
            Ok(_) => println!(rt; "new made"),
            Err(refusal) => println!(rt; "new {}", Refused(refusal)),
        };
        Case {
            rt,
            head: made.unwrap_or(Head::nowhere()),
            words: array::repeat(0),
            bytes: array::repeat(0),
            history: array::repeat(0),
        }
    }

    // By its numbers, as a scenario writes them: a Packet there takes six lines in place of one.
    pub fn data_part(
        &mut self,
        time: i64,
        number: u32,
        message: u32,
        location: u32,
        stamp: u32,
        payload: &[u8],
    ) {
        let p = Packet {
            number,
            message,
            location,
            stamp,
        };
        let Handled { head, answer } = receiver::data::handle_data_packet(
            self.head,
            &mut self.words,
            &mut self.bytes,
            time,
            p,
            payload,
        );
        self.head = head;
        // A push of the window has another enum, without light ACKs: one writer for both is longer than these lines.
        let _ = match answer {
            Ok(DataAnswer::Got { lrsn, recovered }) => println!(self.rt;
                "data got {lrsn} {}",
                recovered as u8
            ),
            Ok(DataAnswer::Light { lrsn, recovered }) => println!(self.rt;
                "data light {lrsn} {}",
                recovered as u8
            ),
            Ok(DataAnswer::Loss { first, last }) => println!(self.rt; "data loss {first} {last}"),
            Err(refusal) => println!(self.rt; "data {}", Refused(refusal)),
        };
    }

    // A packet that is its whole message, FIRST and LAST.
    pub fn data(&mut self, time: i64, number: u32, stamp: u32, payload: &[u8]) {
        self.data_part(time, number, 1, 3, stamp, payload);
    }

    fn pop_into(&mut self, out: &mut [u8], time: i64) {
        let Given { head, answer } = receiver::message::pop_next_message(
            self.head,
            &self.words,
            &self.bytes,
            out,
            time,
        );
        self.head = head;
        let _ = match answer {
            Ok(answer) => {
                let gap = ' ';
                println!(self.rt; "pop {}", Pop { answer, out, gap })
            }
            Err(refusal) => println!(self.rt; "pop {}", Refused(refusal)),
        };
    }

    // The longest message here has 13 bytes.
    pub fn pop(&mut self, time: i64) {
        self.pop_into(&mut [0; 13], time);
    }

    pub fn pop_short(&mut self, time: i64) {
        self.pop_into(&mut [0; 12], time);
    }

    fn nak_into(&mut self, list: &mut [u32], time: i64) {
        let Reported { head, answer } = feedback::loss::on_nak_event(
            self.head,
            &mut self.words,
            list,
            time,
        );
        self.head = head;
        let _ = match answer {
            Ok(words) => println!(self.rt; "nak {}", Report { words, list }),
            Err(refusal) => println!(self.rt; "nak {}", Refused(refusal)),
        };
    }

    // No report here needs more than two words.
    pub fn nak(&mut self, time: i64) {
        self.nak_into(&mut [0; 2], time);
    }

    pub fn nak_short(&mut self, time: i64) {
        self.nak_into(&mut [0; 1], time);
    }

    pub fn drop_request(&mut self, first: u32, last: u32) {
        let answer = upkeep::request::handle_drop_request(self.head, &mut self.words, first, last);
        let _ = match answer {
            Ok(n) => println!(self.rt; "drop gone {n}"),
            Err(refusal) => println!(self.rt; "drop {}", Refused(refusal)),
        };
    }

    pub fn clock(&mut self, time: i64, stamp: u32) {
        let Clocked { head, answer } = feedback::sync::synchronize_clock(self.head, time, stamp);
        self.head = head;
        let _ = match answer {
            Ok(ClockAnswer::Nothing) => println!(self.rt; "clock none"),
            Ok(ClockAnswer::Adjusted { mean, deviation }) => println!(self.rt;
                "clock adjusted {mean} {deviation}"
            ),
            Ok(ClockAnswer::Unsteady { deviation, .. }) => println!(self.rt;
                "clock unsteady {deviation}"
            ),
            Err(refusal) => println!(self.rt; "clock {}", Refused(refusal)),
        };
    }

    fn after_full(&mut self, acked: FullAcked) {
        self.head = acked.head;
        let _ = match acked.answer {
            Ok(None) => println!(self.rt; "full none"),
            Ok(
                Some(
                    FullAck {
                        number,
                        lrsn,
                        mean,
                        variance,
                        room,
                        packet_receive_rate,
                        estimated_link_capacity,
                        data_receive_rate,
                    },
                ),
            ) => {
                let packets = OrDash(packet_receive_rate);
                let bytes = OrDash(estimated_link_capacity);
                let link = OrDash(data_receive_rate);
                println!(self.rt;
                    "full ack {number} {lrsn} {mean} {variance} {room} {packets} {bytes} {link}"
                )
            }
            Err(refusal) => println!(self.rt; "full {}", Refused(refusal)),
        };
    }

    pub fn full(&mut self, time: i64) {
        let acked = feedback::acking::on_full_ack_event(self.head, &mut self.history, time);
        self.after_full(acked);
    }

    // The slots are lent in place of the history, for which they are short.
    pub fn full_short(&mut self, time: i64) {
        let acked = feedback::acking::on_full_ack_event(self.head, &mut self.words, time);
        self.after_full(acked);
    }

    fn after_ack2(&mut self, acked: Ack2ed) {
        self.head = acked.head;
        let _ = match acked.answer {
            Ok(None) => println!(self.rt; "ack2 none"),
            Ok(Some(rtt)) => println!(self.rt; "ack2 rtt {} {}", rtt.mean, rtt.variance),
            Err(refusal) => println!(self.rt; "ack2 {}", Refused(refusal)),
        };
    }

    pub fn ack2(&mut self, time: i64, number: u32) {
        let acked = feedback::acking::handle_ack2_packet(self.head, &self.history, time, number);
        self.after_ack2(acked);
    }

    pub fn ack2_short(&mut self, time: i64, number: u32) {
        let acked = feedback::acking::handle_ack2_packet(self.head, &self.words, time, number);
        self.after_ack2(acked);
    }

    pub fn clear(&mut self) {
        let Cleared { head, answer } = upkeep::request::clear(self.head);
        self.head = head;
        let _ = match answer {
            Ok(()) => println!(self.rt; "clear clear"),
            Err(refusal) => println!(self.rt; "clear {}", Refused(refusal)),
        };
    }

    pub fn room(&self) {
        let _ = match upkeep::request::buffer_available(self.head) {
            Ok(n) => println!(self.rt; "room {n}"),
            Err(refusal) => println!(self.rt; "room {}", Refused(refusal)),
        };
    }

    // The part that is shown, then the second question.
    pub fn show(&self, number: u32) {
        let part = upkeep::show::show(self.head, &self.words, &self.bytes, number);
        let _ = println!(self.rt; "show {}", Bytes(part));
        let _ = match upkeep::show::shown(self.head, &self.words, &self.bytes, number) {
            Ok(true) => println!(self.rt; "shown received"),
            Ok(false) => println!(self.rt; "shown other"),
            Err(refusal) => println!(self.rt; "shown {}", Refused(refusal)),
        };
    }

    pub fn end(&self) {
        let w = self.head.window;
        let _ = println!(self.rt; "end {} {} {}", w.lrsn, w.seqno0, w.held);
    }
}
