// Runs the calls of the counter layer and writes a line for each: its name, then the ten counters in 003's order.
// Carries 01, "Counters follow 003" and "7 to 10 still count in the counters", by example.
#![tactic(auto)]

use clock::base::TimeBase;
use counts::Counters;
use head::state::Head;
use std::array;
use window::push::Packet;

// A head with its counters and areas, and where the lines go. Each call writes its line.
#[derive(Drop)]
struct Case<'a, P> {
    rt: &'a P,
    head: Head,
    counters: Counters,
    words: [u64; 12],
    bytes: [u8; 5824],
    history: [u64; 2048],
}

impl<'a, P: Print> Case<'a, P> {
    fn new(rt: &'a P, start: i64, first: u32, capacity: usize) -> Self {
        Case {
            rt,
            head: Head::new(start, 0, true, first, capacity).unwrap_or(Head::nowhere()),
            counters: Counters::new(),
            words: array::repeat(0),
            bytes: array::repeat(0),
            history: array::repeat(0),
        }
    }

    // What a call leaves, and its line.
    fn after(&mut self, name: &str, head: Head, c: Counters) {
        self.head = head;
        self.counters = c;
        let _ = print!(self.rt;
            "{name} {} {} {} {} {}",
            c.rx_data, c.rx_bytes, c.rx_unique_data, c.rx_unique_bytes, c.rx_retransmit_data
        );
        let _ = println!(self.rt;
            " {} {} {} {} {}",
            c.rx_dropped_data,
            c.rx_dropped_bytes,
            c.rx_ack2,
            c.rx_ack2_errors,
            c.rx_clock_adjustments
        );
    }

    fn data(&mut self, time: i64, number: u32, payload: &[u8]) {
        let p = Packet {
            number,
            message: 1,
            location: 3,
            stamp: 0,
        };
        let r = counters::data::handle_data_packet(
            self.counters,
            self.head,
            &mut self.words,
            &mut self.bytes,
            time,
            p,
            payload,
        );
        self.after("data", r.left.head, r.counters);
    }

    fn pop(&mut self, time: i64) {
        let r = counters::message::pop_next_message(
            self.counters,
            self.head,
            &self.words,
            &self.bytes,
            &mut [0; 13],
            time,
        );
        self.after("pop", r.left.head, r.counters);
    }

    fn nak(&mut self, time: i64) {
        let r = counters::loss::on_nak_event(
            self.counters,
            self.head,
            &mut self.words,
            &mut [0; 2],
            time,
        );
        self.after("nak", r.left.head, r.counters);
    }

    fn drop_request(&mut self, first: u32, last: u32) {
        let r = counters::request::handle_drop_request(
            self.counters,
            self.head,
            &mut self.words,
            first,
            last,
        );
        self.after("drop", self.head, r.counters);
    }

    fn clear(&mut self) {
        let r = counters::request::clear(self.counters, self.head);
        self.after("clear", r.left.head, r.counters);
    }

    fn full(&mut self, time: i64) {
        let r = counters::acking::on_full_ack_event(
            self.counters,
            self.head,
            &mut self.history,
            time,
        );
        self.after("full", r.left.head, r.counters);
    }

    fn ack2(&mut self, time: i64, number: u32) {
        let r = counters::acking::handle_ack2_packet(
            self.counters,
            self.head,
            &self.history,
            time,
            number,
        );
        self.after("ack2", r.left.head, r.counters);
    }

    fn clock(&mut self, time: i64, stamp: u32) {
        let r = counters::sync::synchronize_clock(self.counters, self.head, time, stamp);
        self.after("clock", r.left.head, r.counters);
    }

    // What no few calls lead to.

    // The last ACK was of this number.
    fn set_last_ack(&mut self, number: u32) {
        self.head.history.lastack = number;
    }

    // The first drift was seen, and 999 samples of 0.
    fn set_samples(&mut self) {
        self.head.clock.stats.count = 999;
        self.head.clock.seen = true;
    }

    // The reference time at its upper end, and the first drift not seen.
    fn set_far_reference(&mut self) {
        self.head.clock.base = TimeBase {
            time: 0x2000_0000_0000_0000,
            stamp: 0,
        };
        self.head.clock.seen = false;
    }

    // Each counter one below 2^64.
    fn set_last_counts(&mut self) {
        let top = 0xffff_ffff_ffff_ffff;
        self.counters = Counters {
            rx_data: top,
            rx_bytes: top,
            rx_unique_data: top,
            rx_unique_bytes: top,
            rx_retransmit_data: top,
            rx_dropped_data: top,
            rx_dropped_bytes: top,
            rx_ack2: top,
            rx_ack2_errors: top,
            rx_clock_adjustments: top,
        };
    }
}

// The scenarios.

// A67: got, 10 and 7, of 4 bytes each; then a message, which leaves 0 behind: 9; and 3 needs three places of one: 8, of
// no bytes.
fn refusals(rt: &impl Print) {
    let _ = println!(rt; "got, refusals 10 and 7, a message, refusals 9 and 8");
    let mut c = Case::new(rt, 0, 0, 1);
    c.data(0, 0, b"four");
    c.data(0, 0, b"four");
    c.data(0, 1, b"four");
    c.pop(0);
    c.data(0, 0, b"four");
    c.data(0, 3, b"");
}

// 12 finds 10 and 11 lost; 10 is recovered; 11 is reported, given up once, and then a duplicate.
fn losses(rt: &impl Print) {
    let _ = println!(rt;
        "a loss, a recovery, a report, drop requests of 1, of 0 and refused 5, refusal 10, a clear"
    );
    let mut c = Case::new(rt, 0, 10, 4);
    c.data(0, 12, b"twelve");
    c.data(0, 10, b"ten");
    c.nak(20_001);
    c.drop_request(10, 12);
    c.drop_request(10, 12);
    c.drop_request(0x8000_0000, 12);
    c.data(20_001, 11, b"eleven");
    c.clear();
}

// Two given up by one request, and then all three discarded late.
fn late(rt: &impl Print) {
    let _ = println!(rt; "a loss of two, a drop request of 2, a late discard");
    let mut c = Case::new(rt, 0, 10, 4);
    c.data(0, 12, b"twelve");
    c.drop_request(10, 11);
    c.pop(5_000);
}

// lrsn goes from 100 to 102, which is 64 past 38, on a recovery; then to 103, which is 64 past 39, on an append.
fn lights(rt: &impl Print) {
    let _ = println!(rt; "a loss, a light ACK on a recovery, a light ACK on an append");
    let mut c = Case::new(rt, 0, 100, 4);
    c.set_last_ack(38);
    c.data(0, 101, b"b");
    c.data(0, 100, b"a");
    c.set_last_ack(39);
    c.data(0, 102, b"c");
}

// A66, then A6: ACK 1 is not held at 5, refused 4 at 3, and held once it is sent.
fn acks(rt: &impl Print) {
    let _ = println!(rt; "ACK2s: not held, refused 4, found, not held");
    let mut c = Case::new(rt, 0, 0, 4);
    c.ack2(5, 1);
    c.ack2(3, 1);
    c.data(5, 0, b"");
    c.full(5);
    c.ack2(5, 1);
    c.ack2(5, 2);
}

// A first drift of 0, a sample of 0, one of 1,000 after 999 of 0, one of 1,000,000 likewise, and a drift past the upper
// end.
fn clocks(rt: &impl Print) {
    let _ = println!(rt; "the clock: first drift, a sample, adjusted, unsteady, refusals 4 and 14");
    let mut c = Case::new(rt, 0, 0, 4);
    c.clock(0, 0);
    c.clock(0, 0);
    c.set_samples();
    c.clock(2000, 1000);
    c.set_samples();
    c.clock(2000, 4293969297);
    c.clock(1999, 0);
    c.set_far_reference();
    c.clock(2000, 2001);
}

fn uncounted(rt: &impl Print) {
    let _ = println!(rt; "refusals 1 to 6");
    let long: [u8; 1457] = array::repeat(b'x');
    let mut c = Case::new(rt, 10, 0, 4);
    c.head.latency = 65_535_001;
    c.data(10, 0, b"four");
    c = Case::new(rt, 10, 0, 5);
    c.data(10, 0, b"four");
    c = Case::new(rt, 10, 0, 4);
    c.data(-1, 0, b"four");
    c.data(9, 0, b"four");
    c.data(10, 0x8000_0000, b"four");
    c.data(10, 0, &long);
}

// A loss, a recovery, one given up, one before seqno0, an ACK2 that is not held: each of 4 bytes.
fn over_the_end(rt: &impl Print) {
    let _ = println!(rt; "counters past 2^64 - 1");
    let mut c = Case::new(rt, 0, 10, 4);
    c.set_last_counts();
    c.data(0, 12, b"four");
    c.data(0, 10, b"four");
    c.drop_request(10, 12);
    c.data(0, 9, b"four");
    c.ack2(0, 5);
    c.set_samples();
    c.clock(2000, 1000);
}

fn main(rt: HostRuntime) {
    refusals(&rt);
    losses(&rt);
    late(&rt);
    lights(&rt);
    acks(&rt);
    clocks(&rt);
    uncounted(&rt);
    over_the_end(&rt);
}
