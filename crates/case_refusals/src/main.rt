// Runs refusals 1 to 15 and writes a line for each call: its name, then its answer in the words of 01's trace lines.
// Carries 01, "Refused, in order of test", by example.
#![tactic(auto)]

use acks::history::History;
use case_calls::Case;
use clock::base::TimeBase;
use clock::time::SynchronizedRemoteClock;
use head::state::Head;
use std::array;

// Heads that no few calls lead to.

// A latency over its range.
fn with_bad_latency(h: Head) -> Head {
    Head {
        latency: 65_535_001,
        ..h
    }
}

// One entry, with the last ACK number there is.
fn with_worn_history(h: Head) -> Head {
    Head {
        history: History {
            count: 1,
            first: 0xffff_ffff,
            ..h.history
        },
        ..h
    }
}

// The reference time at its upper end.
fn with_far_reference(h: Head) -> Head {
    Head {
        clock: SynchronizedRemoteClock {
            base: TimeBase {
                time: 0x2000_0000_0000_0000,
                stamp: 0,
            },
            ..h.clock
        },
        ..h
    }
}

// The scenarios, in the order of the refusals.

fn bad_head(rt: &impl Print) {
    let _ = println!(rt; "refusal 1, by every call");
    let mut c = Case::new(rt, 0, 0, true, 0, 4);
    c.head = with_bad_latency(c.head);
    c.data(0, 0, 0, b"");
    c.pop(0);
    c.nak(0);
    c.drop_request(0, 0);
    c.show(0);
}

fn bad_head_beside(rt: &impl Print) {
    let mut c = Case::new(rt, 0, 0, true, 0, 4);
    c.head = with_bad_latency(c.head);
    c.clock(0, 0);
    c.full(0);
    c.ack2(0, 1);
    c.clear();
    c.room();
}

// The areas of capacity 4 are short for 5; the slots are short for a history.
fn short_areas(rt: &impl Print) {
    let _ = println!(rt; "refusal 2");
    let mut c = Case::new(rt, 0, 0, true, 0, 5);
    c.data(0, 0, 0, b"");
    c.pop(0);
    c.nak(0);
    c.drop_request(0, 0);
    c.full_short(0);
    c.ack2_short(0, 1);
    c.show(0);
}

// 2^60 and -1 are no readings; 9 is before the start time 10, which is itself taken.
fn readings(rt: &impl Print) {
    let _ = println!(rt; "refusals 3 and 4");
    let mut c = Case::new(rt, 10, 0, true, 0, 4);
    c.data(0x1000_0000_0000_0000, 0, 0, b"");
    c.pop(-1);
    c.nak(-1);
    c.nak(9);
    c.pop(9);
    c.data(9, 0, 0, b"");
    c.pop(10);
}

fn readings_beside(rt: &impl Print) {
    let mut c = Case::new(rt, 10, 0, true, 0, 4);
    c.clock(-1, 0);
    c.full(0x1000_0000_0000_0000);
    c.ack2(0x1000_0000_0000_0000, 1);
    c.clock(9, 0);
    c.full(9);
    c.ack2(9, 1);
}

// A number of 2^31 with 1,457 bytes is 5, by order of test.
fn bad_packets(rt: &impl Print) {
    let _ = println!(rt; "refusals 5 and 6");
    let long: [u8; 1457] = array::repeat(b'x');
    let mut c = Case::new(rt, 0, 0, true, 0, 4);
    c.data(0, 0x8000_0000, 0, &long);
    c.data_part(0, 0, 0x400_0000, 3, 0, b"");
    c.data_part(0, 0, 0, 4, 0, b"");
    c.data(0, 0, 0, &long);
    c.end();
}

// Held 4 of 4 after a gap: 4 is the next expected, 5 needs two places.
fn full_early(rt: &impl Print) {
    let _ = println!(rt; "refusals 7 and 8, and no ACK without room");
    let mut c = Case::new(rt, 0, 0, true, 0, 4);
    c.data(0, 0, 0, b"zero");
    c.data(0, 3, 0, b"three");
    c.data(0, 4, 0, b"four");
    c.data(0, 5, 0, b"five");
    c.room();
    c.full(0);
}

// The pop leaves one place, and 0 behind.
fn late_early(rt: &impl Print) {
    let _ = println!(rt; "refusals 9, 8 and 10 after a pop");
    let mut c = Case::new(rt, 0, 0, true, 0, 4);
    c.data(0, 0, 0, b"zero");
    c.data(0, 3, 0, b"three");
    c.pop(0);
    c.data(0, 0, 0, b"zero");
    c.data(0, 5, 0, b"five");
    c.data(0, 3, 0, b"three");
    c.end();
}

// A message of 13 bytes across the wrap, due at 10 + 500; its time is that of its first packet.
fn three_packets(rt: &impl Print) {
    let _ = println!(rt; "a message of three packets: not due, an output too short, given");
    let mut c = Case::new(rt, 0, 500, true, 2147483646, 4);
    c.data_part(0, 2147483646, 7, 2, 10, b"one ");
    c.data_part(0, 2147483647, 7, 0, 20, b"two ");
    c.data_part(0, 0, 7, 1, 30, b"three");
    c.pop(509);
    c.pop_short(510);
    c.pop(510);
    c.end();
}

// Two losses at 0, due after 20,000 and then after 20,001 + 30,000. A refused report changes nothing.
fn losses(rt: &impl Print) {
    let _ = println!(rt; "a loss report, refusal 12, and the next report");
    let mut c = Case::new(rt, 0, 0, true, 10, 4);
    c.data(0, 12, 0, b"twelve");
    c.nak(20_000);
    c.nak_short(20_001);
    c.nak(20_000);
    c.nak(20_001);
    c.nak(50_001);
    c.nak(50_002);
    c.end();
}

// The entry's number is 0, lrsn 8 is after it: due, and no number is left.
fn worn(rt: &impl Print) {
    let _ = println!(rt; "refusal 13");
    let mut c = Case::new(rt, 0, 0, true, 7, 4);
    c.head = with_worn_history(c.head);
    c.full(0);
    c.data(0, 7, 0, b"seven");
    c.full(0);
    c.end();
}

// A32: drift -1 passes the upper end and leaves the flag, so that drift 0 is again a first one.
fn drift_range(rt: &impl Print) {
    let _ = println!(rt; "refusal 14");
    let mut c = Case::new(rt, 0, 0, true, 0, 4);
    c.head = with_far_reference(c.head);
    c.clock(0, 1);
    c.clock(0, 0);
    c.end();
}

fn bad_settings(rt: &impl Print) {
    let _ = println!(rt; "refusal 15, and the last settings that pass");
    Case::new(rt, -1, 0, true, 0, 4);
    Case::new(rt, 0, 65_535_001, true, 0, 4);
    Case::new(rt, 0, 0, true, 0x8000_0000, 4);
    Case::new(rt, 0, 0, true, 0, 0);
    Case::new(rt, 0, 0, true, 0, 8193);
    Case::new(
        rt,
        0xfff_ffff_ffff_ffff,
        65_535_000,
        false,
        2147483647,
        8192,
    );
}

fn main(rt: HostRuntime) {
    bad_head(&rt);
    bad_head_beside(&rt);
    short_areas(&rt);
    readings(&rt);
    readings_beside(&rt);
    bad_packets(&rt);
    full_early(&rt);
    late_early(&rt);
    three_packets(&rt);
    losses(&rt);
    worn(&rt);
    drift_range(&rt);
    bad_settings(&rt);
}
