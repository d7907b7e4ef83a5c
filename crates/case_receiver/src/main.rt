// Runs every public call of the receiver and writes a line for each: its name, then its answer in the words of 01's
// trace lines. Carries 01, "Window", "ACKs, RTT, rates" and "Clock", by example.
#![tactic(auto)]

use acks::history::History;
use case_calls::Case;
use clock::stats::OnlineStats;
use clock::time::SynchronizedRemoteClock;
use head::state::Head;
use intervals::rates::{Arrivals, Links};

// Heads that no few calls lead to.

// The last ACK was of this number.
fn with_last_ack(h: Head, number: u32) -> Head {
    Head {
        history: History {
            lastack: number,
            ..h.history
        },
        ..h
    }
}

// Whole windows: arrivals of 1,000 bytes every 100 µs, pairs 5 µs apart.
fn with_rates(h: Head) -> Head {
    Head {
        arrivals: Arrivals {
            gaps: [100; 16],
            sizes: [1000; 16],
            at: 0,
            count: 16,
            last: None,
        },
        links: Links {
            gaps: [5; 16],
            at: 0,
            count: 16,
            probe: None,
        },
        ..h
    }
}

// 1,024 ACKs, the first of number 1.
fn with_full_history(h: Head) -> Head {
    Head {
        history: History {
            count: 1024,
            ..h.history
        },
        ..h
    }
}

// The first drift was seen, and 999 samples of 0.
fn with_samples(h: Head) -> Head {
    Head {
        clock: SynchronizedRemoteClock {
            seen: true,
            stats: OnlineStats {
                count: 999,
                ..h.clock.stats
            },
            ..h.clock
        },
        ..h
    }
}

// The scenarios.

// 01's six lines, then what is left of the window is asked for.
fn worked_example(rt: &impl Print) {
    let _ = println!(rt; "the worked example of 01");
    let mut c = Case::new(rt, 0, 0, true, 2147483646, 4);
    c.data(1000, 2147483646, 0, b"aaaaaaaaaa");
    c.data(2000, 0, 1000, b"bbbbbbbbbb");
    c.data(3000, 2147483647, 500, b"cccccccccc");
    c.data(3100, 0, 1000, b"dddddddddd");
    c.pop(4000);
    c.end();
    c.show(2147483647);
    c.room();
}

// P3 to P6 of 01: a loss at 0, due after 20,000 and then after 20,001 + 30,000.
fn reports(rt: &impl Print) {
    let _ = println!(rt; "loss reports");
    let mut c = Case::new(rt, 0, 0, true, 10, 4);
    c.data(0, 11, 0, b"eleven");
    c.nak(20_000);
    c.nak(20_001);
    c.nak(50_001);
    c.nak(50_002);
    c.end();
}

// A packet given up is refused as a duplicate.
fn given_up(rt: &impl Print) {
    let _ = println!(rt; "a drop request");
    let mut c = Case::new(rt, 0, 0, true, 10, 4);
    c.data(0, 12, 0, b"twelve");
    c.drop_request(10, 10);
    c.drop_request(10, 10);
    c.drop_request(2147483648, 10);
    c.data(100, 10, 0, b"ten");
    c.show(11);
    c.show(2147483648);
}

// One given up, one lost, one received: all three are walked once the last is 5,000 late.
fn late(rt: &impl Print) {
    let _ = println!(rt; "a late drop");
    let mut c = Case::new(rt, 0, 0, true, 10, 4);
    c.data(0, 12, 0, b"twelve");
    c.drop_request(10, 10);
    c.pop(4_999);
    c.pop(5_000);
    c.end();
}

// None at first, since nothing came; one; then none, since 100 is under 2 x 10,000.
fn full_acks(rt: &impl Print) {
    let _ = println!(rt; "full ACKs");
    let mut c = Case::new(rt, 0, 0, true, 7, 4);
    c.full(0);
    c.data(0, 7, 0, b"seven");
    c.full(0);
    c.full(100);
}

// P2's figures from the ACK2 at 18,000; then the ACK's number is acknowledged, and the next packet is not.
fn ack2s(rt: &impl Print) {
    let _ = println!(rt; "ACK2s");
    let mut c = Case::new(rt, 0, 0, true, 7, 4);
    c.data(0, 7, 0, b"seven");
    c.full(0);
    c.ack2(18_000, 2);
    c.ack2(18_000, 1);
    c.full(20_000);
    c.data(20_000, 8, 0, b"eight");
    c.full(20_000);
}

// A clear keeps seqno0 and lrsn, so 7 is again the next expected and lrsn stays.
fn cleared(rt: &impl Print) {
    let _ = println!(rt; "a clear");
    let mut c = Case::new(rt, 0, 0, true, 7, 4);
    c.data(0, 7, 0, b"seven");
    c.full(0);
    c.clear();
    c.full(0);
    c.ack2(0, 1);
    c.room();
    c.data(0, 7, 0, b"seven");
    c.end();
}

// lrsn 101 is 64 past 37: a light ACK, which becomes the last one. Rates: 16 x 1,000,000 / 1,600, 1,000 times that,
// 1,000,000 / 5.
fn light_and_rates(rt: &impl Print) {
    let _ = println!(rt; "a light ACK, and an ACK with its rates");
    let mut c = Case::new(rt, 0, 0, true, 100, 4);
    c.head = with_rates(with_last_ack(c.head, 37));
    c.data(0, 100, 0, b"a");
    c.full(0);
    c.data(0, 101, 0, b"b");
    c.end();
}

// 01's edge on a recovery: lrsn goes from 100 to 102, which is 64 past 38.
fn light_recovery(rt: &impl Print) {
    let _ = println!(rt; "a light ACK on a recovery");
    let mut c = Case::new(rt, 0, 0, true, 100, 4);
    c.head = with_last_ack(c.head, 38);
    c.data(0, 101, 0, b"b");
    c.data(0, 100, 0, b"a");
    c.data(0, 102, 0, b"c");
    c.end();
}

// A52: ACKs 1 to 1,024 are held, each of number 0 sent at 0. 1,025 takes the place of 1, so that 1 is not held and 2
// is; both intervals are 0.
fn full_history(rt: &impl Print) {
    let _ = println!(rt; "a full history loses its oldest");
    let mut c = Case::new(rt, 0, 0, true, 7, 4);
    c.head = with_full_history(c.head);
    c.data(0, 7, 0, b"seven");
    c.full(0);
    c.ack2(0, 1);
    c.ack2(0, 2);
    c.ack2(0, 1025);
    c.full(0);
}

// A1: drift 600, so the reference is -600 and moves to 1,000 with stamp 1,600; stamp 400 is then -200.
fn first_drift(rt: &impl Print) {
    let _ = println!(rt; "the first drift");
    let mut c = Case::new(rt, 0, 0, true, 0, 4);
    c.clock(1000, 400);
    c.data(1000, 0, 400, b"abc");
    c.pop(1000);
    c.end();
}

// 999 samples of 0 and one of x: mean x / 1,000, v = 999 (x / 1,000)^2. First x = 1,000: the reference is -1 and moves
// to 2,000 with stamp 2,001. Then x = 1,000,000: v = 999,000,000, between 31,606^2 and 31,607^2.
fn samples(rt: &impl Print) {
    let _ = println!(rt; "a thousand samples, steady and not");
    let mut c = Case::new(rt, 0, 0, true, 0, 4);
    c.head = with_samples(c.head);
    c.clock(2000, 1000);
    c.head = with_samples(c.head);
    c.clock(2000, 4293969297);
    c.end();
}

fn main(rt: HostRuntime) {
    worked_example(&rt);
    reports(&rt);
    given_up(&rt);
    late(&rt);
    full_acks(&rt);
    ack2s(&rt);
    cleared(&rt);
    light_and_rates(&rt);
    light_recovery(&rt);
    full_history(&rt);
    first_drift(&rt);
    samples(&rt);
}
