// Scenarios of the window in capacity 4, call by call, worked out by hand: 01, "Window".
#![tactic(auto)]

use case_window_calls::{Case, part, whole};
use std::array;

fn worked_example(rt: &impl Print) {
    let _ = println!(rt; "the worked example of 01, then pops until nothing is left");
    let mut c = Case::new(rt, 2147483646, 0, true);
    c.push(1000, whole(2147483646, 1, 0), b"aaaaaaaaaa");
    c.push(2000, whole(0, 3, 1000), b"bbbbbbbbbb");
    c.push(3000, whole(2147483647, 2, 500), b"cccccccccc");
    c.push(3100, whole(0, 3, 1000), b"dddddddddd");
    c.pop(4000);
    c.end();
    c.pop(4000);
    c.pop(4000);
    c.pop(4000);
    c.end();
}

fn full_early_late(rt: &impl Print) {
    let _ = println!(rt; "refusals 7, 8, 9 and 10");
    let mut c = Case::new(rt, 0, 0, true);
    c.push(0, whole(0, 0, 0), b"zero");
    c.push(0, whole(3, 3, 3), b"three");
    c.push(0, whole(4, 4, 4), b"four");
    c.push(0, whole(5, 5, 5), b"five");
    c.pop(0);
    c.push(0, whole(0, 0, 0), b"zero");
    c.push(0, whole(5, 5, 5), b"five");
    c.push(0, whole(4, 4, 4), b"four");
    c.push(0, whole(3, 3, 3), b"again");
    c.end();
}

fn ties(rt: &impl Print) {
    let _ = println!(rt; "a number 2^30 after the next is before it, one nearer is too early");
    let mut c = Case::new(rt, 0, 0, true);
    c.push(0, whole(1073741824, 0, 0), b"tie");
    c.push(0, whole(1073741823, 0, 0), b"early");
    c.push(0, whole(4, 0, 0), b"early");
    c.push(0, whole(3, 0, 0), b"fits");
    c.end();
}

fn three_packets(rt: &impl Print) {
    let _ = println!(rt; "a message of three packets, and an output one byte short of it");
    let mut c = Case::new(rt, 2147483647, 0, true);
    c.push(0, part(2147483647, 7, 2, 10), b"one ");
    c.push(100, part(1, 7, 1, 30), b"three");
    c.pop(200);
    c.push(300, part(0, 7, 0, 20), b"two ");
    c.pop_short(400);
    c.pop(400);
    c.end();
}

fn release_times(rt: &impl Print) {
    let _ = println!(rt;
        "a message at its time + latency, and one released no earlier than the last"
    );
    let mut c = Case::new(rt, 0, 500, true);
    c.push(0, whole(0, 1, 1000), b"later");
    c.pop(1499);
    c.pop(1500);
    c.push(1600, whole(1, 2, 400), b"early");
    c.pop(1600);
    c.end();
}

fn late_edge(rt: &impl Print) {
    let _ = println!(rt; "P7 and P8: behind a lost packet, kept, then late");
    let mut c = Case::new(rt, 0, 100_000, true);
    c.push(100_000, whole(1, 1, 100_000), b"one");
    c.pop(204_999);
    c.pop(205_000);
    c.end();
}

fn late_front(rt: &impl Print) {
    let _ = println!(rt; "P7 and P8: with FIRST in front and no LAST");
    let mut c = Case::new(rt, 0, 100_000, true);
    c.push(100_000, part(0, 1, 2, 100_000), b"one");
    c.pop(204_999);
    c.pop(205_000);
    c.end();
}

fn late_before_due(rt: &impl Print) {
    let _ = println!(rt; "A36: a packet without FIRST, late before it is due");
    let mut c = Case::new(rt, 0, 100, true);
    c.push(0, part(1, 0, 1, 50), b"");
    c.pop(0);
    c.end();
}

fn no_dropping(rt: &impl Print) {
    let _ = println!(rt; "late dropping off");
    let mut c = Case::new(rt, 0, 100_000, false);
    c.push(100_000, whole(1, 1, 100_000), b"one");
    c.pop(205_000);
    c.end();
}

fn report_edges(rt: &impl Print) {
    let _ = println!(rt; "P3 to P6: mean 10,000, a loss at 0");
    let mut c = Case::new(rt, 5, 0, true);
    c.push(0, whole(6, 1, 0), b"six");
    c.report(20_000);
    c.report(20_001);
    c.report(50_001);
    c.report(50_002);
}

fn report_run(rt: &impl Print) {
    let _ = println!(rt; "a run across the wrap, first in a list of one word");
    let mut c = Case::new(rt, 2147483647, 0, true);
    c.push(0, whole(1, 1, 0), b"one");
    c.report_short(20_001);
    c.report(20_001);
    c.report(20_001);
}

fn report_apart(rt: &impl Print) {
    let _ = println!(rt; "two losses, each in its own time, then both");
    let mut c = Case::new(rt, 10, 0, true);
    c.push(0, whole(11, 1, 0), b"eleven");
    c.push(5_000, whole(13, 1, 0), b"thirteen");
    c.report(20_001);
    c.report(25_001);
    c.report(55_002);
}

fn given_up(rt: &impl Print) {
    let _ = println!(rt; "a drop request: its packets are refused, not reported, and walked over");
    let mut c = Case::new(rt, 0, 0, true);
    c.push(0, whole(3, 3, 25_001), b"three");
    c.drop_request(2, 0);
    c.drop_request(0, 1);
    c.drop_request(0, 1);
    c.push(100, whole(1, 1, 0), b"one");
    c.report(20_001);
    c.push(20_100, whole(2, 2, 25_000), b"two");
    c.pop(30_000);
    c.end();
    c.pop(30_000);
    c.end();
}

fn shows(rt: &impl Print) {
    let _ = println!(rt; "numbers shown: received, lost, received and empty, not held");
    let mut c = Case::new(rt, 0, 0, true);
    c.push(0, whole(0, 0, 0), b"hello");
    c.push(0, whole(2, 2, 0), b"");
    c.show(0);
    c.show(1);
    c.show(2);
    c.show(3);
}

fn out_of_range(rt: &impl Print) {
    let _ = println!(rt; "the range tests: refusals 6, 5, 3 and 1, and the longest payload");
    let mut c = Case::new(rt, 0, 65_535_001, true);
    let more: [u8; 1457] = array::repeat(b'x');
    c.push(0, whole(0, 0, 0), &more);
    let most: [u8; 1456] = array::repeat(b'x');
    c.push(0, whole(0, 0, 0), &most);
    c.push(0, whole(0x8000_0000, 0, 0), b"");
    c.push(0x1000_0000_0000_0000, whole(1, 0, 0), b"");
    c.pop(0);
    c.end();
}

fn main(rt: HostRuntime) {
    worked_example(&rt);
    full_early_late(&rt);
    ties(&rt);
    three_packets(&rt);
    release_times(&rt);
    late_edge(&rt);
    late_front(&rt);
    late_before_due(&rt);
    no_dropping(&rt);
    report_edges(&rt);
    report_run(&rt);
    report_apart(&rt);
    given_up(&rt);
    shows(&rt);
    out_of_range(&rt);
}
