// Pop, buffer.rs `pop_next_message` and `drop_too_late_packets`: 01, "Window".
ghost use Rattle.std.specs.Prelude.{◌≡◌, ◌+◌, ◌*◌, ◌<◌, ◌≤◌, ◌^◌, nat_abs, length, Some, None};
ghost use Rattle.std.proofs.Math.Seq.{paste};
ghost use Rattle.slots.specs.Ring.{payload_at};
ghost use Rattle.window.specs.Ready.{Ring, Good, Bytes};
ghost use Rattle.window_pop.specs.Pop.{pop_ended, run_from, message_of, filled, is_late, walk_from, discard_front, discarded, late_of, released_of, front_of, pop_of, due_of, limit_of};
ghost use Rattle.window_pop.specs.Ready.{PopReady};
ghost use Rattle.window_pop.specs.Inner.{is_kept, walk_past, front_in};

use clock::base::TimeBase;
use clock::time::SynchronizedRemoteClock;
use slots::entry::Entry;
use window::Window;

// A whole message in front.
#[derive(Clone, Copy, PartialEq, Eq, Debug)]
pub struct Message {
    pub packets: usize,
    pub bytes: usize,
}

// How far a late walk discards, and the stamp of the first received entry walked.
#[derive(Clone, Copy, PartialEq, Eq, Debug)]
pub struct Walk {
    pub count: usize,
    pub first_stamp: u32,
}

// Three answers, each with a line of its own in 01: an Option of the other two is no plainer than Nothing beside them.
#[derive(Clone, Copy, PartialEq, Eq, Debug)]
pub enum PopAnswer {
    Nothing,
    Message {
        time: i64,
        bytes: usize,
        packets: usize,
    },
    Late {
        first: u32,
        end: u32,
        delay: i32,
    },
}

// Refusal 11: the message in front is longer than the output.
#[derive(Clone, Copy, PartialEq, Eq, Debug)]
pub struct OutShort;

#[derive(Clone, Copy)]
pub struct Popped {
    pub window: Window,
    pub clock: SynchronizedRemoteClock,
    pub answer: PopAnswer,
}

// The run of received entries with this message number, through the first LAST.
fn count_run(
    words: &[u64],
    capacity: usize,
    start: usize,
    held: usize,
    message: u32,
) -> Option<Message>
    requires { Ring capacity start held words.now }
    ensures { result ≡ run_from capacity start words.now message 0 0 held }
{
    let mut s = start;
    let mut total = 0;
    for i in 0..held {
        let e = slots::entry::read_at(words, s);
        if !slots::entry::in_message(message, e) {
            return None;
        }
        total += slots::entry::length_in(e);
        if slots::entry::is_last(e) {
            return Some(Message {
                packets: i + 1,
                bytes: total,
            });
        }
        s = slots::ring::next_slot(capacity, s);
    }
    None
}

// The message in front: the first entry with FIRST, and the run with its message number.
fn message_in_front(w: Window, words: &[u64]) -> Option<Message>
    requires { Good w words.now }
    ensures { result ≡ message_of w words.now }
{
    let e = slots::entry::read_at(words, w.start);
    if !slots::entry::is_first(e) {
        return None;
    }
    count_run(
        words,
        w.capacity,
        w.start,
        w.held,
        slots::entry::message_in(e),
    )
}

// Puts the payload in slot s, n bytes of it, into the output.
pub fn put_payload(bytes: &[u8], s: usize, n: usize, out: &mut [u8], at: usize)
    requires { (n ≤ 1456) × (1456 * s + 1456 ≤ length bytes.now) × (at + n ≤ length out.old) }
    ensures { out.new ≡ paste out.old at (payload_at bytes.now s n) n }
{
    let a = 1456 * s;
    let e = a + n;
    copy::put(out, at, &bytes[a..e]);
}

// Puts the payloads of the first `count` entries into the output, one after the other.
fn fill(words: &[u64], bytes: &[u8], capacity: usize, start: usize, count: usize, out: &mut [u8])
    requires { Ring capacity start count words.now × (1456 * capacity ≤ length bytes.now) × ((filled capacity start words.now bytes.now out.old count).at ≤ length out.old) }
    ensures { out.new ≡ (filled capacity start words.now bytes.now out.old count).out }
{
    let mut s = start;
    let mut at = 0;
    for _ in 0..count {
        let n = slots::entry::length_in(slots::entry::read_at(words, s));
        put_payload(bytes, s, n, out, at);
        at += n;
        s = slots::ring::next_slot(capacity, s);
    }
}

// An entry's time + latency.
pub fn due(base: TimeBase, latency: u32, stamp: u32) -> i64
    requires { (nat_abs base.time ≤ 2 ^ 61) × (latency ≤ 65535000) }
    ensures { result ≡ due_of base latency stamp }
{
    base.instant_from(stamp) + latency as i64
}

// An entry with a time up to this one is late.
fn late_limit(time: i64, latency: u32) -> i64
    requires { (nat_abs time < 2 ^ 60) × (latency ≤ 65535000) }
    ensures { result ≡ limit_of time latency }
{
    time - latency as i64 - 5_000
}

fn is_late(base: TimeBase, limit: i64, e: Entry) -> bool
    requires { nat_abs base.time ≤ 2 ^ 61 }
    ensures { result ≡ is_late base limit e }
{
    if slots::entry::is_first(e) {
        return base.instant_from(slots::entry::stamp_in(e)) <= limit;
    }
    true
}

// A received entry that is not late ends the walk.
fn is_kept(base: TimeBase, limit: i64, e: Entry) -> bool
    requires { nat_abs base.time ≤ 2 ^ 61 }
    ensures { result ≡ is_kept base limit e }
{
    slots::entry::is_received(e) && !is_late(base, limit, e)
}

// The walk after entry i.
fn walk_past(k: Option<Walk>, i: usize, e: Entry) -> Option<Walk>
    requires { i < 8192 }
    ensures { result ≡ walk_past k i e }
{
    if !slots::entry::is_received(e) {
        return k;
    }
    match k {
        Some(walk) => Some(Walk {
            count: i + 1,
            ..walk
        }),
        None => Some(Walk {
            count: i + 1,
            first_stamp: slots::entry::stamp_in(e),
        }),
    }
}

// The walk from the front over entries not received, or late.
fn walk_late(
    words: &[u64],
    capacity: usize,
    start: usize,
    held: usize,
    base: TimeBase,
    limit: i64,
) -> Option<Walk>
    requires { Ring capacity start held words.now × (nat_abs base.time ≤ 2 ^ 61) }
    ensures { result ≡ walk_from base limit capacity start words.now 0 None held }
{
    let mut s = start;
    let mut k = None;
    for i in 0..held {
        let e = slots::entry::read_at(words, s);
        if is_kept(base, limit, e) {
            return k;
        }
        k = walk_past(k, i, e);
        s = slots::ring::next_slot(capacity, s);
    }
    k
}

// The window without its first n entries; lrsn is searched from the new front.
fn discard_front(w: Window, words: &[u64], n: usize) -> Window
    requires { Good w words.now × (n ≤ w.held) }
    ensures { result ≡ discard_front w words.now n }
{
    let c = window::cut_front(w, n);
    let lrsn = window::search_lrsn(c, words, 0);
    Window { lrsn, ..c }
}

// Discards through the last received entry walked.
fn discard(
    w: Window,
    clock: SynchronizedRemoteClock,
    latency: u32,
    words: &[u64],
    time: i64,
    walk: Walk,
) -> Popped
    requires { Good w words.now × (walk.count ≤ w.held) × (nat_abs clock.base.time ≤ 2 ^ 61) × (latency ≤ 65535000) }
    ensures { result ≡ discarded clock latency w words.now time (Some walk) }
{
    let delay = numbers::instant::interval(due(clock.base, latency, walk.first_stamp), time);
    let window = discard_front(w, words, walk.count);
    Popped {
        window,
        clock,
        answer: PopAnswer::Late {
            first: w.seqno0,
            end: window.seqno0,
            delay,
        },
    }
}

// The late walk, if late dropping is on.
fn drop_late(
    w: Window,
    clock: SynchronizedRemoteClock,
    latency: u32,
    late_drop: bool,
    words: &[u64],
    time: i64,
) -> Popped
    requires { Good w words.now × (nat_abs clock.base.time ≤ 2 ^ 61) × (nat_abs time < 2 ^ 60) × (latency ≤ 65535000) }
    ensures { result ≡ late_of clock latency late_drop w words.now time }
{
    let nothing = Popped {
        window: w,
        clock,
        answer: PopAnswer::Nothing,
    };
    if !late_drop {
        return nothing;
    }
    let limit = late_limit(time, latency);
    match walk_late(words, w.capacity, w.start, w.held, clock.base, limit) {
        Some(walk) => discard(w, clock, latency, words, time, walk),
        None => nothing,
    }
}

// A whole message is due: its payloads go to the output, if they fit.
fn release(
    w: Window,
    clock: SynchronizedRemoteClock,
    words: &[u64],
    bytes: &[u8],
    out: &mut [u8],
    stamp: u32,
    m: Message,
) -> Result<Popped, OutShort>
    requires { Good w words.now × Bytes w bytes.now × (nat_abs clock.base.time ≤ 2 ^ 61) × (Some m ≡ message_of w words.now) }
    ensures { pop_ended result out.new ≡ released_of clock w words.now bytes.now out.old stamp m }
{
    if out.len() < m.bytes {
        return Err(OutShort);
    }
    fill(words, bytes, w.capacity, w.start, m.packets, out);
    let released = clock.monotonic_instant_from(stamp);
    Ok(Popped {
        window: window::cut_front(w, m.packets),
        clock: released.clock,
        answer: PopAnswer::Message {
            time: released.time,
            bytes: m.bytes,
            packets: m.packets,
        },
    })
}

// The front is received: nothing before its time + latency, else its message if that is whole.
fn pop_front(
    w: Window,
    clock: SynchronizedRemoteClock,
    latency: u32,
    late_drop: bool,
    words: &[u64],
    bytes: &[u8],
    out: &mut [u8],
    time: i64,
    stamp: u32,
) -> Result<Popped, OutShort>
    requires { PopReady clock latency w words.now bytes.now time }
    ensures { pop_ended result out.new ≡ front_of clock latency late_drop w words.now time bytes.now out.old stamp }
{
    if time < due(clock.base, latency, stamp) {
        return Ok(Popped {
            window: w,
            clock,
            answer: PopAnswer::Nothing,
        });
    }
    match message_in_front(w, words) {
        Some(m) => release(w, clock, words, bytes, out, stamp, m),
        None => Ok(drop_late(w, clock, latency, late_drop, words, time)),
    }
}

// The front, or given up where there is none: one test then tells pop both, which an option would split in two.
fn front(w: Window, words: &[u64]) -> Entry
    requires { Good w words.now }
    ensures { result ≡ front_in w words.now }
{
    if w.held == 0 {
        return Entry::GivenUp;
    }
    slots::entry::read_at(words, w.start)
}

// A pop at a reading. Clock, latency and late dropping stand apart, as in the definitions: a struct is no plainer.
pub fn pop(
    w: Window,
    clock: SynchronizedRemoteClock,
    latency: u32,
    late_drop: bool,
    words: &[u64],
    bytes: &[u8],
    out: &mut [u8],
    time: i64,
) -> Result<Popped, OutShort>
    requires { PopReady clock latency w words.now bytes.now time }
    ensures { pop_ended result out.new ≡ pop_of clock latency late_drop w words.now time bytes.now out.old }
{
    let e = front(w, words);
    if slots::entry::is_received(e) {
        return pop_front(
            w,
            clock,
            latency,
            late_drop,
            words,
            bytes,
            out,
            time,
            slots::entry::stamp_in(e),
        );
    }
    Ok(drop_late(w, clock, latency, late_drop, words, time))
}
