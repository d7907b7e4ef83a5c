// Push, buffer.rs `push_packet`: 01, "Window", with refusals 7 to 10.
ghost use Rattle.std.specs.Prelude.{◌≡◌, true, ◌+◌, ◌*◌, ◌<◌, ◌≤◌, ◌^◌, length, Ok};
ghost use Rattle.numbers.specs.Circular.{before};
ghost use Rattle.numbers.specs.Instants.{is_reading};
ghost use Rattle.slots.specs.Words.{write_at};
ghost use Rattle.slots.specs.Ring.{with_payload};
ghost use Rattle.window.specs.Window.{next_of};
ghost use Rattle.window.specs.Ready.{Ring, Good, Bytes, PacketRight};
ghost use Rattle.window.specs.Push.{push_ended, received, moved_past, lost_at, with_lost, recovered_lrsn, append_next_of, append_with_loss_of, recovered_of, recover_of, push_of};

use crate::Window;
use slots::entry::Entry;
use std::cmp::Ordering;

// `location` stays 01's number: a call takes any, and refuses those from 4 on.
#[derive(Clone, Copy, PartialEq, Eq, Debug)]
pub struct Packet {
    pub number: u32,
    pub message: u32,
    pub location: u32,
    pub stamp: u32,
}

#[derive(Clone, Copy, PartialEq, Eq, Debug)]
pub enum PushAnswer {
    Got { lrsn: u32, recovered: bool },
    Loss { first: u32, last: u32 },
}

// Refusals 7 to 10.
#[derive(Clone, Copy, PartialEq, Eq, Debug)]
pub enum PushRefusal {
    BufferFull,
    PacketTooEarly { room: usize, need: usize },
    PacketTooLate,
    DiscardedDuplicate,
}

#[derive(Clone, Copy, PartialEq, Eq, Debug)]
pub struct Pushed {
    pub window: Window,
    pub answer: PushAnswer,
}

// lrsn, past an append that is equal to it.
pub fn moved_past(lrsn: u32, number: u32) -> u32
    ensures { result ≡ moved_past lrsn number }
{
    if lrsn == number {
        return numbers::seq::successor(number);
    }
    lrsn
}

// Puts a lost entry into slot s: feedback now, k = 2.
fn write_lost(words: &mut [u64], s: usize, time: i64)
    requires { (3 * s + 3 ≤ length words.old) × (is_reading time ≡ true) }
    ensures { words.new ≡ write_at words.old s (lost_at time) }
{
    let feedback = time.unsigned_abs();
    slots::entry::write_at(words, s, Entry::Lost { k: 2, feedback });
}

// Writes `count` entries from entry `from` on as lost.
fn append_lost(
    words: &mut [u64],
    capacity: usize,
    start: usize,
    from: usize,
    count: usize,
    time: i64,
)
    requires { Ring capacity start (from + count) words.old × (is_reading time ≡ true) }
    ensures { words.new ≡ with_lost capacity start words.old time from count }
{
    let mut s = slots::ring::slot(capacity, start, from);
    for _ in 0..count {
        write_lost(words, s, time);
        s = slots::ring::next_slot(capacity, s);
    }
}

// Puts a packet into slot s of both areas.
pub fn put_packet(words: &mut [u64], bytes: &mut [u8], s: usize, p: Packet, payload: &[u8])
    requires { (3 * s + 3 ≤ length words.old) × (1456 * s + 1456 ≤ length bytes.old) × PacketRight p payload.now }
    ensures { (words.new ≡ write_at words.old s (received p payload.now))
        × (bytes.new ≡ with_payload bytes.old s payload.now) }
{
    slots::entry::write_at(
        words,
        s,
        Entry::Received {
            length: payload.len(),
            location: p.location,
            message: p.message,
            stamp: p.stamp,
        },
    );
    copy::put(bytes, 1456 * s, payload);
}

// A push at the next expected number.
fn append_next(
    w: Window,
    words: &mut [u64],
    bytes: &mut [u8],
    time: i64,
    p: Packet,
    payload: &[u8],
) -> Result<Pushed, PushRefusal>
    requires { Good w words.old × Bytes w bytes.old × PacketRight p payload.now }
    ensures { push_ended result words.new bytes.new ≡ append_next_of w words.old bytes.old time p payload.now }
{
    if w.held == w.capacity {
        return Err(PushRefusal::BufferFull);
    }
    let lrsn = moved_past(w.lrsn, p.number);
    let s = slots::ring::slot(w.capacity, w.start, w.held);
    put_packet(words, bytes, s, p, payload);
    Ok(Pushed {
        window: Window {
            held: w.held + 1,
            lrsn,
            ..w
        },
        answer: PushAnswer::Got {
            lrsn,
            recovered: false,
        },
    })
}

// A push after the next expected number, by `gap`.
fn append_with_loss(
    w: Window,
    words: &mut [u64],
    bytes: &mut [u8],
    time: i64,
    p: Packet,
    payload: &[u8],
    gap: usize,
) -> Result<Pushed, PushRefusal>
    requires { Good w words.old × Bytes w bytes.old × PacketRight p payload.now × (is_reading time ≡ true) × (gap < 2 ^ 31) }
    ensures { push_ended result words.new bytes.new ≡ append_with_loss_of w words.old bytes.old time p payload.now gap }
{
    let room = crate::room(w);
    let need = gap + 1;
    if room < need {
        return Err(PushRefusal::PacketTooEarly { room, need });
    }
    let lrsn = moved_past(w.lrsn, p.number);
    let first = crate::number(w, w.held);
    let last = numbers::seq::sum(p.number, 0x7fff_ffff);
    let s = slots::ring::slot(w.capacity, w.start, w.held + gap);
    append_lost(words, w.capacity, w.start, w.held, gap, time);
    put_packet(words, bytes, s, p, payload);
    Ok(Pushed {
        window: Window {
            held: w.held + need,
            lrsn,
            ..w
        },
        answer: PushAnswer::Loss { first, last },
    })
}

// lrsn after the recovery of entry i.
fn recovered_lrsn(w: Window, words: &[u64], number: u32, i: usize) -> u32
    requires { Good w words.now × (i ≤ w.held) }
    ensures { result ≡ recovered_lrsn w number words.now i }
{
    if w.lrsn == number {
        return crate::search_lrsn(w, words, i);
    }
    w.lrsn
}

// The packet of the lost entry i comes.
fn take_recovered(
    w: Window,
    words: &mut [u64],
    bytes: &mut [u8],
    time: i64,
    p: Packet,
    payload: &[u8],
    i: usize,
) -> Pushed
    requires { Good w words.old × Bytes w bytes.old × PacketRight p payload.now × (i ≤ w.held) }
    ensures { push_ended (Ok result) words.new bytes.new ≡ recovered_of w words.old bytes.old time p payload.now i }
{
    let s = slots::ring::slot(w.capacity, w.start, i);
    put_packet(words, bytes, s, p, payload);
    let lrsn = recovered_lrsn(w, words, p.number, i);
    Pushed {
        window: Window { lrsn, ..w },
        answer: PushAnswer::Got {
            lrsn,
            recovered: true,
        },
    }
}

// A push before the next expected number.
fn recover(
    w: Window,
    words: &mut [u64],
    bytes: &mut [u8],
    time: i64,
    p: Packet,
    payload: &[u8],
) -> Result<Pushed, PushRefusal>
    requires { Good w words.old × Bytes w bytes.old × PacketRight p payload.now × (before 31 p.number (next_of w) ≡ true) }
    ensures { push_ended result words.new bytes.new ≡ recover_of w words.old bytes.old time p payload.now }
{
    let past = numbers::seq::distance(p.number, w.seqno0);
    if 0x4000_0000 <= past {
        return Err(PushRefusal::PacketTooLate);
    }
    let i = past as usize;
    let s = slots::ring::slot(w.capacity, w.start, i);
    if !slots::entry::is_lost(slots::entry::read_at(words, s)) {
        return Err(PushRefusal::DiscardedDuplicate);
    }
    Ok(take_recovered(w, words, bytes, time, p, payload, i))
}

// A push: at the next expected number, after it, or before it. Sequence numbers are never compared as plain numbers.
pub fn push(
    w: Window,
    words: &mut [u64],
    bytes: &mut [u8],
    time: i64,
    p: Packet,
    payload: &[u8],
) -> Result<Pushed, PushRefusal>
    requires { Good w words.old × Bytes w bytes.old × PacketRight p payload.now × (is_reading time ≡ true) }
    ensures { push_ended result words.new bytes.new ≡ push_of w words.old bytes.old time p payload.now }
{
    let next = crate::number(w, w.held);
    let order = numbers::seq::compare(p.number, next);
    let gap = numbers::seq::distance(p.number, next);
    match order {
        Ordering::Equal => append_next(w, words, bytes, time, p, payload),
        Ordering::Greater => append_with_loss(w, words, bytes, time, p, payload, gap as usize),
        Ordering::Less => recover(w, words, bytes, time, p, payload),
    }
}
