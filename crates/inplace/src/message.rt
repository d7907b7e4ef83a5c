// The pop on a head's words: 01, "Window", with refusals 1 to 4 and 11. receiver/src/message.rt has the same on a head.
ghost use Rattle.std.specs.Prelude.{◌≡◌, ◌^◌, ◌≤◌, ◌<◌, nat_abs, Ok};
ghost use Rattle.window.specs.Ready.{Good};
ghost use Rattle.window_pop.specs.Pop.{pop_of};
ghost use Rattle.window_pop.specs.Ready.{PopReady};
ghost use Rattle.packing.specs.Words.{number_of};
ghost use Rattle.packing.specs.Packed.{at, window_of, clock_of};
ghost use Rattle.inplace.specs.Calls.{pop_in, message_in};
ghost use Rattle.inplace.specs.Pops.{put_popped, settled_by, released_of, is_single, release_time, put_single, Single, single_of, Fronted, is_usual, Usual, usual_of, Popping, message_taken, pop_refusal};

use clock::base::TimeBase;
use clock::stats::OnlineStats;
use clock::time::SynchronizedRemoteClock;
use head::refusal::Refusal;
use packing::{pack, unpack, words};
use receiver::message::MessageAnswer;
use window::Window;

// The window and clock after a pop, and the reading as the latest.
fn put_popped(ws: &mut [u64; 79], window: Window, clock: SynchronizedRemoteClock, time: i64)
    ensures { ws.new ≡ put_popped ws.old window clock time }
{
    pack::put_window(ws, window);
    pack::put_base(ws, clock);
    pack::put_stats(ws, clock);
    ws[0] = words::of_whole(time);
}

// The pop of the window, and what it leaves: an output that is short leaves the words; all else moves them on.
fn move_on(
    ws: &mut [u64; 79],
    w: Window,
    k: SynchronizedRemoteClock,
    latency: u32,
    dropping: bool,
    slots: &[u64],
    bytes: &[u8],
    out: &mut [u8],
    time: i64,
) -> Result<MessageAnswer, Refusal>
    requires { PopReady k latency w slots.now bytes.now time }
    ensures { pop_in result ws.new out.new ≡ settled_by ws.old time (pop_of k latency dropping w slots.now time bytes.now out.old) }
{
    let popped = window_pop::pop::pop(w, k, latency, dropping, slots, bytes, out, time)?;
    put_popped(ws, popped.window, popped.clock, time);
    Ok(popped.answer)
}

// The call, once nothing refuses it.
fn release(
    ws: &mut [u64; 79],
    slots: &[u64],
    bytes: &[u8],
    out: &mut [u8],
    time: i64,
) -> Result<MessageAnswer, Refusal>
    requires { PopReady (clock_of ws.old) (number_of (at ws.old 6)) (window_of ws.old) slots.now bytes.now time }
    ensures { pop_in result ws.new out.new ≡ released_of ws.old slots.now bytes.now out.old time }
{
    let w = unpack::window(ws);
    let k = unpack::clock(ws);
    let latency = words::number(ws[6]);
    let dropping = words::flag(ws[7]);
    move_on(ws, w, k, latency, dropping, slots, bytes, out, time)
}

// Whether the front is a message of one packet, due, and of at most `room` bytes.
fn is_single(w: Window, base: TimeBase, latency: u32, slots: &[u64], room: usize, time: i64) -> bool
    requires { Good w slots.now × (nat_abs base.time ≤ 2 ^ 61) × (latency ≤ 65535000) }
    ensures { result ≡ is_single w base latency slots.now room time }
{
    if w.held == 0 {
        return false;
    }
    let e = slots::entry::read_at(slots, w.start);
    let t = window_pop::pop::due(base, latency, slots::entry::stamp_in(e));
    slots::entry::is_first(e)
        & slots::entry::is_last(e)
        & !(time < t)
        & !(room < slots::entry::length_in(e))
}

// The time at which an entry with this stamp is released: never before the last one.
fn release_time(ws: &[u64; 79], base: TimeBase, stamp: u32) -> i64
    requires { nat_abs base.time ≤ 2 ^ 61 }
    ensures { result ≡ release_time ws.now base stamp }
{
    let k = SynchronizedRemoteClock {
        base,
        last: words::moment(ws[10], ws[11]),
        seen: true,
        stats: OnlineStats::new(),
    };
    k.monotonic_instant_from(stamp).time
}

// The words that the release of one packet moves: the front, the last released time and the latest reading.
fn put_single(ws: &mut [u64; 79], w: Window, released: i64, reading: i64)
    ensures { ws.new ≡ put_single ws.old w released reading }
{
    ws[2] = words::of_size(w.start);
    ws[3] = words::of_size(w.held);
    ws[4] = words::of_number(w.seqno0);
    ws[10] = 1;
    ws[11] = words::of_whole(released);
    ws[0] = words::of_whole(reading);
}

// The usual pop, of a message of one packet: what it leaves alone is not even read.
fn release_single(
    ws: &mut [u64; 79],
    w: Window,
    base: TimeBase,
    slots: &[u64],
    bytes: &[u8],
    out: &mut [u8],
    time: i64,
) -> MessageAnswer
    requires { Single w base slots.now bytes.now out.old }
    ensures { pop_in (Ok result) ws.new out.new ≡ single_of ws.old w base slots.now bytes.now out.old time }
{
    let c = window::cut_front(w, 1);
    let e = slots::entry::read_at(slots, w.start);
    let n = slots::entry::length_in(e);
    window_pop::pop::put_payload(bytes, w.start, n, out, 0);
    let t = release_time(ws, base, slots::entry::stamp_in(e));
    put_single(ws, c, t, time);
    MessageAnswer::Message {
        time: t,
        bytes: n,
        packets: 1,
    }
}

// Both on the words: the test, and the release.
fn is_usual(ws: &[u64; 79], slots: &[u64], room: usize, time: i64) -> bool
    requires { Fronted ws.now slots.now }
    ensures { result ≡ is_usual ws.now slots.now room time }
{
    let w = unpack::window(ws);
    let base = unpack::base(ws);
    let latency = words::number(ws[6]);
    is_single(w, base, latency, slots, room, time)
}

fn release_usual(
    ws: &mut [u64; 79],
    slots: &[u64],
    bytes: &[u8],
    out: &mut [u8],
    time: i64,
) -> MessageAnswer
    requires { Usual ws.old slots.now bytes.now out.old }
    ensures { pop_in (Ok result) ws.new out.new ≡ usual_of ws.old slots.now bytes.now out.old time }
{
    let w = unpack::window(ws);
    let base = unpack::base(ws);
    release_single(ws, w, base, slots, bytes, out, time)
}

// The same, as the head's call: what the type says of the words is needed for that.
fn take(
    ws: &mut [u64; 79],
    slots: &[u64],
    bytes: &[u8],
    out: &mut [u8],
    time: i64,
) -> Result<MessageAnswer, Refusal>
    requires { Popping ws.old slots.now bytes.now time }
    ensures { pop_in result ws.new out.new ≡ message_taken ws.old slots.now bytes.now out.old time }
{
    sound::typed(ws);
    if is_usual(ws, slots, out.len(), time) {
        return Ok(release_usual(ws, slots, bytes, out, time));
    }
    release(ws, slots, bytes, out, time)
}

fn refusal(ws: &[u64; 79], slots: usize, bytes: usize, time: i64) -> Result<(), Refusal>
    ensures { result ≡ pop_refusal ws.now slots bytes time }
{
    let ok = sound::sound(ws);
    let capacity = words::size(ws[1]);
    let latest = words::whole(ws[0]);
    if crate::clear::areas_clear(ok, capacity, slots, bytes, time, latest) {
        return Ok(());
    }
    head::gate::refuse_pop(ok, capacity, slots, bytes, time, latest)
}

pub fn pop_next_message(
    ws: &mut [u64; 79],
    slots: &[u64],
    bytes: &[u8],
    out: &mut [u8],
    time: i64,
) -> Result<MessageAnswer, Refusal>
    ensures { pop_in result ws.new out.new ≡ message_in ws.old slots.now bytes.now out.old time }
{
    refusal(ws, slots.len(), bytes.len(), time)?;
    take(ws, slots, bytes, out, time)
}
