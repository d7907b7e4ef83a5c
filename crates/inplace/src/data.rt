// A data packet on a head's words: 01, "Window" with refusals 1 to 10, and of "ACKs, RTT, rates" what a push does.
// receiver/src/data.rt has the same on a head.
ghost use Rattle.std.specs.Prelude.{◌≡◌, true, false, ◌<◌, ◌≤◌, Ok};
ghost use Rattle.packing.specs.Packed.{at};
ghost use Rattle.inplace.specs.Calls.{data_in, data_left};
ghost use Rattle.inplace.specs.Pushes.{put_last, put_arrival, put_pair, put_linked, put_rated, put_placed, heard, acked_in, recovered_in, after_other, taken_by, Pairs, Rates, TakeReady, is_next, put_next, kept_next, next_taken, Pushing, data_taken, push_refusal};

use acks::history::History;
use head::refusal::Refusal;
use intervals::rates::one_more;
use numbers::instant::since;
use packing::{pack, unpack, words};
use receiver::data::DataAnswer;
use window::Window;
use window::push::{Packet, PushAnswer, Pushed};

fn put_last(ws: &mut [u64; 79], time: i64)
    ensures { ws.new ≡ put_last ws.old time }
{
    ws[52] = 1;
    ws[53] = words::of_whole(time);
}

// An arrival: the interval since the last one enters its window, if there was one.
fn put_arrival(ws: &mut [u64; 79], at: usize, count: usize, last: Option<i64>, time: i64, size: u32)
    requires { (at < 16) × (count ≤ 16) }
    ensures { ws.new ≡ put_arrival ws.old at count last time size }
{
    let Some(t) = last else {
        put_last(ws, time);
        return;
    };
    ws[18 + at] = words::of_number(since(time, t));
    ws[34 + at] = words::of_number(size);
    ws[50] = words::of_size((at + 1) % 16);
    ws[51] = words::of_size(one_more(count));
    put_last(ws, time);
}

// The second packet of a pair: the interval since the first enters, if there was one.
fn put_pair(ws: &mut [u64; 79], at: usize, count: usize, probe: Option<i64>, time: i64)
    requires { (at < 16) × (count ≤ 16) }
    ensures { ws.new ≡ put_pair ws.old at count probe time }
{
    ws[72] = 0;
    ws[73] = 0;
    let Some(t) = probe else {
        return;
    };
    ws[54 + at] = words::of_number(since(time, t));
    ws[70] = words::of_size((at + 1) % 16);
    ws[71] = words::of_size(one_more(count));
}

// An append of this number: the first of a pair, the second, or neither. Most are neither, and read nothing.
fn put_link(ws: &mut [u64; 79], time: i64, number: u32)
    requires { Pairs ws.old }
    ensures { ws.new ≡ put_linked ws.old time number }
{
    let place = number % 16;
    if place == 0 {
        ws[72] = 1;
        ws[73] = words::of_whole(time);
        return;
    }
    if place == 1 {
        let at = words::size(ws[70]);
        let count = words::size(ws[71]);
        let probe = words::moment(ws[72], ws[73]);
        put_pair(ws, at, count, probe, time);
    }
}

// Rates count appends without gap.
fn rate(ws: &mut [u64; 79], time: i64, number: u32, size: u32)
    requires { Rates ws.old }
    ensures { ws.new ≡ put_rated ws.old time number size }
{
    let at = words::size(ws[50]);
    let count = words::size(ws[51]);
    let last = words::moment(ws[52], ws[53]);
    put_arrival(ws, at, count, last, time, size);
    put_link(ws, time, number);
}

// The window after a push, at a reading.
fn place(ws: &mut [u64; 79], window: Window, time: i64)
    ensures { ws.new ≡ put_placed ws.old window time }
{
    pack::put_window(ws, window);
    ws[0] = words::of_whole(time);
}

// A recovery or an append without gap asks for a light ACK. Of the history that moves one word, and all else none.
fn acknowledge(ws: &mut [u64; 79], y: History, lrsn: u32, recovered: bool) -> DataAnswer
    ensures { heard (Ok result) ws.new ≡ acked_in ws.old y lrsn recovered }
{
    match y.next_light_ack(lrsn) {
        Some(_) => {
            ws[78] = words::of_number(lrsn);
            DataAnswer::Light { lrsn, recovered }
        }
        None => DataAnswer::Got { lrsn, recovered },
    }
}

// A packet recovered.
fn recovered(ws: &mut [u64; 79], window: Window, lrsn: u32, time: i64) -> DataAnswer
    ensures { heard (Ok result) ws.new ≡ recovered_in ws.old window lrsn time }
{
    let y = unpack::history(ws);
    place(ws, window, time);
    acknowledge(ws, y, lrsn, true)
}

// The window's answer as the call's: a gap asks for no ACK. What a packet that is not the next one got, it recovered.
fn after_push(ws: &mut [u64; 79], pushed: Pushed, time: i64) -> DataAnswer
    ensures { heard (Ok result) ws.new ≡ after_other ws.old pushed.window pushed.answer time }
{
    match pushed.answer {
        PushAnswer::Got { lrsn, .. } => recovered(ws, pushed.window, lrsn, time),
        PushAnswer::Loss { first, last } => {
            place(ws, pushed.window, time);
            DataAnswer::Loss { first, last }
        }
    }
}

// The call, once nothing refuses it, of a packet that is not the next one. A refusal of the window leaves the words.
fn take_packet(
    ws: &mut [u64; 79],
    w: Window,
    slots: &mut [u64],
    bytes: &mut [u8],
    time: i64,
    p: Packet,
    payload: &[u8],
) -> Result<DataAnswer, Refusal>
    requires { TakeReady ws.old w slots.old bytes.old time p payload.now × (is_next w p.number ≡ false) }
    ensures { data_left result ws.new slots.new bytes.new ≡ taken_by ws.old w slots.old bytes.old time p payload.now }
{
    let pushed = window::push::push(w, slots, bytes, time, p, payload)?;
    Ok(after_push(ws, pushed, time))
}

// Whether a packet is the next expected one: by the distance, as the push tells it, so that the compiler sees that no
// other packet is appended without gap.
fn is_next(w: Window, number: u32) -> bool
    requires { w.held ≤ 8192 }
    ensures { result ≡ is_next w number }
{
    let next = window::number(w, w.held);
    numbers::seq::distance(number, next) == 0
}

// The words that its append moves besides the rates: what is held, lrsn and the latest reading.
fn put_next(ws: &mut [u64; 79], held: usize, lrsn: u32, time: i64)
    ensures { ws.new ≡ put_next ws.old held lrsn time }
{
    ws[3] = words::of_size(held);
    ws[5] = words::of_number(lrsn);
    ws[0] = words::of_whole(time);
}

// The words after it, and the answer.
fn keep_next(
    ws: &mut [u64; 79],
    held: usize,
    lrsn: u32,
    time: i64,
    number: u32,
    size: u32,
) -> DataAnswer
    requires { Rates ws.old }
    ensures { heard (Ok result) ws.new ≡ kept_next ws.old held lrsn time number size }
{
    rate(ws, time, number, size);
    put_next(ws, held, lrsn, time);
    acknowledge(ws, unpack::history(ws), lrsn, false)
}

// The packet that nearly every call brings: with room, it goes into its slot, and of the words only those are written
// that it moves.
fn take_next(
    ws: &mut [u64; 79],
    w: Window,
    slots: &mut [u64],
    bytes: &mut [u8],
    time: i64,
    p: Packet,
    payload: &[u8],
) -> Result<DataAnswer, Refusal>
    requires { TakeReady ws.old w slots.old bytes.old time p payload.now }
    ensures { data_left result ws.new slots.new bytes.new ≡ next_taken ws.old w slots.old bytes.old time p payload.now }
{
    if w.held == w.capacity {
        return Err(Refusal::BufferFull);
    }
    let lrsn = window::push::moved_past(w.lrsn, p.number);
    let s = slots::ring::slot(w.capacity, w.start, w.held);
    window::push::put_packet(slots, bytes, s, p, payload);
    Ok(keep_next(ws, w.held + 1, lrsn, time, p.number, payload.len() as u32))
}

// The same, as the head's call: what the type says of the words is needed for that.
fn take(
    ws: &mut [u64; 79],
    slots: &mut [u64],
    bytes: &mut [u8],
    time: i64,
    p: Packet,
    payload: &[u8],
) -> Result<DataAnswer, Refusal>
    requires { Pushing ws.old slots.old bytes.old time p payload.now }
    ensures { data_left result ws.new slots.new bytes.new ≡ data_taken ws.old slots.old bytes.old time p payload.now }
{
    sound::typed(ws);
    let w = unpack::window(ws);
    if is_next(w, p.number) {
        return take_next(ws, w, slots, bytes, time, p, payload);
    }
    take_packet(ws, w, slots, bytes, time, p, payload)
}

fn refusal(
    ws: &[u64; 79],
    slots: usize,
    bytes: usize,
    time: i64,
    p: Packet,
    size: usize,
) -> Result<(), Refusal>
    ensures { result ≡ push_refusal ws.now slots bytes time p size }
{
    let ok = sound::sound(ws);
    let capacity = words::size(ws[1]);
    let latest = words::whole(ws[0]);
    if crate::clear::areas_clear(ok, capacity, slots, bytes, time, latest)
        && crate::clear::packet_clear(p, size)
    {
        return Ok(());
    }
    head::gate::refuse_push(ok, capacity, slots, bytes, time, latest, p, size)
}

pub fn handle_data_packet(
    ws: &mut [u64; 79],
    slots: &mut [u64],
    bytes: &mut [u8],
    time: i64,
    p: Packet,
    payload: &[u8],
) -> Result<DataAnswer, Refusal>
    ensures { data_left result ws.new slots.new bytes.new ≡ data_in ws.old slots.old bytes.old time p payload.now }
{
    refusal(ws, slots.len(), bytes.len(), time, p, payload.len())?;
    take(ws, slots, bytes, time, p, payload)
}
