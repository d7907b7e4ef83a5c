// The four calls that count, with the ten counters beside the head: 01, "Counters follow 003". Refusals 7 to 10 still
// count.
ghost use Rattle.std.specs.Prelude.{◌≡◌, [], ◌∷◌};
ghost use Rattle.receiver.specs.Data.{packet};
ghost use Rattle.exports.specs.Calls.{left, ack2_counted_of, clock_counted_of, data_counted_of, drop_counted_of};

use crate::keep::{keep, say};
use cells::Gone;
use window::push::Packet;

pub fn pt_counted_handle_data_packet(
    words: &mut [u64; 79],
    counts: &mut [u64; 10],
    answer: &mut [i64; 10],
    slots: &mut [u64],
    payloads: &mut [u8],
    time: i64,
    number: u32,
    message: u32,
    location: u32,
    stamp: u32,
    payload: &[u8],
) -> u32
    ensures { left result words.new answer.new (counts.new ∷ slots.new ∷ payloads.new ∷ []) ≡ data_counted_of words.old counts.old slots.old payloads.old time (packet number message location stamp) payload.now }
{
    let c = packing::tally::counters(counts);
    let p = Packet {
        number,
        message,
        location,
        stamp,
    };
    let a = inplace::data::handle_data_packet(words, slots, payloads, time, p, payload);
    *counts = packing::tally::of_counters(counts::after::after_data(c, payload.len(), a));
    say(answer, a)
}

pub fn pt_counted_handle_ack2_packet(
    words: &mut [u64; 79],
    counts: &mut [u64; 10],
    answer: &mut [i64; 10],
    history: &[u64],
    time: i64,
    number: u32,
) -> u32
    ensures { left result words.new answer.new (counts.new ∷ []) ≡ ack2_counted_of words.old counts.old history.now time number }
{
    let h = packing::unpack::unpack(words);
    let c = packing::tally::counters(counts);
    let r = counters::acking::handle_ack2_packet(c, h, history, time, number);
    *counts = packing::tally::of_counters(r.counters);
    keep(words, answer, r.left.head, r.left.answer)
}

pub fn pt_counted_handle_drop_request(
    words: &[u64; 79],
    counts: &mut [u64; 10],
    answer: &mut [i64; 10],
    slots: &mut [u64],
    first: u32,
    last: u32,
) -> u32
    ensures { left result words.now answer.new (counts.new ∷ slots.new ∷ []) ≡ drop_counted_of words.now counts.old slots.old first last }
{
    let h = packing::unpack::unpack(words);
    let c = packing::tally::counters(counts);
    let r = counters::request::handle_drop_request(c, h, slots, first, last);
    *counts = packing::tally::of_counters(r.counters);
    say(answer, r.left.map(Gone))
}

pub fn pt_counted_synchronize_clock(
    words: &mut [u64; 79],
    counts: &mut [u64; 10],
    answer: &mut [i64; 10],
    time: i64,
    stamp: u32,
) -> u32
    ensures { left result words.new answer.new (counts.new ∷ []) ≡ clock_counted_of words.old counts.old time stamp }
{
    let h = packing::unpack::unpack(words);
    let c = packing::tally::counters(counts);
    let r = counters::sync::synchronize_clock(c, h, time, stamp);
    *counts = packing::tally::of_counters(r.counters);
    keep(words, answer, r.left.head, r.left.answer)
}
