// The four calls that count, with the ten counters beside the head: 01, "Counters follow 003".
ghost use Rattle.std.specs.Prelude.{◌≡◌, [], ◌∷◌};
ghost use Rattle.receiver.specs.Data.{packet};
ghost use Rattle.exports.specs.Calls.{left, ack2_counted_of, clock_counted_of, data_counted_of, drop_counted_of};

#[unsafe(no_mangle)]
pub extern "C" fn pt_counted_handle_data_packet(
    words: &mut [u64; 79],
    counts: &mut [u64; 10],
    answer: &mut [i64; 10],
    slots: &mut [u64],
    payloads: &mut [u8],
    time: i64,
    number: u32,
    message: u32,
    location: u32,
    stamp: u32,
    payload: &[u8],
) -> u32
    ensures { left result words.new answer.new (counts.new ∷ slots.new ∷ payloads.new ∷ []) ≡ data_counted_of words.old counts.old slots.old payloads.old time (packet number message location stamp) payload.now }
{
    exports::counted::pt_counted_handle_data_packet(
        words, counts, answer, slots, payloads, time, number, message, location, stamp, payload,
    )
}

#[unsafe(no_mangle)]
pub extern "C" fn pt_counted_handle_ack2_packet(
    words: &mut [u64; 79],
    counts: &mut [u64; 10],
    answer: &mut [i64; 10],
    history: &[u64],
    time: i64,
    number: u32,
) -> u32
    ensures { left result words.new answer.new (counts.new ∷ []) ≡ ack2_counted_of words.old counts.old history.now time number }
{
    exports::counted::pt_counted_handle_ack2_packet(words, counts, answer, history, time, number)
}

#[unsafe(no_mangle)]
pub extern "C" fn pt_counted_handle_drop_request(
    words: &[u64; 79],
    counts: &mut [u64; 10],
    answer: &mut [i64; 10],
    slots: &mut [u64],
    first: u32,
    last: u32,
) -> u32
    ensures { left result words.now answer.new (counts.new ∷ slots.new ∷ []) ≡ drop_counted_of words.now counts.old slots.old first last }
{
    exports::counted::pt_counted_handle_drop_request(words, counts, answer, slots, first, last)
}

#[unsafe(no_mangle)]
pub extern "C" fn pt_counted_synchronize_clock(
    words: &mut [u64; 79],
    counts: &mut [u64; 10],
    answer: &mut [i64; 10],
    time: i64,
    stamp: u32,
) -> u32
    ensures { left result words.new answer.new (counts.new ∷ []) ≡ clock_counted_of words.old counts.old time stamp }
{
    exports::counted::pt_counted_synchronize_clock(words, counts, answer, time, stamp)
}
