// A data packet comes: 01, "Window", with refusals 1 to 10.
ghost use Rattle.std.specs.Prelude.{◌≡◌, [], ◌∷◌};
ghost use Rattle.receiver.specs.Data.{packet};
ghost use Rattle.exports.specs.Calls.{left, data_export_of};

use crate::keep::say;
use window::push::Packet;

pub fn pt_handle_data_packet(
    words: &mut [u64; 79],
    answer: &mut [i64; 10],
    slots: &mut [u64],
    payloads: &mut [u8],
    time: i64,
    number: u32,
    message: u32,
    location: u32,
    stamp: u32,
    payload: &[u8],
) -> u32
    ensures { left result words.new answer.new (slots.new ∷ payloads.new ∷ []) ≡ data_export_of words.old slots.old payloads.old time (packet number message location stamp) payload.now }
{
    let p = Packet {
        number,
        message,
        location,
        stamp,
    };
    let a = inplace::data::handle_data_packet(words, slots, payloads, time, p, payload);
    say(answer, a)
}
