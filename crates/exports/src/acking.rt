// Full ACKs and ACK2s: 01, "ACKs, RTT, rates", with refusals 1 to 4 and 13.
ghost use Rattle.std.specs.Prelude.{◌≡◌, [], ◌∷◌};
ghost use Rattle.exports.specs.Calls.{left, ack2_export_of, full_ack_export_of};

use crate::keep::keep;

pub fn pt_on_full_ack_event(
    words: &mut [u64; 79],
    answer: &mut [i64; 10],
    history: &mut [u64],
    time: i64,
) -> u32
    ensures { left result words.new answer.new (history.new ∷ []) ≡ full_ack_export_of words.old history.old time }
{
    let h = packing::unpack::unpack(words);
    let r = feedback::acking::on_full_ack_event(h, history, time);
    keep(words, answer, r.head, r.answer)
}

pub fn pt_handle_ack2_packet(
    words: &mut [u64; 79],
    answer: &mut [i64; 10],
    history: &[u64],
    time: i64,
    number: u32,
) -> u32
    ensures { left result words.new answer.new [] ≡ ack2_export_of words.old history.now time number }
{
    let h = packing::unpack::unpack(words);
    let r = feedback::acking::handle_ack2_packet(h, history, time, number);
    keep(words, answer, r.head, r.answer)
}
