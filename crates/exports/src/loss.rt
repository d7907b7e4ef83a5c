// The loss report: 01, "Window", with refusals 1 to 4 and 12.
ghost use Rattle.std.specs.Prelude.{◌≡◌, [], ◌∷◌};
ghost use Rattle.exports.specs.Calls.{left, loss_export_of};

use crate::keep::keep;

pub fn pt_on_nak_event(
    words: &mut [u64; 79],
    answer: &mut [i64; 10],
    slots: &mut [u64],
    list: &mut [u32],
    time: i64,
) -> u32
    ensures { left result words.new answer.new (slots.new ∷ list.new ∷ []) ≡ loss_export_of words.old slots.old list.old time }
{
    let h = packing::unpack::unpack(words);
    let r = feedback::loss::on_nak_event(h, slots, list, time);
    keep(words, answer, r.head, r.answer)
}
