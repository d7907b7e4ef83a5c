// The next message: 01, "Window", with refusals 1 to 4 and 11.
ghost use Rattle.std.specs.Prelude.{◌≡◌, [], ◌∷◌};
ghost use Rattle.exports.specs.Calls.{left, message_export_of};

use crate::keep::say;

pub fn pt_pop_next_message(
    words: &mut [u64; 79],
    answer: &mut [i64; 10],
    slots: &[u64],
    payloads: &[u8],
    output: &mut [u8],
    time: i64,
) -> u32
    ensures { left result words.new answer.new (output.new ∷ []) ≡ message_export_of words.old slots.now payloads.now output.old time }
{
    let a = inplace::message::pop_next_message(words, slots, payloads, output, time);
    say(answer, a)
}
