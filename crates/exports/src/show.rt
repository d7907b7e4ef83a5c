// Where a payload lies: 01, "Window", with refusals 1, 2 and 5. C has the payload area, so the answer is an offset and
// a length.
ghost use Rattle.std.specs.Prelude.{◌≡◌, []};
ghost use Rattle.exports.specs.Calls.{left, show_export_of};

use crate::keep::say;

pub fn pt_show(
    words: &[u64; 79],
    answer: &mut [i64; 10],
    slots: &[u64],
    payloads: &[u8],
    number: u32,
) -> u32
    ensures { left result words.now answer.new [] ≡ show_export_of words.now slots.now payloads.now number }
{
    let h = packing::unpack::unpack(words);
    let a = upkeep::show::shown(h, slots, payloads, number);
    let p = upkeep::show::place_in(h, slots, payloads.len(), number);
    say(answer, a.and(Ok(p)))
}
