// The drop request, clear and room: 01, "Window", with refusals 1, 2 and 5; 1; and 1. A drop request and the question
// of room have no head to write.
ghost use Rattle.std.specs.Prelude.{◌≡◌, [], ◌∷◌};
ghost use Rattle.exports.specs.Calls.{left, clear_export_of, drop_export_of, room_export_of};

use crate::keep::{keep, say};
use cells::{Gone, Room};

pub fn pt_handle_drop_request(
    words: &[u64; 79],
    answer: &mut [i64; 10],
    slots: &mut [u64],
    first: u32,
    last: u32,
) -> u32
    ensures { left result words.now answer.new (slots.new ∷ []) ≡ drop_export_of words.now slots.old first last }
{
    let h = packing::unpack::unpack(words);
    let a = upkeep::request::handle_drop_request(h, slots, first, last);
    say(answer, a.map(Gone))
}

pub fn pt_clear(words: &mut [u64; 79], answer: &mut [i64; 10]) -> u32
    ensures { left result words.new answer.new [] ≡ clear_export_of words.old }
{
    let h = packing::unpack::unpack(words);
    let r = upkeep::request::clear(h);
    keep(words, answer, r.head, r.answer)
}

pub fn pt_buffer_available(words: &[u64; 79], answer: &mut [i64; 10]) -> u32
    ensures { left result words.now answer.new [] ≡ room_export_of words.now }
{
    let h = packing::unpack::unpack(words);
    let a = upkeep::request::buffer_available(h);
    say(answer, a.map(Room))
}
