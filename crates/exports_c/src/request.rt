// The drop request, clear and room: 01, "Window".
ghost use Rattle.std.specs.Prelude.{◌≡◌, [], ◌∷◌};
ghost use Rattle.exports.specs.Calls.{left, clear_export_of, drop_export_of, room_export_of};

#[unsafe(no_mangle)]
pub extern "C" fn pt_handle_drop_request(
    words: &[u64; 79],
    answer: &mut [i64; 10],
    slots: &mut [u64],
    first: u32,
    last: u32,
) -> u32
    ensures { left result words.now answer.new (slots.new ∷ []) ≡ drop_export_of words.now slots.old first last }
{
    exports::request::pt_handle_drop_request(words, answer, slots, first, last)
}

#[unsafe(no_mangle)]
pub extern "C" fn pt_clear(words: &mut [u64; 79], answer: &mut [i64; 10]) -> u32
    ensures { left result words.new answer.new [] ≡ clear_export_of words.old }
{
    exports::request::pt_clear(words, answer)
}

#[unsafe(no_mangle)]
pub extern "C" fn pt_buffer_available(words: &[u64; 79], answer: &mut [i64; 10]) -> u32
    ensures { left result words.now answer.new [] ≡ room_export_of words.now }
{
    exports::request::pt_buffer_available(words, answer)
}
