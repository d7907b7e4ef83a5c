// The loss report: 01, "Window", with refusals 1 to 4 and 12.
ghost use Rattle.std.specs.Prelude.{◌≡◌, [], ◌∷◌};
ghost use Rattle.exports.specs.Calls.{left, loss_export_of};

#[unsafe(no_mangle)]
pub extern "C" fn pt_on_nak_event(
    words: &mut [u64; 79],
    answer: &mut [i64; 10],
    slots: &mut [u64],
    list: &mut [u32],
    time: i64,
) -> u32
    ensures { left result words.new answer.new (slots.new ∷ list.new ∷ []) ≡ loss_export_of words.old slots.old list.old time }
{
    exports::loss::pt_on_nak_event(words, answer, slots, list, time)
}
