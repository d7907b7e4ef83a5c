// Where a payload lies: 01, "Window".
ghost use Rattle.std.specs.Prelude.{◌≡◌, []};
ghost use Rattle.exports.specs.Calls.{left, show_export_of};

#[unsafe(no_mangle)]
pub extern "C" fn pt_show(
    words: &[u64; 79],
    answer: &mut [i64; 10],
    slots: &[u64],
    payloads: &[u8],
    number: u32,
) -> u32
    ensures { left result words.now answer.new [] ≡ show_export_of words.now slots.now payloads.now number }
{
    exports::show::pt_show(words, answer, slots, payloads, number)
}
