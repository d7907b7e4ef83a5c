// A fresh receiver: 01, refusal 15.
ghost use Rattle.std.specs.Prelude.{◌≡◌, []};
ghost use Rattle.exports.specs.Calls.{left, new_of};

#[unsafe(no_mangle)]
pub extern "C" fn pt_new(
    words: &mut [u64; 79],
    answer: &mut [i64; 10],
    start: i64,
    latency: u32,
    dropping: bool,
    first: u32,
    capacity: usize,
) -> u32
    ensures { left result words.new answer.new [] ≡ new_of words.old start latency dropping first capacity }
{
    exports::making::pt_new(words, answer, start, latency, dropping, first, capacity)
}
