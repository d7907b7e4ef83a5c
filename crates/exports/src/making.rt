// A fresh receiver: 01, refusal 15.
ghost use Rattle.std.specs.Prelude.{◌≡◌, []};
ghost use Rattle.exports.specs.Calls.{left, new_of};

use crate::keep::keep;
use head::state::Head;

pub fn pt_new(
    words: &mut [u64; 79],
    answer: &mut [i64; 10],
    start: i64,
    latency: u32,
    dropping: bool,
    first: u32,
    capacity: usize,
) -> u32
    ensures { left result words.new answer.new [] ≡ new_of words.old start latency dropping first capacity }
{
    let made = Head::new(start, latency, dropping, first, capacity);
    keep(words, answer, made.unwrap_or(Head::nowhere()), made)
}
