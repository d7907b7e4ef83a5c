// The clock call: 01, "Clock", with refusals 1, 3, 4 and 14.
ghost use Rattle.std.specs.Prelude.{◌≡◌, []};
ghost use Rattle.exports.specs.Calls.{left, clock_export_of};

use crate::keep::keep;

pub fn pt_synchronize_clock(
    words: &mut [u64; 79],
    answer: &mut [i64; 10],
    time: i64,
    stamp: u32,
) -> u32
    ensures { left result words.new answer.new [] ≡ clock_export_of words.old time stamp }
{
    let h = packing::unpack::unpack(words);
    let r = feedback::sync::synchronize_clock(h, time, stamp);
    keep(words, answer, r.head, r.answer)
}
