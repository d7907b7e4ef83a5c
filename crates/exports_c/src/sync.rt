// The clock call: 01, "Clock", with refusals 1, 3, 4 and 14.
ghost use Rattle.std.specs.Prelude.{◌≡◌, []};
ghost use Rattle.exports.specs.Calls.{left, clock_export_of};

#[unsafe(no_mangle)]
pub extern "C" fn pt_synchronize_clock(
    words: &mut [u64; 79],
    answer: &mut [i64; 10],
    time: i64,
    stamp: u32,
) -> u32
    ensures { left result words.new answer.new [] ≡ clock_export_of words.old time stamp }
{
    exports::sync::pt_synchronize_clock(words, answer, time, stamp)
}
