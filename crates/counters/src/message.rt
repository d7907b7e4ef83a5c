// The pop beside the counters: messages and late discards count nothing. 01, "Counters follow 003".
ghost use Rattle.std.specs.Prelude.{◌≡◌};
ghost use Rattle.receiver.specs.Message.{message_ended};
ghost use Rattle.counters.specs.Calls.{counted, message_counted};

use crate::Counted;
use counts::Counters;
use head::state::Head;
use receiver::message::Given;

pub fn pop_next_message(
    c: Counters,
    h: Head,
    words: &[u64],
    bytes: &[u8],
    out: &mut [u8],
    time: i64,
) -> Counted<Given>
    ensures { counted (message_ended result.left out.new) result.counters ≡ message_counted c h words.now bytes.now out.old time }
{
    let given = receiver::message::pop_next_message(h, words, bytes, out, time);
    Counted {
        counters: c,
        left: given,
    }
}
