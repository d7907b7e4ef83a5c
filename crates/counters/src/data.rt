// A data packet with its counters, receiver/mod.rs `handle_data_packet`: 01, "Counters follow 003", "7 to 10 still
// count in the counters".
ghost use Rattle.std.specs.Prelude.{◌≡◌};
ghost use Rattle.receiver.specs.Data.{data_ended};
ghost use Rattle.counters.specs.Calls.{counted, data_counted};

use crate::Counted;
use counts::Counters;
use head::state::Head;
use receiver::data::Handled;
use window::push::Packet;

pub fn handle_data_packet(
    c: Counters,
    h: Head,
    words: &mut [u64],
    bytes: &mut [u8],
    time: i64,
    p: Packet,
    payload: &[u8],
) -> Counted<Handled>
    ensures { counted (data_ended result.left words.new bytes.new) result.counters ≡ data_counted c h words.old bytes.old time p payload.now }
{
    let handled = receiver::data::handle_data_packet(h, words, bytes, time, p, payload);
    let counters = counts::after::after_data(c, payload.len(), handled.answer);
    Counted {
        counters,
        left: handled,
    }
}
