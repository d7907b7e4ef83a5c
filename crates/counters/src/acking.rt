// Full ACKs and ACK2s with the counters, receiver/mod.rs `on_full_ack_event` and `handle_ack2_packet`: 01, "Counters
// follow 003".
ghost use Rattle.std.specs.Prelude.{◌≡◌};
ghost use Rattle.feedback.specs.Acking.{full_ack_ended, ack2_ended};
ghost use Rattle.counters.specs.Calls.{counted, full_ack_counted, ack2_counted};

use crate::Counted;
use counts::Counters;
use feedback::acking::{Ack2ed, FullAcked};
use head::state::Head;

pub fn handle_ack2_packet(
    c: Counters,
    h: Head,
    area: &[u64],
    time: i64,
    number: u32,
) -> Counted<Ack2ed>
    ensures { counted (ack2_ended result.left) result.counters ≡ ack2_counted c h area.now time number }
{
    let acked2 = feedback::acking::handle_ack2_packet(h, area, time, number);
    let counters = counts::after::after_ack2(c, acked2.answer);
    Counted {
        counters,
        left: acked2,
    }
}

// Counts nothing.
pub fn on_full_ack_event(c: Counters, h: Head, area: &mut [u64], time: i64) -> Counted<FullAcked>
    ensures { counted (full_ack_ended result.left area.new) result.counters ≡ full_ack_counted c h area.old time }
{
    let acked = feedback::acking::on_full_ack_event(h, area, time);
    Counted {
        counters: c,
        left: acked,
    }
}
