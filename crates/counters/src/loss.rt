// The loss report beside the counters, receiver/mod.rs `on_nak_event`: it counts nothing. 01, "Counters follow 003".
ghost use Rattle.std.specs.Prelude.{◌≡◌};
ghost use Rattle.feedback.specs.Loss.{loss_ended};
ghost use Rattle.counters.specs.Calls.{counted, loss_counted};

use crate::Counted;
use counts::Counters;
use feedback::loss::Reported;
use head::state::Head;

pub fn on_nak_event(
    c: Counters,
    h: Head,
    words: &mut [u64],
    list: &mut [u32],
    time: i64,
) -> Counted<Reported>
    ensures { counted (loss_ended result.left words.new list.new) result.counters ≡ loss_counted c h words.old list.old time }
{
    let reported = feedback::loss::on_nak_event(h, words, list, time);
    Counted {
        counters: c,
        left: reported,
    }
}
