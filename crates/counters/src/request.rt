// The drop request with its counters, receiver/mod.rs `handle_drop_request`, and clear and room, which count nothing:
// 01, "Counters follow 003".
ghost use Rattle.std.specs.Prelude.{◌≡◌};
ghost use Rattle.upkeep.specs.Request.{drop_ended, clear_ended, room_ended, room_call_of};
ghost use Rattle.counters.specs.Calls.{counted, drop_counted, clear_counted};

use crate::Counted;
use counts::Counters;
use head::refusal::Refusal;
use head::state::Head;
use upkeep::request::Cleared;

pub fn handle_drop_request(
    c: Counters,
    h: Head,
    words: &mut [u64],
    first: u32,
    last: u32,
) -> Counted<Result<usize, Refusal>>
    ensures { counted (drop_ended result.left words.new) result.counters ≡ drop_counted c h words.old first last }
{
    let answer = upkeep::request::handle_drop_request(h, words, first, last);
    let counters = counts::after::after_drop(c, answer);
    Counted {
        counters,
        left: answer,
    }
}

pub fn clear(c: Counters, h: Head) -> Counted<Cleared>
    ensures { counted (clear_ended result.left) result.counters ≡ clear_counted c h }
{
    let cleared = upkeep::request::clear(h);
    Counted {
        counters: c,
        left: cleared,
    }
}

// A question: it leaves head and counters to its caller.
pub fn buffer_available(h: Head) -> Result<usize, Refusal>
    ensures { room_ended result ≡ room_call_of h }
{
    upkeep::request::buffer_available(h)
}
