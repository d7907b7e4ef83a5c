// A drop request, buffer.rs `drop_packets`: 01, "Window".
ghost use Rattle.std.specs.Prelude.{◌≡◌, ◌+◌, ◌-◌, ◌*◌, ◌<◌, ◌≤◌, length};
ghost use Rattle.window.specs.Ready.{Ring, Good};
ghost use Rattle.window_report.specs.Drop.{drop_ended, give_up, sweep, end_in, drop_of};

use slots::entry::Entry;

// An end of the request as a place among the entries.
fn end_in(w: window::Window, number: u32) -> usize
    ensures { result ≡ end_in w number }
{
    let d = numbers::seq::saturating(number, w.seqno0) as usize;
    d.min(w.held)
}

// Gives up the entry in slot s if it is lost, and counts it, n being those before it.
fn give_up_one(words: &mut [u64], s: usize, n: usize) -> usize
    requires { (3 * s + 3 ≤ length words.old) × (n ≤ 8192) }
    ensures { drop_ended result words.new ≡ give_up s (drop_ended n words.old) }
{
    if slots::entry::is_lost(slots::entry::read_at(words, s)) {
        slots::entry::write_at(words, s, Entry::GivenUp);
        return n + 1;
    }
    n
}

// Gives up the lost entries from `from` to before `to`, and counts them.
fn give_up(words: &mut [u64], capacity: usize, start: usize, from: usize, to: usize) -> usize
    requires { Ring capacity start to words.old × (from ≤ to) }
    ensures { drop_ended result words.new ≡ sweep capacity start words.old from (to - from) }
{
    let mut n = 0;
    let mut s = slots::ring::slot(capacity, start, from);
    for _ in from..to {
        n = give_up_one(words, s, n);
        s = slots::ring::next_slot(capacity, s);
    }
    n
}

// The drop request, first to last: how many entries it gave up.
pub fn drop_packets(w: window::Window, words: &mut [u64], first: u32, last: u32) -> usize
    requires { Good w words.old }
    ensures { drop_ended result words.new ≡ drop_of w words.old first last }
{
    let from = end_in(w, first);
    let to = end_in(w, numbers::seq::sum(last, 1));
    if to <= from {
        return 0;
    }
    give_up(words, w.capacity, w.start, from, to)
}
