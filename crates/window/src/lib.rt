// The window over lent areas, buffer.rs: 01, "Window". The numbers of the window are a value, its entries lie in lent
// words and bytes. The areas come one by one, here and above: in a contract a struct of lent slices is read as nested
// pairs (a.exit.0.now), and C lends them so. What is required of them (Ring, Good, Bytes) is no type's invariant: they
// are the caller's, and each call tests them anew. A walk takes the ring apart, capacity, start and how far: some walk
// to another end than held.
#![tactic(auto)]

pub mod push;
pub mod show;

ghost use Rattle.std.specs.Prelude.{◌≡◌, ◌-◌, ◌<◌, ◌≤◌};
ghost use Rattle.window.specs.Window.{window_ok, number_in, first_gap, lrsn_from, cut, room_of};
ghost use Rattle.window.specs.Ready.{Ring, Good};

// Entry i, under held, has the number seqno0 + i and lies in slot (start + i) mod capacity.
#[derive(Clone, Copy, PartialEq, Eq, Debug)]
pub struct Window {
    pub capacity: usize,
    pub start: usize,
    pub held: usize,
    pub seqno0: u32,
    pub lrsn: u32,
}

impl Window {
    // `&` on purpose: each call pays for this test, and so it has no branches.
    pub fn in_range(self) -> bool
        ensures { result ≡ window_ok self }
    {
        (1 <= self.capacity)
            & (self.capacity <= 8192)
            & (self.start < self.capacity)
            & (self.held <= self.capacity)
            & (self.seqno0 < 0x8000_0000)
            & (self.lrsn < 0x8000_0000)
    }
}

// The number of entry i, or the next expected one at i = held.
pub fn number(w: Window, i: usize) -> u32
    requires { i ≤ 8192 }
    ensures { result ≡ number_in w i }
{
    numbers::seq::sum(w.seqno0, i as u32)
}

// Of the entries from `from` on, the first that is not received, else held.
fn first_gap(words: &[u64], capacity: usize, start: usize, from: usize, held: usize) -> usize
    requires { Ring capacity start held words.now × (from ≤ held) }
    ensures { result ≡ first_gap capacity start words.now from (held - from) }
{
    let mut s = slots::ring::slot(capacity, start, from);
    for i in from..held {
        if !slots::entry::is_received(slots::entry::read_at(words, s)) {
            return i;
        }
        s = slots::ring::next_slot(capacity, s);
    }
    held
}

// lrsn, searched from entry `from` on.
pub fn search_lrsn(w: Window, words: &[u64], from: usize) -> u32
    requires { Good w words.now × (from ≤ w.held) }
    ensures { result ≡ lrsn_from w words.now from }
{
    number(w, first_gap(words, w.capacity, w.start, from, w.held))
}

// The window after its first n entries left the front.
pub fn cut_front(w: Window, n: usize) -> Window
    requires { (w.start < w.capacity) × (w.capacity ≤ 8192) × (w.held ≤ w.capacity) × (n ≤ w.held) }
    ensures { result ≡ cut w n }
{
    Window {
        start: slots::ring::slot(w.capacity, w.start, n),
        held: w.held - n,
        seqno0: number(w, n),
        ..w
    }
}

pub fn room(w: Window) -> usize
    requires { w.held ≤ w.capacity }
    ensures { result ≡ room_of w }
{
    w.capacity - w.held
}
