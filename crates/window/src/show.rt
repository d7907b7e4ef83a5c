// The payload of a held received entry, where it lies: 01, "Window".
ghost use Rattle.std.specs.Prelude.{◌≡◌, ◌+◌, ◌≤◌, length};
ghost use Rattle.window.specs.Ready.{Good, Bytes};
ghost use Rattle.window.specs.Show.{PartOf, ShownAt, shown_of};

use crate::Window;
use slots::entry::Entry;

// A part of the payload area.
#[derive(Clone, Copy, PartialEq, Eq, Debug)]
pub struct Part {
    pub at: usize,
    pub len: usize,
}

// The part of an area from `at` on.
pub fn part_at(area: &[u8], at: usize, len: usize) -> &[u8]
    requires { at + len ≤ length area.now }
    ensures { PartOf area.entry at len result }
{
    let end = at + len;
    &area[at..end]
}

// Where the payload of a number lies, if its entry is held and received: a payload may be empty.
pub fn find(w: Window, words: &[u64], number: u32) -> Option<Part>
    requires { Good w words.now }
    ensures { result ≡ shown_of w words.now number }
{
    let i = numbers::seq::distance(number, w.seqno0) as usize;
    if w.held <= i {
        return None;
    }
    let s = slots::ring::slot(w.capacity, w.start, i);
    let e = slots::entry::read_at(words, s);
    match e {
        Entry::Received { length, .. } => Some(Part {
            at: 1456 * s,
            len: length,
        }),
        _ => None,
    }
}

// The payload of a number, or an empty part.
pub fn show<'a>(w: Window, words: &[u64], bytes: &'a [u8], number: u32) -> &'a [u8]
    requires { Good w words.now × Bytes w bytes.now }
    ensures { ShownAt (shown_of w words.now number) bytes.entry result }
{
    match find(w, words, number) {
        Some(p) => part_at(bytes, p.at, p.len),
        None => part_at(bytes, 0, 0),
    }
}
