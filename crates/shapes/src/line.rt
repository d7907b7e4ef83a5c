// Whole lines by their shape: the record's number, a word, and values. 01, "Trace, mark DLT".
ghost use Rattle.std.specs.Prelude.{[], ◌∷◌, map, ◌+◌, ◌*◌, ◌≤◌, length, take};
ghost use Rattle.head.specs.Paper.{plain};
ghost use Rattle.shapes.specs.Inner.{value_of};
ghost use Rattle.shapes.specs.Shapes.{line_of};
ghost use Rattle.shapes.specs.Ready.{LineRoom, Wrote};

use crate::part::{Value, open};
use crate::tail;

// A word and its values, of which no line of 01 has more than eight.
pub fn values(out: &mut [u8], at: usize, nth: u64, word: &[u8], list: &[Value]) -> usize
    requires room { LineRoom out.old at word.now }
    requires few { length list.now ≤ 8 }
    ensures { Wrote out.old at (line_of nth word.now (map value_of list.now)) 256 result out.new }
{
    let p = open(out, at, nth, word);
    tail::values(out, p, list)
}

// The words are a list and how many of it, as the line's definition takes them: `take n list`.
pub fn report(out: &mut [u8], at: usize, nth: u64, list: &[u32], n: usize) -> usize
    requires n_in_bounds { n ≤ length list.now }
    requires n_in_bounds_2 { at + (256 + 21 * n) ≤ length out.old }
    ensures { Wrote out.old at (line_of nth (114 ∷ 101 ∷ 112 ∷ 111 ∷ 114 ∷ 116 ∷ []) (map plain (take n list.now))) (256 + 21 * n) result out.new }
{
    let p = open(out, at, nth, b"report");
    tail::report(out, p, list, n)
}
